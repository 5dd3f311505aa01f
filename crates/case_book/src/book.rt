//! A book of cases, run line by line.
use crate::answer::Answer;
use crate::kept::{Kept, read_line};
use crate::lines::{Line, Row, rows_of};
use pcp_base::NoMemory;
use std::alloc::Global;

/// What the lines of a book act on.
pub trait Subject {
    /// Stands as new, for the next case.
    fn begin(&mut self, alloc: Global) -> Result<(), NoMemory>;

    /// Does a line, and puts what comes of it into the answer. False where the line doesn't hold or is none.
    fn step(
        &mut self,
        alloc: Global,
        kept: &Kept,
        answer: &mut Answer,
        line: Line<'_>,
    ) -> Result<bool, NoMemory>;
}

/// How many cases there were, and how many of them differ.
#[derive(Clone, Copy)]
pub struct Count {
    pub cases: u64,
    pub differ: u64,
}

// The case that is run.
#[derive(Drop)]
struct Current {
    name: String,
    open: bool,
    differs: bool,
}

/// Runs books, one after another, and reports what differs.
#[derive(Drop)]
pub struct Book {
    kept: Kept,
    answer: Answer,
    current: Current,
    count: Count,
    report: String,
}

impl Book {
    /// No file lies beside it.
    pub fn new(alloc: Global) -> Book {
        Book {
            kept: Kept::new(alloc),
            answer: Answer::new(alloc),
            current: Current {
                name: String::new(alloc),
                open: false,
                differs: false,
            },
            count: Count {
                cases: 0,
                differ: 0,
            },
            report: String::new(alloc),
        }
    }

    /// Lays a file beside the books.
    pub fn add_file(&mut self, alloc: Global, name: &str, bytes: Vec<u8>) -> Result<(), NoMemory> {
        self.kept.add_file(alloc, name, bytes)
    }

    /// What differs in the book that was run last.
    pub fn report(&self) -> &str {
        self.report.as_str()
    }

    // Notes that the current case differs here.
    fn differ(&mut self, place: &str) -> Result<(), NoMemory> {
        let told = self.answer.take_report();
        let name = self.current.name.as_str();
        write!(&mut self.report, "{name}: {place}\n")?;
        self.report.push_str(&told)?;
        if !self.current.differs {
            self.count.differ = self.count.differ.saturating_add(1);
        }
        self.current.differs = true;
        Ok(())
    }

    fn end_case(&mut self) -> Result<(), NoMemory> {
        let all = self.answer.renew()?;
        let compared = self.answer.take_compared();
        if self.current.open && !self.current.differs && !(all && compared) {
            self.differ("what came isn't all asked for, or nothing is")?;
        }
        let _told = self.answer.take_report();
        self.current.open = false;
        Ok(())
    }

    fn begin_case(&mut self, alloc: Global, name: &str) -> Result<(), NoMemory> {
        self.current = Current {
            name: String::from_str(alloc, name)?,
            open: true,
            differs: false,
        };
        self.count.cases = self.count.cases.saturating_add(1);
        Ok(())
    }

    // The bytes that a line `keep` names: a literal, or a part of what came.
    fn kept_bytes(&self, alloc: Global, literal: &str) -> Result<Option<Vec<u8>>, NoMemory> {
        let Some(part) = literal.strip_prefix("came ") else {
            return self.kept.read(alloc, literal);
        };
        match self.answer.get(part) {
            Some(bytes) => Ok(Some(bytes.to_vec(alloc)?)),
            None => Ok(None),
        }
    }

    fn keep(&mut self, alloc: Global, line: Line<'_>) -> Result<bool, NoMemory> {
        let (name, literal) = line.rest.split_once(' ').unwrap_or((line.rest, ""));
        match self.kept_bytes(alloc, literal)? {
            Some(bytes) => self.kept.keep(alloc, name, bytes),
            None => Ok(false),
        }
    }

    // Asks for a front of the output: a literal, or a text with a line feed behind it.
    fn ask_out(&mut self, alloc: Global, rest: &str) -> Result<bool, NoMemory> {
        let wanted = match Line::of(rest).word {
            "hex" | "text" | "kept" | "beside" | "empty" => self.kept.read(alloc, rest)?,
            _ => read_line(alloc, rest)?,
        };
        match wanted {
            Some(bytes) => self.answer.ask("out", &bytes),
            None => Ok(false),
        }
    }

    fn step<S: Subject>(
        &mut self,
        alloc: Global,
        subject: &mut S,
        line: Line<'_>,
    ) -> Result<bool, NoMemory> {
        match line.word {
            "keep" => self.keep(alloc, line),
            "status" => self.answer.ask("status", line.rest.as_bytes()),
            "out" => self.ask_out(alloc, line.rest),
            _ if self.current.open => subject.step(alloc, &self.kept, &mut self.answer, line),
            _ => Ok(false),
        }
    }

    // Runs one line. Once a case differs, its further lines are left out.
    fn run_row<S: Subject>(
        &mut self,
        alloc: Global,
        subject: &mut S,
        row: &Row,
    ) -> Result<(), NoMemory> {
        let line = Line::of(row.text.as_str());
        match line.word {
            "##" => Ok(()),
            "#" => {
                self.end_case()?;
                subject.begin(alloc)?;
                self.begin_case(alloc, line.rest)
            }
            _ if self.current.differs => Ok(()),
            _ => {
                if self.step(alloc, subject, line)? {
                    return Ok(());
                }
                let number = row.number;
                let text = row.text.as_str();
                let shown = text.get(..100).unwrap_or(text);
                let place = format!(in alloc; "line {number}: {shown}")?;
                self.differ(&place)
            }
        }
    }

    /// Runs the cases of a book. `# NAME` begins a case, `## ..` is a remark.
    pub fn run<S: Subject>(
        &mut self,
        alloc: Global,
        subject: &mut S,
        text: &str,
    ) -> Result<Count, NoMemory> {
        self.kept.forget();
        self.report = String::new(alloc);
        self.begin_case(alloc, "before the first case")?;
        self.current.open = false;
        self.count = Count {
            cases: 0,
            differ: 0,
        };
        for row in &rows_of(alloc, text)? {
            self.run_row(alloc, subject, row)?;
        }
        self.end_case()?;
        Ok(self.count)
    }
}
