//! What the lines of a book act on: what a pull has outside, and a logger's calls over the disk that it leaves.
use crate::runs::run;
use case_book::{Answer, Kept, Line, Subject, Words};
use case_logger::Logging;
use case_outside::{Given, Outside, prepare_input};
use pcp_base::NoMemory;
use std::alloc::Global;

/// What one case has: its outside, the calls of the next run's sink of requests that fail, and a logger.
#[derive(Drop)]
pub struct Scene {
    outside: Outside,
    request_fails: Vec<u64>,
    logging: Logging,
}

impl Scene {
    pub fn new(alloc: Global) -> Scene {
        Scene {
            outside: Outside::new(alloc),
            request_fails: Vec::new(alloc),
            logging: Logging::new(alloc),
        }
    }

    // `fail request N`: that call of the next run's sink of requests fails. `fail source N`, `fail sink N` and `fail disk N`: of the
    // outside. `pieces N`: the next run's source and sinks move at most N bytes a call. `slow`: one.
    fn prepare(&mut self, line: Line<'_>) -> Result<bool, NoMemory> {
        let mut words = Words::of(line.rest);
        match (line.word, words.next()) {
            ("pieces", most) => Ok(set_most(&mut self.outside.given, most)),
            ("fail", "request") => match words.wide() {
                Some(number) => {
                    self.request_fails.push(number)?;
                    Ok(true)
                }
                None => Ok(false),
            },
            _ => self.outside.prepare_failure(line),
        }
    }

    // `run WORDS`: what fails is given to this run alone.
    fn run(&mut self, alloc: Global, answer: &mut Answer, rest: &str) -> Result<bool, NoMemory> {
        let done = run(alloc, &mut self.outside, &self.request_fails, answer, rest)?;
        self.outside.given = Given::new(alloc);
        self.request_fails.clear();
        Ok(done)
    }
}

fn set_most(given: &mut Given, most: &str) -> bool {
    match most.parse::<usize>() {
        Ok(most) => {
            given.most = most;
            true
        }
        Err(_) => false,
    }
}

// `requests LITERAL`: a front of what was asked and no line before has asked for.
fn ask_requests(
    alloc: Global,
    kept: &Kept,
    answer: &mut Answer,
    literal: &str,
) -> Result<bool, NoMemory> {
    match kept.read(alloc, literal)? {
        Some(wanted) => answer.ask("requests", &wanted),
        None => Ok(false),
    }
}

impl Subject for Scene {
    fn begin(&mut self, alloc: Global) -> Result<(), NoMemory> {
        *self = Scene::new(alloc);
        Ok(())
    }

    fn step(
        &mut self,
        alloc: Global,
        kept: &Kept,
        answer: &mut Answer,
        line: Line<'_>,
    ) -> Result<bool, NoMemory> {
        let rest = line.rest;
        let drive = &mut self.outside.drive;
        match line.word {
            "input" | "more" | "set" | "cut" => {
                prepare_input(alloc, kept, &mut self.outside.input, line)
            }
            "fail" | "slow" | "pieces" => self.prepare(line),
            "before" | "plan" | "wrap" | "restart" | "crash" => drive.prepare(alloc, kept, line),
            "run" => self.run(alloc, answer, rest),
            "requests" => ask_requests(alloc, kept, answer, rest),
            "turns" => answer.ask("turns", rest.as_bytes()),
            "file" | "files" => drive.look(alloc, kept, answer, line),
            "logger" => self.logging.call(alloc, drive, answer, rest),
            _ => Ok(false),
        }
    }
}
