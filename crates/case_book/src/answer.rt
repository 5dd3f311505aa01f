//! What came of what a line did, part by part, and what the lines after it have asked for.
use crate::literals::write_text;
use pcp_base::NoMemory;
use std::alloc::Global;

// One thing that came, and how much of it was asked for.
#[derive(Drop)]
struct Part {
    name: String,
    bytes: Vec<u8>,
    asked: usize,
    seen: bool,
}

/// What came, in parts with names, as `status`, `out` or the name of a file. Each part is to be asked for.
#[derive(Drop)]
pub struct Answer {
    alloc: Global,
    parts: Vec<Part>,
    report: String,
    compared: bool,
}

// Where two lists first differ.
fn first_difference(a: &[u8], b: &[u8]) -> usize {
    let mut at = 0usize;
    for (x, y) in a.iter().zip(b) {
        if *x != *y {
            break;
        }
        at = at.saturating_add(1);
    }
    at
}

// Adds the bytes from an offset on, at most 100 of them.
fn tell(report: &mut String, title: &str, bytes: &[u8], from: usize) -> Result<(), NoMemory> {
    let length = bytes.len();
    let rest = bytes.get(from..).unwrap_or(&[]);
    let piece = rest.get(..100).unwrap_or(rest);
    write!(report, "  {title} {length} bytes, from {from} on: ")?;
    write_text(report, piece)?;
    report.push('\n')?;
    Ok(())
}

impl Answer {
    pub(crate) fn new(alloc: Global) -> Answer {
        Answer {
            alloc,
            parts: Vec::new(alloc),
            report: String::new(alloc),
            compared: false,
        }
    }

    /// A part that came, and is to be asked for.
    pub fn put(&mut self, name: &str, bytes: &[u8]) -> Result<(), NoMemory> {
        self.parts.push(Part {
            name: String::from_str(self.alloc, name)?,
            bytes: bytes.to_vec(self.alloc)?,
            asked: 0,
            seen: false,
        })?;
        Ok(())
    }

    /// The part that came under a name.
    pub fn get(&self, name: &str) -> Option<&[u8]> {
        for part in &self.parts {
            if part.name.as_str() == name {
                return Some(part.bytes.as_slice());
            }
        }
        None
    }

    /// Compares, and notes a difference for the report.
    pub fn compare(&mut self, wanted: &[u8], came: &[u8]) -> Result<bool, NoMemory> {
        self.compared = true;
        if wanted == came {
            return Ok(true);
        }
        let from = first_difference(wanted, came);
        tell(&mut self.report, "wanted", wanted, from)?;
        tell(&mut self.report, "came", came, from)?;
        Ok(false)
    }

    // The front of what is left of a part, at most so many bytes.
    fn left_of(&self, name: &str, length: usize) -> &[u8] {
        for part in &self.parts {
            if part.name.as_str() == name {
                let rest = part.bytes.get(part.asked..).unwrap_or(&[]);
                return rest.get(..length).unwrap_or(rest);
            }
        }
        &[]
    }

    /// Asks for the front of what is left of a part.
    pub fn ask(&mut self, name: &str, wanted: &[u8]) -> Result<bool, NoMemory> {
        let front = self.left_of(name, wanted.len()).to_vec(self.alloc)?;
        for part in self.parts.iter_mut() {
            if part.name.as_str() == name {
                part.asked = part.asked.saturating_add(wanted.len());
                part.seen = true;
            }
        }
        self.compare(wanted, &front)
    }

    /// Takes a part as asked for, whole.
    pub fn mark(&mut self, name: &str) {
        for part in self.parts.iter_mut() {
            if part.name.as_str() == name {
                part.asked = part.bytes.len();
                part.seen = true;
            }
        }
    }

    /// Forgets what came, for the next. False where no line has asked for some of it.
    pub fn renew(&mut self) -> Result<bool, NoMemory> {
        let mut all = true;
        for part in &self.parts {
            if !part.seen || part.asked < part.bytes.len() {
                all = false;
                let name = part.name.as_str();
                write!(&mut self.report, "  no line asks for this of {name}\n")?;
                tell(&mut self.report, "came", &part.bytes, part.asked)?;
            }
        }
        self.parts.clear();
        Ok(all)
    }

    // Whether anything was compared since the last call.
    pub(crate) fn take_compared(&mut self) -> bool {
        std::mem::replace(&mut self.compared, false)
    }

    // What was noted of a difference; it is forgotten.
    pub(crate) fn take_report(&mut self) -> String {
        std::mem::replace(&mut self.report, String::new(self.alloc))
    }
}
