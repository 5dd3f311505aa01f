//! What a session of a case is given besides its input.
use case_book::{Kept, Line, Words};
use pcp_base::{NoMemory, Stamp};
use std::alloc::Global;

/// The text of a script, whose regions are served; the place, in ascending cluster, of the region that is in change meanwhile, to the
/// script's last image; the moments of the clock; and the calls that fail, by their numbers.
#[derive(Drop)]
pub struct Given {
    pub script: Vec<u8>,
    pub changed: Option<u32>,
    pub moments: Vec<Stamp>,
    pub source_fails: Vec<u64>,
    pub sink_fails: Vec<u64>,
    pub clock_fails: Vec<u64>,
}

impl Given {
    pub fn new(alloc: Global) -> Given {
        Given {
            script: Vec::new(alloc),
            changed: None,
            moments: Vec::new(alloc),
            source_fails: Vec::new(alloc),
            sink_fails: Vec::new(alloc),
            clock_fails: Vec::new(alloc),
        }
    }

    // `moment SEC USEC`
    fn add_moment(&mut self, mut words: Words<'_>) -> Result<bool, NoMemory> {
        let Some(stamp) = words.stamp() else {
            return Ok(false);
        };
        self.moments.push(stamp)?;
        Ok(true)
    }

    // `fail source N`, `fail sink N` and `fail clock N`
    fn add_fail(&mut self, mut words: Words<'_>) -> Result<bool, NoMemory> {
        let object = words.next();
        let Some(number) = words.wide() else {
            return Ok(false);
        };
        match object {
            "source" => self.source_fails.push(number)?,
            "sink" => self.sink_fails.push(number)?,
            "clock" => self.clock_fails.push(number)?,
            _ => return Ok(false),
        }
        Ok(true)
    }

    // `change N`: the region at a place, from 0 on.
    fn set_changed(&mut self, mut words: Words<'_>) -> Result<bool, NoMemory> {
        self.changed = words.number();
        Ok(self.changed.is_some())
    }

    // `serve LITERAL`
    fn set_script(&mut self, alloc: Global, kept: &Kept, rest: &str) -> Result<bool, NoMemory> {
        match kept.read(alloc, rest)? {
            Some(script) => {
                self.script = script;
                Ok(true)
            }
            None => Ok(false),
        }
    }

    /// Takes a line that prepares a session. False where it is none.
    pub fn prepare(
        &mut self,
        alloc: Global,
        kept: &Kept,
        line: Line<'_>,
    ) -> Result<bool, NoMemory> {
        match line.word {
            "serve" => self.set_script(alloc, kept, line.rest),
            "change" => self.set_changed(Words::of(line.rest)),
            "moment" => self.add_moment(Words::of(line.rest)),
            "fail" => self.add_fail(Words::of(line.rest)),
            _ => Ok(false),
        }
    }
}
