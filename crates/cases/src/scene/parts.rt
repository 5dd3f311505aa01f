//! Parts whose calls no command makes. A line calls one; what it tells is the output, and there is no status.
use archive_meta::MetaState;
use case_book::{Answer, Line, Words};
use case_parts::{Filter, Schedule, tell_journal, tell_names, tell_value};
use case_records::{tell_meta, tell_record, tell_result};
use pcp_base::NoMemory;
use pmns_core::Names;
use std::alloc::Global;

/// What the calls of a case act on.
#[derive(Drop)]
pub struct Parts {
    names: Names,
    filter: Filter,
    schedule: Schedule,
    meta: MetaState,
}

fn bytes_of(told: Option<String>) -> Option<Vec<u8>> {
    match told {
        Some(text) => Some(text.into_bytes()),
        None => None,
    }
}

impl Parts {
    pub fn new(alloc: Global) -> Parts {
        Parts {
            names: Names::empty(alloc),
            filter: Filter::new(alloc),
            schedule: Schedule::new(),
            meta: MetaState::empty(alloc),
        }
    }

    fn call(
        &mut self,
        alloc: Global,
        input: &[u8],
        line: Line<'_>,
    ) -> Result<Option<Vec<u8>>, NoMemory> {
        let words = Words::of(line.rest);
        match line.word {
            "names" => Ok(bytes_of(tell_names(alloc, &mut self.names, words)?)),
            "profile" => Ok(bytes_of(self.filter.call(alloc, words)?)),
            "schedule" => Ok(bytes_of(self.schedule.call(alloc, words)?)),
            "meta" => tell_meta(alloc, &mut self.meta, words, input),
            "base" => Ok(bytes_of(tell_value(alloc, words, input)?)),
            "journal" => Ok(bytes_of(tell_journal(alloc, line.rest)?)),
            "result" => tell_result(alloc, line.rest, input),
            "label" | "frame" | "index" => tell_record(alloc, line.word, words, input),
            _ => Ok(None),
        }
    }

    /// Does a line, and puts what it tells.
    pub fn step(
        &mut self,
        alloc: Global,
        input: &[u8],
        answer: &mut Answer,
        line: Line<'_>,
    ) -> Result<bool, NoMemory> {
        if !answer.renew()? {
            return Ok(false);
        }
        let Some(told) = self.call(alloc, input, line)? else {
            return Ok(false);
        };
        if !told.is_empty() {
            answer.put("out", &told)?;
        }
        Ok(true)
    }
}
