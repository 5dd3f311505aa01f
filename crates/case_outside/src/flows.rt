//! Sources that are read to a limit, and pieces that are written to a sink.
use crate::outside::{Given, Outside};
use case_book::{Answer, Line};
use pcp_base::{Bytes, List, NoMemory};
use pcp_memory::{MemSink, MemSource, SureSource};
use pcp_outside::{ReadFault, read_to_limit, write_all};
use std::alloc::Global;

// Puts the bytes that were read, or why they weren't.
fn put_read(
    alloc: Global,
    answer: &mut Answer,
    read: Result<Bytes, ReadFault>,
) -> Result<bool, NoMemory> {
    let mut out = String::new(alloc);
    match read {
        Ok(bytes) => case_book::write_text(&mut out, bytes.as_slice())?,
        Err(ReadFault::TooMuch) => out.push_str("TooMuch")?,
        Err(ReadFault::Failed) => out.push_str("Failed")?,
        Err(ReadFault::NoMemory) => return Err(NoMemory),
    }
    out.push('\n')?;
    answer.put("out", out.as_bytes())?;
    Ok(true)
}

// The input, from a source that never fails where no call of it is to fail.
fn read_input(
    alloc: Global,
    input: &[u8],
    fails: &[u64],
    limit: usize,
) -> Result<Result<Bytes, ReadFault>, NoMemory> {
    let content = List::from_vec(input.to_vec(alloc)?);
    if fails.is_empty() {
        let mut source = SureSource::new(content);
        return Ok(read_to_limit(alloc, &mut source, limit));
    }
    let fails = List::from_vec(fails.to_vec(alloc)?);
    let mut source = MemSource::new(content, fails);
    Ok(read_to_limit(alloc, &mut source, limit))
}

fn write_word(sink: &mut MemSink, word: &str) -> &'static str {
    match write_all(sink, word.as_bytes()) {
        Ok(()) => "done ",
        Err(_) => "failed ",
    }
}

// `write WORD ..`: each word, and then what the sink holds.
fn write_words(
    alloc: Global,
    answer: &mut Answer,
    given: &Given,
    words: &str,
) -> Result<bool, NoMemory> {
    let mut sink = MemSink::new(alloc, List::from_vec(given.sink_fails.to_vec(alloc)?));
    let mut out = String::new(alloc);
    for word in words.split(' ') {
        out.push_str(write_word(&mut sink, word))?;
    }
    case_book::write_text(&mut out, sink.bytes())?;
    out.push('\n')?;
    answer.put("out", out.as_bytes())?;
    Ok(true)
}

impl Outside {
    /// `stream read LIMIT` and `stream write WORD ..`
    pub fn call_stream(
        &mut self,
        alloc: Global,
        answer: &mut Answer,
        rest: &str,
    ) -> Result<bool, NoMemory> {
        if !answer.renew()? {
            return Ok(false);
        }
        let line = Line::of(rest);
        match (line.word, line.rest.parse::<usize>()) {
            ("read", Ok(limit)) => {
                let read = read_input(alloc, &self.input, &self.given.source_fails, limit)?;
                put_read(alloc, answer, read)
            }
            ("write", _) => write_words(alloc, answer, &self.given, line.rest),
            _ => Ok(false),
        }
    }
}
