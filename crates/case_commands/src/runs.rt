//! Runs of the program's commands: what a line `run WORDS` does, over what the case has outside.
use case_book::Answer;
use case_outside::{Given, Outside, PieceSink, PieceSource, put_changed, snapshot};
use pcp_base::{List, NoMemory};
use pcp_memory::{MemDisk, MemSink, MemSource};
use pm_commands::offline;
use std::alloc::Global;

// The words of a line, which are separated by single spaces; an empty line has none.
pub fn words_of(alloc: Global, line: &str) -> Result<Vec<String>, NoMemory> {
    let mut words = Vec::new(alloc);
    if line.is_empty() {
        return Ok(words);
    }
    for word in line.split(' ') {
        words.push(String::from_str(alloc, word)?)?;
    }
    Ok(words)
}

fn source_of(alloc: Global, input: &[u8], given: &Given) -> Result<PieceSource, NoMemory> {
    let content = List::from_vec(input.to_vec(alloc)?);
    let fails = List::from_vec(given.source_fails.to_vec(alloc)?);
    Ok(PieceSource {
        inner: MemSource::new(content, fails),
        most: given.most,
    })
}

fn sink_of(alloc: Global, given: &Given) -> Result<PieceSink, NoMemory> {
    let fails = List::from_vec(given.sink_fails.to_vec(alloc)?);
    Ok(PieceSink {
        inner: MemSink::new(alloc, fails),
        most: given.most,
    })
}

// The call of the program, with nothing around it.
fn call(
    alloc: Global,
    words: &[String],
    source: &mut PieceSource,
    sink: &mut PieceSink,
    disk: &mut MemDisk,
) -> u8 {
    let mut opened = None;
    offline(alloc, words, source, sink, disk, &mut opened)
}

// Puts the status and the output.
fn put_end(alloc: Global, answer: &mut Answer, status: u8, output: &[u8]) -> Result<(), NoMemory> {
    let told = format!(in alloc; "{status}")?;
    answer.put("status", told.as_bytes())?;
    if output.is_empty() {
        return Ok(());
    }
    answer.put("out", output)
}

// Runs the words over what was prepared.
fn run_words(
    alloc: Global,
    outside: &mut Outside,
    answer: &mut Answer,
    words: &[String],
) -> Result<(), NoMemory> {
    let mut source = source_of(alloc, &outside.input, &outside.given)?;
    let mut sink = sink_of(alloc, &outside.given)?;
    let status = call(
        alloc,
        words,
        &mut source,
        &mut sink,
        &mut outside.drive.disk,
    );
    outside.given = Given::new(alloc);
    put_end(alloc, answer, status, sink.inner.bytes())
}

/// `run WORDS`
pub fn run(
    alloc: Global,
    outside: &mut Outside,
    answer: &mut Answer,
    rest: &str,
) -> Result<bool, NoMemory> {
    if !answer.renew()? {
        return Ok(false);
    }
    outside.drive.make(alloc)?;
    let old = snapshot(alloc, &outside.drive.disk)?;
    let words = words_of(alloc, rest)?;
    run_words(alloc, outside, answer, &words)?;
    let new = snapshot(alloc, &outside.drive.disk)?;
    put_changed(alloc, answer, &old, &new)?;
    outside.drive.files = old;
    Ok(true)
}
