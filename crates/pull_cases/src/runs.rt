//! Runs of a pull: what a line `run WORDS` does, over what the case has outside.
use case_book::Answer;
use case_outside::{Outside, PieceSink, PieceSource, put_changed, snapshot};
use pcp_base::{List, NoMemory};
use pcp_memory::{MemDisk, MemSink, MemSource};
use pcp_outside::Turn;
use pm_pulling::pull;
use std::alloc::Global;
use std::sync::atomic::{AtomicU64, Ordering};

// How many turns came, each with 0 and its number; the greatest number where one was another.
#[derive(Drop)]
struct Turns {
    count: AtomicU64,
}

impl Turn for Turns {
    fn turn(&self, who: u32, step: u64) {
        let due = who == 0 && self.count.load(Ordering::SeqCst) == step;
        let count = if due {
            step.saturating_add(1)
        } else {
            u64::MAX
        };
        self.count.store(count, Ordering::SeqCst);
    }
}

// The peer of a pull, the output, and the turns.
#[derive(Drop)]
struct Ends {
    reply: PieceSource,
    request: PieceSink,
    out: PieceSink,
    turns: Turns,
}

// The words of a line, which are separated by single spaces; an empty line has none.
fn words_of(alloc: Global, line: &str) -> Result<Vec<String>, NoMemory> {
    let mut words = Vec::new(alloc);
    if line.is_empty() {
        return Ok(words);
    }
    for word in line.split(' ') {
        words.push(String::from_str(alloc, word)?)?;
    }
    Ok(words)
}

fn sink_of(alloc: Global, fails: &[u64], most: usize) -> Result<PieceSink, NoMemory> {
    let fails = List::from_vec(fails.to_vec(alloc)?);
    Ok(PieceSink {
        inner: MemSink::new(alloc, fails),
        most,
    })
}

fn ends_of(alloc: Global, outside: &Outside, request_fails: &[u64]) -> Result<Ends, NoMemory> {
    let given = &outside.given;
    let content = List::from_vec(outside.input.to_vec(alloc)?);
    let fails = List::from_vec(given.source_fails.to_vec(alloc)?);
    Ok(Ends {
        reply: PieceSource {
            inner: MemSource::new(content, fails),
            most: given.most,
        },
        request: sink_of(alloc, request_fails, given.most)?,
        out: sink_of(alloc, &given.sink_fails, given.most)?,
        turns: Turns {
            count: AtomicU64::new(0),
        },
    })
}

// The call of the program, with nothing around it.
fn call(alloc: Global, words: &[String], ends: &mut Ends, disk: &mut MemDisk) -> u8 {
    pull(
        alloc,
        words,
        &mut ends.reply,
        &mut ends.request,
        &mut ends.out,
        disk,
        &ends.turns,
    )
}

fn put_some(answer: &mut Answer, name: &str, bytes: &[u8]) -> Result<(), NoMemory> {
    if bytes.is_empty() {
        return Ok(());
    }
    answer.put(name, bytes)
}

// Puts the status and, where there are some, the output, the requests and the number of turns.
fn put_end(alloc: Global, answer: &mut Answer, status: u8, ends: &Ends) -> Result<(), NoMemory> {
    let told = format!(in alloc; "{status}")?;
    answer.put("status", told.as_bytes())?;
    put_some(answer, "out", ends.out.inner.bytes())?;
    put_some(answer, "requests", ends.request.inner.bytes())?;
    let turns = ends.turns.count.load(Ordering::SeqCst);
    if turns == 0 {
        return Ok(());
    }
    let told = format!(in alloc; "{turns}")?;
    answer.put("turns", told.as_bytes())
}

/// `run WORDS`: a pull over the input and the disk, some of whose calls of the sink of requests fail.
pub fn run(
    alloc: Global,
    outside: &mut Outside,
    request_fails: &[u64],
    answer: &mut Answer,
    rest: &str,
) -> Result<bool, NoMemory> {
    if !answer.renew()? {
        return Ok(false);
    }
    outside.drive.make(alloc)?;
    let old = snapshot(alloc, &outside.drive.disk)?;
    let words = words_of(alloc, rest)?;
    let mut ends = ends_of(alloc, outside, request_fails)?;
    let status = call(alloc, &words, &mut ends, &mut outside.drive.disk);
    put_end(alloc, answer, status, &ends)?;
    let new = snapshot(alloc, &outside.drive.disk)?;
    put_changed(alloc, answer, &old, &new)?;
    outside.drive.files = old;
    Ok(true)
}
