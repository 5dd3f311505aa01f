//! Journals over the words of an image, and three passes.
use crate::entries::{entries_of, numbers_of};
use case_book::Line;
use pcp_base::NoMemory;
use region_core::{Entry, Mode, State, Stop, replay};
use std::alloc::Global;

fn write_words(out: &mut String, words: &[u64]) -> Result<(), NoMemory> {
    out.push_str("words")?;
    for word in words {
        let word = *word;
        write!(out, " {word}")?;
    }
    Ok(())
}

fn write_mode(out: &mut String, state: &State, pass: u32) -> Result<(), NoMemory> {
    out.push_str(match state.mode(pass) {
        Some(Mode::Idle) => ", Some(Idle)",
        Some(Mode::Attached) => ", Some(Attached)",
        Some(Mode::Bounced) => ", Some(Bounced)",
        Some(Mode::Changing) => ", Some(Changing)",
        None => ", None",
    })?;
    Ok(())
}

// The words, the gate and what each pass is doing.
fn tell_state(alloc: Global, state: &State) -> Result<String, NoMemory> {
    let mut out = String::new(alloc);
    write_words(&mut out, state.words())?;
    let gate = state.gate();
    write!(&mut out, ", gate {gate}")?;
    for pass in 0..4 {
        write_mode(&mut out, state, pass)?;
    }
    out.push('\n')?;
    Ok(out)
}

fn run(alloc: Global, words: &[u64], log: &[Entry]) -> Result<String, NoMemory> {
    match replay(alloc, words, 3, log) {
        Ok(state) => tell_state(alloc, &state),
        Err(Stop::NoMemory) => Err(NoMemory),
        Err(Stop::NotOpen(position)) => Ok(format!(in alloc; "not open {position}\n")?),
    }
}

// What the events of the entries leave of the words alone.
fn store_events(alloc: Global, words: &mut [u64], log: &[Entry]) -> Result<String, NoMemory> {
    for entry in log {
        match entry.event() {
            Some(event) => event.apply(words),
            None => {}
        }
    }
    let mut out = String::new(alloc);
    write_words(&mut out, words)?;
    out.push('\n')?;
    Ok(out)
}

/// `journal run WORDS: ENTRY; ..` and `journal events WORDS: ENTRY; ..`: what a journal leaves, or the first entry that is
/// not open; and what its events leave of the words.
pub fn tell_journal(alloc: Global, rest: &str) -> Result<Option<String>, NoMemory> {
    let line = Line::of(rest);
    let (words, log) = line.rest.split_once(':').unwrap_or((line.rest, ""));
    let words = numbers_of(alloc, words)?;
    let log = entries_of(alloc, log)?;
    let (Some(mut words), Some(log)) = (words, log) else {
        return Ok(None);
    };
    match line.word {
        "run" => Ok(Some(run(alloc, &words, &log)?)),
        "events" => Ok(Some(store_events(alloc, &mut words, &log)?)),
        _ => Ok(None),
    }
}
