//! Words and entries of journals as text.
use case_book::Words;
use pcp_base::NoMemory;
use region_core::{Act, Entry};
use std::alloc::Global;

/// The numbers between spaces.
pub fn numbers_of(alloc: Global, text: &str) -> Result<Option<Vec<u64>>, NoMemory> {
    let mut numbers = Vec::new(alloc);
    for word in text.split(' ') {
        match word.parse::<u64>() {
            Ok(number) => numbers.push(number)?,
            Err(_) => return Ok(None),
        }
    }
    Ok(Some(numbers))
}

// An act that stores a value in a word.
fn store_of(name: &str, mut words: Words<'_>) -> Option<Act> {
    let word = words.number()?;
    let value = words.wide()?;
    match name {
        "Swap" => Some(Act::Swap(word, value)),
        "Add" => Some(Act::Add(word, value)),
        "Put" => Some(Act::Put(word, value)),
        _ => None,
    }
}

fn act_of(name: &str, mut words: Words<'_>) -> Option<Act> {
    match name {
        "Enter" => Some(Act::Enter),
        "Leave" => Some(Act::Leave),
        "Take" => Some(Act::Take),
        "Free" => Some(Act::Free),
        "Load" => Some(Act::Load(words.number()?)),
        "Begin" => Some(Act::Begin(words.wide()?)),
        "End" => Some(Act::End(words.wide()?)),
        _ => store_of(name, words),
    }
}

// The entry of a text as `0 Take` or `1 Add 3 4`.
fn entry_of(text: &str) -> Option<Entry> {
    let mut words = Words::of(text);
    let by = words.number()?;
    let name = words.next();
    let act = act_of(name, words)?;
    Some(Entry { by, act })
}

/// The entries of a text, each with a space before it and separated by `;`; an empty text has none.
pub fn entries_of(alloc: Global, text: &str) -> Result<Option<Vec<Entry>>, NoMemory> {
    let mut log = Vec::new(alloc);
    if text.is_empty() {
        return Ok(Some(log));
    }
    for part in text.split(';') {
        match entry_of(part.strip_prefix(' ').unwrap_or(part)) {
            Some(entry) => log.push(entry)?,
            None => return Ok(None),
        }
    }
    Ok(Some(log))
}
