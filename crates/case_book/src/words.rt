//! The words of a line that calls a part without a command, one after another.
use pcp_base::{NoMemory, Pmid, Stamp, Text};
use std::alloc::Global;

/// What is left of a line.
#[derive(Clone, Copy)]
pub struct Words<'a> {
    rest: &'a str,
}

impl<'a> Words<'a> {
    pub fn of(rest: &'a str) -> Words<'a> {
        Words { rest }
    }

    /// The next word, up to a space; the empty word where none is left.
    pub fn next(&mut self) -> &'a str {
        let (word, rest) = self.rest.split_once(' ').unwrap_or((self.rest, ""));
        self.rest = rest;
        word
    }

    /// All that is left of the line, with its spaces.
    pub fn rest(self) -> &'a str {
        self.rest
    }

    pub fn is_done(self) -> bool {
        self.rest.is_empty()
    }

    pub fn number(&mut self) -> Option<u32> {
        self.next().parse::<u32>().ok()
    }

    pub fn wide(&mut self) -> Option<u64> {
        self.next().parse::<u64>().ok()
    }

    pub fn signed(&mut self) -> Option<i32> {
        self.next().parse::<i32>().ok()
    }

    pub fn size(&mut self) -> Option<usize> {
        self.next().parse::<usize>().ok()
    }

    /// A word of 32 bits in hexadecimal.
    pub fn hex(&mut self) -> Option<u32> {
        u32::from_str_radix(self.next(), 16).ok()
    }

    /// An identifier of a metric as its word in hexadecimal.
    pub fn pmid(&mut self) -> Option<Pmid> {
        Some(Pmid::of_word(self.hex()?))
    }

    /// A stamp as its seconds and microseconds.
    pub fn stamp(&mut self) -> Option<Stamp> {
        let sec = self.number()?;
        let usec = self.number()?;
        Stamp::build(sec, usec)
    }
}

/// A text of the bytes of a word.
pub fn text_of(alloc: Global, word: &str) -> Result<Text, NoMemory> {
    match Text::build(alloc, word.as_bytes()) {
        Ok(text) => Ok(text),
        Err(_) => Err(NoMemory),
    }
}
