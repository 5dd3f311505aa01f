//! Sources and sinks in memory, of which listed calls fail.
ghost use Rattle.std.specs.Prelude.{◌≡◌, ◌≤◌, ◌<◌, ◌+◌, [], true, length, take, min, List as Sequence, IfOk, OnOk, IsErr, is_err};
ghost use Rattle.pcp_outside.specs.Causes.{HasCause, shown_count};
ghost use Rattle.pcp_outside.specs.Streams.{Takes, Puts};
ghost use Rattle.pcp_memory.specs.Memory.{SourceState, SinkState, is_listed};

use pcp_base::{Bytes, List};
use pcp_outside::{Failed, Sink, Source};
use std::alloc::Global;
use std::marker::Model;

/// A source over bytes in memory.
#[derive(Drop)]
pub struct MemSource {
    content: Bytes,
    at: usize,
    fails: List<u64>,
    asked: u64,
    faults: u64,
}

impl Model for MemSource {
    ghost use Rattle.std.specs.Prelude.{◌≤◌, length, drop};
    ghost use Rattle.pcp_memory.specs.Memory.{SourceState};

    ghost Value = { SourceState };

    ghost view = { λ s. record { left = drop s.at s.content; fails = s.fails; asked = s.asked; faults = s.faults } };

    ghost invariant = { λ s. s.at ≤ length s.content };
}

impl MemSource {
    /// A source of these bytes whose calls with the listed numbers, counted from 1, fail and take nothing.
    pub fn new(content: Bytes, fails: List<u64>) -> Self
        ensures { result ≡ record { left = content; fails = fails; asked = 0; faults = 0 } }
    {
        MemSource {
            content,
            at: 0,
            fails,
            asked: 0,
            faults: 0,
        }
    }
}

impl Source for MemSource {
    ghost tells = { Unit {0} };

    ghost left = { λ s. s.left };

    ghost faults = { λ s. s.faults };

    fn take(&mut self, buffer: &mut [u8]) -> Result<usize, Failed>
        ensures all { IfOk result (λ n. n ≡ min (length self.old.left) (length buffer.old)) }
        ensures bytes { Takes self.old.left self.new.left buffer.new result }
        ensures asked { self.new.asked ≡ shown_count (self.old.asked + 1) }
        ensures listed { is_err result ≡ is_listed self.old.fails self.new.asked }
        ensures kept { self.new.fails ≡ self.old.fails }
        ensures quiet { OnOk result (self.new.faults ≡ self.old.faults) }
        ensures cause { HasCause self.old.faults self.new.faults result }
    {
        self.asked = self.asked.saturating_add(1);
        if is_among(&self.fails, self.asked) {
            self.faults = self.faults.saturating_add(1);
            return Err(Failed);
        }
        let count = copy_front(&self.content.as_slice()[self.at..], buffer);
        self.at += count;
        Ok(count)
    }
}

/// A source over bytes in memory that never fails.
#[derive(Drop)]
pub struct SureSource {
    content: Bytes,
    at: usize,
}

impl Model for SureSource {
    ghost use Rattle.std.specs.Prelude.{◌≤◌, ℕ, length, drop, List as Sequence};

    ghost Value = { Sequence ℕ };

    ghost view = { λ s. drop s.at s.content };

    ghost invariant = { λ s. s.at ≤ length s.content };
}

impl SureSource {
    /// A source of these bytes.
    pub fn new(content: Bytes) -> Self
        ensures { result ≡ content }
    {
        SureSource { content, at: 0 }
    }
}

impl Source for SureSource {
    ghost tells = { Unit {0} };

    ghost left = { λ s. s };

    ghost faults = { λ _. 0 };

    fn take(&mut self, buffer: &mut [u8]) -> Result<usize, Failed>
        ensures all { result ≡ Ok (min (length self.old) (length buffer.old)) }
        ensures bytes { Takes self.old self.new buffer.new result }
    {
        let taken = copy_front(&self.content.as_slice()[self.at..], buffer);
        self.at += taken;
        Ok(taken)
    }
}

/// A sink into memory.
#[derive(Drop)]
pub struct MemSink {
    content: Vec<u8>,
    fails: List<u64>,
    asked: u64,
    faults: u64,
}

impl Model for MemSink {
    ghost use Rattle.pcp_memory.specs.Memory.{SinkState};

    ghost Value = { SinkState };

    ghost view = { λ s. record { written = s.content.items; fails = s.fails; asked = s.asked; faults = s.faults } };
}

impl MemSink {
    /// An empty sink whose calls with the listed numbers, counted from 1, fail and write nothing. So does a
    /// call whose bytes get no memory.
    pub fn new(alloc: Global, fails: List<u64>) -> Self
        ensures { result ≡ record { written = []; fails = fails; asked = 0; faults = 0 } }
    {
        MemSink {
            content: Vec::new(alloc),
            fails,
            asked: 0,
            faults: 0,
        }
    }

    /// The bytes written.
    pub fn bytes(&self) -> &[u8]
        ensures { result.now ≡ self.now.written }
    {
        self.content.as_slice()
    }
}

impl Sink for MemSink {
    ghost tells = { Unit {0} };

    ghost written = { λ s. s.written };

    ghost faults = { λ s. s.faults };

    fn put(&mut self, bytes: &[u8]) -> Result<usize, Failed>
        ensures all { IfOk result (λ n. n ≡ length bytes.now) }
        ensures bytes { Puts self.old.written self.new.written bytes.now result }
        ensures asked { self.new.asked ≡ shown_count (self.old.asked + 1) }
        ensures listed { is_listed self.old.fails self.new.asked ≡ true → IsErr result }
        ensures kept { self.new.fails ≡ self.old.fails }
        ensures quiet { OnOk result (self.new.faults ≡ self.old.faults) }
        ensures cause { HasCause self.old.faults self.new.faults result }
    {
        self.asked = self.asked.saturating_add(1);
        if is_among(&self.fails, self.asked) || self.content.extend_from_slice(bytes).is_err() {
            self.faults = self.faults.saturating_add(1);
            return Err(Failed);
        }
        Ok(bytes.len())
    }
}

/// Whether a number is one of these.
pub(crate) fn is_among(numbers: &List<u64>, number: u64) -> bool
    ensures { result ≡ is_listed numbers.now number }
{
    numbers.as_slice().contains(&number)
}

// Copies what fits of the first bytes.
fn copy_front(from: &[u8], buffer: &mut [u8]) -> usize
    ensures count { result ≡ min (length from.now) (length buffer.old) }
    ensures bytes { take result buffer.new ≡ take result from.now }
{
    let count = from.len().min(buffer.len());
    buffer[..count].copy_from_slice(&from[..count]);
    count
}
