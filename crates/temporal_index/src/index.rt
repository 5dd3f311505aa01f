//! The index as a value: its entries, and the last before a moment.
ghost use Rattle.std.specs.Prelude.{◌≡◌, ◌<◌, ◌≤◌, ◌+◌, length, ◌==◌, slice_get, IfOk, IfErr, Ok, MatchOption};
ghost use Rattle.std.specs.Prelude.{List as Entries};
ghost use Rattle.std.specs.List.{AllByRecursion};
ghost use Rattle.pcp_base.specs.Time.{microseconds};
ghost use Rattle.pcp_model.specs.Records.{entries as spelled, FitsEntry};
ghost use Rattle.temporal_index.specs.Entries.{Gives, index_of, AreEntries, IsIndexFault};
ghost use Rattle.temporal_index.specs.Seeking.{IsLast, NotAfter, IsAfter, Before, NotBefore};

use crate::fault::IndexFault;
use crate::reading::entries_of;
use pcp_base::{Duplicate, List, NoMemory, Stamp};
use pcp_model::Entry;
use std::alloc::Global;
use std::marker::Model;

/// The entries of an archive's temporal index (LOGARCHIVE(5)), in the order of the file. Contracts see it as their
/// list.
#[derive(Drop)]
pub struct Index {
    entries: List<Entry>,
}

impl Model for Index {
    ghost use Rattle.std.specs.Prelude.{List as Sequence};
    ghost use Rattle.pcp_model.specs.declared.records.Entry.{Entry as Placed};

    ghost Value = { Sequence Placed };

    ghost view = { λ a. a.entries };
}

/// The last entry that stands before a time in microseconds, and its position.
fn last_before(entries: &[Entry], time: u64) -> Option<(u64, Entry)>
    ensures { MatchOption result (AllByRecursion (λ e. time ≤ microseconds e.stamp) entries.now)
        (IsLast (λ e. microseconds e.stamp < time) (λ e. time ≤ microseconds e.stamp) entries.now) }
{
    let mut left = entries.len();
    while left > 0 {
        let entry = entries[left - 1];
        left -= 1;
        if entry.stamp.microseconds() < time {
            return Some((left as u64, entry));
        }
    }
    None
}

fn read(alloc: Global, bytes: &[u8]) -> Result<Index, IndexFault>
    ensures { Gives result (index_of bytes.now) }
{
    let entries = entries_of(alloc, bytes)?;
    Ok(Index { entries })
}

impl Index {
    /// The index of these bytes, which follow the label of its file. A refusal tells the first entry that is out of
    /// range or ends too early, or that memory was refused.
    pub fn read(alloc: Global, bytes: &[u8]) -> Result<Index, IndexFault>
        // What is read is what the bytes are.
        ensures found { IfOk result (AreEntries bytes.now) }
        // Entries in range are read, unless memory runs out.
        ensures only { (es : Entries Entry) → AreEntries bytes.now es → Gives result (Ok es) }
        // A refusal is the first entry that is none, or want of memory.
        ensures fault { IfErr result (IsIndexFault bytes.now) }
        // The answer is that of a definition, want of memory aside.
        ensures exact { Gives result (index_of bytes.now) }
    {
        read(alloc, bytes)
    }

    /// How many entries there are.
    pub fn len(&self) -> u64
        ensures { result ≡ length self.now }
    {
        self.entries.len() as u64
    }

    /// Whether there is none.
    pub fn is_empty(&self) -> bool
        ensures { result ≡ (length self.now == 0) }
    {
        self.entries.is_empty()
    }

    /// The entry at a position from 0, and `None` exactly past the last.
    pub fn entry(&self, at: u64) -> Option<Entry>
        ensures { result ≡ slice_get self.now at }
    {
        self.entries.get(at as usize).copied()
    }

    /// The last entry not after a moment, and its position. Entries of foreign files need not rise: the last is
    /// the one furthest behind.
    pub fn seek_at(&self, t: Stamp) -> Option<(u64, Entry)>
        ensures { MatchOption result (AllByRecursion (IsAfter t) self.now) (IsLast (NotAfter t) (IsAfter t) self.now) }
    {
        last_before(self.entries.as_slice(), t.microseconds() + 1)
    }

    /// The last entry before a moment, and its position.
    pub fn seek_before(&self, t: Stamp) -> Option<(u64, Entry)>
        ensures { MatchOption result (AllByRecursion (NotBefore t) self.now) (IsLast (Before t) (NotBefore t) self.now) }
    {
        last_before(self.entries.as_slice(), t.microseconds())
    }
}

impl Duplicate for Index {
    fn copy(&self, alloc: Global) -> Result<Self, NoMemory> {
        let entries = Vec::from_slice(alloc, self.entries.as_slice())?;
        Ok(Index {
            entries: List::from_vec(entries),
        })
    }
}
