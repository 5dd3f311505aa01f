//! The entries that bytes are.
ghost use Rattle.std.specs.Prelude.{◌≡◌, [], IfOk};
ghost use Rattle.std.specs.Int.{w32};
ghost use Rattle.pcp_base.specs.Fields.{be_field};
ghost use Rattle.temporal_index.specs.Entries.{below, entry_at, Gives, index_of};

use crate::fault::IndexFault;
use crate::writing::ENTRY;
use pcp_base::{List, NoMemory, Stamp, be32};
use pcp_model::Entry;
use std::alloc::Global;

/// The word at a byte, where it is below a bound.
fn word_below(bytes: &[u8], at: usize, bound: u32) -> Option<u32>
    ensures { result ≡ below bound (be_field w32 at bytes.now) }
{
    let word = be32(bytes, at)?;
    if word < bound { Some(word) } else { None }
}

/// The entry at a byte.
#[tactic(auto, unfolding(crate::specs::Entries::entry_at))]
fn entry_at(bytes: &[u8], at: usize) -> Option<Entry>
    ensures { result ≡ entry_at bytes.now at }
{
    let sec = word_below(bytes, at, 1 << 31)?;
    let usec = word_below(bytes, at + 4, 1_000_000)?;
    let volume = word_below(bytes, at + 8, 1 << 31)?;
    let meta = word_below(bytes, at + 12, 1 << 31)?;
    let offset = word_below(bytes, at + 16, 1 << 31)?;
    let stamp = Stamp::build(sec, usec)?;
    Some(Entry {
        stamp,
        volume,
        meta,
        offset,
    })
}

/// The list without an entry, with room for so many.
fn with_room(alloc: Global, count: usize) -> Result<List<Entry>, NoMemory>
    ensures { IfOk result (λ entries. entries ≡ []) }
{
    let room = Vec::with_capacity(alloc, count)?;
    Ok(List::from_vec(room))
}

/// All entries that the bytes are, or the first offset where none is.
pub fn entries_of(alloc: Global, bytes: &[u8]) -> Result<List<Entry>, IndexFault>
    ensures { Gives result (index_of bytes.now) }
{
    let mut at = 0;
    let mut entries = with_room(alloc, bytes.len() / ENTRY)?;
    while at < bytes.len() {
        match entry_at(bytes, at) {
            Some(entry) => entries.push(entry)?,
            None => return Err(IndexFault::Entry { at: at as u64 }),
        }
        at += ENTRY;
    }
    Ok(entries)
}
