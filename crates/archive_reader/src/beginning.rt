//! Where a search by time begins.
ghost use Rattle.std.specs.Prelude.{◌≡◌};
ghost use Rattle.archive_loading.specs.Loaded.{Rises};
ghost use Rattle.archive_reader.specs.Asked.{last_entry, is_entry_before, is_entry_by, length_of, first_volume, begin_of};

use crate::walking::first_from;
use pcp_base::Stamp;
use temporal_index::{Entry, Index};

/// Where a search begins.
pub enum Begin {
    /// At an offset of the volume with this number.
    At(u32, u64),
    /// Nowhere: the entry's offset lies outside the records of its volume.
    Outside(u32, u64),
}

/// The last entry before a moment.
pub fn entry_before(index: &Index, t: Stamp) -> Option<Entry>
    ensures { result ≡ last_entry (is_entry_before t) index.now }
{
    match index.seek_before(t) {
        Some(found) => Some(found.1),
        None => None,
    }
}

/// The last entry not after a moment.
pub fn entry_by(index: &Index, t: Stamp) -> Option<Entry>
    ensures { result ≡ last_entry (is_entry_by t) index.now }
{
    match index.seek_at(t) {
        Some(found) => Some(found.1),
        None => None,
    }
}

/// The length of the volume with this number, if it isn't empty.
fn length_of(volumes: &[(u32, u64)], number: u32) -> Option<u64>
    requires { Rises volumes.now }
    ensures { result ≡ length_of number volumes.now }
{
    let index = first_from(volumes, number);
    if index >= volumes.len() {
        return None;
    }
    let volume = volumes[index];
    if volume.0 != number {
        return None;
    }
    Some(volume.1)
}

fn first_volume(volumes: &[(u32, u64)]) -> u32
    ensures { result ≡ first_volume volumes.now }
{
    match volumes {
        [first, ..] => first.0,
        [] => 0,
    }
}

/// Where a search begins, by an entry.
pub fn begin_of(volumes: &[(u32, u64)], entry: Option<Entry>) -> Begin
    requires { Rises volumes.now }
    ensures { result ≡ begin_of volumes.now entry }
{
    let Some(entry) = entry else {
        return Begin::At(first_volume(volumes), 132);
    };
    let Some(end) = length_of(volumes, entry.volume) else {
        return Begin::At(first_volume(volumes), 132);
    };
    let offset = u64::from(entry.offset);
    if offset < 132 {
        return Begin::Outside(entry.volume, offset);
    }
    if end < offset {
        return Begin::Outside(entry.volume, offset);
    }
    Begin::At(entry.volume, offset)
}
