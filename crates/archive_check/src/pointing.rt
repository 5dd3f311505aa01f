//! What the marks say of an entry of the index, and the first entry that is bad.
ghost use Rattle.std.specs.Prelude.{◌≡◌, ◌+◌, false, MatchOption};
ghost use Rattle.std.specs.List.{AllByRecursion};
ghost use Rattle.archive_check.specs.Looked.{time_in, is_above, look_of, misses, is_late, is_bad, top_of, IsFirst};
ghost use Rattle.archive_check.specs.Marks.{mark_at, code_of};

use crate::marks::{Mark, Marks, mark_of};
use pcp_base::Stamp;
use pcp_outside::FileId;
use temporal_index::{Entry, Index};

/// What stands where an entry points.
#[derive(Clone, Copy)]
pub enum Look {
    /// Its volume is above each that isn't empty.
    Above,
    /// Its volume is empty.
    Skipped,
    /// No record boundary at this offset of this file.
    Misses(FileId, u64),
    /// Record boundaries: the latest time of a domain before that of Meta, and of an item before that of its volume, in microseconds.
    Points(u64, u64),
}

/// The number of the last volume that isn't empty.
pub fn top_of(volumes: &[(u32, u64)]) -> Option<u32>
    ensures { result ≡ top_of volumes.now }
{
    let count = volumes.len();
    if count == 0 {
        return None;
    }
    Some(volumes[count - 1].0)
}

fn is_above(top: Option<u32>, number: u32) -> bool
    ensures { result ≡ is_above top number }
{
    match top {
        Some(top) => top < number,
        None => true,
    }
}

/// The latest time before an offset that is a boundary.
fn time_at(marks: &Marks, file: FileId, offset: u64) -> Option<u64>
    ensures { result ≡ time_in (mark_at marks.now (code_of file) offset) }
{
    match mark_of(marks, file, offset) {
        Some(Mark::Passed(time)) => Some(time),
        Some(Mark::Ahead) => None,
        None => None,
    }
}

/// What stands where an entry points.
pub fn see(entry: &Entry, top: Option<u32>, marks: &Marks) -> Look
    ensures { result ≡ look_of (mark_at marks.now) top entry.now }
{
    if is_above(top, entry.volume) {
        return Look::Above;
    }
    let file = FileId::Volume(entry.volume);
    let Some(_) = time_at(marks, file, 132) else {
        return Look::Skipped;
    };
    let Some(domain) = time_at(marks, FileId::Meta, u64::from(entry.meta)) else {
        return Look::Misses(FileId::Meta, u64::from(entry.meta));
    };
    let Some(item) = time_at(marks, file, u64::from(entry.offset)) else {
        return Look::Misses(file, u64::from(entry.offset));
    };
    Look::Points(domain, item)
}

fn misses(look: Look) -> bool
    ensures { result ≡ misses look }
{
    match look {
        Look::Above => true,
        Look::Misses(_, _) => true,
        Look::Skipped => false,
        Look::Points(_, _) => false,
    }
}

fn is_late(look: Look, t: Stamp) -> bool
    ensures { result ≡ is_late look t }
{
    match look {
        Look::Points(domain, item) => domain > t.microseconds() || item > t.microseconds(),
        Look::Above => false,
        Look::Misses(_, _) => false,
        Look::Skipped => false,
    }
}

fn is_bad(late: bool, look: Look, t: Stamp) -> bool
    ensures { result ≡ is_bad late look t }
{
    if late { is_late(look, t) } else { misses(look) }
}

fn is_bad_entry(entry: &Entry, top: Option<u32>, marks: &Marks, late: bool) -> bool
    ensures { result ≡ is_bad late (look_of (mark_at marks.now) top entry.now) entry.now.stamp }
{
    let stamp = entry.stamp;
    let seen = see(entry, top, marks);
    is_bad(late, seen, stamp)
}

/// The first entry that is too early, or the first that points to no boundary, and its position.
pub fn first_bad(index: &Index, top: Option<u32>, marks: &Marks, late: bool) -> Option<(u64, Entry)>
    ensures { MatchOption result (AllByRecursion (λ e. is_bad late (look_of (mark_at marks.now) top e) e.stamp ≡ false) index.now)
        (IsFirst (λ e. is_bad late (look_of (mark_at marks.now) top e) e.stamp) index.now) }
{
    for at in 0..index.len() {
        let Some(entry) = index.entry(at) else {
            return None;
        };
        if is_bad_entry(&entry, top, marks, late) {
            return Some((at, entry));
        }
    }
    None
}
