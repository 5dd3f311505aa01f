//! What a pass over the files has seen at the offsets that the index says.
ghost use Rattle.std.specs.Prelude.{◌≡◌, ◌+◌, IfOk, OnOk, take};
ghost use Rattle.std.specs.List.{AllByRecursion};
ghost use Rattle.archive_check.specs.Marks.{mark_at, code_of, Puts, Passes, IsPut, Keeps};

use indexmap::IndexMap;
use pcp_base::NoMemory;
use pcp_outside::FileId;
use std::alloc::Global;
use temporal_index::{Entry, Index};

/// What has been seen at an offset.
#[derive(Clone, Copy)]
pub enum Mark {
    /// No record boundary so far.
    Ahead,
    /// A record boundary, and the latest time of a stamp before it in microseconds, or 0.
    Passed(u64),
}

/// By the file's code and the offset in bytes.
pub type Marks = IndexMap<(u64, u64), Mark>;

/// 0 of Meta, one more than its number of a volume.
pub fn code_of(file: FileId) -> u64
    ensures { result ≡ code_of file }
{
    match file {
        FileId::Meta => 0,
        FileId::Index => 0,
        FileId::Volume(number) => u64::from(number) + 1,
    }
}

/// The mark at an offset.
pub fn mark_of(marks: &Marks, file: FileId, offset: u64) -> Option<Mark>
    ensures { result ≡ mark_at marks.now (code_of file) offset }
{
    marks.get(&(code_of(file), offset)).copied()
}

fn put(marks: &mut Marks, file: FileId, offset: u64) -> Result<(), NoMemory>
    ensures { OnOk result (Puts (code_of file) offset (mark_at marks.old) (mark_at marks.new)) }
{
    marks.insert((code_of(file), offset), Mark::Ahead)?;
    Ok(())
}

/// Where an entry points, and where its volume's records begin.
fn put_entry(marks: &mut Marks, entry: Entry) -> Result<(), NoMemory>
    ensures put { OnOk result (IsPut (mark_at marks.new) entry) }
    ensures kept { OnOk result (Keeps (mark_at marks.old) (mark_at marks.new)) }
{
    let file = FileId::Volume(entry.volume);
    put(marks, FileId::Meta, u64::from(entry.meta))?;
    put(marks, file, 132)?;
    put(marks, file, u64::from(entry.offset))
}

fn put_at(marks: &mut Marks, index: &Index, at: u64) -> Result<(), NoMemory>
    ensures { OnOk result (AllByRecursion (IsPut (mark_at marks.old)) (take at index.now) → AllByRecursion (IsPut (mark_at marks.new)) (take (at + 1) index.now)) }
{
    match index.entry(at) {
        Some(entry) => {
            put_entry(marks, entry)?;
            Ok(())
        }
        None => Ok(()),
    }
}

/// A mark for each place that an entry says.
pub fn marks_of(alloc: Global, index: &Index) -> Result<Marks, NoMemory>
    ensures { IfOk result (λ marks. AllByRecursion (IsPut (mark_at marks)) index.now) }
{
    let mut marks = IndexMap::new(alloc);
    for at in 0..index.len() {
        put_at(&mut marks, index, at)?;
    }
    Ok(marks)
}

/// Passes a record boundary, before which this is the latest time in microseconds.
pub fn pass(marks: &mut Marks, file: FileId, at: u64, time: u64) -> Result<(), NoMemory>
    ensures { OnOk result (Passes (code_of file) at time (mark_at marks.old) (mark_at marks.new)) }
{
    match mark_of(marks, file, at) {
        Some(_) => {
            marks.insert((code_of(file), at), Mark::Passed(time))?;
            Ok(())
        }
        None => Ok(()),
    }
}
