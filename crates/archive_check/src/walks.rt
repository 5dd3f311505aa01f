//! A pass over the records of a file, and of all volumes.
ghost use Rattle.std.specs.Prelude.{◌≡◌, length, IfOk, IfErr, OnOk};
ghost use Rattle.std.specs.List.{AllByRecursion};
ghost use Rattle.pcp_model.specs.Disk.{contents_of};
ghost use Rattle.pcp_outside.specs.Devices.{IsNumbered};
ghost use Rattle.archive_loading.specs.Loaded.{IsMeasured};
ghost use Rattle.archive_loading.specs.Looks.{Looks, Blames};
ghost use Rattle.archive_check.specs.Marks.{mark_at};
ghost use Rattle.archive_check.specs.Walked.{IsWalked, AreWalked};

use crate::marks::{Marks, pass};
use crate::steps::{numbered, step};
use crate::tally::{Tally, no_records, with_record};
use archive_loading::Lack;
use pcp_outside::{Disk, FileId};
use std::alloc::Global;

/// Passes each record boundary of a readable file of this length. It goes on with what was seen before.
pub fn walk<D: Disk>(
    alloc: Global,
    disk: &mut D,
    file: FileId,
    end: u64,
    marks: &mut Marks,
    tally: Tally,
) -> Result<Tally, Lack>
    requires numbered { IsNumbered file }
    requires end { D.tells → end ≡ length (contents_of (D.held disk.old) file) }
    ensures walked { D.tells → IfOk result (IsWalked file (contents_of (D.held disk.old) file) tally (mark_at marks.old) (mark_at marks.new)) }
    ensures looks { Looks D.Disk disk.old disk.new }
    ensures cause { IfErr result (Blames D.Disk disk.old disk.new) }
    ensures quiet { OnOk result (D.faults disk.new ≡ D.faults disk.old) }
{
    let mut tally = tally;
    let mut at = 132;
    let mut frame = Vec::new(alloc);
    for _ in 0..u64::MAX {
        pass(marks, file, at, tally.time)?;
        match step(disk, file, end, at, &mut frame)? {
            None => return Ok(tally),
            Some((stamp, next)) => {
                tally = with_record(tally, stamp);
                at = next;
            }
        }
    }
    Err(Lack::Memory)
}

/// Passes each record boundary of readable volumes.
pub fn walk_volumes<D: Disk>(
    alloc: Global,
    disk: &mut D,
    volumes: &[(u32, u64)],
    marks: &mut Marks,
) -> Result<Tally, Lack>
    requires { D.tells → AllByRecursion (IsMeasured (contents_of (D.held disk.old))) volumes.now }
    ensures walked { D.tells → IfOk result (AreWalked (contents_of (D.held disk.old)) volumes.now (mark_at marks.old) (mark_at marks.new)) }
    ensures looks { Looks D.Disk disk.old disk.new }
    ensures cause { IfErr result (Blames D.Disk disk.old disk.new) }
    ensures quiet { OnOk result (D.faults disk.new ≡ D.faults disk.old) }
{
    let mut tally = no_records();
    let mut index = 0;
    while index < volumes.len() {
        let (number, end) = volumes[index];
        numbered(number)?;
        tally = walk(alloc, disk, FileId::Volume(number), end, marks, tally)?;
        index += 1;
    }
    Ok(tally)
}
