//! The record boundaries on both sides of an offset.
ghost use Rattle.std.specs.Prelude.{◌≡◌, ◌≤◌, length, IfOk, IfErr, OnOk};
ghost use Rattle.pcp_model.specs.Disk.{contents_of};
ghost use Rattle.pcp_outside.specs.Devices.{IsNumbered};
ghost use Rattle.archive_loading.specs.Looks.{Looks, Blames};
ghost use Rattle.archive_check.specs.Sought.{LiesBetween};

use crate::steps::{numbered, step};
use archive_loading::{Lack, length_of};
use pcp_base::NoMemory;
use pcp_outside::{Disk, FileId};
use std::alloc::Global;

fn reachable(file: FileId) -> Result<(), NoMemory>
    ensures { OnOk result (IsNumbered file) }
{
    match file {
        FileId::Volume(number) => numbered(number),
        FileId::Meta => Ok(()),
        FileId::Index => Ok(()),
    }
}

/// The boundaries around an offset behind the label of a file of this length.
fn around<D: Disk>(
    alloc: Global,
    disk: &mut D,
    file: FileId,
    end: u64,
    offset: u64,
) -> Result<(u64, u64), Lack>
    requires numbered { IsNumbered file }
    requires end { D.tells → end ≡ length (contents_of (D.held disk.old) file) }
    requires behind { 132 ≤ offset }
    ensures between { D.tells → IfOk result (LiesBetween file (contents_of (D.held disk.old) file) offset) }
    ensures looks { Looks D.Disk disk.old disk.new }
    ensures cause { IfErr result (Blames D.Disk disk.old disk.new) }
    ensures quiet { OnOk result (D.faults disk.new ≡ D.faults disk.old) }
{
    let mut at = 132;
    let mut frame = Vec::new(alloc);
    for _ in 0..u64::MAX {
        match step(disk, file, end, at, &mut frame)? {
            None => return Ok((at, offset)),
            Some((_, next)) => {
                if next > offset {
                    return Ok((at, next));
                }
                at = next;
            }
        }
    }
    Err(Lack::Memory)
}

/// The greatest record boundary below an offset that is none, or 0 within the label; and the least one above it, or the offset where
/// none is above. The file is a readable one.
pub fn neighbours<D: Disk>(
    alloc: Global,
    disk: &mut D,
    file: FileId,
    offset: u64,
) -> Result<(u64, u64), Lack>
    ensures between { D.tells → IfOk result (LiesBetween file (contents_of (D.held disk.old) file) offset) }
    ensures looks { Looks D.Disk disk.old disk.new }
    ensures cause { IfErr result (Blames D.Disk disk.old disk.new) }
    ensures quiet { OnOk result (D.faults disk.new ≡ D.faults disk.old) }
{
    if offset < 132 {
        return Ok((0, 132));
    }
    reachable(file)?;
    let end = length_of(disk, file)?;
    around(alloc, disk, file, end, offset)
}
