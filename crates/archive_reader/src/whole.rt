//! All records of an archive's volumes, each of which has to be an item's.
ghost use Rattle.std.specs.Prelude.{◌≡◌, IfErr, OnOk};
ghost use Rattle.std.specs.List.{AllByRecursion};
ghost use Rattle.pcp_model.specs.Disk.{contents_of};
ghost use Rattle.pcp_outside.specs.Causes.{Rose};
ghost use Rattle.archive_loading.specs.Looks.{Looks};
ghost use Rattle.archive_loading.specs.Loaded.{IsMeasured, IsReachable};
ghost use Rattle.archive_reader.specs.declared.fault.ReaderFault.TheVariants.{DiskFault};
ghost use Rattle.archive_reader.specs.Values.{AllRead, IsWholeFault};

use crate::fault::ReaderFault;
use crate::walking::{Step, walk};
use pcp_outside::{Disk, FileId};
use std::alloc::Global;

/// Reads each record of these volumes.
pub fn read_each<D: Disk>(
    alloc: Global,
    disk: &mut D,
    volumes: &[(u32, u64)],
) -> Result<(), ReaderFault>
    requires numbered { IsReachable volumes.now }
    requires lengths { D.tells → AllByRecursion (IsMeasured (contents_of (D.held disk.old))) volumes.now }
    ensures read { D.tells → OnOk result (AllRead (contents_of (D.held disk.old)) volumes.now) }
    ensures fault { D.tells → IfErr result (IsWholeFault (contents_of (D.held disk.old)) volumes.now) }
    ensures looks { Looks D.Disk disk.old disk.new }
    ensures cause { IfErr result (λ e. e ≡ DiskFault → Rose (D.faults disk.old) (D.faults disk.new)) }
    ensures quiet { OnOk result (D.faults disk.new ≡ D.faults disk.old) }
{
    let mut frame = Vec::new(alloc);
    let mut index = 0;
    let mut at = 132;
    for _ in 0..u64::MAX {
        match walk(disk, volumes, index, at, &mut frame)? {
            Step::End => return Ok(()),
            Step::Bad(number, offset) => {
                return Err(ReaderFault::NotArchive {
                    file: FileId::Volume(number),
                    at: offset,
                });
            }
            Step::Item(_, behind, next) => {
                index = behind;
                at = next;
            }
        }
    }
    Err(ReaderFault::NoMemory)
}
