//! The first stamp after a moment.
ghost use Rattle.std.specs.Prelude.{◌≡◌, length, option_to_list, IfOk, IfErr, OnOk};
ghost use Rattle.std.specs.List.{AllByRecursion};
ghost use Rattle.pcp_model.specs.Disk.{contents_of};
ghost use Rattle.pcp_outside.specs.Devices.{IsNumbered};
ghost use Rattle.archive_loading.specs.Loaded.{IsMeasured};
ghost use Rattle.archive_loading.specs.Looks.{Looks, Blames};
ghost use Rattle.archive_check.specs.Breaches.{first_after};
ghost use Rattle.archive_check.specs.Sought.{IsFirstAfter, IsFirstItemAfter};

use crate::steps::{numbered, step};
use archive_loading::Lack;
use pcp_base::Stamp;
use pcp_outside::{Disk, FileId};
use std::alloc::Global;

/// The stamp, where it is after a moment.
fn after(stamp: Option<Stamp>, t: Stamp) -> Option<Stamp>
    ensures { result ≡ first_after t (option_to_list stamp) }
{
    match stamp {
        Some(stamp) => {
            if t.microseconds() < stamp.microseconds() {
                Some(stamp)
            } else {
                None
            }
        }
        None => None,
    }
}

/// The first stamp of a readable file's records that is after a moment.
pub fn first_after<D: Disk>(
    alloc: Global,
    disk: &mut D,
    file: FileId,
    end: u64,
    t: Stamp,
) -> Result<Option<Stamp>, Lack>
    requires numbered { IsNumbered file }
    requires end { D.tells → end ≡ length (contents_of (D.held disk.old) file) }
    ensures found { D.tells → IfOk result (IsFirstAfter file (contents_of (D.held disk.old) file) t) }
    ensures looks { Looks D.Disk disk.old disk.new }
    ensures cause { IfErr result (Blames D.Disk disk.old disk.new) }
    ensures quiet { OnOk result (D.faults disk.new ≡ D.faults disk.old) }
{
    let mut at = 132;
    let mut frame = Vec::new(alloc);
    for _ in 0..u64::MAX {
        match step(disk, file, end, at, &mut frame)? {
            None => return Ok(None),
            Some((stamp, next)) => {
                if let Some(found) = after(stamp, t) {
                    return Ok(Some(found));
                }
                at = next;
            }
        }
    }
    Err(Lack::Memory)
}

/// The first stamp of readable volumes' items that is after a moment.
pub fn first_item_after<D: Disk>(
    alloc: Global,
    disk: &mut D,
    volumes: &[(u32, u64)],
    t: Stamp,
) -> Result<Option<Stamp>, Lack>
    requires { D.tells → AllByRecursion (IsMeasured (contents_of (D.held disk.old))) volumes.now }
    ensures found { D.tells → IfOk result (IsFirstItemAfter (contents_of (D.held disk.old)) volumes.now t) }
    ensures looks { Looks D.Disk disk.old disk.new }
    ensures cause { IfErr result (Blames D.Disk disk.old disk.new) }
    ensures quiet { OnOk result (D.faults disk.new ≡ D.faults disk.old) }
{
    let mut index = 0;
    while index < volumes.len() {
        let (number, end) = volumes[index];
        numbered(number)?;
        match first_after(alloc, disk, FileId::Volume(number), end, t)? {
            Some(stamp) => return Ok(Some(stamp)),
            None => index += 1,
        }
    }
    Ok(None)
}
