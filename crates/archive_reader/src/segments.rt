//! The records of a segment, one after another: from a place on up to the first one stamped after a moment.
ghost use Rattle.std.specs.Prelude.{◌≡◌, ◌≤◌, length, drop, IfOk, IfErr, OnOk};
ghost use Rattle.std.specs.List.{AllByRecursion};
ghost use Rattle.pcp_model.specs.Disk.{contents_of};
ghost use Rattle.pcp_outside.specs.Causes.{Rose};
ghost use Rattle.archive_loading.specs.Looks.{Looks};
ghost use Rattle.archive_reader.specs.declared.fault.ReaderFault.TheVariants.{DiskFault};
ghost use Rattle.archive_reader.specs.Steps.{IsAhead, IsAheadFault, IsAheadIn};
ghost use Rattle.archive_loading.specs.Loaded.{IsMeasured, IsReachable};
ghost use Rattle.archive_reader.specs.Searches.{is_after, is_before};
ghost use Rattle.archive_reader.specs.Takes.{TookNext};

use crate::fault::ReaderFault;
use crate::walking::{Step, walk};
use archive_volume::ItemView;
use pcp_base::Stamp;
use pcp_outside::{Disk, FileId};

/// What follows a place in a segment.
#[derive(Drop)]
pub enum Ahead<'a> {
    /// The segment ends.
    End,
    /// An item, looked at in the buffer; behind it a place: how many volumes are behind, and an offset.
    Item(ItemView<'a>, usize, u64),
}

/// Whether an item is stamped after a moment.
pub fn is_after(item: &ItemView<'_>, t: Stamp) -> bool
    ensures { result ≡ is_after t item.now }
{
    t.microseconds() < item.stamp().microseconds()
}

/// Whether an item is stamped before a moment.
pub fn is_before(item: &ItemView<'_>, t: Stamp) -> bool
    ensures { result ≡ is_before t item.now }
{
    item.stamp().microseconds() < t.microseconds()
}

/// The next item of a segment.
pub fn next_ahead<'a, D: Disk>(
    disk: &mut D,
    volumes: &[(u32, u64)],
    index: usize,
    at: u64,
    t: Stamp,
    frame: &'a mut Vec<u8>,
) -> Result<Ahead<'a>, ReaderFault>
    requires within { index ≤ length volumes.now }
    requires numbered { IsReachable volumes.now }
    requires lengths { D.tells → AllByRecursion (IsMeasured (contents_of (D.held disk.old))) volumes.now }
    ensures found { D.tells → IfOk result (IsAhead (contents_of (D.held disk.old)) volumes.now index at t) }
    ensures fault { D.tells → IfErr result (IsAheadFault (contents_of (D.held disk.old)) (drop index volumes.now) at) }
    ensures within { IfOk result (IsAheadIn volumes.now) }
    ensures count { D.tells → TookNext (contents_of (D.held disk.old)) (drop index volumes.now) at (D.taken disk.old) (D.taken disk.new) }
    ensures looks { Looks D.Disk disk.old disk.new }
    ensures cause { IfErr result (λ e. e ≡ DiskFault → Rose (D.faults disk.old) (D.faults disk.new)) }
    ensures quiet { OnOk result (D.faults disk.new ≡ D.faults disk.old) }
{
    match walk(disk, volumes, index, at, frame)? {
        Step::End => Ok(Ahead::End),
        Step::Bad(number, offset) => Err(ReaderFault::NotArchive {
            file: FileId::Volume(number),
            at: offset,
        }),
        Step::Item(item, behind, next) => {
            if is_after(&item, t) {
                return Ok(Ahead::End);
            }
            Ok(Ahead::Item(item, behind, next))
        }
    }
}
