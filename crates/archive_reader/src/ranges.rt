//! The items between two moments, from a place on.
ghost use Rattle.std.specs.Prelude.{◌≡◌, ◌≤◌, length, drop, IfOk, IfErr, OnOk};
ghost use Rattle.std.specs.List.{AllByRecursion};
ghost use Rattle.pcp_model.specs.Disk.{contents_of};
ghost use Rattle.pcp_outside.specs.Causes.{Rose};
ghost use Rattle.archive_loading.specs.Looks.{Looks};
ghost use Rattle.archive_reader.specs.declared.fault.ReaderFault.TheVariants.{DiskFault};
ghost use Rattle.archive_reader.specs.Asked.{IsRangeOn, IsSegmentFault, IsRangeFrom, IsRangeFault, kept_from};
ghost use Rattle.archive_loading.specs.Loaded.{IsMeasured, IsReachable, Rises};
ghost use Rattle.archive_reader.specs.Takes.{TakesSegment, TakesRange};

use crate::beginning::Begin;
use crate::fault::ReaderFault;
use crate::segments::{Ahead, is_before, next_ahead};
use crate::walking::first_from;
use archive_volume::ItemView;
use pcp_base::{Item, List, NoMemory, Stamp};
use pcp_outside::{Disk, FileId};
use std::alloc::Global;

/// An item, unless it is before the range, behind those found.
fn kept(
    alloc: Global,
    found: List<Item>,
    item: &ItemView<'_>,
    from: Stamp,
) -> Result<List<Item>, NoMemory>
    ensures { IfOk result (λ all. all ≡ kept_from from found item.now) }
{
    let mut found = found;
    if is_before(item, from) {
        return Ok(found);
    }
    found.push(item.to_item(alloc)?)?;
    Ok(found)
}

/// The items of the segment from a place on that aren't before the range.
fn range_on<D: Disk>(
    alloc: Global,
    disk: &mut D,
    volumes: &[(u32, u64)],
    index: usize,
    at: u64,
    from: Stamp,
    to: Stamp,
) -> Result<List<Item>, ReaderFault>
    requires within { index ≤ length volumes.now }
    requires numbered { IsReachable volumes.now }
    requires lengths { D.tells → AllByRecursion (IsMeasured (contents_of (D.held disk.old))) volumes.now }
    ensures found { D.tells → IfOk result (IsRangeOn (contents_of (D.held disk.old)) (drop index volumes.now) at from to) }
    ensures fault { D.tells → IfErr result (IsSegmentFault (contents_of (D.held disk.old)) (drop index volumes.now) at to) }
    ensures count { D.tells → TakesSegment (contents_of (D.held disk.old)) (drop index volumes.now) at to (D.taken disk.old) (D.taken disk.new) }
    ensures looks { Looks D.Disk disk.old disk.new }
    ensures cause { IfErr result (λ e. e ≡ DiskFault → Rose (D.faults disk.old) (D.faults disk.new)) }
    ensures quiet { OnOk result (D.faults disk.new ≡ D.faults disk.old) }
{
    let mut frame = Vec::new(alloc);
    let mut found = List::empty(alloc);
    let mut index = index;
    let mut at = at;
    for _ in 0..u64::MAX {
        match next_ahead(disk, volumes, index, at, to, &mut frame)? {
            Ahead::End => return Ok(found),
            Ahead::Item(item, behind, next) => {
                found = kept(alloc, found, &item, from)?;
                index = behind;
                at = next;
            }
        }
    }
    Err(ReaderFault::NoMemory)
}

/// The items of a range, from where its search begins.
pub fn range_from<D: Disk>(
    alloc: Global,
    disk: &mut D,
    volumes: &[(u32, u64)],
    begin: Begin,
    from: Stamp,
    to: Stamp,
) -> Result<List<Item>, ReaderFault>
    requires numbered { IsReachable volumes.now }
    requires rises { Rises volumes.now }
    requires lengths { D.tells → AllByRecursion (IsMeasured (contents_of (D.held disk.old))) volumes.now }
    ensures found { D.tells → IfOk result (IsRangeFrom (contents_of (D.held disk.old)) volumes.now from to begin) }
    ensures fault { D.tells → IfErr result (IsRangeFault (contents_of (D.held disk.old)) volumes.now to begin) }
    ensures count { D.tells → TakesRange (contents_of (D.held disk.old)) volumes.now to begin (D.taken disk.old) (D.taken disk.new) }
    ensures looks { Looks D.Disk disk.old disk.new }
    ensures cause { IfErr result (λ e. e ≡ DiskFault → Rose (D.faults disk.old) (D.faults disk.new)) }
    ensures quiet { OnOk result (D.faults disk.new ≡ D.faults disk.old) }
{
    match begin {
        Begin::At(number, offset) => {
            let index = first_from(volumes, number);
            range_on(alloc, disk, volumes, index, offset, from, to)
        }
        Begin::Outside(number, offset) => Err(ReaderFault::NotArchive {
            file: FileId::Volume(number),
            at: offset,
        }),
    }
}
