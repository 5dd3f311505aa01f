//! The last item not after a moment, from a place on, or the one before that place.
ghost use Rattle.std.specs.Prelude.{◌≡◌, ◌⊎◌, ◌<◌, ◌≤◌, length, take, drop, IfOk, IfErr, IfSome, OnOk};
ghost use Rattle.std.specs.List.{AllByRecursion};
ghost use Rattle.pcp_base.specs.declared.file.FileId.TheVariants.{Volume};
ghost use Rattle.pcp_model.specs.Disk.{contents_of};
ghost use Rattle.pcp_outside.specs.Causes.{Rose};
ghost use Rattle.archive_loading.specs.Looks.{Looks};
ghost use Rattle.archive_reader.specs.declared.fault.ReaderFault.TheVariants.{DiskFault};
ghost use Rattle.archive_reader.specs.Asked.{IsSegmentFault, IsAtOn, IsAtOnFault, IsAtFrom, IsAtFault, IsBackAt, IsBackFault, last_filled, back_end};
ghost use Rattle.archive_reader.specs.Lasts.{IsLastOn, BeginsWithin, StartsIn};
ghost use Rattle.archive_loading.specs.Loaded.{IsMeasured, IsReachable, Rises};
ghost use Rattle.archive_reader.specs.Takes.{TakesSegment, TookLast, TakesAround, TakesAt};
ghost use Rattle.archive_reader.specs.Searches.{is_after};
ghost use Rattle.archive_reader.specs.Walks.{volumes_from};

use crate::beginning::Begin;
use crate::fault::ReaderFault;
use crate::segments::{Ahead, next_ahead};
use crate::walking::first_from;
use archive_loading::{Last, last_record};
use pcp_base::{Item, Stamp};
use pcp_outside::{Disk, FileId};
use std::alloc::Global;

/// The last item of the segment from a place on.
fn last_on<D: Disk>(
    alloc: Global,
    disk: &mut D,
    volumes: &[(u32, u64)],
    index: usize,
    at: u64,
    t: Stamp,
) -> Result<Option<Item>, ReaderFault>
    requires within { index ≤ length volumes.now }
    requires numbered { IsReachable volumes.now }
    requires lengths { D.tells → AllByRecursion (IsMeasured (contents_of (D.held disk.old))) volumes.now }
    ensures found { D.tells → IfOk result (IsLastOn (contents_of (D.held disk.old)) (drop index volumes.now) at t) }
    ensures fault { D.tells → IfErr result (IsSegmentFault (contents_of (D.held disk.old)) (drop index volumes.now) at t) }
    ensures count { D.tells → TakesSegment (contents_of (D.held disk.old)) (drop index volumes.now) at t (D.taken disk.old) (D.taken disk.new) }
    ensures looks { Looks D.Disk disk.old disk.new }
    ensures cause { IfErr result (λ e. e ≡ DiskFault → Rose (D.faults disk.old) (D.faults disk.new)) }
    ensures quiet { OnOk result (D.faults disk.new ≡ D.faults disk.old) }
{
    let mut frame = Vec::new(alloc);
    let mut found = None;
    let mut index = index;
    let mut at = at;
    for _ in 0..u64::MAX {
        match next_ahead(disk, volumes, index, at, t, &mut frame)? {
            Ahead::End => return Ok(found),
            Ahead::Item(item, behind, next) => {
                let last = item.to_item(alloc)?;
                found = Some(last);
                index = behind;
                at = next;
            }
        }
    }
    Err(ReaderFault::NoMemory)
}

/// Of so many volumes the last one that holds more than its label.
fn last_filled(volumes: &[(u32, u64)], count: usize) -> Option<(u32, u64)>
    requires { count ≤ length volumes.now }
    ensures { result ≡ last_filled (take count volumes.now) }
{
    let mut left = count;
    while left > 0 {
        let volume = volumes[left - 1];
        left -= 1;
        if volume.1 > 132 {
            return Some(volume);
        }
    }
    None
}

/// Where the record before a place ends: a volume's number, and an offset.
fn back_end(volumes: &[(u32, u64)], number: u32, offset: u64) -> Option<(u32, u64)>
    requires { Rises volumes.now }
    ensures { result ≡ back_end volumes.now number offset }
{
    let index = first_from(volumes, number);
    if offset == 132 {
        return last_filled(volumes, index);
    }
    if index >= volumes.len() {
        return None;
    }
    Some((volumes[index].0, offset))
}

/// Whether an item is stamped after a moment.
fn is_after(item: &Item, t: Stamp) -> bool
    ensures { result ≡ is_after t item.now }
{
    let stamp = match item {
        Item::Sample(answer) => answer.stamp,
        Item::Mark(stamp) => *stamp,
    };
    t.microseconds() < stamp.microseconds()
}

/// The item of the record that ends there, unless it is after the moment.
fn item_before<D: Disk>(
    alloc: Global,
    disk: &mut D,
    end: Option<(u32, u64)>,
    t: Stamp,
) -> Result<Option<Item>, ReaderFault>
    requires numbered { IfSome end (λ v. v.0 < 4294967295) }
    requires within { D.tells → IfSome end (λ v. v.1 ≤ length (contents_of (D.held disk.old) (Volume v.0))) }
    ensures found { D.tells → IfOk result (IsBackAt (contents_of (D.held disk.old)) end t) }
    ensures fault { D.tells → IfErr result (IsBackFault (contents_of (D.held disk.old)) end) }
    ensures count { D.tells → TookLast (contents_of (D.held disk.old)) end (D.taken disk.old) (D.taken disk.new) }
    ensures looks { Looks D.Disk disk.old disk.new }
    ensures cause { IfErr result (λ e. e ≡ DiskFault → Rose (D.faults disk.old) (D.faults disk.new)) }
    ensures quiet { OnOk result (D.faults disk.new ≡ D.faults disk.old) }
{
    let Some((number, at)) = end else {
        return Ok(None);
    };
    match last_record(alloc, disk, number, at)? {
        Last::Nothing => Err(ReaderFault::NotArchive {
            file: FileId::Volume(number),
            at,
        }),
        Last::Bad(first) => Err(ReaderFault::NotArchive {
            file: FileId::Volume(number),
            at: first,
        }),
        Last::Item(item) => {
            if is_after(&item, t) {
                return Ok(None);
            }
            Ok(Some(item))
        }
    }
}

/// The last item of the segment from a place on, or the one before it.
fn at_on<D: Disk>(
    alloc: Global,
    disk: &mut D,
    volumes: &[(u32, u64)],
    number: u32,
    offset: u64,
    t: Stamp,
) -> Result<Option<Item>, ReaderFault>
    requires numbered { IsReachable volumes.now }
    requires rises { Rises volumes.now }
    requires begins { (offset ≡ 132) ⊎ StartsIn (volumes_from number volumes.now) offset }
    requires lengths { D.tells → AllByRecursion (IsMeasured (contents_of (D.held disk.old))) volumes.now }
    ensures found { D.tells → IfOk result (IsAtOn (contents_of (D.held disk.old)) (volumes_from number volumes.now) offset (back_end volumes.now number offset) t) }
    ensures fault { D.tells → IfErr result (IsAtOnFault (contents_of (D.held disk.old)) (volumes_from number volumes.now) offset (back_end volumes.now number offset) t) }
    ensures count { D.tells → TakesAround (contents_of (D.held disk.old)) (volumes_from number volumes.now) offset (back_end volumes.now number offset) t (D.taken disk.old) (D.taken disk.new) }
    ensures looks { Looks D.Disk disk.old disk.new }
    ensures cause { IfErr result (λ e. e ≡ DiskFault → Rose (D.faults disk.old) (D.faults disk.new)) }
    ensures quiet { OnOk result (D.faults disk.new ≡ D.faults disk.old) }
{
    let index = first_from(volumes, number);
    match last_on(alloc, disk, volumes, index, offset, t)? {
        Some(item) => Ok(Some(item)),
        None => item_before(alloc, disk, back_end(volumes, number, offset), t),
    }
}

/// The last item not after a moment, from where its search begins.
pub fn at_from<D: Disk>(
    alloc: Global,
    disk: &mut D,
    volumes: &[(u32, u64)],
    begin: Begin,
    t: Stamp,
) -> Result<Option<Item>, ReaderFault>
    requires numbered { IsReachable volumes.now }
    requires rises { Rises volumes.now }
    requires begins { BeginsWithin volumes.now begin }
    requires lengths { D.tells → AllByRecursion (IsMeasured (contents_of (D.held disk.old))) volumes.now }
    ensures found { D.tells → IfOk result (IsAtFrom (contents_of (D.held disk.old)) volumes.now t begin) }
    ensures fault { D.tells → IfErr result (IsAtFault (contents_of (D.held disk.old)) volumes.now t begin) }
    ensures count { D.tells → TakesAt (contents_of (D.held disk.old)) volumes.now t begin (D.taken disk.old) (D.taken disk.new) }
    ensures looks { Looks D.Disk disk.old disk.new }
    ensures cause { IfErr result (λ e. e ≡ DiskFault → Rose (D.faults disk.old) (D.faults disk.new)) }
    ensures quiet { OnOk result (D.faults disk.new ≡ D.faults disk.old) }
{
    match begin {
        Begin::At(number, offset) => at_on(alloc, disk, volumes, number, offset, t),
        Begin::Outside(number, offset) => Err(ReaderFault::NotArchive {
            file: FileId::Volume(number),
            at: offset,
        }),
    }
}
