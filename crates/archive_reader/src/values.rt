//! The last item not after a moment in which a metric has values.
ghost use Rattle.std.specs.Prelude.{◌≡◌, ◌<◌, length, drop, IfOk, IfErr, OnOk};
ghost use Rattle.std.specs.List.{AllByRecursion};
ghost use Rattle.std.specs.Option.{option_copied};
ghost use Rattle.pcp_model.specs.Disk.{contents_of};
ghost use Rattle.pcp_outside.specs.Causes.{Rose};
ghost use Rattle.archive_loading.specs.Looks.{Looks};
ghost use Rattle.archive_reader.specs.declared.fault.ReaderFault.TheVariants.{DiskFault};
ghost use Rattle.archive_loading.specs.Loaded.{IsMeasured, IsReachable};
ghost use Rattle.archive_reader.specs.Values.{shows, first_shown, value_in, is_there, is_hit, later_hit, IsValueAt, IsValueFault, HasItem, ShowsAt, HasLastHit, IsPassFault, IsHitAt, IsLack};

use crate::fault::ReaderFault;
use crate::segments::is_after;
use crate::walking::{Step, stand, stand_within};
use archive_meta::has_values;
use archive_volume::ItemView;
use pcp_base::{Duplicate, Item, NoMemory, Pmid, Stamp, ValueSet};
use pcp_outside::{Disk, FileId};
use result_form::{BodyView, SetView, SetsView};
use std::alloc::Global;

fn shows(set: &ValueSet, pmid: Pmid) -> bool
    ensures { result ≡ shows pmid set.now }
{
    if set.pmid.word() != pmid.word() {
        return false;
    }
    has_values(set)
}

/// The first set with values of this metric.
fn first_shown(sets: &[ValueSet], pmid: Pmid) -> Option<&ValueSet>
    ensures { option_copied result ≡ first_shown pmid sets.now }
{
    let mut index = 0;
    while index < sets.len() {
        if shows(&sets[index], pmid) {
            return Some(&sets[index]);
        }
        index += 1;
    }
    None
}

/// Whether a set that is looked at shows values of this metric.
fn shows_there(set: &SetView<'_>, pmid: Pmid) -> bool
    ensures { result ≡ shows pmid set.now }
{
    if set.pmid().word() != pmid.word() {
        return false;
    }
    match set.body() {
        BodyView::InPlace(_) => true,
        BodyView::Blocks(_) => true,
        BodyView::Status(_) => false,
    }
}

/// Whether one of the sets does.
fn has_shown(sets: SetsView<'_>, pmid: Pmid) -> bool
    ensures { result ≡ is_there (first_shown pmid sets.entry) }
{
    let mut left = sets;
    while let Some(set) = left.next() {
        if shows_there(&set, pmid) {
            return true;
        }
    }
    false
}

/// Whether the metric has values in an item that isn't after the moment.
fn is_hit(item: &ItemView<'_>, pmid: Pmid, t: Stamp) -> bool
    ensures { result ≡ is_hit pmid t item.now }
{
    if is_after(item, t) {
        return false;
    }
    has_shown(item.result().sets(), pmid)
}

/// The offset of the last such item's record, one record later.
fn later_hit(found: Option<u64>, item: &ItemView<'_>, at: u64, pmid: Pmid, t: Stamp) -> Option<u64>
    ensures { result ≡ later_hit pmid t found item.now at }
{
    if is_hit(item, pmid, t) {
        return Some(at);
    }
    found
}

/// Where the record of the last such item of a volume begins.
fn hit_in<D: Disk>(
    alloc: Global,
    disk: &mut D,
    volumes: &[(u32, u64)],
    index: usize,
    pmid: Pmid,
    t: Stamp,
) -> Result<Option<u64>, ReaderFault>
    requires within { index < length volumes.now }
    requires numbered { IsReachable volumes.now }
    requires lengths { D.tells → AllByRecursion (IsMeasured (contents_of (D.held disk.old))) volumes.now }
    ensures found { D.tells → IfOk result (HasLastHit (contents_of (D.held disk.old)) (drop index volumes.now) pmid t) }
    ensures fault { D.tells → IfErr result (IsPassFault (contents_of (D.held disk.old)) (drop index volumes.now)) }
    ensures looks { Looks D.Disk disk.old disk.new }
    ensures cause { IfErr result (λ e. e ≡ DiskFault → Rose (D.faults disk.old) (D.faults disk.new)) }
    ensures quiet { OnOk result (D.faults disk.new ≡ D.faults disk.old) }
{
    let mut frame = Vec::new(alloc);
    let mut found = None;
    let mut at = 132;
    for _ in 0..u64::MAX {
        match stand_within(disk, volumes, index, at, &mut frame)? {
            Step::End => return Ok(found),
            Step::Bad(number, offset) => {
                return Err(ReaderFault::NotArchive {
                    file: FileId::Volume(number),
                    at: offset,
                });
            }
            Step::Item(item, _, next) => {
                found = later_hit(found, &item, at, pmid, t);
                at = next;
            }
        }
    }
    Err(ReaderFault::NoMemory)
}

/// The last such item of these volumes, from the last one down: the position of its volume, and where its record begins.
fn last_hit<D: Disk>(
    alloc: Global,
    disk: &mut D,
    volumes: &[(u32, u64)],
    pmid: Pmid,
    t: Stamp,
) -> Result<Option<(usize, u64)>, ReaderFault>
    requires numbered { IsReachable volumes.now }
    requires lengths { D.tells → AllByRecursion (IsMeasured (contents_of (D.held disk.old))) volumes.now }
    ensures found { D.tells → IfOk result (IsHitAt (contents_of (D.held disk.old)) volumes.now pmid t) }
    ensures fault { D.tells → IfErr result (IsValueFault (contents_of (D.held disk.old)) volumes.now pmid t) }
    ensures looks { Looks D.Disk disk.old disk.new }
    ensures cause { IfErr result (λ e. e ≡ DiskFault → Rose (D.faults disk.old) (D.faults disk.new)) }
    ensures quiet { OnOk result (D.faults disk.new ≡ D.faults disk.old) }
{
    let mut left = volumes.len();
    while left > 0 {
        left -= 1;
        match hit_in(alloc, disk, volumes, left, pmid, t)? {
            Some(at) => return Ok(Some((left, at))),
            None => {}
        }
    }
    Ok(None)
}

/// An item's stamp and its set with values of the metric.
fn value_in(alloc: Global, item: &Item, pmid: Pmid) -> Result<Option<(Stamp, ValueSet)>, NoMemory>
    ensures { IfOk result (λ value. value ≡ value_in pmid item.now) }
{
    let Item::Sample(answer) = item else {
        return Ok(None);
    };
    match first_shown(answer.sets.as_slice(), pmid) {
        Some(set) => Ok(Some((answer.stamp, set.copy(alloc)?))),
        None => Ok(None),
    }
}

/// What the item of the record at a place shows.
fn value_there<D: Disk>(
    alloc: Global,
    disk: &mut D,
    volumes: &[(u32, u64)],
    place: (usize, u64),
    pmid: Pmid,
) -> Result<Option<(Stamp, ValueSet)>, ReaderFault>
    requires numbered { IsReachable volumes.now }
    requires lengths { D.tells → AllByRecursion (IsMeasured (contents_of (D.held disk.old))) volumes.now }
    requires stands { D.tells → HasItem (contents_of (D.held disk.old)) (drop place.0 volumes.now) place.1 }
    ensures found { D.tells → IfOk result (ShowsAt (contents_of (D.held disk.old)) (drop place.0 volumes.now) place.1 pmid) }
    ensures fault { D.tells → IfErr result IsLack }
    ensures looks { Looks D.Disk disk.old disk.new }
    ensures cause { IfErr result (λ e. e ≡ DiskFault → Rose (D.faults disk.old) (D.faults disk.new)) }
    ensures quiet { OnOk result (D.faults disk.new ≡ D.faults disk.old) }
{
    let mut frame = Vec::new(alloc);
    match stand(disk, volumes, place.0, place.1, &mut frame)? {
        Step::End => Ok(None),
        Step::Bad(number, offset) => Err(ReaderFault::NotArchive {
            file: FileId::Volume(number),
            at: offset,
        }),
        Step::Item(item, _, _) => {
            let item = item.to_item(alloc)?;
            let value = value_in(alloc, &item, pmid)?;
            Ok(value)
        }
    }
}

/// The metric's values in the last such item of these volumes, which are taken from the last one down.
pub fn value_from<D: Disk>(
    alloc: Global,
    disk: &mut D,
    volumes: &[(u32, u64)],
    pmid: Pmid,
    t: Stamp,
) -> Result<Option<(Stamp, ValueSet)>, ReaderFault>
    requires numbered { IsReachable volumes.now }
    requires lengths { D.tells → AllByRecursion (IsMeasured (contents_of (D.held disk.old))) volumes.now }
    ensures found { D.tells → IfOk result (IsValueAt (contents_of (D.held disk.old)) volumes.now pmid t) }
    ensures fault { D.tells → IfErr result (IsValueFault (contents_of (D.held disk.old)) volumes.now pmid t) }
    ensures looks { Looks D.Disk disk.old disk.new }
    ensures cause { IfErr result (λ e. e ≡ DiskFault → Rose (D.faults disk.old) (D.faults disk.new)) }
    ensures quiet { OnOk result (D.faults disk.new ≡ D.faults disk.old) }
{
    match last_hit(alloc, disk, volumes, pmid, t)? {
        Some(place) => value_there(alloc, disk, volumes, place, pmid),
        None => Ok(None),
    }
}
