//! What is to be written of an archive, which is read for it and left as it is.
ghost use Rattle.std.specs.Prelude.{◌≡◌, ◌++◌, [], IfErr, IfOk, IfSome, IsTrue, None, OnOk, Some, if◌then◌else◌, is_some, length, nat_lt, pos, slice_get};
ghost use Rattle.std.specs.List.{list_all};
ghost use Rattle.pcp_base.specs.declared.file.FileId.TheVariants.{Index as IndexFile, Meta};
ghost use Rattle.pcp_model.specs.Disk.{contents_of};
ghost use Rattle.pcp_model.specs.Labels.{label as spelled};
ghost use Rattle.pcp_model.specs.Records.{entries, entry as spelled_entry};
ghost use Rattle.pcp_outside.specs.Causes.{Rose};
ghost use Rattle.archive_loading.specs.Loaded.{IsOver, IsReachable, numbers};
ghost use Rattle.archive_loading.specs.Looks.{Looks};
ghost use Rattle.archive_reader.specs.declared.fault.ReaderFault.TheVariants.{DiskFault};
ghost use Rattle.log_export.specs.Exported.{is_one_of, kept_entries, same_entry, start_entry};
ghost use Rattle.log_export.specs.Planning.{HasArchive, IsLowPlan, IsMetaEnd, IsPlanOf, IsPlanned, begins_with, first_of, index_label, index_text, is_bare, last_of, left_of};
ghost use Rattle.log_export.specs.Reading.{IsReadFault, IsWant, Walked};

use crate::walking::{Walk, offset_behind, read_all};
use archive_frame::label_bytes;
use archive_loading::{MetaPart, length_of, load_meta};
use archive_reader::{ArchiveReader, ReaderFault};
use archive_recovery::Last;
use pcp_base::{Bytes, List, NoMemory};
use pcp_model::{Entry, Label};
use pcp_outside::{Disk, FileId};
use std::alloc::Global;
use temporal_index::{Index, entry_bytes};

/// What is to be written of an archive; offsets are in bytes.
#[derive(Drop)]
pub(crate) struct Plan {
    /// Up to where Meta's records are whole.
    pub meta: u64,
    /// The index.
    pub index: Bytes,
    /// The last volume that isn't empty, and up to where its records are whole.
    pub last: Option<Last>,
    /// The first volume's label, where no volume has its own.
    pub given: Option<Bytes>,
    /// How many items the archive has.
    pub items: u64,
}

fn copy_of(alloc: Global, bytes: &[u8]) -> Result<Vec<u8>, NoMemory>
    ensures { IfOk result (λ copy. copy.items ≡ bytes.now) }
{
    let copy = Vec::from_slice(alloc, bytes)?;
    Ok(copy)
}

fn put(out: &mut Vec<u8>, bytes: &[u8]) -> Result<(), NoMemory>
    ensures { OnOk result (out.new.items ≡ out.old.items ++ bytes.now) }
{
    out.extend_from_slice(bytes)?;
    Ok(())
}

/// A buffer of so many bytes.
pub(crate) fn zeros(alloc: Global, count: usize) -> Result<Vec<u8>, NoMemory>
    ensures { IfOk result (λ bytes. length bytes.items ≡ count) }
{
    let bytes = vec![in alloc; 0u8; count]?;
    Ok(bytes)
}

/// Meta's label, and up to where its records are whole.
fn meta_end<D: Disk>(alloc: Global, disk: &mut D) -> Result<(Label, u64), ReaderFault>
    requires { D.tells → HasArchive (contents_of (D.held disk.old)) }
    ensures end { D.tells → IfOk result (IsMetaEnd (contents_of (D.held disk.old) Meta)) }
    ensures fault { D.tells → IfErr result IsWant }
    ensures looks { Looks D.Disk disk.old disk.new }
    ensures cause { IfErr result (λ e. e ≡ DiskFault → Rose (D.faults disk.old) (D.faults disk.new)) }
    ensures quiet { OnOk result (D.faults disk.new ≡ D.faults disk.old) }
{
    let file = FileId::Meta;
    match load_meta(alloc, disk)? {
        MetaPart::Whole(label, _, end) => Ok((label, end.end)),
        // Over files that change meanwhile.
        MetaPart::Begun(at) => Err(ReaderFault::NotArchive { file, at }),
        MetaPart::Stops(at) => Err(ReaderFault::NotArchive { file, at }),
    }
}

/// The label of an index of this length: its own, or where that isn't whole the writer's.
fn index_label<D: Disk>(
    alloc: Global,
    disk: &mut D,
    label: &Label,
    size: u64,
) -> Result<Vec<u8>, ReaderFault>
    requires { D.tells → size ≡ length (contents_of (D.held disk.old) IndexFile) }
    ensures label { D.tells → IfOk result (λ bytes. bytes.items ≡ index_label (contents_of (D.held disk.old) IndexFile) label.now) }
    ensures fault { IfErr result IsWant }
    ensures looks { Looks D.Disk disk.old disk.new }
    ensures cause { IfErr result (λ e. e ≡ DiskFault → Rose (D.faults disk.old) (D.faults disk.new)) }
    ensures quiet { OnOk result (D.faults disk.new ≡ D.faults disk.old) }
{
    if size < 132 {
        let bytes = copy_of(alloc, &label_bytes(label, -2))?;
        return Ok(bytes);
    }
    let mut bytes = zeros(alloc, 132)?;
    match disk.read(FileId::Index, 0, &mut bytes) {
        Ok(()) => Ok(bytes),
        Err(_) => Err(ReaderFault::DiskFault),
    }
}

/// The entry of an archive's start, of this first volume.
fn start_entry(label: &Label, first: u32) -> Entry
    ensures { result ≡ start_entry label.now first }
{
    Entry {
        stamp: label.start(),
        volume: first,
        meta: 132,
        offset: 132,
    }
}

fn same_entry(a: &Entry, b: &Entry) -> bool
    ensures { result ≡ same_entry a.now b.now }
{
    a.stamp.sec() == b.stamp.sec()
        && a.stamp.usec() == b.stamp.usec()
        && a.volume == b.volume
        && a.meta == b.meta
        && a.offset == b.offset
}

/// Whether a volume is one of these.
fn is_left(left: &[(u32, u64)], number: u32) -> bool
    ensures { result ≡ is_one_of (numbers left.now) number }
{
    let mut index = 0;
    while index < left.len() {
        if left[index].0 == number {
            return true;
        }
        index += 1;
    }
    false
}

/// The first entry of one of these volumes.
fn first_kept(index: &Index, left: &[(u32, u64)]) -> Option<Entry>
    ensures { result ≡ slice_get (kept_entries (numbers left.now) index.now) 0 }
{
    for at in 0..index.len() {
        if let Some(entry) = index.entry(at) {
            if is_left(left, entry.volume) {
                return Some(entry);
            }
        }
    }
    None
}

/// Whether the entries of these volumes begin with this one.
fn begins_with(index: &Index, left: &[(u32, u64)], entry: &Entry) -> bool
    ensures { result ≡ begins_with entry.now (kept_entries (numbers left.now) index.now) }
{
    match first_kept(index, left) {
        Some(found) => same_entry(entry, &found),
        None => false,
    }
}

/// Puts an entry, if it is of one of these volumes.
fn put_kept(out: &mut Vec<u8>, entry: &Entry, left: &[(u32, u64)]) -> Result<(), NoMemory>
    ensures { OnOk result (out.new.items ≡ out.old.items ++ (if is_one_of (numbers left.now) entry.now.volume then spelled_entry entry.now else [])) }
{
    if !is_left(left, entry.volume) {
        return Ok(());
    }
    put(out, &entry_bytes(entry))
}

/// Puts the entries of these volumes.
fn put_entries(out: &mut Vec<u8>, index: &Index, left: &[(u32, u64)]) -> Result<(), NoMemory>
    ensures { OnOk result (out.new.items ≡ out.old.items ++ entries (kept_entries (numbers left.now) index.now)) }
{
    for at in 0..index.len() {
        if let Some(entry) = index.entry(at) {
            put_kept(out, &entry, left)?;
        }
    }
    Ok(())
}

/// Puts this entry, unless those of these volumes begin with it.
fn put_start(
    out: &mut Vec<u8>,
    index: &Index,
    left: &[(u32, u64)],
    start: &Entry,
) -> Result<(), NoMemory>
    ensures { OnOk result (out.new.items ≡ out.old.items ++ (if begins_with start.now (kept_entries (numbers left.now) index.now) then [] else spelled_entry start.now)) }
{
    if begins_with(index, left, start) {
        return Ok(());
    }
    put(out, &entry_bytes(start))
}

/// The index of an export of these volumes, which aren't empty: its label, the entry of the archive's start, and its entries of those volumes that have
/// their label.
fn index_text<D: Disk>(
    alloc: Global,
    disk: &mut D,
    index: &Index,
    label: &Label,
    volumes: &[(u32, u64)],
    size: u64,
) -> Result<Bytes, ReaderFault>
    requires { D.tells → size ≡ length (contents_of (D.held disk.old) IndexFile) }
    ensures text { D.tells → IfOk result (λ text. text ≡ index_text (contents_of (D.held disk.old) IndexFile) index.now label.now volumes.now) }
    ensures fault { IfErr result IsWant }
    ensures looks { Looks D.Disk disk.old disk.new }
    ensures cause { IfErr result (λ e. e ≡ DiskFault → Rose (D.faults disk.old) (D.faults disk.new)) }
    ensures quiet { OnOk result (D.faults disk.new ≡ D.faults disk.old) }
{
    let mut text = index_label(alloc, disk, label, size)?;
    let left = left_of(volumes);
    let first = first_of(volumes, is_bare(volumes));
    put_start(&mut text, index, left, &start_entry(label, first))?;
    put_entries(&mut text, index, left)?;
    Ok(List::from_vec(text))
}

/// Whether each of these volumes has fewer than 2^64 - 1 bytes, as it had when it was listed.
fn are_countable(volumes: &[(u32, u64)]) -> bool
    ensures { result ≡ list_all (λ v. nat_lt v.1 18446744073709551615) volumes.now }
{
    volumes.iter().all(|volume| volume.1 < u64::MAX)
}

/// Whether no volume of these, which aren't empty, has its label. Each but the last has it.
fn is_bare(volumes: &[(u32, u64)]) -> bool
    ensures { result ≡ is_bare volumes.now }
{
    match volumes {
        [] => true,
        [only] => only.1 < 132,
        _ => false,
    }
}

/// The number of the first volume with its label, or 0.
fn first_of(volumes: &[(u32, u64)], bare: bool) -> u32
    ensures { result ≡ first_of bare volumes.now }
{
    if bare {
        return 0;
    }
    match volumes {
        [first, ..] => first.0,
        [] => 0,
    }
}

/// Those of these volumes that have their label: all, or all but the last.
fn left_of(volumes: &[(u32, u64)]) -> &[(u32, u64)]
    ensures { result.now ≡ left_of volumes.now }
{
    if volumes.is_empty() {
        return volumes;
    }
    let last = volumes.len() - 1;
    if volumes[last].1 < 132 {
        return &volumes[..last];
    }
    volumes
}

/// Where the whole records of a volume of this length end, if its label is whole.
fn end_within(end: u64, length: u64) -> Option<u64>
    ensures { result ≡ (if nat_lt length 132 then None else Some end) }
{
    if length < 132 {
        return None;
    }
    Some(end)
}

/// The last of these volumes, whose whole records end there, if its label is whole.
fn last_of(volumes: &[(u32, u64)], end: u64) -> Option<Last>
    ensures { result ≡ last_of end volumes.now }
{
    if volumes.is_empty() {
        return None;
    }
    let (number, length) = volumes[volumes.len() - 1];
    Some(Last {
        number,
        end: end_within(end, length),
        length,
    })
}

/// The first volume's label, where no volume has its own.
fn given_label(alloc: Global, label: &Label, bare: bool) -> Result<Option<Bytes>, NoMemory>
    ensures { IfOk result (λ given. given ≡ (if bare then Some (spelled label.now (pos 0)) else None)) }
{
    if !bare {
        return Ok(None);
    }
    let bytes = copy_of(alloc, &label_bytes(label, 0))?;
    Ok(Some(List::from_vec(bytes)))
}

/// What is to be written of an archive that was walked.
fn plan_walked<D: Disk>(
    alloc: Global,
    disk: &mut D,
    reader: &ArchiveReader,
    walk: Walk,
) -> Result<Plan, ReaderFault>
    requires over { D.tells → IsOver (contents_of (D.held disk.old)) reader.now }
    requires labelled { D.tells → IsTrue (is_some reader.now.label) }
    requires reachable { IsReachable reader.now.volumes }
    requires walked { D.tells → Walked (contents_of (D.held disk.old)) reader.now.volumes walk }
    ensures plan { D.tells → IfOk result (IsPlanOf (contents_of (D.held disk.old))) }
    ensures low { IfOk result IsLowPlan }
    ensures fault { D.tells → IfErr result IsWant }
    ensures looks { Looks D.Disk disk.old disk.new }
    ensures cause { IfErr result (λ e. e ≡ DiskFault → Rose (D.faults disk.old) (D.faults disk.new)) }
    ensures quiet { OnOk result (D.faults disk.new ≡ D.faults disk.old) }
{
    let volumes = reader.volumes();
    if !are_countable(volumes) {
        return Err(ReaderFault::NoMemory);
    }
    let (label, meta) = meta_end(alloc, disk)?;
    let size = length_of(disk, FileId::Index)?;
    let index = index_text(alloc, disk, reader.index(), &label, volumes, size)?;
    let given = given_label(alloc, &label, is_bare(volumes))?;
    Ok(Plan {
        meta,
        index,
        last: last_of(volumes, offset_behind(volumes, walk.end)),
        given,
        items: walk.items,
    })
}

/// Reads an archive whole, as a dump does, and answers what is to be written of it; nothing where it has no label.
pub(crate) fn plan_export<D: Disk>(alloc: Global, disk: &mut D) -> Result<Option<Plan>, ReaderFault>
    ensures planned { D.tells → IfOk result (IsPlanned (contents_of (D.held disk.old))) }
    ensures unwrapped { D.tells → OnOk result (D.wrapped_file disk.old ≡ None) }
    ensures low { IfOk result (λ found. IfSome found IsLowPlan) }
    ensures fault { D.tells → IfErr result (IsReadFault (D.wrapped_file disk.old) (contents_of (D.held disk.old))) }
    ensures looks { Looks D.Disk disk.old disk.new }
    ensures cause { IfErr result (λ e. e ≡ DiskFault → Rose (D.faults disk.old) (D.faults disk.new)) }
    ensures quiet { OnOk result (D.faults disk.new ≡ D.faults disk.old) }
{
    let reader = ArchiveReader::load(alloc, disk)?;
    let walk = read_all(alloc, disk, &reader)?;
    if reader.label().is_none() {
        return Ok(None);
    }
    let plan = plan_walked(alloc, disk, &reader, walk)?;
    Ok(Some(plan))
}
