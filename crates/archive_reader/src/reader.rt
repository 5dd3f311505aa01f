//! What a reader keeps of an archive, and its calls.
ghost use Rattle.std.specs.Prelude.{◌≡◌, ◌≢◌, ◌⊎◌, [], ◌<◌, ◌≤◌, ℕ, length, drop, None, IfOk, IfErr, OnOk, MatchBool};
ghost use Rattle.std.specs.List.{AllByRecursion};
ghost use Rattle.std.specs.Option.{option_copied};
ghost use Rattle.pcp_model.specs.Disk.{contents_of};
ghost use Rattle.pcp_outside.specs.Causes.{Rose};
ghost use Rattle.archive_loading.specs.Looks.{Looks};
ghost use Rattle.archive_reader.specs.declared.fault.ReaderFault.TheVariants.{DiskFault};
ghost use Rattle.pcp_base.specs.declared.file.FileId.TheVariants.{Meta};
ghost use Rattle.archive_loading.specs.declared.metadata.MetaPart.TheVariants.{Begun};
ghost use Rattle.archive_loading.specs.Loaded.{IsOver, IsMeasured, Rises, IsReachable, HasLong, AllShort};
ghost use Rattle.archive_loading.specs.LoadFaults.{HeadIs, MetaIs};
ghost use Rattle.archive_loading.specs.Metadata.{IsMetaPart};
ghost use Rattle.archive_loading.specs.Takes.{TookLabels};
ghost use Rattle.archive_reader.specs.LoadFaults.{IsFilesFault, IsLoadFault};
ghost use Rattle.archive_reader.specs.Asked.{IsRangeFrom, IsRangeFault, range_begin, IsAtFrom, IsAtFault, at_begin};
ghost use Rattle.archive_reader.specs.Takes.{TakesRange, TakesAt};
ghost use Rattle.archive_reader.specs.Values.{IsValueAt, IsValueFault, AllRead, IsWholeFault};
ghost use Rattle.archive_reader.specs.Nexts.{IsNext, IsNextFault};
ghost use Rattle.archive_reader.specs.Walks.{volumes_from};

use crate::beginning::{begin_of, entry_before, entry_by};
use crate::fault::ReaderFault;
use crate::lasts::at_from;
use crate::places::Place;
use crate::ranges::range_from;
use crate::values::value_from;
use crate::walking::{Step, first_from, walk};
use crate::whole::read_each;
use archive_loading::{
    IndexPart, MetaPart, VolumesPart, is_alone, load_index, load_meta, load_volumes, no_entries,
    wrapped_file,
};
use archive_meta::MetaState;
use archive_volume::ItemView;
use pcp_base::{Item, List, Pmid, Stamp, ValueSet};
use pcp_model::Label;
use pcp_outside::{Disk, FileId};
use std::alloc::Global;
use std::marker::Model;
use temporal_index::Index;

/// An archive that is read (LOGARCHIVE(5)): its label, its metadata, its index, and which volumes it has. The volumes' records
/// stay on the disk.
#[derive(Drop)]
pub struct ArchiveReader {
    label: Option<Label>,
    meta: MetaState,
    index: Index,
    volumes: List<(u32, u64)>,
}

impl Model for ArchiveReader {
    ghost use Rattle.archive_loading.specs.Loaded.{Loaded, IsReachable, Rises};

    ghost Value = { Loaded };

    ghost view = { λ a. record { label = a.label; records = a.meta; entries = a.index; volumes = a.volumes } };

    ghost invariant = { λ a. IsReachable a.volumes × Rises a.volumes };
}

/// Whether some volume has as many bytes as a label.
fn has_label(volumes: &[(u32, u64)]) -> bool
    ensures { MatchBool result (HasLong volumes.now) (AllShort volumes.now) }
{
    volumes.iter().any(|volume| volume.1 >= 132)
}

/// Whether the index has no entry, or some volume as many bytes as a label.
fn is_beside(index: &Index, volumes: &[(u32, u64)]) -> bool
    ensures { MatchBool result ((index.now ≡ []) ⊎ HasLong volumes.now) ((index.now ≢ []) × AllShort volumes.now) }
{
    if index.is_empty() {
        return true;
    }
    has_label(volumes)
}

/// A reader of an archive with this metadata and this index.
fn load_behind<D: Disk>(
    alloc: Global,
    disk: &mut D,
    label: Label,
    meta: MetaState,
    index: Index,
) -> Result<ArchiveReader, ReaderFault>
    requires { D.tells → HeadIs (contents_of (D.held disk.old)) label meta index }
    ensures loaded { D.tells → IfOk result (IsOver (contents_of (D.held disk.old))) }
    ensures fault { D.tells → IfErr result (IsFilesFault (contents_of (D.held disk.old))) }
    ensures taken { D.tells → TookLabels (contents_of (D.held disk.old)) (D.taken disk.old) (D.taken disk.new) }
    ensures looks { Looks D.Disk disk.old disk.new }
    ensures cause { IfErr result (λ e. e ≡ DiskFault → Rose (D.faults disk.old) (D.faults disk.new)) }
    ensures quiet { OnOk result (D.faults disk.new ≡ D.faults disk.old) }
{
    let volumes = match load_volumes(alloc, disk, &label)? {
        VolumesPart::Headed(volumes) => volumes,
        VolumesPart::Stops(number, at) => {
            return Err(ReaderFault::NotArchive {
                file: FileId::Volume(number),
                at,
            });
        }
    };
    if !is_beside(&index, volumes.as_slice()) {
        return Err(ReaderFault::NotArchive {
            file: FileId::Index,
            at: 132,
        });
    }
    Ok(ArchiveReader {
        label: Some(label),
        meta,
        index,
        volumes,
    })
}

/// A reader of an archive with this metadata.
fn load_with<D: Disk>(
    alloc: Global,
    disk: &mut D,
    label: Label,
    meta: MetaState,
) -> Result<ArchiveReader, ReaderFault>
    requires { D.tells → MetaIs (contents_of (D.held disk.old)) label meta }
    ensures loaded { D.tells → IfOk result (IsOver (contents_of (D.held disk.old))) }
    ensures fault { D.tells → IfErr result (IsFilesFault (contents_of (D.held disk.old))) }
    ensures taken { D.tells → TookLabels (contents_of (D.held disk.old)) (D.taken disk.old) (D.taken disk.new) }
    ensures looks { Looks D.Disk disk.old disk.new }
    ensures cause { IfErr result (λ e. e ≡ DiskFault → Rose (D.faults disk.old) (D.faults disk.new)) }
    ensures quiet { OnOk result (D.faults disk.new ≡ D.faults disk.old) }
{
    match load_index(alloc, disk, &label)? {
        IndexPart::Whole(index) => load_behind(alloc, disk, label, meta, index),
        IndexPart::Stops(at) => Err(ReaderFault::NotArchive {
            file: FileId::Index,
            at,
        }),
    }
}

/// A reader of a creation that was stopped, whose Meta has so many bytes.
fn load_begun<D: Disk>(
    alloc: Global,
    disk: &mut D,
    length: u64,
) -> Result<ArchiveReader, ReaderFault>
    requires { D.tells → IsMetaPart (contents_of (D.held disk.old) Meta) (Begun length) }
    ensures loaded { D.tells → IfOk result (IsOver (contents_of (D.held disk.old))) }
    ensures fault { D.tells → IfErr result (IsFilesFault (contents_of (D.held disk.old))) }
    ensures taken { D.tells → TookLabels (contents_of (D.held disk.old)) (D.taken disk.old) (D.taken disk.new) }
    ensures looks { Looks D.Disk disk.old disk.new }
    ensures cause { IfErr result (λ e. e ≡ DiskFault → Rose (D.faults disk.old) (D.faults disk.new)) }
    ensures quiet { OnOk result (D.faults disk.new ≡ D.faults disk.old) }
{
    if !is_alone(disk)? {
        return Err(ReaderFault::NotArchive {
            file: FileId::Meta,
            at: length,
        });
    }
    Ok(ArchiveReader {
        label: None,
        meta: MetaState::empty(alloc),
        index: no_entries(alloc)?,
        volumes: List::empty(alloc),
    })
}

/// A reader of files that stand under their own names.
fn load_files<D: Disk>(alloc: Global, disk: &mut D) -> Result<ArchiveReader, ReaderFault>
    ensures loaded { D.tells → IfOk result (IsOver (contents_of (D.held disk.old))) }
    ensures fault { D.tells → IfErr result (IsFilesFault (contents_of (D.held disk.old))) }
    ensures taken { D.tells → TookLabels (contents_of (D.held disk.old)) (D.taken disk.old) (D.taken disk.new) }
    ensures looks { Looks D.Disk disk.old disk.new }
    ensures cause { IfErr result (λ e. e ≡ DiskFault → Rose (D.faults disk.old) (D.faults disk.new)) }
    ensures quiet { OnOk result (D.faults disk.new ≡ D.faults disk.old) }
{
    match load_meta(alloc, disk)? {
        MetaPart::Whole(label, meta, _) => load_with(alloc, disk, label, meta),
        MetaPart::Begun(length) => load_begun(alloc, disk, length),
        MetaPart::Stops(at) => Err(ReaderFault::NotArchive {
            file: FileId::Meta,
            at,
        }),
    }
}

/// The number of the first volume, or 0.
fn first_number(volumes: &[(u32, u64)]) -> u32
    ensures { volumes_from result volumes.now ≡ volumes.now }
{
    match volumes {
        [first, ..] => first.0,
        [] => 0,
    }
}

/// The next record's item from a place on.
fn view_from<'a, D: Disk>(
    disk: &mut D,
    volumes: &[(u32, u64)],
    place: Place,
    frame: &'a mut Vec<u8>,
) -> Result<Option<(ItemView<'a>, Place)>, ReaderFault>
    requires numbered { IsReachable volumes.now }
    requires lengths { D.tells → AllByRecursion (IsMeasured (contents_of (D.held disk.old))) volumes.now }
    requires rises { Rises volumes.now }
    ensures found { D.tells → IfOk result (IsNext (contents_of (D.held disk.old)) volumes.now place) }
    ensures fault { D.tells → IfErr result (IsNextFault (contents_of (D.held disk.old)) volumes.now place) }
    ensures looks { Looks D.Disk disk.old disk.new }
    ensures cause { IfErr result (λ e. e ≡ DiskFault → Rose (D.faults disk.old) (D.faults disk.new)) }
    ensures quiet { OnOk result (D.faults disk.new ≡ D.faults disk.old) }
{
    let index = first_from(volumes, place.volume);
    match walk(disk, volumes, index, place.offset, frame)? {
        Step::Item(item, behind, offset) => {
            let volume = volumes[behind].0;
            Ok(Some((item, Place { volume, offset })))
        }
        Step::Bad(number, at) => Err(ReaderFault::NotArchive {
            file: FileId::Volume(number),
            at,
        }),
        Step::End => Ok(None),
    }
}

impl ArchiveReader {
    /// The archive on a disk: Meta and the index are read, and of each volume its label. A torn end of Meta, of the index or of
    /// the last volume is its end. `Compressed` and `NotArchive` name the first place that is wrong: Meta's are looked at
    /// first, then the index's, then each volume's label, and last whether the index has an entry beside no volume with its
    /// label (the index at 132). Of each volume it takes no byte behind the label.
    pub fn load<D: Disk>(alloc: Global, disk: &mut D) -> Result<ArchiveReader, ReaderFault>
        ensures loaded { D.tells → IfOk result (IsOver (contents_of (D.held disk.old))) }
        ensures unwrapped { D.tells → OnOk result (D.wrapped_file disk.old ≡ None) }
        ensures fault { D.tells → IfErr result (IsLoadFault (D.wrapped_file disk.old) (contents_of (D.held disk.old))) }
        ensures taken { D.tells → TookLabels (contents_of (D.held disk.old)) (D.taken disk.old) (D.taken disk.new) }
        ensures looks { Looks D.Disk disk.old disk.new }
        ensures cause { IfErr result (λ e. e ≡ DiskFault → Rose (D.faults disk.old) (D.faults disk.new)) }
        ensures quiet { OnOk result (D.faults disk.new ≡ D.faults disk.old) }
    {
        match wrapped_file(disk)? {
            Some(file) => Err(ReaderFault::Compressed { file }),
            None => load_files(alloc, disk),
        }
    }

    /// The archive's label; `None` of a creation that was stopped before it was whole.
    pub fn label(&self) -> Option<&Label>
        ensures { option_copied result ≡ self.now.label }
    {
        self.label.as_ref()
    }

    /// The records of Meta, by which metrics and instances have their descriptions and names.
    pub fn meta(&self) -> &MetaState
        ensures { result.now ≡ self.now.records }
    {
        &self.meta
    }

    /// The entries of the index.
    pub fn index(&self) -> &Index
        ensures { result.now ≡ self.now.entries }
    {
        &self.index
    }

    /// The volumes that aren't empty, by ascending number: of each its number and how many bytes it holds.
    pub fn volumes(&self) -> &[(u32, u64)]
        ensures { result.now ≡ self.now.volumes }
    {
        self.volumes.as_slice()
    }

    /// The place of the first record.
    pub fn start(&self) -> Place
        ensures volume { volumes_from result.volume self.now.volumes ≡ self.now.volumes }
        ensures offset { result.offset ≡ 132 }
    {
        Place {
            volume: first_number(self.volumes.as_slice()),
            offset: 132,
        }
    }

    /// The item of the next record from a place on, looked at where it was taken: in a buffer, of which it replaces what was there.
    /// A call takes no memory but the buffer's, which grows to the longest record. Else it answers as `item_at`.
    pub fn view_at<'a, D: Disk>(
        &self,
        disk: &mut D,
        place: Place,
        frame: &'a mut Vec<u8>,
    ) -> Result<Option<(ItemView<'a>, Place)>, ReaderFault>
        requires { D.tells → IsOver (contents_of (D.held disk.old)) self.now }
        ensures found { D.tells → IfOk result (IsNext (contents_of (D.held disk.old)) self.now.volumes place) }
        ensures fault { D.tells → IfErr result (IsNextFault (contents_of (D.held disk.old)) self.now.volumes place) }
        ensures looks { Looks D.Disk disk.old disk.new }
        ensures cause { IfErr result (λ e. e ≡ DiskFault → Rose (D.faults disk.old) (D.faults disk.new)) }
        ensures quiet { OnOk result (D.faults disk.new ≡ D.faults disk.old) }
    {
        view_from(disk, self.volumes.as_slice(), place, frame)
    }

    /// The item of the next record from a place on, over the ends of volumes, and the place behind it; `None` where no whole
    /// record follows. The place is `start` or was answered by this reader, and the disk is that of `load`, unchanged.
    pub fn item_at<D: Disk>(
        &mut self,
        alloc: Global,
        disk: &mut D,
        place: Place,
    ) -> Result<Option<(Item, Place)>, ReaderFault>
        requires { D.tells → IsOver (contents_of (D.held disk.old)) self.old }
        ensures same { self.new ≡ self.old }
        ensures found { D.tells → IfOk result (IsNext (contents_of (D.held disk.old)) self.old.volumes place) }
        ensures fault { D.tells → IfErr result (IsNextFault (contents_of (D.held disk.old)) self.old.volumes place) }
        ensures looks { Looks D.Disk disk.old disk.new }
        ensures cause { IfErr result (λ e. e ≡ DiskFault → Rose (D.faults disk.old) (D.faults disk.new)) }
        ensures quiet { OnOk result (D.faults disk.new ≡ D.faults disk.old) }
    {
        let mut frame = Vec::new(alloc);
        match self.view_at(disk, place, &mut frame)? {
            Some((item, next)) => Ok(Some((item.to_item(alloc)?, next))),
            None => Ok(None),
        }
    }

    /// The items stamped neither before the first moment nor after the second, of the records from where the index says up to the
    /// first one stamped after the second. Over an archive whose stamps fall, or whose index points elsewhere, these need not be
    /// all. An entry that leads outside its volume's records is `NotArchive` at its offset. The disk is that of `load`, unchanged.
    pub fn range<D: Disk>(
        &mut self,
        alloc: Global,
        disk: &mut D,
        from: Stamp,
        to: Stamp,
    ) -> Result<List<Item>, ReaderFault>
        requires { D.tells → IsOver (contents_of (D.held disk.old)) self.old }
        ensures same { self.new ≡ self.old }
        ensures found { D.tells → IfOk result (IsRangeFrom (contents_of (D.held disk.old)) self.old.volumes from to (range_begin self.old from)) }
        ensures fault { D.tells → IfErr result (IsRangeFault (contents_of (D.held disk.old)) self.old.volumes to (range_begin self.old from)) }
        ensures taken { D.tells → TakesRange (contents_of (D.held disk.old)) self.old.volumes to (range_begin self.old from) (D.taken disk.old) (D.taken disk.new) }
        ensures looks { Looks D.Disk disk.old disk.new }
        ensures cause { IfErr result (λ e. e ≡ DiskFault → Rose (D.faults disk.old) (D.faults disk.new)) }
        ensures quiet { OnOk result (D.faults disk.new ≡ D.faults disk.old) }
    {
        let volumes = self.volumes.as_slice();
        let begin = begin_of(volumes, entry_before(&self.index, from));
        range_from(alloc, disk, volumes, begin, from, to)
    }

    /// The last item not after a moment, of the records from where the index says up to the first one stamped after the moment;
    /// where these are none, the item of the record that ends there, over the start of a volume too, unless it is after the moment.
    /// Over a sound archive it is the last of the scan that isn't after the moment. `NotArchive` names, of an entry that leads
    /// outside its volume's records, its offset, and so of one where no record ends that has to. The disk is that of `load`,
    /// unchanged.
    pub fn at<D: Disk>(
        &mut self,
        alloc: Global,
        disk: &mut D,
        t: Stamp,
    ) -> Result<Option<Item>, ReaderFault>
        requires { D.tells → IsOver (contents_of (D.held disk.old)) self.old }
        ensures same { self.new ≡ self.old }
        ensures found { D.tells → IfOk result (IsAtFrom (contents_of (D.held disk.old)) self.old.volumes t (at_begin self.old t)) }
        ensures fault { D.tells → IfErr result (IsAtFault (contents_of (D.held disk.old)) self.old.volumes t (at_begin self.old t)) }
        ensures taken { D.tells → TakesAt (contents_of (D.held disk.old)) self.old.volumes t (at_begin self.old t) (D.taken disk.old) (D.taken disk.new) }
        ensures looks { Looks D.Disk disk.old disk.new }
        ensures cause { IfErr result (λ e. e ≡ DiskFault → Rose (D.faults disk.old) (D.faults disk.new)) }
        ensures quiet { OnOk result (D.faults disk.new ≡ D.faults disk.old) }
    {
        let volumes = self.volumes.as_slice();
        let begin = begin_of(volumes, entry_by(&self.index, t));
        at_from(alloc, disk, volumes, begin, t)
    }

    /// The stamp and the values of a metric in the last item not after a moment in which it has values; `None` where there is none.
    /// The volumes are read from the last one down, up to the first that has such an item; each of their records has to be an
    /// item's. The disk is that of `load`, unchanged.
    pub fn value_at<D: Disk>(
        &mut self,
        alloc: Global,
        disk: &mut D,
        pmid: Pmid,
        t: Stamp,
    ) -> Result<Option<(Stamp, ValueSet)>, ReaderFault>
        requires { D.tells → IsOver (contents_of (D.held disk.old)) self.old }
        ensures same { self.new ≡ self.old }
        ensures found { D.tells → IfOk result (IsValueAt (contents_of (D.held disk.old)) self.old.volumes pmid t) }
        ensures fault { D.tells → IfErr result (IsValueFault (contents_of (D.held disk.old)) self.old.volumes pmid t) }
        ensures looks { Looks D.Disk disk.old disk.new }
        ensures cause { IfErr result (λ e. e ≡ DiskFault → Rose (D.faults disk.old) (D.faults disk.new)) }
        ensures quiet { OnOk result (D.faults disk.new ≡ D.faults disk.old) }
    {
        value_from(alloc, disk, self.volumes.as_slice(), pmid, t)
    }

    /// Reads each record of all volumes, which has to be an item's. The disk is that of `load`, unchanged.
    pub fn read_all<D: Disk>(&self, alloc: Global, disk: &mut D) -> Result<(), ReaderFault>
        requires { D.tells → IsOver (contents_of (D.held disk.old)) self.now }
        ensures read { D.tells → OnOk result (AllRead (contents_of (D.held disk.old)) self.now.volumes) }
        ensures fault { D.tells → IfErr result (IsWholeFault (contents_of (D.held disk.old)) self.now.volumes) }
        ensures looks { Looks D.Disk disk.old disk.new }
        ensures cause { IfErr result (λ e. e ≡ DiskFault → Rose (D.faults disk.old) (D.faults disk.new)) }
        ensures quiet { OnOk result (D.faults disk.new ≡ D.faults disk.old) }
    {
        read_each(alloc, disk, self.volumes.as_slice())
    }
}
