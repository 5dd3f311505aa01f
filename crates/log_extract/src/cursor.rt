//! A source that is read result by result.
ghost use Rattle.std.specs.Prelude.{◌≡◌, ◌∷◌, List as Sequence, IfErr, IfOk, OnOk};
ghost use Rattle.pcp_base.specs.declared.result.Item.{Item as AnItem};
ghost use Rattle.pcp_base.specs.declared.result.PmResult.{PmResult as AResult};
ghost use Rattle.pcp_model.specs.Disk.{contents_of};
ghost use Rattle.archive_loading.specs.Loaded.{IsOver};
ghost use Rattle.archive_loading.specs.Looks.{Looks};
ghost use Rattle.archive_reader.specs.Walks.{AllFrom};
ghost use Rattle.archive_merge.specs.Merging.{samples_of};
ghost use Rattle.log_extract.specs.Cursors.{IsNextSample, IsReady, Leaves, StandFrom, is_due, next_stamp};
ghost use Rattle.log_extract.specs.Sources.{IsBroken};

use archive_meta::MetaState;
use archive_reader::{ArchiveReader, Place, ReaderFault};
use pcp_base::{Item, List, PmResult, Stamp, ValueSet};
use pcp_outside::Disk;
use std::alloc::Global;

/// A source that is read: its next result, the place of the record behind it, and the bytes of the record that was looked at last.
#[derive(Drop)]
pub(crate) struct Cursor {
    pub reader: ArchiveReader,
    pub place: Place,
    pub next: Option<PmResult>,
    pub frame: Vec<u8>,
}

/// The next result from a place on, marks being passed over, and the place behind it.
fn next_sample<D: Disk>(
    alloc: Global,
    disk: &mut D,
    reader: &ArchiveReader,
    place: Place,
    frame: &mut Vec<u8>,
) -> Result<Option<(PmResult, Place)>, ReaderFault>
    requires over { D.tells → IsOver (contents_of (D.held disk.old)) reader.now }
    requires ready { D.tells → (items : Sequence AnItem) × StandFrom (contents_of (D.held disk.old)) reader.now.volumes place items }
    ensures found { D.tells → (items : Sequence AnItem) → StandFrom (contents_of (D.held disk.old)) reader.now.volumes place items → IfOk result (IsNextSample (contents_of (D.held disk.old)) reader.now.volumes items) }
    ensures broken { IfErr result (IsBroken D.Disk disk.old disk.new) }
    ensures looks { Looks D.Disk disk.old disk.new }
    ensures quiet { OnOk result (D.faults disk.new ≡ D.faults disk.old) }
{
    let mut at = place;
    for _ in 0..u64::MAX {
        match reader.view_at(disk, at, frame)? {
            None => return Ok(None),
            Some((item, behind)) => match item.to_item(alloc)? {
                Item::Sample(result) => return Ok(Some((result, behind))),
                Item::Mark(_) => at = behind,
            },
        }
    }
    Err(ReaderFault::NoMemory)
}

impl Cursor {
    /// At the first result of an archive that was loaded from this disk.
    pub(crate) fn at_first<D: Disk>(
        alloc: Global,
        disk: &mut D,
        reader: ArchiveReader,
    ) -> Result<Cursor, ReaderFault>
        requires over { D.tells → IsOver (contents_of (D.held disk.old)) reader }
        requires ready { D.tells → (items : Sequence AnItem) × AllFrom (contents_of (D.held disk.old)) reader.volumes 132 items }
        ensures leaves { D.tells → (items : Sequence AnItem) → AllFrom (contents_of (D.held disk.old)) reader.volumes 132 items → IfOk result (λ c. Leaves (contents_of (D.held disk.old)) c (samples_of items)) }
        ensures same { IfOk result (λ c. c.reader ≡ reader) }
        ensures broken { IfErr result (IsBroken D.Disk disk.old disk.new) }
        ensures looks { Looks D.Disk disk.old disk.new }
        ensures quiet { OnOk result (D.faults disk.new ≡ D.faults disk.old) }
    {
        let mut frame = Vec::new(alloc);
        let start = reader.start();
        match next_sample(alloc, disk, &reader, start, &mut frame)? {
            Some((next, place)) => Ok(Cursor {
                reader,
                place,
                next: Some(next),
                frame,
            }),
            None => Ok(Cursor {
                reader,
                place: start,
                next: None,
                frame,
            }),
        }
    }

    /// What the metadata says.
    pub(crate) fn meta(&self) -> &MetaState
        ensures { result.now ≡ self.now.reader.records }
    {
        self.reader.meta()
    }

    /// Whether the next result is of this stamp.
    pub(crate) fn is_due(&self, t: Stamp) -> bool
        ensures { result ≡ is_due t self.now.next }
    {
        match &self.next {
            Some(next) => next.stamp.microseconds() == t.microseconds(),
            None => false,
        }
    }

    /// The stamp of the next result.
    pub(crate) fn stamp(&self) -> Option<Stamp>
        ensures { result ≡ next_stamp self.now.next }
    {
        match &self.next {
            Some(next) => Some(next.stamp),
            None => None,
        }
    }

    /// The sets of the next result, behind which the cursor then stands. Where there is none it answers that memory was refused.
    pub(crate) fn advance<D: Disk>(
        &mut self,
        alloc: Global,
        disk: &mut D,
    ) -> Result<List<ValueSet>, ReaderFault>
        requires ready { IsReady D.Disk disk.old self.old }
        ensures same { self.new.reader ≡ self.old.reader }
        ensures leaves { D.tells → (r : AResult) (results : Sequence AResult) → Leaves (contents_of (D.held disk.old)) self.old (r ∷ results)
            → IfOk result (λ sets. (sets ≡ r.sets) × Leaves (contents_of (D.held disk.old)) self.new results) }
        ensures ready { OnOk result (IsReady D.Disk disk.new self.new) }
        ensures broken { IfErr result (IsBroken D.Disk disk.old disk.new) }
        ensures looks { Looks D.Disk disk.old disk.new }
        ensures quiet { OnOk result (D.faults disk.new ≡ D.faults disk.old) }
    {
        let Some(result) = self.next.take() else {
            return Err(ReaderFault::NoMemory);
        };
        match next_sample(alloc, disk, &self.reader, self.place, &mut self.frame)? {
            Some((next, place)) => {
                self.next = Some(next);
                self.place = place;
                Ok(result.sets)
            }
            None => Ok(result.sets),
        }
    }
}
