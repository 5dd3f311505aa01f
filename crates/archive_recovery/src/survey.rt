//! All of an archive is read before anything is changed.
ghost use Rattle.std.specs.Prelude.{◌≡◌, ◌≢◌, ◌⊎◌, ◌<◌, ◌≤◌, ◌+◌, ◌-◌, true, false, [], IfOk, IfErr, MatchBool, MatchOption, OnOk};
ghost use Rattle.pcp_model.specs.Disk.{contents_of};
ghost use Rattle.pcp_outside.specs.Causes.{Rose};
ghost use Rattle.archive_loading.specs.Looks.{Looks};
ghost use Rattle.archive_loading.specs.LoadFaults.{whole_entries};
ghost use Rattle.archive_recovery.specs.declared.outcome.RecoverFault.TheVariants.{DiskFault};
ghost use Rattle.archive_recovery.specs.RecoverFaults.{IsFilesRefusal};
ghost use Rattle.archive_recovery.specs.Surveys.{MetaStands, HeadStands, IsSighted, IsBegun, IsSurvey, SightIsLow, SurveyIsLow};

use crate::mending::Tail;
use crate::outcome::RecoverFault;
use crate::reading::{Top, VolumesRead, read_volumes};
use crate::stamps::{Tally, later_entry};
use crate::whole::Damage;
use archive_loading::{IndexPart, MetaPart, is_alone, length_of, load_index, load_meta};
use archive_meta::MetaState;
use pcp_base::Stamp;
use pcp_model::Label;
use pcp_outside::{Disk, FileId};
use std::alloc::Global;
use temporal_index::Index;

/// An archive that was read: what it says, what there is to mend, and what its volumes hold.
#[derive(Drop)]
pub struct Sighted {
    pub label: Label,
    pub meta: MetaState,
    pub index: Index,
    pub damage: Damage,
    pub top: Top,
    pub tally: Tally,
}

/// What was read.
#[derive(Drop)]
pub enum Survey {
    /// A creation that was stopped, whose Meta has so many bytes.
    Begun(u64),
    Archive(Sighted),
}

/// Where the whole entries of an index of this length end, if its label is whole.
fn index_end(length: u64) -> Option<u64>
    ensures { MatchOption result (length < 132) (λ end. (132 ≤ length) × (end ≡ 132 + whole_entries (length - 132))) }
{
    if length < 132 {
        return None;
    }
    Some(132 + (length - 132) / 20 * 20)
}

/// Whether the index has no entry, or some volume has its label.
fn is_beside(index: &Index, bare: bool) -> bool
    ensures { MatchBool result ((bare ≡ false) ⊎ (index.now ≡ [])) ((bare ≡ true) × (index.now ≢ [])) }
{
    if index.is_empty() {
        return true;
    }
    !bare
}

/// The volumes of an archive with this metadata and this index; `tally` has the latest stamp of both.
fn survey_volumes<D: Disk>(
    alloc: Global,
    disk: &mut D,
    label: Label,
    meta: MetaState,
    tail: Tail,
    tally: Tally,
    index: Index,
    index_length: u64,
) -> Result<Sighted, RecoverFault>
    requires { D.tells → HeadStands (contents_of (D.held disk.old)) label meta tail tally index index_length }
    ensures sighted { D.tells → IfOk result (IsSighted (contents_of (D.held disk.old))) }
    ensures low { IfOk result SightIsLow }
    ensures fault { D.tells → IfErr result (IsFilesRefusal (contents_of (D.held disk.old))) }
    ensures looks { Looks D.Disk disk.old disk.new }
    ensures cause { IfErr result (λ e. e ≡ DiskFault → Rose (D.faults disk.old) (D.faults disk.new)) }
    ensures quiet { OnOk result (D.faults disk.new ≡ D.faults disk.old) }
{
    let mut tally = tally;
    match read_volumes(alloc, disk, &label, &mut tally)? {
        VolumesRead::Stops(number, at) => Err(RecoverFault::NotArchive {
            file: FileId::Volume(number),
            at,
        }),
        VolumesRead::Whole(last, top) => {
            if !is_beside(&index, top.bare) {
                return Err(RecoverFault::NotArchive {
                    file: FileId::Index,
                    at: 132,
                });
            }
            Ok(Sighted {
                label,
                meta,
                index,
                damage: Damage {
                    meta: tail,
                    index: index_end(index_length),
                    index_length,
                    last,
                    bare: top.bare,
                },
                top,
                tally,
            })
        }
    }
}

/// The index and the volumes of an archive with this metadata, whose latest stamp is `last`.
fn survey_index<D: Disk>(
    alloc: Global,
    disk: &mut D,
    label: Label,
    meta: MetaState,
    tail: Tail,
    last: Option<Stamp>,
) -> Result<Sighted, RecoverFault>
    requires { D.tells → MetaStands (contents_of (D.held disk.old)) label meta tail last }
    ensures sighted { D.tells → IfOk result (IsSighted (contents_of (D.held disk.old))) }
    ensures low { IfOk result SightIsLow }
    ensures fault { D.tells → IfErr result (IsFilesRefusal (contents_of (D.held disk.old))) }
    ensures looks { Looks D.Disk disk.old disk.new }
    ensures cause { IfErr result (λ e. e ≡ DiskFault → Rose (D.faults disk.old) (D.faults disk.new)) }
    ensures quiet { OnOk result (D.faults disk.new ≡ D.faults disk.old) }
{
    let length = length_of(disk, FileId::Index)?;
    match load_index(alloc, disk, &label)? {
        IndexPart::Whole(index) => {
            let tally = Tally {
                items: 0,
                last: later_entry(last, &index),
            };
            survey_volumes(alloc, disk, label, meta, tail, tally, index, length)
        }
        IndexPart::Stops(at) => Err(RecoverFault::NotArchive {
            file: FileId::Index,
            at,
        }),
    }
}

/// A creation that was stopped, whose Meta has so many bytes.
fn survey_begun<D: Disk>(disk: &mut D, length: u64) -> Result<Survey, RecoverFault>
    requires { D.tells → IsBegun (contents_of (D.held disk.old)) length }
    ensures survey { D.tells → IfOk result (IsSurvey (contents_of (D.held disk.old))) }
    ensures low { IfOk result SurveyIsLow }
    ensures fault { D.tells → IfErr result (IsFilesRefusal (contents_of (D.held disk.old))) }
    ensures looks { Looks D.Disk disk.old disk.new }
    ensures cause { IfErr result (λ e. e ≡ DiskFault → Rose (D.faults disk.old) (D.faults disk.new)) }
    ensures quiet { OnOk result (D.faults disk.new ≡ D.faults disk.old) }
{
    if !is_alone(disk)? {
        return Err(RecoverFault::NotArchive {
            file: FileId::Meta,
            at: length,
        });
    }
    Ok(Survey::Begun(length))
}

/// The files are read: Meta record by record, the index, and volume after volume record by record.
pub(crate) fn sight<D: Disk>(alloc: Global, disk: &mut D) -> Result<Survey, RecoverFault>
    ensures survey { D.tells → IfOk result (IsSurvey (contents_of (D.held disk.old))) }
    ensures low { IfOk result SurveyIsLow }
    ensures fault { D.tells → IfErr result (IsFilesRefusal (contents_of (D.held disk.old))) }
    ensures looks { Looks D.Disk disk.old disk.new }
    ensures cause { IfErr result (λ e. e ≡ DiskFault → Rose (D.faults disk.old) (D.faults disk.new)) }
    ensures quiet { OnOk result (D.faults disk.new ≡ D.faults disk.old) }
{
    match load_meta(alloc, disk)? {
        MetaPart::Whole(label, meta, end) => {
            let tail = Tail {
                end: end.end,
                length: end.length,
            };
            let sighted = survey_index(alloc, disk, label, meta, tail, end.last)?;
            Ok(Survey::Archive(sighted))
        }
        MetaPart::Begun(length) => survey_begun(disk, length),
        MetaPart::Stops(at) => Err(RecoverFault::NotArchive {
            file: FileId::Meta,
            at,
        }),
    }
}
