//! An archive that was stopped anywhere is read, and then mended.
ghost use Rattle.std.specs.Prelude.{◌≡◌, ◌≢◌, ◌⊎◌, ◌≤◌, [], length, IfOk, IfErr, OnOk, None};
ghost use Rattle.pcp_base.specs.declared.file.FileId.{FileId as File};
ghost use Rattle.pcp_base.specs.declared.file.FileId.TheVariants.{Meta};
ghost use Rattle.pcp_model.specs.Archive.{IsStoppedCreation, Readable};
ghost use Rattle.pcp_model.specs.Disk.{CrashImage, contents_of};
ghost use Rattle.pcp_outside.specs.Causes.{Rose};
ghost use Rattle.pcp_outside.specs.Devices.{LeavesOnly};
ghost use Rattle.archive_recovery.specs.declared.outcome.RecoverFault.TheVariants.{DiskFault, NoMemory as Refused};
ghost use Rattle.archive_recovery.specs.Halfway.{MayBeHalfway};
ghost use Rattle.archive_recovery.specs.RecoverFaults.{IsFilesRefusal, IsRecoverFault};
ghost use Rattle.archive_recovery.specs.Surveys.{IsSighted, SightIsLow};
ghost use Rattle.archive_recovery.specs.Told.{WasRecovered};

use crate::mending::{Tail, cut_tail};
use crate::outcome::{Archive, RecoverFault};
use crate::survey::{Sighted, Survey, sight};
use crate::whole::mend;
use archive_frame::label_bytes;
use archive_loading::{no_entries, wrapped_file};
use archive_meta::MetaState;
use pcp_outside::{Disk, FileId};
use std::alloc::Global;

/// Cuts away what a creation that was stopped left.
fn forget<D: Disk>(alloc: Global, disk: &mut D, bytes: u64) -> Result<Archive, RecoverFault>
    requires size { D.tells → bytes ≡ length (contents_of (D.held disk.old) Meta) }
    requires stopped { D.tells → IsStoppedCreation (contents_of (D.held disk.old)) }
    ensures recovered { D.tells → IfOk result (WasRecovered (contents_of (D.held disk.old)) (contents_of (D.held disk.new))) }
    ensures sure { D.tells → OnOk result ((file : File) → (D.held disk.new file).rest ≡ []) }
    ensures fault { IfErr result (λ e. (e ≡ DiskFault) ⊎ (e ≡ Refused)) }
    ensures kept { D.tells → IfErr result (λ e. e ≢ DiskFault → D.held disk.new ≡ D.held disk.old) }
    ensures any_moment { D.tells → LeavesOnly D.moment D.left_since disk.old disk.new (MayBeHalfway (D.held disk.old)) }
    ensures wrapped { D.tells → D.wrapped_file disk.new ≡ D.wrapped_file disk.old }
    ensures later { D.faults disk.old ≤ D.faults disk.new }
    ensures cause { IfErr result (λ e. e ≡ DiskFault → Rose (D.faults disk.old) (D.faults disk.new)) }
    ensures quiet { OnOk result (D.faults disk.new ≡ D.faults disk.old) }
{
    let index = no_entries(alloc)?;
    let tail = Tail {
        end: 0,
        length: bytes,
    };
    cut_tail(disk, FileId::Meta, tail)?;
    Ok(Archive {
        label: None,
        meta: MetaState::empty(alloc),
        meta_length: 0,
        index,
        volume: 0,
        length: 0,
        items: 0,
        last: None,
    })
}

/// Mends an archive that was read, and tells of what is left.
fn restore<D: Disk>(disk: &mut D, sighted: Sighted) -> Result<Archive, RecoverFault>
    requires low { SightIsLow sighted }
    requires is { D.tells → IsSighted (contents_of (D.held disk.old)) sighted }
    ensures recovered { D.tells → IfOk result (WasRecovered (contents_of (D.held disk.old)) (contents_of (D.held disk.new))) }
    ensures sure { D.tells → OnOk result ((file : File) → (D.held disk.new file).rest ≡ []) }
    ensures fault { IfErr result (λ e. e ≡ DiskFault) }
    ensures any_moment { D.tells → LeavesOnly D.moment D.left_since disk.old disk.new (MayBeHalfway (D.held disk.old)) }
    ensures wrapped { D.tells → D.wrapped_file disk.new ≡ D.wrapped_file disk.old }
    ensures later { D.faults disk.old ≤ D.faults disk.new }
    ensures cause { IfErr result (λ e. e ≡ DiskFault → Rose (D.faults disk.old) (D.faults disk.new)) }
    ensures quiet { OnOk result (D.faults disk.new ≡ D.faults disk.old) }
{
    let index_label = label_bytes(&sighted.label, -2);
    let volume_label = label_bytes(&sighted.label, 0);
    mend(disk, &index_label, &volume_label, sighted.damage)?;
    Ok(Archive {
        label: Some(sighted.label),
        meta: sighted.meta,
        meta_length: sighted.damage.meta.end,
        index: sighted.index,
        volume: sighted.top.volume,
        length: sighted.top.length,
        items: sighted.tally.items,
        last: sighted.tally.last,
    })
}

/// Recovers files that stand under their own names.
fn recover_files<D: Disk>(alloc: Global, disk: &mut D) -> Result<Archive, RecoverFault>
    ensures recovered { D.tells → IfOk result (WasRecovered (contents_of (D.held disk.old)) (contents_of (D.held disk.new))) }
    ensures sure { D.tells → OnOk result ((file : File) → (D.held disk.new file).rest ≡ []) }
    ensures fault { D.tells → IfErr result (IsFilesRefusal (contents_of (D.held disk.old))) }
    ensures kept { D.tells → IfErr result (λ e. e ≢ DiskFault → D.held disk.new ≡ D.held disk.old) }
    ensures any_moment { D.tells → LeavesOnly D.moment D.left_since disk.old disk.new (MayBeHalfway (D.held disk.old)) }
    ensures unread { D.tells → (Readable (contents_of (D.held disk.old)) → ⊥) → LeavesOnly D.moment D.left_since disk.old disk.new (CrashImage (D.held disk.old)) }
    ensures wrapped { D.tells → D.wrapped_file disk.new ≡ D.wrapped_file disk.old }
    ensures later { D.faults disk.old ≤ D.faults disk.new }
    ensures cause { IfErr result (λ e. e ≡ DiskFault → Rose (D.faults disk.old) (D.faults disk.new)) }
    ensures quiet { OnOk result (D.faults disk.new ≡ D.faults disk.old) }
{
    match sight(alloc, disk)? {
        Survey::Begun(length) => forget(alloc, disk, length),
        Survey::Archive(sighted) => restore(disk, sighted),
    }
}

/// Recovers an archive that was stopped anywhere: what is torn is cut away, labels that are missing are given, and all is made
/// sure. It is read whole before anything is changed, Meta and the volumes record by record. `Compressed` and `NotArchive` name
/// the first place that is wrong, in Meta, the index, the volumes by number, and last an entry beside no volume with its label
/// (the index at 132). After `DiskFault` the files hold what they held, or recovery is on its way; after any other refusal they
/// hold what they held.
pub fn recover<D: Disk>(alloc: Global, disk: &mut D) -> Result<Archive, RecoverFault>
    // What it leaves is what recovery leaves of what the files were read as, and this is told of it.
    ensures recovered { D.tells → IfOk result (WasRecovered (contents_of (D.held disk.old)) (contents_of (D.held disk.new))) }
    // Every byte of it is sure.
    ensures sure { D.tells → OnOk result ((file : File) → (D.held disk.new file).rest ≡ []) }
    ensures unwrapped { D.tells → OnOk result (D.wrapped_file disk.old ≡ None) }
    ensures fault { D.tells → IfErr result (IsRecoverFault (D.wrapped_file disk.old) (contents_of (D.held disk.old))) }
    ensures kept { D.tells → IfErr result (λ e. e ≢ DiskFault → D.held disk.new ≡ D.held disk.old) }
    // A crash at any moment of it, over a settled disk, leaves files on which recovery is on its way.
    ensures any_moment { D.tells → LeavesOnly D.moment D.left_since disk.old disk.new (MayBeHalfway (D.held disk.old)) }
    // Where the files aren't readable nothing is written.
    ensures unread { D.tells → (Readable (contents_of (D.held disk.old)) → ⊥) → LeavesOnly D.moment D.left_since disk.old disk.new (CrashImage (D.held disk.old)) }
    ensures wrapped { D.tells → D.wrapped_file disk.new ≡ D.wrapped_file disk.old }
    ensures later { D.faults disk.old ≤ D.faults disk.new }
    ensures cause { IfErr result (λ e. e ≡ DiskFault → Rose (D.faults disk.old) (D.faults disk.new)) }
    ensures quiet { OnOk result (D.faults disk.new ≡ D.faults disk.old) }
{
    match wrapped_file(disk)? {
        Some(file) => Err(RecoverFault::Compressed { file }),
        None => recover_files(alloc, disk),
    }
}
