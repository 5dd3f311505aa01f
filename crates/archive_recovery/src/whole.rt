//! An archive is mended as reading found it.
ghost use Rattle.std.specs.Prelude.{◌≡◌, ◌<◌, [], IfSome, OnOk};
ghost use Rattle.pcp_base.specs.declared.file.FileId.{FileId as File};
ghost use Rattle.pcp_model.specs.Archive.{ArchiveContents};
ghost use Rattle.pcp_model.specs.Disk.{contents_of};
ghost use Rattle.pcp_model.specs.Recovered.{IsRecovered};
ghost use Rattle.pcp_outside.specs.Causes.{HasCause};
ghost use Rattle.pcp_outside.specs.Devices.{LeavesOnly};
ghost use Rattle.archive_recovery.specs.Damage.{Found, AreLengths, MayBeMended};

use crate::mending::{Last, Tail, cut_tail, mend_index, mend_volumes};
use crate::syncing::sync_all;
use pcp_outside::{Disk, Failed, FileId};

/// What reading found of an archive.
#[derive(Clone, Copy)]
pub struct Damage {
    /// The whole records of Meta.
    pub meta: Tail,
    /// Where the index's whole entries end; `None` where its label isn't whole.
    pub index: Option<u64>,
    /// The bytes of the index.
    pub index_length: u64,
    /// The last volume that isn't empty.
    pub last: Option<Last>,
    /// Whether no volume has its whole label.
    pub bare: bool,
}

/// Mends an archive: what stands behind whole records is cut off, labels that are missing are given, and all is made sure.
pub fn mend<D: Disk>(
    disk: &mut D,
    index_label: &[u8],
    volume_label: &[u8],
    damage: Damage,
) -> Result<(), Failed>
    requires numbered { IfSome damage.last (λ l. l.number < 4294967295) }
    requires lengths { D.tells → AreLengths (D.held disk.old) damage }
    ensures recovered { D.tells → (c : ArchiveContents) → Found (contents_of (D.held disk.old)) c damage index_label.now volume_label.now → OnOk result (IsRecovered (contents_of (D.held disk.old)) c (contents_of (D.held disk.new))) }
    ensures sure { D.tells → OnOk result ((file : File) → (D.held disk.new file).rest ≡ []) }
    // Wherever it stops, the archive is on its way: a crash leaves files with the same items and records.
    ensures any_moment { D.tells → LeavesOnly D.moment D.left_since disk.old disk.new (MayBeMended damage index_label.now volume_label.now (D.held disk.old)) }
    ensures wrapped { D.tells → D.wrapped_file disk.new ≡ D.wrapped_file disk.old }
    ensures cause { HasCause (D.faults disk.old) (D.faults disk.new) result }
{
    cut_tail(disk, FileId::Meta, damage.meta)?;
    mend_index(disk, index_label, damage.index, damage.index_length)?;
    mend_volumes(disk, volume_label, damage.last, damage.bare)?;
    sync_all(disk)
}
