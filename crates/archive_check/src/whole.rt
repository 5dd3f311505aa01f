//! The check of a whole archive.
ghost use Rattle.std.specs.Prelude.{◌≡◌, None, IfOk, IfErr, OnOk};
ghost use Rattle.pcp_model.specs.Archive.{Readable};
ghost use Rattle.pcp_model.specs.Disk.{contents_of};
ghost use Rattle.pcp_outside.specs.Causes.{Rose};
ghost use Rattle.archive_loading.specs.Loaded.{IsOver};
ghost use Rattle.archive_loading.specs.Looks.{Looks};
ghost use Rattle.archive_reader.specs.Values.{IsWholeFault};
ghost use Rattle.archive_reader.specs.declared.fault.ReaderFault.TheVariants.{DiskFault};
ghost use Rattle.archive_check.specs.declared.fault.CheckFault.TheVariants.{Reader as Unread};
ghost use Rattle.archive_check.specs.Checks.{HoldsSound, IsCheckFault};

use crate::fault::CheckFault;
use crate::verdict::{Verdict, judge};
use archive_reader::{ArchiveReader, ReaderFault};
use pcp_outside::Disk;
use std::alloc::Global;

/// Reads each record of the volumes, which has to be an item's.
fn read_all<D: Disk>(alloc: Global, disk: &mut D, reader: &ArchiveReader) -> Result<(), ReaderFault>
    requires { D.tells → IsOver (contents_of (D.held disk.old)) reader.now }
    ensures read { D.tells → OnOk result (Readable (contents_of (D.held disk.old))) }
    ensures fault { D.tells → IfErr result (IsWholeFault (contents_of (D.held disk.old)) reader.now.volumes) }
    ensures looks { Looks D.Disk disk.old disk.new }
    ensures cause { IfErr result (λ e. e ≡ DiskFault → Rose (D.faults disk.old) (D.faults disk.new)) }
    ensures quiet { OnOk result (D.faults disk.new ≡ D.faults disk.old) }
{
    reader.read_all(alloc, disk)
}

/// Whether what was loaded is sound.
fn check_loaded<D: Disk>(
    alloc: Global,
    disk: &mut D,
    reader: &ArchiveReader,
) -> Result<u64, CheckFault>
    requires over { D.tells → IsOver (contents_of (D.held disk.old)) reader.now }
    requires unwrapped { D.tells → D.wrapped_file disk.old ≡ None }
    ensures sound { D.tells → IfOk result (HoldsSound (contents_of (D.held disk.old))) }
    ensures fault { D.tells → IfErr result (IsCheckFault (D.wrapped_file disk.old) (contents_of (D.held disk.old))) }
    ensures looks { Looks D.Disk disk.old disk.new }
    ensures cause { IfErr result (λ e. e ≡ Unread DiskFault → Rose (D.faults disk.old) (D.faults disk.new)) }
    ensures quiet { OnOk result (D.faults disk.new ≡ D.faults disk.old) }
{
    read_all(alloc, disk, reader)?;
    let Some(_) = reader.label() else {
        return Ok(0);
    };
    match judge(alloc, disk, reader.volumes(), reader.index())? {
        Verdict::Sound(count) => Ok(count),
        Verdict::Unsound(fault) => Err(fault),
    }
}

/// How many items an archive has, which is sound: no item's stamp is before the one before it, and each entry of the index is of no volume
/// above the last, and, where its volume isn't empty, points to record boundaries before which nothing is stamped after it. Else its first
/// breach; all is read before one is told. It takes as much memory as the metadata, the index and one record.
pub fn check<D: Disk>(alloc: Global, disk: &mut D) -> Result<u64, CheckFault>
    ensures sound { D.tells → IfOk result (HoldsSound (contents_of (D.held disk.old))) }
    ensures unwrapped { D.tells → OnOk result (D.wrapped_file disk.old ≡ None) }
    ensures fault { D.tells → IfErr result (IsCheckFault (D.wrapped_file disk.old) (contents_of (D.held disk.old))) }
    ensures looks { Looks D.Disk disk.old disk.new }
    ensures cause { IfErr result (λ e. e ≡ Unread DiskFault → Rose (D.faults disk.old) (D.faults disk.new)) }
    ensures quiet { OnOk result (D.faults disk.new ≡ D.faults disk.old) }
{
    let reader = ArchiveReader::load(alloc, disk)?;
    check_loaded(alloc, disk, &reader)
}
