//! The last step of recovery: all bytes of the archive are made sure.
ghost use Rattle.std.specs.Prelude.{◌≡◌, OnOk};
ghost use Rattle.pcp_model.specs.Disk.{CrashImage};
ghost use Rattle.pcp_outside.specs.Causes.{HasCause};
ghost use Rattle.pcp_outside.specs.Devices.{IsNumbered, LeavesOnly, Becomes, held_after_sync};
ghost use Rattle.archive_recovery.specs.Syncing.{MadeSure, IsVolumeBelow, IsAny};

use pcp_outside::{Disk, Failed, FileId};

/// Makes all bytes of a file sure, where it has any.
fn sync_filled<D: Disk>(disk: &mut D, file: FileId) -> Result<(), Failed>
    requires { IsNumbered file }
    ensures held { D.tells → OnOk result (Becomes file (held_after_sync (D.held disk.old file)) (D.held disk.old) (D.held disk.new)) }
    ensures any_moment { D.tells → LeavesOnly D.moment D.left_since disk.old disk.new (CrashImage (D.held disk.old)) }
    ensures wrapped { D.tells → D.wrapped_file disk.new ≡ D.wrapped_file disk.old }
    ensures cause { HasCause (D.faults disk.old) (D.faults disk.new) result }
{
    let length = disk.len(file)?;
    if length == 0 {
        return Ok(());
    }
    disk.sync(file)
}

/// Makes all bytes of the volumes below a number sure.
fn sync_volumes<D: Disk>(disk: &mut D, count: u32) -> Result<(), Failed>
    ensures held { D.tells → OnOk result (MadeSure (IsVolumeBelow count) (D.held disk.old) (D.held disk.new)) }
    ensures any_moment { D.tells → LeavesOnly D.moment D.left_since disk.old disk.new (CrashImage (D.held disk.old)) }
    ensures wrapped { D.tells → D.wrapped_file disk.new ≡ D.wrapped_file disk.old }
    ensures cause { HasCause (D.faults disk.old) (D.faults disk.new) result }
{
    for number in 0..count {
        sync_filled(disk, FileId::Volume(number))?;
    }
    Ok(())
}

/// Makes all bytes of Meta, of the index and of each volume sure, in this order.
pub(crate) fn sync_all<D: Disk>(disk: &mut D) -> Result<(), Failed>
    ensures held { D.tells → OnOk result (MadeSure IsAny (D.held disk.old) (D.held disk.new)) }
    ensures any_moment { D.tells → LeavesOnly D.moment D.left_since disk.old disk.new (CrashImage (D.held disk.old)) }
    ensures wrapped { D.tells → D.wrapped_file disk.new ≡ D.wrapped_file disk.old }
    ensures cause { HasCause (D.faults disk.old) (D.faults disk.new) result }
{
    let count = disk.volumes()?;
    sync_filled(disk, FileId::Meta)?;
    sync_filled(disk, FileId::Index)?;
    sync_volumes(disk, count)
}
