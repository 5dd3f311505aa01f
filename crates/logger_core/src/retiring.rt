//! Old volumes are let go: each is cut to empty, the lowest first.
ghost use Rattle.std.specs.Prelude.{◌≡◌, ◌⊎◌, ◌<◌, IfErr, OnOk};
ghost use Rattle.pcp_base.specs.declared.file.FileId.{FileId as File};
ghost use Rattle.pcp_base.specs.declared.file.FileId.TheVariants.{Volume};
ghost use Rattle.pcp_model.specs.Disk.{nothing_held};
ghost use Rattle.pcp_outside.specs.Causes.{HasCause};
ghost use Rattle.pcp_outside.specs.Devices.{Becomes, LeavesOnly};
ghost use Rattle.logger_core.specs.Retiring.{HasRetiredSome, LeavesSome, MayBeEmptied, held_without};

use pcp_outside::{Disk, Failed, FileId};

/// Cuts a volume to empty, where it holds any byte.
fn empty_volume<D: Disk>(disk: &mut D, number: u32) -> Result<(), Failed>
    requires { number < 4294967295 }
    ensures held { D.tells → OnOk result (Becomes (Volume number) nothing_held (D.held disk.old) (D.held disk.new)) }
    ensures failed { D.tells → IfErr result (λ _. (D.held disk.new ≡ D.held disk.old) ⊎ Becomes (Volume number) nothing_held (D.held disk.old) (D.held disk.new)) }
    ensures any_moment { D.tells → LeavesOnly D.moment D.left_since disk.old disk.new (MayBeEmptied number (D.held disk.old)) }
    ensures cause { HasCause (D.faults disk.old) (D.faults disk.new) result }
{
    let length = disk.len(FileId::Volume(number))?;
    if length == 0 {
        return Ok(());
    }
    disk.cut(FileId::Volume(number), 0)
}

/// Cuts the volumes below a number to empty, the lowest first. One that holds no byte isn't cut.
pub(crate) fn empty_volumes<D: Disk>(disk: &mut D, below: u32) -> Result<(), Failed>
    ensures held { D.tells → OnOk result ((file : File) → D.held disk.new file ≡ held_without (D.held disk.old) below file) }
    ensures failed { D.tells → IfErr result (λ _. HasRetiredSome below (D.held disk.old) (D.held disk.new)) }
    ensures any_moment { D.tells → LeavesOnly D.moment D.left_since disk.old disk.new (LeavesSome below (D.held disk.old)) }
    ensures cause { HasCause (D.faults disk.old) (D.faults disk.new) result }
{
    for number in 0..below {
        empty_volume(disk, number)?;
    }
    Ok(())
}
