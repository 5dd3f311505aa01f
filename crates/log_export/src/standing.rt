//! What stands where an archive is to come to stand.
ghost use Rattle.std.specs.Prelude.{◌≡◌, OnOk, IfOk};
ghost use Rattle.pcp_model.specs.Disk.{contents_of};
ghost use Rattle.pcp_outside.specs.Causes.{HasCause};
ghost use Rattle.archive_loading.specs.Looks.{Looks};
ghost use Rattle.log_export.specs.Standing.{IsFirstStanding, IsLowest};

use pcp_outside::{Disk, Failed, FileId};

/// The lowest volume that isn't empty.
fn lowest_volume<D: Disk>(disk: &mut D) -> Result<Option<u32>, Failed>
    ensures lowest { D.tells → IfOk result (IsLowest (contents_of (D.held disk.old))) }
    ensures looks { Looks D.Disk disk.old disk.new }
    ensures cause { HasCause (D.faults disk.old) (D.faults disk.new) result }
{
    let count = disk.volumes()?;
    for number in 0..count {
        let length = disk.len(FileId::Volume(number))?;
        if length > 0 {
            return Ok(Some(number));
        }
    }
    Ok(None)
}

/// The first file that stands there: Meta, the index, or the lowest volume that isn't empty; else the first that stands wrapped. An empty file is as
/// none.
pub(crate) fn standing_file<D: Disk>(disk: &mut D) -> Result<Option<FileId>, Failed>
    ensures first { D.tells → IfOk result (IsFirstStanding (contents_of (D.held disk.old)) (D.wrapped_file disk.old)) }
    ensures looks { Looks D.Disk disk.old disk.new }
    ensures cause { HasCause (D.faults disk.old) (D.faults disk.new) result }
{
    let meta = disk.len(FileId::Meta)?;
    if meta > 0 {
        return Ok(Some(FileId::Meta));
    }
    let index = disk.len(FileId::Index)?;
    if index > 0 {
        return Ok(Some(FileId::Index));
    }
    if let Some(number) = lowest_volume(disk)? {
        return Ok(Some(FileId::Volume(number)));
    }
    disk.wrapped()
}
