//! The export of a whole archive.
ghost use Rattle.std.specs.Prelude.{◌≡◌, ◌≤◌};
ghost use Rattle.archive_loading.specs.Looks.{Looks};
ghost use Rattle.log_export.specs.Exporting.{Exports, MayLeave, export_side};

use crate::fault::ExportFault;
use crate::laying::lay_all;
use crate::planning::{plan_export, zeros};
use crate::standing::standing_file;
use pcp_outside::Disk;
use std::alloc::Global;

// How many bytes are copied at once.
const PIECE: usize = 1_048_576;

/// Writes the source's archive where nothing stands yet, as stock tools show it whole, and answers how many items it has. The source is read whole
/// before anything is written, and is left as it was; a source that has no label leaves nothing. All that is written is made sure, Meta last: as
/// long as Meta has no byte nothing there is taken for an archive.
pub fn export_all<A: Disk, D: Disk>(
    alloc: Global,
    source: &mut A,
    disk: &mut D,
) -> Result<u64, ExportFault>
    ensures exports { Exports (export_side A.Disk source.old source.new D.Disk disk.old disk.new) result }
    // A crash at any moment leaves what was there; or over nothing a beginning of each file, and no byte of Meta before the others are whole.
    ensures any_moment { MayLeave (export_side A.Disk source.old source.new D.Disk disk.old disk.new) }
    ensures source { Looks A.Disk source.old source.new }
    ensures later { D.faults disk.old ≤ D.faults disk.new }
{
    if let Some(file) = standing_file(disk)? {
        return Err(ExportFault::Stands { file });
    }
    let Some(plan) = plan_export(alloc, source)? else {
        return Ok(0);
    };
    let mut buffer = zeros(alloc, PIECE)?;
    lay_all(source, disk, &plan, &mut buffer)?;
    Ok(plan.items)
}
