//! One volume, read record by record.
ghost use Rattle.std.specs.Prelude.{◌≡◌, ◌<◌, ◌≤◌, length, IfOk, IfErr, OnOk};
ghost use Rattle.pcp_base.specs.declared.file.FileId.TheVariants.{Volume};
ghost use Rattle.pcp_model.specs.Disk.{contents_of};
ghost use Rattle.archive_loading.specs.Looks.{Looks, Blames};
ghost use Rattle.archive_recovery.specs.Volumes.{IsItemsRead, IsVolumeRead};

use crate::stamps::Tally;
use archive_loading::{Lack, Next, VolumePart, load_volume, next_record};
use pcp_model::Label;
use pcp_outside::Disk;
use std::alloc::Global;

/// What stands behind a volume's label.
pub enum ItemsRead {
    /// Whole records up to this byte, and behind them at most one that wasn't written whole.
    Whole(u64),
    /// Something else, from this byte on.
    Stops(u64),
}

/// What a volume is.
pub enum VolumeRead {
    Empty,
    /// Less than its label, and this length.
    Begun(u64),
    /// Its label and whole records up to a byte, behind them at most one that wasn't written whole; and its length.
    Whole(u64, u64),
    /// Something else, from this byte on.
    Stops(u64),
}

/// Counts the records behind the label of a volume of this length, each taken into one buffer.
fn read_items<D: Disk>(
    alloc: Global,
    disk: &mut D,
    number: u32,
    end: u64,
    tally: &mut Tally,
) -> Result<ItemsRead, Lack>
    requires numbered { number < 4294967295 }
    requires long { 132 ≤ end }
    requires end { D.tells → end ≡ length (contents_of (D.held disk.old) (Volume number)) }
    ensures read { D.tells → IfOk result (IsItemsRead (contents_of (D.held disk.old) (Volume number)) tally.old tally.new) }
    ensures looks { Looks D.Disk disk.old disk.new }
    ensures cause { IfErr result (Blames D.Disk disk.old disk.new) }
    ensures quiet { OnOk result (D.faults disk.new ≡ D.faults disk.old) }
{
    let mut at = 132;
    let mut frame = Vec::new(alloc);
    while at < end {
        match next_record(disk, number, end, at, &mut frame) {
            Ok(Next::End) => return Ok(ItemsRead::Whole(at)),
            Ok(Next::Bad) => return Ok(ItemsRead::Stops(at)),
            Ok(Next::Item(item, next)) => {
                tally.count(&item)?;
                at = next;
            }
            Err(lack) => return Err(lack),
        }
    }
    Ok(ItemsRead::Whole(at))
}

/// A volume, its items counted.
pub(crate) fn read_volume<D: Disk>(
    alloc: Global,
    disk: &mut D,
    label: &Label,
    number: u32,
    tally: &mut Tally,
) -> Result<VolumeRead, Lack>
    requires { number < 4294967295 }
    ensures read { D.tells → IfOk result (IsVolumeRead (contents_of (D.held disk.old) (Volume number)) label.now number tally.old tally.new) }
    ensures looks { Looks D.Disk disk.old disk.new }
    ensures cause { IfErr result (Blames D.Disk disk.old disk.new) }
    ensures quiet { OnOk result (D.faults disk.new ≡ D.faults disk.old) }
{
    let length = match load_volume(alloc, disk, label, number, true)? {
        VolumePart::Empty => return Ok(VolumeRead::Empty),
        VolumePart::Stops(at) => return Ok(VolumeRead::Stops(at)),
        VolumePart::Headed(length) => length,
    };
    if length < 132 {
        return Ok(VolumeRead::Begun(length));
    }
    match read_items(alloc, disk, number, length, tally)? {
        ItemsRead::Whole(end) => Ok(VolumeRead::Whole(end, length)),
        ItemsRead::Stops(at) => Ok(VolumeRead::Stops(at)),
    }
}
