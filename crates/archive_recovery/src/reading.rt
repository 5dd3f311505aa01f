//! All volumes, by ascending number.
ghost use Rattle.std.specs.Prelude.{◌≡◌, ◌<◌, ℕ, [], IfOk, IfErr, OnOk};
ghost use Rattle.archive_recovery.specs.declared.stamps.Tally.{Tally as Counts};
ghost use Rattle.pcp_base.specs.declared.file.FileId.TheVariants.{Volume};
ghost use Rattle.pcp_model.specs.Disk.{contents_of};
ghost use Rattle.archive_loading.specs.Looks.{Looks, Blames};
ghost use Rattle.archive_recovery.specs.Volumes.{EarlierStand, IsEarlier, IsVolumesRead, LastIsLow};

use crate::counting::{VolumeRead, read_volume};
use crate::mending::Last;
use crate::stamps::Tally;
use archive_loading::{Lack, count_volumes};
use pcp_model::Label;
use pcp_outside::Disk;
use std::alloc::Global;

/// The last volume with its label, and where its whole records end; where no volume has its label, the first one, which gets
/// it.
#[derive(Clone, Copy)]
pub struct Top {
    pub bare: bool,
    pub volume: u32,
    pub length: u64,
}

/// The volumes below the last one that isn't empty.
pub enum Earlier {
    /// Each is empty or whole.
    Whole(Top),
    /// This is the first that isn't, from this byte on.
    Stops(u32, u64),
}

/// All volumes.
pub enum VolumesRead {
    /// Each is empty or whole, but for the end of the last one that isn't empty.
    Whole(Option<Last>, Top),
    /// This is the first that isn't, from this byte on.
    Stops(u32, u64),
}

/// The volumes below one that isn't empty, their items counted.
fn read_earlier<D: Disk>(
    alloc: Global,
    disk: &mut D,
    label: &Label,
    count: u32,
    tally: &mut Tally,
) -> Result<Earlier, Lack>
    requires few { count < 4294967295 }
    requires followed { D.tells → contents_of (D.held disk.old) (Volume count) ≡ [] → ⊥ }
    ensures read { D.tells → IfOk result (IsEarlier (contents_of (D.held disk.old)) label.now count tally.old tally.new) }
    ensures looks { Looks D.Disk disk.old disk.new }
    ensures cause { IfErr result (Blames D.Disk disk.old disk.new) }
    ensures quiet { OnOk result (D.faults disk.new ≡ D.faults disk.old) }
{
    let mut top = Top {
        bare: true,
        volume: 0,
        length: 132,
    };
    for number in 0..count {
        match read_volume(alloc, disk, label, number, tally)? {
            VolumeRead::Empty => {}
            VolumeRead::Begun(at) => return Ok(Earlier::Stops(number, at)),
            VolumeRead::Stops(at) => return Ok(Earlier::Stops(number, at)),
            VolumeRead::Whole(end, length) => {
                if end < length {
                    return Ok(Earlier::Stops(number, end));
                }
                top = Top {
                    bare: false,
                    volume: number,
                    length,
                };
            }
        }
    }
    Ok(Earlier::Whole(top))
}

/// The last volume that isn't empty, its items counted.
fn read_last<D: Disk>(
    alloc: Global,
    disk: &mut D,
    label: &Label,
    number: u32,
    top: Top,
    tally: &mut Tally,
) -> Result<VolumesRead, Lack>
    requires few { number < 4294967295 }
    requires some { D.tells → contents_of (D.held disk.old) (Volume number) ≡ [] → ⊥ }
    ensures read { D.tells → (before : Counts) → EarlierStand (contents_of (D.held disk.old)) label.now number before tally.old top → ((k : ℕ) → number < k → contents_of (D.held disk.old) (Volume k) ≡ []) → IfOk result (IsVolumesRead (contents_of (D.held disk.old)) label.now before tally.new) }
    ensures low { IfOk result LastIsLow }
    ensures looks { Looks D.Disk disk.old disk.new }
    ensures cause { IfErr result (Blames D.Disk disk.old disk.new) }
    ensures quiet { OnOk result (D.faults disk.new ≡ D.faults disk.old) }
{
    match read_volume(alloc, disk, label, number, tally)? {
        VolumeRead::Empty => Ok(VolumesRead::Whole(None, top)),
        VolumeRead::Stops(at) => Ok(VolumesRead::Stops(number, at)),
        VolumeRead::Begun(length) => {
            let end = None;
            let last = Last {
                number,
                end,
                length,
            };
            Ok(VolumesRead::Whole(Some(last), top))
        }
        VolumeRead::Whole(end, length) => {
            let last = Last {
                number,
                end: Some(end),
                length,
            };
            let top = Top {
                bare: false,
                volume: number,
                length: end,
            };
            Ok(VolumesRead::Whole(Some(last), top))
        }
    }
}

/// All volumes, their items counted.
pub(crate) fn read_volumes<D: Disk>(
    alloc: Global,
    disk: &mut D,
    label: &Label,
    tally: &mut Tally,
) -> Result<VolumesRead, Lack>
    ensures read { D.tells → IfOk result (IsVolumesRead (contents_of (D.held disk.old)) label.now tally.old tally.new) }
    ensures low { IfOk result LastIsLow }
    ensures looks { Looks D.Disk disk.old disk.new }
    ensures cause { IfErr result (Blames D.Disk disk.old disk.new) }
    ensures quiet { OnOk result (D.faults disk.new ≡ D.faults disk.old) }
{
    let count = count_volumes(disk)?;
    if count == 0 {
        return Ok(VolumesRead::Whole(
            None,
            Top {
                bare: true,
                volume: 0,
                length: 132,
            },
        ));
    }
    match read_earlier(alloc, disk, label, count - 1, tally)? {
        Earlier::Whole(top) => read_last(alloc, disk, label, count - 1, top, tally),
        Earlier::Stops(number, at) => Ok(VolumesRead::Stops(number, at)),
    }
}
