//! Loading of the index, whole, and of each volume its label.
ghost use Rattle.std.specs.Prelude.{◌≡◌, ◌+◌, ◌<◌, ◌≤◌, length, take, IfOk, IfErr, MatchBool, OnOk};
ghost use Rattle.pcp_base.specs.declared.file.FileId.TheVariants.{Index as IndexFile, Volume};
ghost use Rattle.pcp_model.specs.Disk.{contents_of};
ghost use Rattle.pcp_outside.specs.Devices.{IsVolumes};
ghost use Rattle.archive_loading.specs.Looks.{Looks, Blames};
ghost use Rattle.archive_loading.specs.Parts.{IsIndexPart};
ghost use Rattle.archive_loading.specs.Volumes.{IsVolumeHead, IsVolumePart, IsVolumesPart, IsReachablePart, AreRising, IsAlone};
ghost use Rattle.archive_loading.specs.LoadFaults.{IsBeside};
ghost use Rattle.archive_loading.specs.Takes.{label_bytes, TookLabels};

use crate::labels::{Head, head_of};
use crate::lack::Lack;
use crate::parts::{IndexPart, index_part};
use crate::reading::{count_volumes, front_of, length_of, whole_of};
use pcp_base::List;
use pcp_model::Label;
use pcp_outside::{Disk, FileId};
use std::alloc::Global;

/// What a volume is, as far as its label goes.
pub enum VolumePart {
    Empty,
    /// Its label, or of the last volume less; and its length.
    Headed(u64),
    /// Something else, from this byte on.
    Stops(u64),
}

/// What the volumes are, as far as their labels go.
#[derive(Drop)]
pub enum VolumesPart {
    /// Each that isn't empty, by its number, and its length.
    Headed(List<(u32, u64)>),
    /// The first that is something else has this number, and is so from this byte on.
    Stops(u32, u64),
}

/// The index, read whole.
pub fn load_index<D: Disk>(alloc: Global, disk: &mut D, label: &Label) -> Result<IndexPart, Lack>
    ensures index { D.tells → IfOk result (IsIndexPart label.now (contents_of (D.held disk.old) IndexFile)) }
    ensures taken { D.tells → D.taken disk.new ≤ D.taken disk.old }
    ensures looks { Looks D.Disk disk.old disk.new }
    ensures cause { IfErr result (Blames D.Disk disk.old disk.new) }
    ensures quiet { OnOk result (D.faults disk.new ≡ D.faults disk.old) }
{
    let bytes = whole_of(alloc, disk, FileId::Index)?;
    let part = index_part(alloc, bytes.as_slice(), label)?;
    Ok(part)
}

/// How the first bytes of a volume go on. From 2^31 on a volume has no label.
fn volume_head(bytes: &[u8], label: &Label, number: u32) -> Head
    requires few { length bytes.now ≤ 132 }
    ensures { IsVolumeHead bytes.now label.now number result }
{
    if number >= 1 << 31 {
        return Head::Stops(0);
    }
    head_of(bytes, label, number as i32)
}

/// A volume, as far as its label goes.
pub fn load_volume<D: Disk>(
    alloc: Global,
    disk: &mut D,
    label: &Label,
    number: u32,
    is_last: bool,
) -> Result<VolumePart, Lack>
    requires { number < 4294967295 }
    ensures volume { D.tells → IfOk result (IsVolumePart (contents_of (D.held disk.old)) label.now number is_last) }
    ensures taken { D.tells → D.taken disk.new ≤ D.taken disk.old + length (take 132 (contents_of (D.held disk.old) (Volume number))) }
    ensures looks { Looks D.Disk disk.old disk.new }
    ensures cause { IfErr result (Blames D.Disk disk.old disk.new) }
    ensures quiet { OnOk result (D.faults disk.new ≡ D.faults disk.old) }
{
    let (bytes, end) = front_of(alloc, disk, FileId::Volume(number), 132)?;
    if end == 0 {
        return Ok(VolumePart::Empty);
    }
    match volume_head(bytes.as_slice(), label, number) {
        Head::Whole => Ok(VolumePart::Headed(end)),
        Head::Stops(at) => Ok(VolumePart::Stops(at)),
        Head::Part => {
            if is_last {
                return Ok(VolumePart::Headed(end));
            }
            Ok(VolumePart::Stops(end))
        }
    }
}

/// The volumes below a number, as far as their labels go.
fn load_heads<D: Disk>(
    alloc: Global,
    disk: &mut D,
    label: &Label,
    count: u32,
) -> Result<VolumesPart, Lack>
    requires { D.tells → IsVolumes (D.held disk.old) count }
    ensures volumes { D.tells → IfOk result (IsVolumesPart (contents_of (D.held disk.old)) label.now) }
    ensures reachable { IfOk result IsReachablePart }
    ensures rises { IfOk result AreRising }
    ensures taken { D.tells → D.taken disk.new ≤ D.taken disk.old + label_bytes (contents_of (D.held disk.old)) count }
    ensures looks { Looks D.Disk disk.old disk.new }
    ensures cause { IfErr result (Blames D.Disk disk.old disk.new) }
    ensures quiet { OnOk result (D.faults disk.new ≡ D.faults disk.old) }
{
    let mut volumes = List::empty(alloc);
    for number in 0..count {
        match load_volume(alloc, disk, label, number, number + 1 == count)? {
            VolumePart::Empty => {}
            VolumePart::Headed(end) => volumes.push((number, end))?,
            VolumePart::Stops(at) => return Ok(VolumesPart::Stops(number, at)),
        }
    }
    Ok(VolumesPart::Headed(volumes))
}

/// The volumes, as far as their labels go.
pub fn load_volumes<D: Disk>(
    alloc: Global,
    disk: &mut D,
    label: &Label,
) -> Result<VolumesPart, Lack>
    ensures volumes { D.tells → IfOk result (IsVolumesPart (contents_of (D.held disk.old)) label.now) }
    ensures reachable { IfOk result IsReachablePart }
    ensures rises { IfOk result AreRising }
    ensures taken { D.tells → TookLabels (contents_of (D.held disk.old)) (D.taken disk.old) (D.taken disk.new) }
    ensures looks { Looks D.Disk disk.old disk.new }
    ensures cause { IfErr result (Blames D.Disk disk.old disk.new) }
    ensures quiet { OnOk result (D.faults disk.new ≡ D.faults disk.old) }
{
    let count = count_volumes(disk)?;
    load_heads(alloc, disk, label, count)
}

/// Whether no file but Meta holds a byte.
pub fn is_alone<D: Disk>(disk: &mut D) -> Result<bool, Lack>
    ensures alone { D.tells → IfOk result (λ alone. MatchBool alone (IsAlone (contents_of (D.held disk.old))) (IsBeside (contents_of (D.held disk.old)))) }
    ensures taken { D.tells → D.taken disk.new ≤ D.taken disk.old }
    ensures looks { Looks D.Disk disk.old disk.new }
    ensures cause { IfErr result (Blames D.Disk disk.old disk.new) }
    ensures quiet { OnOk result (D.faults disk.new ≡ D.faults disk.old) }
{
    if length_of(disk, FileId::Index)? != 0 {
        return Ok(false);
    }
    if count_volumes(disk)? != 0 {
        return Ok(false);
    }
    Ok(true)
}
