//! Steps over the records of volumes as they stand, over the ends of volumes.
ghost use Rattle.std.specs.Prelude.{◌≡◌, ◌+◌, ◌<◌, ◌≤◌, length, drop, IfOk, IfErr, OnOk};
ghost use Rattle.std.specs.List.{AllByRecursion};
ghost use Rattle.pcp_model.specs.Disk.{contents_of};
ghost use Rattle.archive_loading.specs.Looks.{Looks, Blames};
ghost use Rattle.archive_loading.specs.Loaded.{IsMeasured, IsReachable, Rises};
ghost use Rattle.archive_reader.specs.Walks.{volumes_from, next_volumes, next_offset};
ghost use Rattle.archive_reader.specs.Steps.{IsStood, IsWithin, IsWalked, IsIn};
ghost use Rattle.archive_reader.specs.Takes.{TookThere, TookNext};

use archive_loading::{Lack, Next, next_record};
use archive_volume::ItemView;
use pcp_outside::Disk;

/// What follows a place.
#[derive(Drop)]
pub enum Step<'a> {
    /// No record.
    End,
    /// No item's record, at an offset of the volume with this number.
    Bad(u32, u64),
    /// An item's record, looked at in the buffer; behind it a place: how many volumes are behind, and an offset.
    Item(ItemView<'a>, usize, u64),
}

/// The position of the first volume from a number on.
pub fn first_from(volumes: &[(u32, u64)], number: u32) -> usize
    requires { Rises volumes.now }
    ensures volumes { drop result volumes.now ≡ volumes_from number volumes.now }
    ensures within { result ≤ length volumes.now }
{
    volumes.partition_point(|volume| volume.0 < number)
}

/// The place behind the ends of volumes.
fn settle(volumes: &[(u32, u64)], index: usize, at: u64) -> (usize, u64)
    requires { index ≤ length volumes.now }
    ensures volumes { drop result.0 volumes.now ≡ next_volumes (drop index volumes.now) at }
    ensures offset { result.1 ≡ next_offset (drop index volumes.now) at }
    ensures within { result.0 ≤ length volumes.now }
{
    let mut index = index;
    let mut at = at;
    while index < volumes.len() {
        if index + 1 == volumes.len() {
            return (index, at);
        }
        if at != volumes[index].1 {
            return (index, at);
        }
        index += 1;
        at = 132;
    }
    (index, at)
}

/// What stands at a place behind the ends of volumes.
pub fn stand<'a, D: Disk>(
    disk: &mut D,
    volumes: &[(u32, u64)],
    index: usize,
    at: u64,
    frame: &'a mut Vec<u8>,
) -> Result<Step<'a>, Lack>
    requires numbered { IsReachable volumes.now }
    requires lengths { D.tells → AllByRecursion (IsMeasured (contents_of (D.held disk.old))) volumes.now }
    ensures step { D.tells → IfOk result (IsStood (contents_of (D.held disk.old)) volumes.now (drop index volumes.now) at) }
    ensures within { IfOk result (IsIn volumes.now) }
    ensures count { D.tells → TookThere (contents_of (D.held disk.old)) (drop index volumes.now) at (D.taken disk.old) (D.taken disk.new) }
    ensures looks { Looks D.Disk disk.old disk.new }
    ensures cause { IfErr result (Blames D.Disk disk.old disk.new) }
    ensures quiet { OnOk result (D.faults disk.new ≡ D.faults disk.old) }
{
    if index >= volumes.len() {
        return Ok(Step::End);
    }
    let (number, end) = volumes[index];
    match next_record(disk, number, end, at, frame)? {
        Next::Item(item, next) => Ok(Step::Item(item, index, next)),
        Next::Bad => Ok(Step::Bad(number, at)),
        Next::End => {
            if index + 1 < volumes.len() {
                return Ok(Step::Bad(number, at));
            }
            Ok(Step::End)
        }
    }
}

/// What stands at a place of a volume, up to where the next volume begins.
pub fn stand_within<'a, D: Disk>(
    disk: &mut D,
    volumes: &[(u32, u64)],
    index: usize,
    at: u64,
    frame: &'a mut Vec<u8>,
) -> Result<Step<'a>, Lack>
    requires within { index < length volumes.now }
    requires numbered { IsReachable volumes.now }
    requires lengths { D.tells → AllByRecursion (IsMeasured (contents_of (D.held disk.old))) volumes.now }
    ensures step { D.tells → IfOk result (IsWithin (contents_of (D.held disk.old)) (drop index volumes.now) at) }
    ensures looks { Looks D.Disk disk.old disk.new }
    ensures cause { IfErr result (Blames D.Disk disk.old disk.new) }
    ensures quiet { OnOk result (D.faults disk.new ≡ D.faults disk.old) }
{
    if at == volumes[index].1 && index + 1 < volumes.len() {
        return Ok(Step::End);
    }
    stand(disk, volumes, index, at, frame)
}

/// The next record from a place on.
pub fn walk<'a, D: Disk>(
    disk: &mut D,
    volumes: &[(u32, u64)],
    index: usize,
    at: u64,
    frame: &'a mut Vec<u8>,
) -> Result<Step<'a>, Lack>
    requires within { index ≤ length volumes.now }
    requires numbered { IsReachable volumes.now }
    requires lengths { D.tells → AllByRecursion (IsMeasured (contents_of (D.held disk.old))) volumes.now }
    ensures step { D.tells → IfOk result (IsWalked (contents_of (D.held disk.old)) volumes.now index at) }
    ensures within { IfOk result (IsIn volumes.now) }
    ensures count { D.tells → TookNext (contents_of (D.held disk.old)) (drop index volumes.now) at (D.taken disk.old) (D.taken disk.new) }
    ensures looks { Looks D.Disk disk.old disk.new }
    ensures cause { IfErr result (Blames D.Disk disk.old disk.new) }
    ensures quiet { OnOk result (D.faults disk.new ≡ D.faults disk.old) }
{
    let (behind, offset) = settle(volumes, index, at);
    stand(disk, volumes, behind, offset, frame)
}
