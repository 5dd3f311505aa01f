//! All records of the source's volumes are read, as a dump reads them: how many items there are, and where the last volume's whole records end.
ghost use Rattle.std.specs.Prelude.{◌≡◌, ◌≤◌, drop, length, IfErr, IfOk, OnOk};
ghost use Rattle.pcp_model.specs.Disk.{contents_of};
ghost use Rattle.pcp_outside.specs.Causes.{Rose};
ghost use Rattle.archive_loading.specs.Loaded.{IsOver};
ghost use Rattle.archive_loading.specs.Looks.{Looks};
ghost use Rattle.archive_reader.specs.declared.fault.ReaderFault.TheVariants.{DiskFault};
ghost use Rattle.archive_reader.specs.Walks.{next_offset, volumes_from};
ghost use Rattle.log_export.specs.Reading.{IsRecordFault, Walked};

use archive_reader::{ArchiveReader, Place, ReaderFault};
use pcp_outside::Disk;
use std::alloc::Global;

/// How many items were read, and the place behind the last of them.
#[derive(Clone, Copy)]
pub(crate) struct Walk {
    pub items: u64,
    pub end: Place,
}

/// Reads each record of the volumes, which has to be an item's. Each is looked at in one buffer.
pub(crate) fn read_all<D: Disk>(
    alloc: Global,
    disk: &mut D,
    reader: &ArchiveReader,
) -> Result<Walk, ReaderFault>
    requires { D.tells → IsOver (contents_of (D.held disk.old)) reader.now }
    ensures walked { D.tells → IfOk result (Walked (contents_of (D.held disk.old)) reader.now.volumes) }
    ensures fault { D.tells → IfErr result (IsRecordFault (contents_of (D.held disk.old)) reader.now) }
    ensures looks { Looks D.Disk disk.old disk.new }
    ensures cause { IfErr result (λ e. e ≡ DiskFault → Rose (D.faults disk.old) (D.faults disk.new)) }
    ensures quiet { OnOk result (D.faults disk.new ≡ D.faults disk.old) }
{
    let mut frame = Vec::new(alloc);
    let mut end = reader.start();
    for items in 0..u64::MAX {
        match reader.view_at(disk, end, &mut frame)? {
            Some((_, next)) => end = next,
            None => return Ok(Walk { items, end }),
        }
    }
    Err(ReaderFault::NoMemory)
}

/// The position of the first volume from a number on.
fn first_from(volumes: &[(u32, u64)], number: u32) -> usize
    ensures volumes { drop result volumes.now ≡ volumes_from number volumes.now }
    ensures within { result ≤ length volumes.now }
{
    let mut index = 0;
    while index < volumes.len() {
        if volumes[index].0 >= number {
            return index;
        }
        index += 1;
    }
    index
}

/// An offset of a volume, or 132 of the next one where it is the volume's end, over as many volumes as end so.
fn settled(volumes: &[(u32, u64)], index: usize, at: u64) -> u64
    requires { index ≤ length volumes.now }
    ensures { result ≡ next_offset (drop index volumes.now) at }
{
    let mut index = index;
    let mut at = at;
    while index < volumes.len() {
        if index + 1 == volumes.len() {
            return at;
        }
        if at != volumes[index].1 {
            return at;
        }
        index += 1;
        at = 132;
    }
    at
}

/// Where the next record would begin.
pub(crate) fn offset_behind(volumes: &[(u32, u64)], place: Place) -> u64
    ensures { result ≡ next_offset (volumes_from place.volume volumes.now) place.offset }
{
    let index = first_from(volumes, place.volume);
    settled(volumes, index, place.offset)
}
