//! Steps over a file's records: Meta's, or a volume's.
ghost use Rattle.std.specs.Prelude.{◌≡◌, ◌+◌, ◌<◌, ◌≤◌, length, IfOk, IfErr, OnOk};
ghost use Rattle.pcp_base.specs.Fields.{number_at};
ghost use Rattle.pcp_base.specs.declared.file.FileId.TheVariants.{Meta, Volume};
ghost use Rattle.pcp_model.specs.Disk.{contents_of};
ghost use Rattle.pcp_outside.specs.Devices.{IsNumbered};
ghost use Rattle.archive_loading.specs.Looks.{Looks, Blames};
ghost use Rattle.archive_check.specs.Stamped.{Steps, IsHead};

use archive_loading::{Lack, Taken, stamp_in, take_frame};
use pcp_base::{NoMemory, Stamp, be32};
use pcp_outside::{Disk, FileId};

/// A volume's number is below 2^32 - 1.
pub fn numbered(number: u32) -> Result<(), NoMemory>
    ensures { OnOk result (number < 4294967295) }
{
    if number == u32::MAX {
        return Err(NoMemory);
    }
    Ok(())
}

/// The word at a byte of these.
fn word_at(front: &[u8], at: usize) -> u32
    requires { at + 4 ≤ length front.now }
    ensures { result ≡ number_at front.now at }
{
    be32(front, at).unwrap_or(0)
}

/// The stamp and the length of the item's record that begins with these 12 bytes, where so many are left of its file.
fn head_in(front: &[u8], left: u64) -> Option<(Stamp, u64)>
    requires { length front.now ≡ 12 }
    ensures { IsHead front.now left result }
{
    let size = u64::from(word_at(front, 0));
    if size < 12 || left < size {
        return None;
    }
    let stamp = Stamp::build(word_at(front, 4), word_at(front, 8))?;
    Some((stamp, size))
}

/// The stamp of a domain's record of Meta, which is taken into the buffer.
fn meta_step<D: Disk>(
    disk: &mut D,
    end: u64,
    at: u64,
    frame: &mut Vec<u8>,
) -> Result<Option<(Option<Stamp>, u64)>, Lack>
    requires { D.tells → end ≡ length (contents_of (D.held disk.old) Meta) }
    ensures found { D.tells → IfOk result (Steps Meta (contents_of (D.held disk.old) Meta) at) }
    ensures looks { Looks D.Disk disk.old disk.new }
    ensures cause { IfErr result (Blames D.Disk disk.old disk.new) }
    ensures quiet { OnOk result (D.faults disk.new ≡ D.faults disk.old) }
{
    match take_frame(disk, FileId::Meta, end, at, frame)? {
        Taken::Torn => Ok(None),
        Taken::Wrong => Ok(None),
        Taken::Frame => {
            let next = at + frame.len() as u64;
            Ok(Some((stamp_in(frame), next)))
        }
    }
}

/// The stamp of an item's record of a volume. Its first 12 bytes are taken, and no others.
fn volume_step<D: Disk>(
    disk: &mut D,
    number: u32,
    end: u64,
    at: u64,
) -> Result<Option<(Option<Stamp>, u64)>, Lack>
    requires numbered { number < 4294967295 }
    requires end { D.tells → end ≡ length (contents_of (D.held disk.old) (Volume number)) }
    ensures found { D.tells → IfOk result (Steps (Volume number) (contents_of (D.held disk.old) (Volume number)) at) }
    ensures looks { Looks D.Disk disk.old disk.new }
    ensures cause { IfErr result (Blames D.Disk disk.old disk.new) }
    ensures quiet { OnOk result (D.faults disk.new ≡ D.faults disk.old) }
{
    if at >= end || end - at < 12 {
        return Ok(None);
    }
    let mut front = [0; 12];
    disk.read(FileId::Volume(number), at, &mut front)?;
    match head_in(&front, end - at) {
        Some(head) => Ok(Some((Some(head.0), at + head.1))),
        None => Ok(None),
    }
}

/// The next record's stamp, if it has one, and the offset behind it; of a readable file of this length, at a place between its records.
/// A record of Meta is taken into the buffer, in place of what it held.
pub fn step<D: Disk>(
    disk: &mut D,
    file: FileId,
    end: u64,
    at: u64,
    frame: &mut Vec<u8>,
) -> Result<Option<(Option<Stamp>, u64)>, Lack>
    requires numbered { IsNumbered file }
    requires end { D.tells → end ≡ length (contents_of (D.held disk.old) file) }
    ensures found { D.tells → IfOk result (Steps file (contents_of (D.held disk.old) file) at) }
    ensures looks { Looks D.Disk disk.old disk.new }
    ensures cause { IfErr result (Blames D.Disk disk.old disk.new) }
    ensures quiet { OnOk result (D.faults disk.new ≡ D.faults disk.old) }
{
    match file {
        FileId::Meta => meta_step(disk, end, at, frame),
        FileId::Index => Ok(None),
        FileId::Volume(number) => volume_step(disk, number, end, at),
    }
}
