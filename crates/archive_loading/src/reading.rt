//! Calls of a disk that only read.
ghost use Rattle.std.specs.Prelude.{◌≡◌, ◌+◌, ◌<◌, ◌≤◌, ◌++◌, length, take, drop, IfOk, IfErr, OnOk};
ghost use Rattle.pcp_model.specs.Disk.{contents_of};
ghost use Rattle.pcp_outside.specs.Devices.{IsNumbered, IsVolumes};
ghost use Rattle.archive_loading.specs.Looks.{Looks, Blames};
ghost use Rattle.archive_loading.specs.Standing.{IsFront};
ghost use Rattle.archive_loading.specs.Taking.{volume_bytes};

use crate::lack::Lack;
use pcp_base::{Bytes, List, NoMemory};
use pcp_outside::{Disk, FileId};
use std::alloc::Global;

/// How many bytes a file holds. A length that takes more than 64 bits to count with is as good as want of memory.
pub fn length_of<D: Disk>(disk: &mut D, file: FileId) -> Result<u64, Lack>
    requires { IsNumbered file }
    ensures length { D.tells → IfOk result (λ n. n ≡ length (contents_of (D.held disk.old) file)) }
    ensures taken { D.tells → D.taken disk.new ≡ D.taken disk.old }
    ensures looks { Looks D.Disk disk.old disk.new }
    ensures cause { IfErr result (Blames D.Disk disk.old disk.new) }
    ensures quiet { OnOk result (D.faults disk.new ≡ D.faults disk.old) }
{
    let length = disk.len(file)?;
    if length == u64::MAX {
        return Err(Lack::Memory);
    }
    Ok(length)
}

/// One more than the greatest number of a volume that isn't empty, or 0.
pub fn count_volumes<D: Disk>(disk: &mut D) -> Result<u32, Lack>
    ensures count { D.tells → IfOk result (IsVolumes (D.held disk.old)) }
    ensures taken { D.tells → D.taken disk.new ≡ D.taken disk.old }
    ensures looks { Looks D.Disk disk.old disk.new }
    ensures cause { IfErr result (Blames D.Disk disk.old disk.new) }
    ensures quiet { OnOk result (D.faults disk.new ≡ D.faults disk.old) }
{
    let count = disk.volumes()?;
    Ok(count)
}

/// The first file that stands under its name with `.xz` or `.gz` added.
pub fn wrapped_file<D: Disk>(disk: &mut D) -> Result<Option<FileId>, Lack>
    ensures first { D.tells → IfOk result (λ found. found ≡ D.wrapped_file disk.old) }
    ensures taken { D.tells → D.taken disk.new ≡ D.taken disk.old }
    ensures looks { Looks D.Disk disk.old disk.new }
    ensures cause { IfErr result (Blames D.Disk disk.old disk.new) }
    ensures quiet { OnOk result (D.faults disk.new ≡ D.faults disk.old) }
{
    let found = disk.wrapped()?;
    Ok(found)
}

fn make_room(out: &mut Vec<u8>, count: usize) -> Result<(), NoMemory>
    requires { length out.old.items + count < 18446744073709551616 }
    ensures held { OnOk result ((length out.new.items ≡ length out.old.items + count) × (take (length out.old.items) out.new.items ≡ out.old.items)) }
{
    let held = out.len();
    out.resize(held + count, 0)?;
    Ok(())
}

/// Puts bytes of a file, from an offset on, behind what the buffer holds. After a refusal what it holds behind isn't said.
pub fn take_bytes<D: Disk>(
    disk: &mut D,
    file: FileId,
    at: u64,
    count: usize,
    out: &mut Vec<u8>,
) -> Result<(), Lack>
    requires numbered { IsNumbered file }
    requires room { length out.old.items + count < 18446744073709551616 }
    requires within { D.tells → at + count ≤ length (contents_of (D.held disk.old) file) }
    ensures bytes { D.tells → OnOk result (out.new.items ≡ out.old.items ++ take count (drop at (contents_of (D.held disk.old) file))) }
    ensures length { OnOk result (length out.new.items ≡ length out.old.items + count) }
    ensures front { OnOk result (take (length out.old.items) out.new.items ≡ out.old.items) }
    ensures taken { D.tells → D.taken disk.new ≤ D.taken disk.old + volume_bytes file count }
    ensures most { D.tells → D.taken disk.new ≤ D.taken disk.old + count }
    ensures looks { Looks D.Disk disk.old disk.new }
    ensures cause { IfErr result (Blames D.Disk disk.old disk.new) }
    ensures quiet { OnOk result (D.faults disk.new ≡ D.faults disk.old) }
{
    let held = out.len();
    make_room(out, count)?;
    disk.read(file, at, &mut out[held..])?;
    Ok(())
}

/// A file's first bytes, at most so many, and its length.
pub fn front_of<D: Disk>(
    alloc: Global,
    disk: &mut D,
    file: FileId,
    most: u64,
) -> Result<(Bytes, u64), Lack>
    requires { IsNumbered file }
    ensures front { D.tells → IfOk result (IsFront (contents_of (D.held disk.old) file) most) }
    ensures short { IfOk result (λ front. length front.0 ≤ most) }
    ensures taken { D.tells → D.taken disk.new ≤ D.taken disk.old + volume_bytes file (length (take most (contents_of (D.held disk.old) file))) }
    ensures looks { Looks D.Disk disk.old disk.new }
    ensures cause { IfErr result (Blames D.Disk disk.old disk.new) }
    ensures quiet { OnOk result (D.faults disk.new ≡ D.faults disk.old) }
{
    let end = length_of(disk, file)?;
    let count = if end < most { end } else { most };
    let mut bytes = Vec::new(alloc);
    take_bytes(disk, file, 0, count as usize, &mut bytes)?;
    Ok((List::from_vec(bytes), end))
}

/// All bytes of a file.
pub fn whole_of<D: Disk>(alloc: Global, disk: &mut D, file: FileId) -> Result<Bytes, Lack>
    requires { IsNumbered file }
    ensures whole { D.tells → IfOk result (λ bytes. bytes ≡ contents_of (D.held disk.old) file) }
    ensures taken { D.tells → D.taken disk.new ≤ D.taken disk.old + volume_bytes file (length (contents_of (D.held disk.old) file)) }
    ensures looks { Looks D.Disk disk.old disk.new }
    ensures cause { IfErr result (Blames D.Disk disk.old disk.new) }
    ensures quiet { OnOk result (D.faults disk.new ≡ D.faults disk.old) }
{
    let end = length_of(disk, file)?;
    let mut bytes = Vec::new(alloc);
    take_bytes(disk, file, 0, end as usize, &mut bytes)?;
    Ok(List::from_vec(bytes))
}
