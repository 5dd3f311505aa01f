//! The files of a disk in memory at one time.
use crate::numbers::name_of;
use case_book::Answer;
use pcp_base::{FileId, NoMemory};
use pcp_memory::MemDisk;
use std::alloc::Global;

/// A file and its bytes.
#[derive(Drop)]
pub struct Held {
    pub file: FileId,
    pub bytes: Vec<u8>,
}

fn held_in(alloc: Global, disk: &MemDisk, file: FileId) -> Result<Held, NoMemory> {
    let bytes = disk.bytes(file).to_vec(alloc)?;
    Ok(Held { file, bytes })
}

// One more than the greatest number of a volume of the case that isn't empty, or 0. No call of the disk is made.
fn count_volumes(disk: &MemDisk) -> u32 {
    let mut count = 0;
    for number in 0..1000 {
        if !disk.bytes(FileId::Volume(number)).is_empty() {
            count = number.saturating_add(1);
        }
    }
    count
}

/// What all files hold: Meta, the index and all volumes up to the last that isn't empty.
pub fn snapshot(alloc: Global, disk: &MemDisk) -> Result<Vec<Held>, NoMemory> {
    let count = count_volumes(disk);
    let mut all = Vec::new(alloc);
    all.push(held_in(alloc, disk, FileId::Meta)?)?;
    all.push(held_in(alloc, disk, FileId::Index)?)?;
    for number in 0..count {
        all.push(held_in(alloc, disk, FileId::Volume(number))?)?;
    }
    Ok(all)
}

/// The bytes of a file in a snapshot.
pub fn bytes_in(all: &[Held], file: FileId) -> &[u8] {
    for held in all {
        if held.file == file {
            return held.bytes.as_slice();
        }
    }
    &[]
}

// Puts a file whose bytes are others than they were, unless it is put already.
fn put_change(
    alloc: Global,
    answer: &mut Answer,
    file: FileId,
    old: &[u8],
    new: &[u8],
) -> Result<(), NoMemory> {
    if old == new {
        return Ok(());
    }
    let name = name_of(alloc, file)?;
    match answer.get(&name) {
        Some(_) => Ok(()),
        None => answer.put(&name, new),
    }
}

/// Puts each file that was changed into the answer.
pub fn put_changed(
    alloc: Global,
    answer: &mut Answer,
    old: &[Held],
    new: &[Held],
) -> Result<(), NoMemory> {
    for held in new {
        put_change(
            alloc,
            answer,
            held.file,
            bytes_in(old, held.file),
            &held.bytes,
        )?;
    }
    for held in old {
        put_change(
            alloc,
            answer,
            held.file,
            &held.bytes,
            bytes_in(new, held.file),
        )?;
    }
    Ok(())
}
