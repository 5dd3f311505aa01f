//! The files of one moment, and each length that a crash may leave of them.
use case_outside::Held;
use pcp_base::{Bytes, FileId, List, NoMemory};
use pcp_memory::MemDisk;
use std::alloc::Global;

/// What a file held at a moment: how many bytes were sure, and all of them; and at which length it is looked at.
#[derive(Drop)]
pub struct Part {
    pub file: FileId,
    sure: usize,
    bytes: Bytes,
    end: usize,
}

impl Part {
    /// A part of which so many bytes are sure.
    pub fn new(file: FileId, sure: usize, bytes: Bytes) -> Part {
        Part {
            file,
            sure,
            bytes,
            end: sure,
        }
    }

    /// What is left of it at the length that it is looked at.
    pub fn front(&self) -> &[u8] {
        let bytes = self.bytes.as_slice();
        bytes.get(..self.end).unwrap_or(bytes)
    }

    // Goes on to the next length. False where this was the last; then it is the first again.
    fn advance(&mut self) -> bool {
        if self.end < self.bytes.len() {
            self.end = self.end.saturating_add(1);
            return true;
        }
        self.end = self.sure;
        false
    }
}

/// Goes on to the next lengths. False where these were the last; then they are the first again.
pub fn advance(parts: &mut [Part]) -> bool {
    for part in parts.iter_mut() {
        if part.advance() {
            return true;
        }
    }
    false
}

fn part_at(alloc: Global, disk: &MemDisk, moment: usize, file: FileId) -> Result<Part, NoMemory> {
    if moment > disk.moments() {
        return Err(NoMemory);
    }
    let (sure, bytes) = disk.holdings_at(alloc, moment, file)?;
    Ok(Part::new(file, sure, bytes))
}

/// The files that ever held bytes, as they were at a moment.
pub fn parts_at(
    alloc: Global,
    disk: &MemDisk,
    moment: usize,
    files: &[Held],
) -> Result<Vec<Part>, NoMemory> {
    let mut parts = Vec::new(alloc);
    for held in files {
        parts.push(part_at(alloc, disk, moment, held.file)?)?;
    }
    Ok(parts)
}

/// The files as they stand, of which one may be cut anywhere.
pub fn parts_cut(alloc: Global, files: &[Held], cut: FileId) -> Result<Vec<Part>, NoMemory> {
    let mut parts = Vec::new(alloc);
    for held in files {
        let bytes = List::from_vec(held.bytes.to_vec(alloc)?);
        let sure = if held.file == cut { 0 } else { bytes.len() };
        parts.push(Part::new(held.file, sure, bytes))?;
    }
    Ok(parts)
}

/// The files of the image at the lengths that they are looked at.
pub fn fronts_of(alloc: Global, parts: &[Part]) -> Result<Vec<Held>, NoMemory> {
    let mut files = Vec::new(alloc);
    for part in parts {
        let bytes = part.front().to_vec(alloc)?;
        files.push(Held {
            file: part.file,
            bytes,
        })?;
    }
    Ok(files)
}
