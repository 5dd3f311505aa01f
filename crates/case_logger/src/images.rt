//! What a crash may leave of the runs of a case: each image is recovered, and its items are read record after record.
use crate::items::{are_described, items_in, tell_item};
use archive_recovery::recover;
use case_outside::{Drive, Held, snapshot};
use pcp_base::{Bytes, FileId, NoMemory};
use pcp_memory::MemDisk;
use std::alloc::Global;

// A file at one moment: how many of its bytes were sure, and all of them.
#[derive(Drop)]
struct Part {
    file: FileId,
    sure: usize,
    bytes: Bytes,
}

// How many items the images have at least, and at most.
#[derive(Clone, Copy)]
struct Span {
    least: usize,
    most: usize,
}

impl Part {
    // How many lengths a crash may leave it.
    fn choices(&self) -> usize {
        self.bytes.len().saturating_sub(self.sure).saturating_add(1)
    }

    // What is left of it at one of these lengths.
    fn front(&self, choice: usize) -> &[u8] {
        let bytes = self.bytes.as_slice();
        bytes
            .get(..self.sure.saturating_add(choice))
            .unwrap_or(bytes)
    }
}

// The files that hold bytes now, as they were at a moment.
fn parts_at(
    alloc: Global,
    disk: &MemDisk,
    moment: usize,
    files: &[Held],
) -> Result<Vec<Part>, NoMemory> {
    let mut parts = Vec::new(alloc);
    if moment > disk.moments() {
        return Ok(parts);
    }
    for held in files {
        let file = held.file;
        let (sure, bytes) = disk.holdings_at(alloc, moment, file)?;
        parts.push(Part { file, sure, bytes })?;
    }
    Ok(parts)
}

fn count_images(parts: &[Part]) -> usize {
    let mut count = 1usize;
    for part in parts {
        count = count.saturating_mul(part.choices());
    }
    count
}

// The image of a number: its digits, in places as large as the choices, are what is left of the files.
fn image_of(alloc: Global, parts: &[Part], number: usize) -> Result<Vec<Held>, NoMemory> {
    let mut files = Vec::new(alloc);
    let mut rest = number;
    for part in parts {
        let choices = part.choices().max(1);
        let bytes = part.front(rest % choices).to_vec(alloc)?;
        rest = rest / choices;
        files.push(Held {
            file: part.file,
            bytes,
        })?;
    }
    Ok(files)
}

// Whether these items are the first of those, as text.
fn are_first(items: &[String], all: &[String]) -> bool {
    if items.len() > all.len() {
        return false;
    }
    for (item, other) in items.iter().zip(all) {
        if item.as_str() != other.as_str() {
            return false;
        }
    }
    true
}

fn texts_of(alloc: Global, files: &[Held]) -> Result<Vec<String>, NoMemory> {
    let mut texts = Vec::new(alloc);
    for item in &items_in(alloc, files)? {
        texts.push(tell_item(alloc, item)?)?;
    }
    Ok(texts)
}

// How many items an image has once it is recovered. `None` where it isn't, or its items aren't the first, each described.
fn read_image(alloc: Global, files: Vec<Held>, all: &[String]) -> Result<Option<usize>, NoMemory> {
    let mut drive = Drive::new(alloc);
    drive.files = files;
    drive.make(alloc)?;
    let Ok(archive) = recover(alloc, &mut drive.disk) else {
        return Ok(None);
    };
    let left = snapshot(alloc, &drive.disk)?;
    let texts = texts_of(alloc, &left)?;
    let described = are_described(&archive.meta, &items_in(alloc, &left)?);
    if described && are_first(&texts, all) && archive.items == texts.len() as u64 {
        return Ok(Some(texts.len()));
    }
    Ok(None)
}

// Reads each image of a moment, and answers whether each is as it must be.
fn read_moment(
    alloc: Global,
    parts: &[Part],
    all: &[String],
    span: &mut Span,
) -> Result<bool, NoMemory> {
    for number in 0..count_images(parts) {
        let files = image_of(alloc, parts, number)?;
        let Some(count) = read_image(alloc, files, all)? else {
            return Ok(false);
        };
        span.least = span.least.min(count);
        span.most = span.most.max(count);
    }
    Ok(true)
}

fn read_moments(
    alloc: Global,
    drive: &Drive,
    files: &[Held],
    all: &[String],
) -> Result<Option<Span>, NoMemory> {
    let mut span = Span {
        least: all.len(),
        most: 0,
    };
    for moment in drive.first_moment..=drive.disk.moments() {
        let parts = parts_at(alloc, &drive.disk, moment, files)?;
        if !read_moment(alloc, &parts, all, &mut span)? {
            return Ok(None);
        }
    }
    Ok(Some(span))
}

/// How many items the images of each moment have once they are recovered, at least and at most: the first of those that
/// stand now, each described. Else that one hasn't.
pub fn tell_images(alloc: Global, drive: &mut Drive) -> Result<String, NoMemory> {
    let files = snapshot(alloc, &drive.disk)?;
    let all = texts_of(alloc, &files)?;
    match read_moments(alloc, drive, &files, &all)? {
        Some(span) => {
            let Span { least, most } = span;
            Ok(format!(in alloc; "{least} to {most} items\n")?)
        }
        None => Ok(String::from_str(alloc, "other items\n")?),
    }
}
