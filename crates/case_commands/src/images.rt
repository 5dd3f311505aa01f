//! Reads the images that a crash may leave.
use crate::parts::{Part, advance, fronts_of, parts_at, parts_cut};
use crate::tally::{Found, Tally};
use archive_meta::MetaState;
use archive_reader::{ArchiveReader, ReaderFault};
use case_book::{Answer, Kept, Line};
use case_outside::{Drive, Held, disk_of, file_of, snapshot};
use case_records::{is_described, write_item};
use pcp_base::{Item, List, NoMemory};
use pcp_memory::MemDisk;
use std::alloc::Global;

fn is_told(alloc: Global, item: &Item, wanted: &[u8]) -> Result<bool, NoMemory> {
    let mut text = String::new(alloc);
    write_item(&mut text, item)?;
    Ok(text.as_bytes() == wanted)
}

// What an item is, where one of this text is looked for.
fn found_of(
    alloc: Global,
    meta: &MetaState,
    item: &Item,
    wanted: &[u8],
) -> Result<Found, NoMemory> {
    if !is_told(alloc, item, wanted)? {
        return Ok(Found::Other);
    }
    match is_described(meta, item) {
        true => Ok(Found::Described),
        false => Ok(Found::Undescribed),
    }
}

fn unread(fault: ReaderFault) -> Result<Found, NoMemory> {
    match fault {
        ReaderFault::NoMemory => Err(NoMemory),
        _ => Ok(Found::Unreadable),
    }
}

// What the archive on a disk is read as.
fn look(alloc: Global, disk: &mut MemDisk, wanted: &[u8]) -> Result<Found, NoMemory> {
    let mut reader = match ArchiveReader::load(alloc, disk) {
        Ok(reader) => reader,
        Err(fault) => return unread(fault),
    };
    let start = reader.start();
    let (item, next) = match reader.item_at(alloc, disk, start) {
        Ok(Some(found)) => found,
        Ok(None) => return Ok(Found::Nothing),
        Err(fault) => return unread(fault),
    };
    match reader.item_at(alloc, disk, next) {
        Ok(None) => found_of(alloc, reader.meta(), &item, wanted),
        Ok(Some(_)) => Ok(Found::Other),
        Err(fault) => unread(fault),
    }
}

// What the parts are read as at the lengths that they are looked at.
fn read_parts(alloc: Global, parts: &[Part], wanted: &[u8]) -> Result<Found, NoMemory> {
    let files = fronts_of(alloc, parts)?;
    let mut disk = disk_of(alloc, &files, List::empty(alloc))?;
    look(alloc, &mut disk, wanted)
}

// Reads each image of one moment.
fn read_moment(
    alloc: Global,
    parts: &mut [Part],
    wanted: &[u8],
    tally: &mut Tally,
) -> Result<(), NoMemory> {
    for _ in 0..u64::MAX {
        tally.add(read_parts(alloc, parts, wanted)?);
        if !advance(parts) {
            break;
        }
    }
    Ok(())
}

// Reads each image of the moments from one on.
fn read_moments(
    alloc: Global,
    drive: &Drive,
    files: &[Held],
    from: usize,
    wanted: &[u8],
) -> Result<Tally, NoMemory> {
    let mut tally = Tally::none();
    for moment in from..=drive.disk.moments() {
        let mut parts = parts_at(alloc, &drive.disk, moment, files)?;
        read_moment(alloc, &mut parts, wanted, &mut tally)?;
    }
    Ok(tally)
}

// Reads what stands where one file is cut to each of its lengths and the others are whole.
fn read_cuts(
    alloc: Global,
    files: &[Held],
    name: &str,
    wanted: &[u8],
) -> Result<Option<Tally>, NoMemory> {
    let Some(file) = file_of(name) else {
        return Ok(None);
    };
    let mut parts = parts_cut(alloc, files, file)?;
    let mut tally = Tally::none();
    read_moment(alloc, &mut parts, wanted, &mut tally)?;
    Ok(Some(tally))
}

fn put_tally(alloc: Global, answer: &mut Answer, tally: Tally, name: &str) -> Result<(), NoMemory> {
    let told = tally.tell(alloc, name)?;
    answer.put("out", told.as_bytes())
}

// The images of a line, and whether they are as it says. `None` where it is no such line.
fn count(
    alloc: Global,
    drive: &Drive,
    files: &[Held],
    (word, form): (&str, &str),
    wanted: &[u8],
) -> Result<Option<(Tally, bool)>, NoMemory> {
    match (word, form) {
        ("crash", "all none or") => {
            let tally = read_moments(alloc, drive, files, drive.first_moment, wanted)?;
            Ok(Some((tally, tally.has_none_or_one())))
        }
        ("crash", "now") => {
            let tally = read_moments(alloc, drive, files, drive.disk.moments(), wanted)?;
            Ok(Some((tally, tally.described == tally.images)))
        }
        ("cuts", file) => match read_cuts(alloc, files, file, wanted)? {
            Some(tally) => Ok(Some((tally, true))),
            None => Ok(None),
        },
        _ => Ok(None),
    }
}

/// `crash all none or NAME`: each image of each moment of the runs has no item, or the one that is kept under the
/// name as text, with its description. `crash now NAME`: each image of the disk as it stands has that item.
/// `cuts FILE NAME`: what is read where one file is cut. Each writes how many images were read as what.
pub fn crash(
    alloc: Global,
    drive: &mut Drive,
    kept: &Kept,
    answer: &mut Answer,
    line: Line<'_>,
) -> Result<bool, NoMemory> {
    let (form, name) = line.rest.rsplit_once(' ').unwrap_or(("", line.rest));
    let Some(wanted) = kept.get(name) else {
        return Ok(false);
    };
    if !answer.renew()? {
        return Ok(false);
    }
    let files = snapshot(alloc, &drive.disk)?;
    match count(alloc, drive, &files, (line.word, form), wanted)? {
        Some((tally, holds)) => {
            put_tally(alloc, answer, tally, name)?;
            Ok(holds)
        }
        None => Ok(false),
    }
}
