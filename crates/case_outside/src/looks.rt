//! What stands on the disk after a run.
use crate::drive::Drive;
use crate::files::{Held, bytes_in, snapshot};
use crate::numbers::{file_of, split_file};
use case_book::{Answer, Kept, Line};
use pcp_base::{FileId, NoMemory};
use pcp_memory::MemDisk;
use std::alloc::Global;

// The bytes that a file is to hold by a line `files FORM`.
fn wanted_of<'a>(old: &'a [Held], form: &str, file: FileId) -> Option<&'a [u8]> {
    match form {
        "empty" => Some(&[]),
        "same" => Some(bytes_in(old, file)),
        _ => None,
    }
}

// Whether each file holds what it is to hold.
fn look_at_all(
    answer: &mut Answer,
    old: &[Held],
    now: &[Held],
    form: &str,
) -> Result<bool, NoMemory> {
    let mut same = true;
    for held in now {
        let Some(wanted) = wanted_of(old, form, held.file) else {
            return Ok(false);
        };
        same = answer.compare(wanted, &held.bytes)? && same;
    }
    Ok(same)
}

// Compares bytes with `length N` or a literal.
fn compare_bytes(
    alloc: Global,
    kept: &Kept,
    answer: &mut Answer,
    wanted: &str,
    bytes: &[u8],
) -> Result<bool, NoMemory> {
    if let Some(length) = wanted.strip_prefix("length ") {
        return compare_number(alloc, answer, length, bytes.len() as u64);
    }
    match kept.read(alloc, wanted)? {
        Some(wanted) => answer.compare(&wanted, bytes),
        None => Ok(false),
    }
}

fn compare_number(
    alloc: Global,
    answer: &mut Answer,
    wanted: &str,
    number: u64,
) -> Result<bool, NoMemory> {
    let came = format!(in alloc; "{number}")?;
    answer.compare(wanted.as_bytes(), came.as_bytes())
}

fn compare_calls(
    alloc: Global,
    answer: &mut Answer,
    wanted: &str,
    calls: (u64, u64),
) -> Result<bool, NoMemory> {
    let (appends, syncs) = calls;
    let came = format!(in alloc; "{appends} {syncs}")?;
    answer.compare(wanted.as_bytes(), came.as_bytes())
}

// How often Meta was synced and the volumes of two digits were appended to, together.
fn grouped_calls(disk: &MemDisk) -> u64 {
    let mut total = disk.calls(FileId::Meta).1;
    for number in 0..100 {
        total = total.saturating_add(disk.calls(FileId::Volume(number)).0);
    }
    total
}

impl Drive {
    // `file FILE LITERAL` or `file FILE length N`
    fn look_at_file(
        &self,
        alloc: Global,
        kept: &Kept,
        answer: &mut Answer,
        rest: &str,
    ) -> Result<bool, NoMemory> {
        let (name, wanted) = split_file(rest);
        let Some(file) = file_of(name) else {
            return Ok(false);
        };
        answer.mark(name);
        compare_bytes(alloc, kept, answer, wanted, self.disk.bytes(file))
    }

    // `calls FILE APPENDS SYNCS`
    fn look_at_calls(
        &self,
        alloc: Global,
        answer: &mut Answer,
        rest: &str,
    ) -> Result<bool, NoMemory> {
        let (name, wanted) = split_file(rest);
        let Some(file) = file_of(name) else {
            return Ok(false);
        };
        compare_calls(alloc, answer, wanted, self.disk.calls(file))
    }

    // `fewer N`: Meta was synced and volumes were appended to, together, fewer than N times.
    fn look_at_groups(
        &self,
        alloc: Global,
        answer: &mut Answer,
        rest: &str,
    ) -> Result<bool, NoMemory> {
        let Ok(most) = rest.parse::<u64>() else {
            return Ok(false);
        };
        let came = grouped_calls(&self.disk);
        if came < most {
            return Ok(true);
        }
        let told = format!(in alloc; "{came}")?;
        answer.compare(b"fewer", told.as_bytes())
    }

    // `files empty` or `files same`: all hold nothing, or what they held before the last run.
    fn look_at_files(
        &mut self,
        alloc: Global,
        answer: &mut Answer,
        form: &str,
    ) -> Result<bool, NoMemory> {
        let now = snapshot(alloc, &self.disk)?;
        look_at_all(answer, &self.files, &now, form)
    }

    /// What the files hold, `calls FILE APPENDS SYNCS` that were asked of the disk, `fewer N` for those of groups, and
    /// `taken N` volume bytes that were read.
    pub fn look(
        &mut self,
        alloc: Global,
        kept: &Kept,
        answer: &mut Answer,
        line: Line<'_>,
    ) -> Result<bool, NoMemory> {
        match line.word {
            "file" => self.look_at_file(alloc, kept, answer, line.rest),
            "files" => self.look_at_files(alloc, answer, line.rest),
            "calls" => self.look_at_calls(alloc, answer, line.rest),
            "fewer" => self.look_at_groups(alloc, answer, line.rest),
            _ => compare_number(alloc, answer, line.rest, self.disk.taken()),
        }
    }
}
