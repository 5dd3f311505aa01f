//! Calls of a disk in memory (the trait's and its own), over the disk of the case.
ghost use Rattle.pcp_outside.specs.Devices.{IsNumbered};

use crate::drive::Drive;
use crate::numbers::{file_of, split_file};
use case_book::{Answer, Kept, Line};
use pcp_base::{FileId, NoMemory};
use pcp_memory::MemDisk;
use pcp_outside::{Disk, Failed};
use std::alloc::Global;

fn tell_done(done: Result<(), Failed>) -> &'static str {
    match done {
        Ok(()) => "done\n",
        Err(Failed) => "failed\n",
    }
}

// Appends, and answers whether that was done.
fn append(disk: &mut MemDisk, name: &str, bytes: &[u8]) -> Option<&'static str> {
    let file = file_of(name)?;
    Some(tell_done(disk.append(file, bytes)))
}

fn sync(disk: &mut MemDisk, name: &str) -> Option<&'static str> {
    let file = file_of(name)?;
    Some(tell_done(disk.sync(file)))
}

// `cut FILE N`, where the file is as long.
fn cut(disk: &mut MemDisk, name: &str, length: &str) -> Option<&'static str> {
    let file = file_of(name)?;
    let length = length.parse::<u64>().ok()?;
    if (disk.bytes(file).len() as u64) < length {
        return None;
    }
    Some(tell_done(disk.cut(file, length)))
}

// Puts `done` or `failed` into the answer. False where the line asked for no call.
fn put_done(answer: &mut Answer, done: Option<&'static str>) -> Result<bool, NoMemory> {
    match done {
        Some(done) => {
            answer.put("out", done.as_bytes())?;
            Ok(true)
        }
        None => Ok(false),
    }
}

// `append FILE LITERAL`
fn call_append(
    alloc: Global,
    disk: &mut MemDisk,
    kept: &Kept,
    answer: &mut Answer,
    rest: &str,
) -> Result<bool, NoMemory> {
    let (name, literal) = split_file(rest);
    match kept.read(alloc, literal)? {
        Some(bytes) => put_done(answer, append(disk, name, &bytes)),
        None => Ok(false),
    }
}

fn put_text(answer: &mut Answer, text: &str) -> Result<bool, NoMemory> {
    answer.put("out", text.as_bytes())?;
    Ok(true)
}

fn tell_length(alloc: Global, disk: &mut MemDisk, file: FileId) -> Result<String, NoMemory>
    requires { IsNumbered file }
{
    let length = disk.len(file);
    Ok(format!(in alloc; "{length:?}\n")?)
}

fn tell_volumes(alloc: Global, disk: &mut MemDisk) -> Result<String, NoMemory> {
    let count = disk.volumes();
    Ok(format!(in alloc; "{count:?}\n")?)
}

fn tell_wrapped(alloc: Global, disk: &mut MemDisk) -> Result<String, NoMemory> {
    let found = disk.wrapped();
    Ok(format!(in alloc; "{found:?}\n")?)
}

// How many bytes of a file were sure at a moment, and all of them.
fn put_moment(
    alloc: Global,
    disk: &MemDisk,
    answer: &mut Answer,
    moment: usize,
    file: FileId,
) -> Result<bool, NoMemory> {
    if moment > disk.moments() {
        return Ok(false);
    }
    let (sure, bytes) = disk.holdings_at(alloc, moment, file)?;
    let mut out = String::new(alloc);
    write!(&mut out, "{sure} sure of ")?;
    case_book::write_text(&mut out, bytes.as_slice())?;
    out.push('\n')?;
    put_text(answer, &out)
}

// `at MOMENT FILE`
fn call_at(
    alloc: Global,
    disk: &MemDisk,
    answer: &mut Answer,
    rest: &str,
) -> Result<bool, NoMemory> {
    let line = Line::of(rest);
    match (line.word.parse::<usize>(), file_of(line.rest)) {
        (Ok(moment), Some(file)) => put_moment(alloc, disk, answer, moment, file),
        _ => Ok(false),
    }
}

// Fills a buffer with the bytes of a file from an offset on. False where it has fewer.
fn read_into(disk: &mut MemDisk, file: FileId, at: u64, buffer: &mut [u8]) -> bool
    requires { IsNumbered file }
{
    let length = disk.bytes(file).len() as u64;
    if at > length || buffer.len() as u64 > length - at {
        return false;
    }
    disk.read(file, at, buffer).is_ok()
}

// The bytes of a file from an offset on, as text.
fn put_bytes(
    alloc: Global,
    disk: &mut MemDisk,
    answer: &mut Answer,
    file: FileId,
    at: u64,
    count: usize,
) -> Result<bool, NoMemory>
    requires { IsNumbered file }
{
    let mut buffer = Vec::new(alloc);
    buffer.resize(count, 0)?;
    if !read_into(disk, file, at, &mut buffer) {
        return Ok(false);
    }
    let mut out = String::new(alloc);
    case_book::write_text(&mut out, &buffer)?;
    out.push('\n')?;
    put_text(answer, &out)
}

// `read FILE OFFSET COUNT`
fn call_read(
    alloc: Global,
    disk: &mut MemDisk,
    answer: &mut Answer,
    rest: &str,
) -> Result<bool, NoMemory> {
    let (name, range) = split_file(rest);
    let range = Line::of(range);
    let Some(file) = file_of(name) else {
        return Ok(false);
    };
    let (Ok(at), Ok(count)) = (range.word.parse::<u64>(), range.rest.parse::<usize>()) else {
        return Ok(false);
    };
    put_bytes(alloc, disk, answer, file, at, count)
}

// `len FILE`
fn call_len(
    alloc: Global,
    disk: &mut MemDisk,
    answer: &mut Answer,
    name: &str,
) -> Result<bool, NoMemory> {
    match file_of(name) {
        Some(file) => {
            let told = tell_length(alloc, disk, file)?;
            put_text(answer, &told)
        }
        None => Ok(false),
    }
}

fn call(
    alloc: Global,
    disk: &mut MemDisk,
    kept: &Kept,
    answer: &mut Answer,
    line: Line<'_>,
) -> Result<bool, NoMemory> {
    match line.word {
        "append" => call_append(alloc, disk, kept, answer, line.rest),
        "sync" => put_done(answer, sync(disk, line.rest)),
        "cut" => {
            let (name, length) = split_file(line.rest);
            put_done(answer, cut(disk, name, length))
        }
        "read" => call_read(alloc, disk, answer, line.rest),
        "at" => call_at(alloc, disk, answer, line.rest),
        "len" => call_len(alloc, disk, answer, line.rest),
        "volumes" => put_text(answer, &tell_volumes(alloc, disk)?),
        "wrapped" => put_text(answer, &tell_wrapped(alloc, disk)?),
        _ => Ok(false),
    }
}

impl Drive {
    /// `disk append FILE LITERAL`, `sync FILE`, `cut FILE N`, `len FILE`, `read FILE OFFSET COUNT`, `volumes`, `wrapped`
    /// and `at MOMENT FILE`.
    pub fn call(
        &mut self,
        alloc: Global,
        kept: &Kept,
        answer: &mut Answer,
        rest: &str,
    ) -> Result<bool, NoMemory> {
        if !answer.renew()? {
            return Ok(false);
        }
        self.make(alloc)?;
        call(alloc, &mut self.disk, kept, answer, Line::of(rest))
    }
}
