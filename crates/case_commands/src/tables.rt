//! Runs of which each call of the disk fails in turn, and what is recovered behind a crash of each.
use crate::runs::words_of;
use case_book::{Answer, Line};
use case_outside::{Held, Outside, bytes_in, planned_disk, snapshot};
use pcp_base::{FileId, List, NoMemory};
use pcp_memory::{Call, Fault, MemDisk, MemSink, MemSource};
use pcp_outside::Disk;
use pm_commands::offline;
use std::alloc::Global;

// The status and the output of a run.
#[derive(Drop)]
struct Ended {
    status: u8,
    output: Vec<u8>,
}

// What the same words do where nothing fails, and how many items are recovered at least and at most then.
#[derive(Drop)]
struct Plain {
    words: Vec<String>,
    input: Vec<u8>,
    before: Vec<Held>,
    output: Vec<u8>,
    after: Vec<Held>,
    least: u64,
    most: u64,
}

// How many runs with a fault there were, how many recoveries behind a crash, and how many of both ended otherwise than
// they may.
#[derive(Clone, Copy)]
struct Tally {
    runs: u64,
    recoveries: u64,
    wrong: u64,
}

fn run(
    alloc: Global,
    words: &[String],
    input: &[u8],
    disk: &mut MemDisk,
) -> Result<Ended, NoMemory> {
    let content = List::from_vec(input.to_vec(alloc)?);
    let mut source = MemSource::new(content, List::empty(alloc));
    let mut sink = MemSink::new(alloc, List::empty(alloc));
    let mut opened = None;
    let status = offline(alloc, words, &mut source, &mut sink, disk, &mut opened);
    let output = sink.bytes().to_vec(alloc)?;
    Ok(Ended { status, output })
}

// The disk that a crash leaves, at its sure bytes or at all of them.
fn crashed(alloc: Global, disk: &MemDisk, is_full: bool) -> Result<Vec<Held>, NoMemory> {
    let mut keep = List::empty(alloc);
    if is_full {
        for held in &snapshot(alloc, disk)? {
            keep.push((held.file, held.bytes.len() as u64))?;
        }
    }
    if !disk.may_keep(alloc, &keep)? {
        return Err(NoMemory);
    }
    let left = disk.crash(alloc, &keep)?;
    snapshot(alloc, &left)
}

// Whether the nth call of a kind came, where that is planned to fail: then the next one doesn't fail.
fn has_come(disk: &mut MemDisk, call: Call) -> bool {
    match call {
        Call::Len => disk.len(FileId::Meta).is_ok(),
        Call::Volumes => disk.volumes().is_ok(),
        Call::Wrapped => disk.wrapped().is_ok(),
        Call::Read => disk.read(FileId::Meta, 0, &mut []).is_ok(),
        Call::Append => disk.append(FileId::Meta, &[]).is_ok(),
        Call::Sync => disk.sync(FileId::Meta).is_ok(),
        Call::Cut => disk.cut(FileId::Meta, 0).is_ok(),
    }
}

fn number_of(digits: &[u8]) -> u64 {
    let mut number: u64 = 0;
    for digit in digits {
        let value = u64::from(digit.wrapping_sub(b'0'));
        number = number.saturating_mul(10).saturating_add(value);
    }
    number
}

// How many items an output says to be acknowledged by its last line `flushed N`.
fn acknowledged(output: &[u8]) -> u64 {
    let mut count = 0;
    for line in output.split(|byte| *byte == b'\n') {
        if let Some(digits) = line.strip_prefix(b"flushed ") {
            count = number_of(digits);
        }
    }
    count
}

// How many items a recovery tells of.
fn items_in(output: &[u8]) -> Option<u64> {
    let digits = output.strip_prefix(b"items ")?.strip_suffix(b"\n")?;
    Some(number_of(digits))
}

// Each file is as it was before, or a front of what it holds where nothing fails.
fn are_between(left: &[Held], before: &[Held], whole: &[Held]) -> bool {
    for held in left {
        let bytes = held.bytes.as_slice();
        let was = bytes == bytes_in(before, held.file);
        if !was && !bytes_in(whole, held.file).starts_with(bytes) {
            return false;
        }
    }
    true
}

// A run of which a call failed ends so: with status 5, some first lines of the output, and that the disk failed.
fn may_end(plain: &[u8], ended: &Ended) -> bool {
    match ended.output.strip_suffix(b"disk fault\n") {
        Some(front) => ended.status == 5 && plain.starts_with(front),
        None => false,
    }
}

// Recovers what a run left, and answers whether that ends as it may: with a number of items between two, and files that
// are as they were before the run, or fronts of those where nothing failed.
fn recovers(alloc: Global, plain: &Plain, files: &[Held], least: u64) -> Result<bool, NoMemory> {
    let mut disk = planned_disk(alloc, files, &[])?;
    let words = words_of(alloc, "recover")?;
    let ended = run(alloc, &words, &[], &mut disk)?;
    let Some(items) = items_in(&ended.output) else {
        return Ok(false);
    };
    let left = snapshot(alloc, &disk)?;
    let between = are_between(&left, &plain.before, &plain.after);
    Ok(ended.status == 0 && least <= items && items <= plain.most && between)
}

// What a run with a fault ends with, and what a crash leaves of its files, at the sure bytes and at all of them.
#[derive(Drop)]
struct Failing {
    ended: Ended,
    sure: Vec<Held>,
    full: Vec<Held>,
}

// One run with a fault. `None` where the call doesn't come.
fn fail_once(alloc: Global, plain: &Plain, fault: Fault) -> Result<Option<Failing>, NoMemory> {
    let mut plan = Vec::new(alloc);
    plan.push(fault)?;
    let mut disk = planned_disk(alloc, &plain.before, &plan)?;
    let ended = run(alloc, &plain.words, &plain.input, &mut disk)?;
    let sure = crashed(alloc, &disk, false)?;
    let full = crashed(alloc, &disk, true)?;
    match has_come(&mut disk, fault.call) {
        true => Ok(Some(Failing { ended, sure, full })),
        false => Ok(None),
    }
}

// How many calls of a kind come where nothing fails.
fn count_calls(alloc: Global, plain: &Plain, call: Call) -> Result<u64, NoMemory> {
    for nth in 1..10_000 {
        let fault = Fault { call, nth, kept: 0 };
        if fail_once(alloc, plain, fault)?.is_none() {
            return Ok(nth.saturating_sub(1));
        }
    }
    Err(NoMemory)
}

// The faults of each call of a kind: of one that changes files with nothing kept, and with ten bytes.
fn add_faults(faults: &mut Vec<Fault>, call: Call, count: u64) -> Result<(), NoMemory> {
    for before in 0..count {
        let nth = before.saturating_add(1);
        faults.push(Fault { call, nth, kept: 0 })?;
        if call == Call::Append || call == Call::Sync || call == Call::Cut {
            faults.push(Fault {
                call,
                nth,
                kept: 10,
            })?;
        }
    }
    Ok(())
}

// All faults, and how many calls of each kind come.
fn faults_of(alloc: Global, plain: &Plain, told: &mut String) -> Result<Vec<Fault>, NoMemory> {
    let mut faults = Vec::new(alloc);
    let calls = [
        Call::Len,
        Call::Volumes,
        Call::Wrapped,
        Call::Read,
        Call::Append,
        Call::Sync,
        Call::Cut,
    ];
    for call in &calls {
        let count = count_calls(alloc, plain, *call)?;
        add_faults(&mut faults, *call, count)?;
        write!(told, "{call:?} {count}, ")?;
    }
    Ok(faults)
}

impl Tally {
    fn none() -> Tally {
        Tally {
            runs: 0,
            recoveries: 0,
            wrong: 0,
        }
    }

    fn note(&mut self, holds: bool) {
        if !holds {
            self.wrong = self.wrong.saturating_add(1);
        }
    }

    fn recover(
        &mut self,
        alloc: Global,
        plain: &Plain,
        files: &[Held],
        least: u64,
    ) -> Result<(), NoMemory> {
        let holds = recovers(alloc, plain, files, least)?;
        self.recoveries = self.recoveries.saturating_add(1);
        self.note(holds);
        Ok(())
    }

    // Each of the faults by itself, and what is recovered behind a crash.
    fn fail_each(
        &mut self,
        alloc: Global,
        plain: &Plain,
        faults: &[Fault],
    ) -> Result<(), NoMemory> {
        for fault in faults {
            let Some(failing) = fail_once(alloc, plain, *fault)? else {
                self.note(false);
                continue;
            };
            self.runs = self.runs.saturating_add(1);
            self.note(may_end(&plain.output, &failing.ended));
            let least = plain.least.max(acknowledged(&failing.ended.output));
            self.recover(alloc, plain, &failing.sure, least)?;
            self.recover(alloc, plain, &failing.full, least)?;
        }
        Ok(())
    }

    // Recovery of these files, of which each call fails in turn.
    fn fail_recovery(
        &mut self,
        alloc: Global,
        plain: &Plain,
        files: Vec<Held>,
        least: u64,
    ) -> Result<(), NoMemory> {
        let mut recovery = plain_of(alloc, "recover", &[], files, least)?;
        let most = recovery.most;
        recovery.least = most;
        recovery.after = copy_of(alloc, &plain.after)?;
        let mut told = String::new(alloc);
        let faults = faults_of(alloc, &recovery, &mut told)?;
        self.fail_each(alloc, &recovery, &faults)
    }

    // Each of the faults, then a crash, and then each of recovery's.
    fn fail_pairs(
        &mut self,
        alloc: Global,
        plain: &Plain,
        faults: &[Fault],
    ) -> Result<(), NoMemory> {
        for fault in faults {
            let Some(failing) = fail_once(alloc, plain, *fault)? else {
                self.note(false);
                continue;
            };
            let Failing { ended, sure, full } = failing;
            let least = plain.least.max(acknowledged(&ended.output));
            self.fail_recovery(alloc, plain, sure, least)?;
            self.fail_recovery(alloc, plain, full, least)?;
        }
        Ok(())
    }

    fn tell(self, alloc: Global) -> Result<String, NoMemory> {
        let Tally {
            runs,
            recoveries,
            wrong,
        } = self;
        Ok(format!(in alloc; "{runs} runs, {recoveries} recoveries, {wrong} wrong\n")?)
    }
}

fn copy_of(alloc: Global, files: &[Held]) -> Result<Vec<Held>, NoMemory> {
    let mut copies = Vec::new(alloc);
    for held in files {
        let bytes = held.bytes.to_vec(alloc)?;
        copies.push(Held {
            file: held.file,
            bytes,
        })?;
    }
    Ok(copies)
}

// How many items are recovered of what a disk holds.
fn count_items(alloc: Global, disk: &mut MemDisk) -> Result<u64, NoMemory> {
    let words = words_of(alloc, "recover")?;
    let ended = run(alloc, &words, &[], disk)?;
    Ok(items_in(&ended.output).unwrap_or(0))
}

// Runs the words over files with no fault, and recovers what they found and what they leave.
fn plain_of(
    alloc: Global,
    words: &str,
    input: &[u8],
    before: Vec<Held>,
    least: u64,
) -> Result<Plain, NoMemory> {
    let words = words_of(alloc, words)?;
    let mut disk = planned_disk(alloc, &before, &[])?;
    let ended = run(alloc, &words, input, &mut disk)?;
    let after = snapshot(alloc, &disk)?;
    let left = count_items(alloc, &mut disk)?;
    let mut found = planned_disk(alloc, &before, &[])?;
    let most = count_items(alloc, &mut found)?.max(left);
    Ok(Plain {
        words,
        input: input.to_vec(alloc)?,
        before,
        output: ended.output,
        after,
        least,
        most,
    })
}

/// `faults LEAST WORDS`: the words run over the input and the files of the case, once with no fault and then with each
/// call of the disk failing in turn, one that changes files once with nothing kept and once with ten bytes. Each is
/// crashed at its sure bytes and at all, and recovered: to as many items as were acknowledged or more, LEAST at least,
/// and to files as they were, or fronts of those of the run without a fault. `pairs LEAST WORDS`: behind each such crash each call of the
/// recovery fails in turn, and what a crash leaves of that is recovered. Each writes how many calls of each kind there
/// are, and how many runs and recoveries.
pub fn faults(
    alloc: Global,
    outside: &mut Outside,
    answer: &mut Answer,
    line: Line<'_>,
) -> Result<bool, NoMemory> {
    let words = Line::of(line.rest);
    let Ok(least) = words.word.parse::<u64>() else {
        return Ok(false);
    };
    if !answer.renew()? {
        return Ok(false);
    }
    outside.drive.make(alloc)?;
    let before = snapshot(alloc, &outside.drive.disk)?;
    let plain = plain_of(alloc, words.rest, &outside.input, before, least)?;
    let mut told = String::new(alloc);
    let faults = faults_of(alloc, &plain, &mut told)?;
    let mut tally = Tally::none();
    if line.word == "pairs" {
        tally.fail_pairs(alloc, &plain, &faults)?;
    } else {
        tally.fail_each(alloc, &plain, &faults)?;
    }
    told.push_str(&tally.tell(alloc)?)?;
    answer.put("out", told.as_bytes())?;
    Ok(tally.wrong == 0)
}
