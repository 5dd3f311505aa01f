//! A logger's calls over the disk of the case.
ghost use Rattle.std.specs.Prelude.{◌≤◌, IfSome};

use crate::answers::{tell_counts, tell_fault, tell_place, tell_refusal};
use crate::groups::may_be_asked;
use crate::handed::Handed;
use crate::images::tell_images;
use crate::items::tell_items;
use archive_meta::Facts;
use archive_recovery::{Archive, recover};
use case_book::{Answer, Words, text_of};
use case_outside::Drive;
use logger_core::{LogFault, Logger};
use pcp_base::{List, NoMemory, PmResult, Stamp};
use pcp_memory::MemDisk;
use pcp_model::Label;
use result_form::fits;
use std::alloc::Global;

/// A logger, once there is one, and what its next call is handed.
#[derive(Drop)]
pub struct Logging {
    logger: Option<Logger>,
    handed: Handed,
    group: List<(PmResult, Facts)>,
}

fn line_of(alloc: Global, text: &str) -> Result<String, NoMemory> {
    Ok(String::from_str(alloc, text)?)
}

// The next word as a volume limit in bytes, in the range that a logger takes.
fn limit_of(words: &mut Words<'_>) -> Option<u64>
    ensures { IfSome result (λ limit. (1024 ≤ limit) × (limit ≤ 1073741824)) }
{
    let limit = words.wide()?;
    if limit < 1024 {
        return None;
    }
    if limit > 1_073_741_824 {
        return None;
    }
    Some(limit)
}

// `PID SEC USEC HOST ZONE`
fn label_of(alloc: Global, words: &mut Words<'_>) -> Result<Option<Label>, NoMemory> {
    let (Some(pid), Some(start)) = (words.number(), words.stamp()) else {
        return Ok(None);
    };
    let host = text_of(alloc, words.next())?;
    let zone = text_of(alloc, words.next())?;
    Ok(Label::build(pid, start, host, zone))
}

fn is_empty(drive: &Drive) -> bool {
    drive.disk.moments() == 0
}

// Claims that the archive's files are longer, or its volume a later one: `meta N`, `volume N` or `length N`.
fn claim(archive: &mut Archive, words: &mut Words<'_>) -> bool {
    match words.next() {
        "meta" => archive.meta_length = words.wide().unwrap_or(0),
        "length" => archive.length = words.wide().unwrap_or(0),
        "volume" => archive.volume = words.number().unwrap_or(0),
        _ => return false,
    }
    true
}

fn claim_all(archive: &mut Archive, words: &mut Words<'_>) {
    for _ in 0..3 {
        if !claim(archive, words) {
            return;
        }
    }
}

fn log_one(
    alloc: Global,
    logger: &mut Logger,
    disk: &mut MemDisk,
    answer: &PmResult,
    handed: &Handed,
) -> Option<Result<(), LogFault>> {
    if !fits(answer) {
        return None;
    }
    if answer.sets.is_empty() {
        return None;
    }
    Some(logger.log(alloc, disk, answer, &handed.facts))
}

// Logs so many results, a second apart. The first refusal ends it.
fn log_all(
    alloc: Global,
    logger: &mut Logger,
    disk: &mut MemDisk,
    handed: &Handed,
    (first, usec): (u32, u32),
    count: u32,
) -> Result<Option<String>, NoMemory> {
    for second in 0..count {
        let Some(stamp) = Stamp::build(first.saturating_add(second), usec) else {
            return Ok(None);
        };
        let answer = handed.at(alloc, stamp)?;
        match log_one(alloc, logger, disk, &answer, handed) {
            Some(Ok(())) => {}
            Some(Err(fault)) => return Ok(Some(tell_fault(alloc, fault)?)),
            None => return Ok(None),
        }
    }
    Ok(Some(line_of(alloc, "logged\n")?))
}

// Logs results together.
fn log_group(
    alloc: Global,
    logger: &mut Logger,
    disk: &mut MemDisk,
    group: &List<(PmResult, Facts)>,
) -> Result<Option<String>, NoMemory> {
    if group.len() > 64 {
        return Ok(None);
    }
    if !may_be_asked(group.as_slice()) {
        return Ok(None);
    }
    match logger.log_all(alloc, disk, group) {
        Ok(()) => Ok(Some(line_of(alloc, "logged\n")?)),
        Err((k, fault)) => Ok(Some(tell_place(alloc, k, fault)?)),
    }
}

impl Logging {
    pub fn new(alloc: Global) -> Logging {
        Logging {
            logger: None,
            handed: Handed::none(alloc),
            group: List::empty(alloc),
        }
    }

    // Keeps a logger that was made, and tells its numbers, or why none was made.
    fn keep(
        &mut self,
        alloc: Global,
        made: Result<Logger, LogFault>,
    ) -> Result<Option<String>, NoMemory> {
        match made {
            Ok(logger) => {
                let told = tell_counts(alloc, &logger)?;
                self.logger = Some(logger);
                Ok(Some(told))
            }
            Err(fault) => Ok(Some(tell_fault(alloc, fault)?)),
        }
    }

    // `create LIMIT PID SEC USEC HOST ZONE`
    fn create(
        &mut self,
        alloc: Global,
        drive: &mut Drive,
        words: &mut Words<'_>,
    ) -> Result<Option<String>, NoMemory> {
        let Some(limit) = limit_of(words) else {
            return Ok(None);
        };
        let Some(label) = label_of(alloc, words)? else {
            return Ok(None);
        };
        if !is_empty(drive) {
            return Ok(None);
        }
        let made = Logger::create(alloc, &mut drive.disk, &label, limit);
        self.keep(alloc, made)
    }

    // `reopen LIMIT`, and what is claimed of the archive.
    fn reopen(
        &mut self,
        alloc: Global,
        drive: &mut Drive,
        words: &mut Words<'_>,
    ) -> Result<Option<String>, NoMemory> {
        let Some(limit) = limit_of(words) else {
            return Ok(None);
        };
        match recover(alloc, &mut drive.disk) {
            Ok(archive) => self.go_on(alloc, drive, archive, limit, words),
            Err(fault) => Ok(Some(tell_refusal(alloc, fault)?)),
        }
    }

    fn go_on(
        &mut self,
        alloc: Global,
        drive: &mut Drive,
        archive: Archive,
        limit: u64,
        words: &mut Words<'_>,
    ) -> Result<Option<String>, NoMemory>
        requires { (1024 ≤ limit) × (limit ≤ 1073741824) }
    {
        let mut archive = archive;
        claim_all(&mut archive, words);
        match &archive.label {
            Some(_) => {}
            None => return Ok(Some(line_of(alloc, "no label\n")?)),
        }
        let made = Logger::reopen(&mut drive.disk, archive, limit);
        self.keep(alloc, made)
    }

    // `log SEC USEC COUNT`
    fn log(
        &mut self,
        alloc: Global,
        drive: &mut Drive,
        words: &mut Words<'_>,
    ) -> Result<Option<String>, NoMemory> {
        let (Some(sec), Some(usec), Some(count)) = (words.number(), words.number(), words.number())
        else {
            return Ok(None);
        };
        let Some(logger) = self.logger.as_mut() else {
            return Ok(None);
        };
        log_all(
            alloc,
            logger,
            &mut drive.disk,
            &self.handed,
            (sec, usec),
            count,
        )
    }

    // `hold SEC USEC`: what is handed is held for the next group, and nothing is handed any more.
    fn hold(&mut self, alloc: Global, words: &mut Words<'_>) -> Result<Option<String>, NoMemory> {
        let Some(stamp) = words.stamp() else {
            return Ok(None);
        };
        let handed = std::mem::replace(&mut self.handed, Handed::none(alloc));
        let Handed { sets, facts } = handed;
        self.group.push((PmResult { stamp, sets }, facts))?;
        Ok(Some(line_of(alloc, "held\n")?))
    }

    // `group`: what is held is logged together.
    fn group(&mut self, alloc: Global, drive: &mut Drive) -> Result<Option<String>, NoMemory> {
        let group = std::mem::replace(&mut self.group, List::empty(alloc));
        let Some(logger) = self.logger.as_mut() else {
            return Ok(None);
        };
        log_group(alloc, logger, &mut drive.disk, &group)
    }

    fn flush(&mut self, alloc: Global, drive: &mut Drive) -> Result<Option<String>, NoMemory> {
        let Some(logger) = self.logger.as_mut() else {
            return Ok(None);
        };
        match logger.flush(&mut drive.disk) {
            Ok(()) => Ok(Some(tell_counts(alloc, logger)?)),
            Err(fault) => Ok(Some(tell_fault(alloc, fault)?)),
        }
    }

    fn counts(&self, alloc: Global) -> Result<Option<String>, NoMemory> {
        match &self.logger {
            Some(logger) => Ok(Some(tell_counts(alloc, logger)?)),
            None => Ok(None),
        }
    }

    fn tell(
        &mut self,
        alloc: Global,
        drive: &mut Drive,
        form: &str,
        mut words: Words<'_>,
    ) -> Result<Option<String>, NoMemory> {
        match form {
            "create" => self.create(alloc, drive, &mut words),
            "reopen" => self.reopen(alloc, drive, &mut words),
            "log" => self.log(alloc, drive, &mut words),
            "hold" => self.hold(alloc, &mut words),
            "group" => self.group(alloc, drive),
            "flush" => self.flush(alloc, drive),
            "counts" => self.counts(alloc),
            "images" => Ok(Some(tell_images(alloc, drive)?)),
            "items" => match words.size() {
                Some(skipped) => Ok(Some(tell_items(alloc, drive, skipped)?)),
                None => Ok(None),
            },
            _ => Ok(None),
        }
    }

    /// `logger create LIMIT PID SEC USEC HOST ZONE`, `reopen LIMIT` behind a recovery, `log SEC USEC COUNT` of what is handed,
    /// `hold SEC USEC` of it and then `group` of all that is held, `flush` and `counts` tell their answer, `images` how many items
    /// a crash leaves, and `items N` those behind the first N; `fact PMID CODE DOMAIN SEMANTICS UNITS NAME`,
    /// `domain DOMAIN NUMBER NAME ..`, `set PMID INSTANCE VALUE ..`, `many PMID COUNT`, `status PMID STATUS` and `nothing` say what
    /// is handed.
    pub fn call(
        &mut self,
        alloc: Global,
        drive: &mut Drive,
        answer: &mut Answer,
        rest: &str,
    ) -> Result<bool, NoMemory> {
        let mut words = Words::of(rest);
        let form = words.next();
        if self.handed.add(alloc, form, words)? {
            return Ok(true);
        }
        if !answer.renew()? {
            return Ok(false);
        }
        drive.make(alloc)?;
        match self.tell(alloc, drive, form, words)? {
            Some(told) => {
                answer.put("out", told.as_bytes())?;
                Ok(true)
            }
            None => Ok(false),
        }
    }
}
