//! The disk of a case: what its files hold before the first run, and what is to fail.
ghost use Rattle.pcp_outside.specs.Devices.{IsNumbered};

use crate::files::{Held, snapshot};
use crate::numbers::{file_of, split_file};
use case_book::{Kept, Line};
use pcp_base::{FileId, List, NoMemory};
use pcp_memory::{Call, Fault, MemDisk};
use pcp_outside::Disk;
use std::alloc::Global;

/// A disk in memory, which is made with the first call of it.
#[derive(Drop)]
pub struct Drive {
    pub disk: MemDisk,
    /// What the files hold before the disk is made, and then what they held before the last run.
    pub files: Vec<Held>,
    /// Which calls of it are to fail, from the first run on.
    pub fails: Vec<u64>,
    /// Which calls of it are planned to fail, from the first run on; none of its calls is listed then.
    pub plan: Vec<Fault>,
    pub is_made: bool,
    /// The moment from which the first run begins.
    pub first_moment: usize,
}

// Makes a file hold bytes, all sure.
fn lay(disk: &mut MemDisk, file: FileId, bytes: &[u8]) -> bool
    requires { IsNumbered file }
{
    disk.append(file, bytes).is_ok() && disk.sync(file).is_ok()
}

fn fill(disk: &mut MemDisk, file: FileId, bytes: &[u8]) -> bool {
    match file {
        FileId::Meta => lay(disk, FileId::Meta, bytes),
        FileId::Index => lay(disk, FileId::Index, bytes),
        FileId::Volume(number) if number < 1000 => lay(disk, FileId::Volume(number), bytes),
        FileId::Volume(_) => false,
    }
}

fn fill_all(disk: &mut MemDisk, files: &[Held]) -> bool {
    for held in files {
        if !fill(disk, held.file, &held.bytes) {
            return false;
        }
    }
    true
}

fn filled(disk: MemDisk, files: &[Held]) -> Result<MemDisk, NoMemory> {
    let mut disk = disk;
    match fill_all(&mut disk, files) {
        true => Ok(disk),
        false => Err(NoMemory),
    }
}

/// A disk whose files hold these bytes, all sure. Of its calls, those that fill it too, the ones with these numbers are to fail.
pub fn disk_of(alloc: Global, files: &[Held], fails: List<u64>) -> Result<MemDisk, NoMemory> {
    filled(MemDisk::new(alloc, fails), files)
}

/// A disk whose files hold these bytes, all sure. Of its calls behind those that fill it, these are planned to fail.
pub fn planned_disk(alloc: Global, files: &[Held], plan: &[Fault]) -> Result<MemDisk, NoMemory> {
    let mut behind = List::empty(alloc);
    for fault in plan {
        behind.push(fault_behind(*fault, files.len() as u64))?;
    }
    filled(MemDisk::plan(alloc, behind), files)
}

// The fault of a call behind those that fill the disk: an append and a sync for each file.
fn fault_behind(fault: Fault, files: u64) -> Fault {
    let filling = match fault.call {
        Call::Append | Call::Sync => files,
        Call::Len | Call::Volumes | Call::Wrapped | Call::Read | Call::Cut => 0,
    };
    Fault {
        call: fault.call,
        nth: fault.nth.saturating_add(filling),
        kept: fault.kept,
    }
}

// The numbers of the disk's calls that are to fail, behind those that fill it.
fn fails_behind(alloc: Global, fails: &[u64], filling: usize) -> Result<List<u64>, NoMemory> {
    let mut behind = List::empty(alloc);
    for number in fails {
        behind.push(number.saturating_add(filling as u64))?;
    }
    Ok(behind)
}

fn call_of(word: &str) -> Option<Call> {
    match word {
        "len" => Some(Call::Len),
        "volumes" => Some(Call::Volumes),
        "wrapped" => Some(Call::Wrapped),
        "read" => Some(Call::Read),
        "append" => Some(Call::Append),
        "sync" => Some(Call::Sync),
        "cut" => Some(Call::Cut),
        _ => None,
    }
}

fn fault_of(line: Line<'_>) -> Option<Fault> {
    let call = call_of(line.word)?;
    let (nth, kept) = line.rest.split_once(" kept ").unwrap_or((line.rest, "0"));
    let nth = nth.parse::<u64>().ok()?;
    let kept = kept.parse::<u32>().ok()?;
    Some(Fault { call, nth, kept })
}

impl Drive {
    pub fn new(alloc: Global) -> Drive {
        Drive {
            disk: MemDisk::new(alloc, List::empty(alloc)),
            files: Vec::new(alloc),
            fails: Vec::new(alloc),
            plan: Vec::new(alloc),
            is_made: false,
            first_moment: 0,
        }
    }

    /// Makes the disk of the case, if it isn't made yet.
    pub fn make(&mut self, alloc: Global) -> Result<(), NoMemory> {
        if self.is_made {
            return Ok(());
        }
        let filling = self.files.len().saturating_mul(2);
        self.disk = if self.plan.is_empty() {
            let fails = fails_behind(alloc, &self.fails, filling)?;
            disk_of(alloc, &self.files, fails)?
        } else {
            planned_disk(alloc, &self.files, &self.plan)?
        };
        self.first_moment = filling;
        self.is_made = true;
        Ok(())
    }

    // `before FILE LITERAL`
    fn add_file(&mut self, alloc: Global, kept: &Kept, rest: &str) -> Result<bool, NoMemory> {
        let (name, literal) = split_file(rest);
        let Some(file) = file_of(name) else {
            return Ok(false);
        };
        match kept.read(alloc, literal)? {
            Some(bytes) => {
                self.files.push(Held { file, bytes })?;
                Ok(!self.is_made)
            }
            None => Ok(false),
        }
    }

    // `restart`: a new disk holds the same bytes, all sure, and no call of it is to fail.
    fn restart(&mut self, alloc: Global) -> Result<bool, NoMemory> {
        let was_made = self.is_made;
        self.files = snapshot(alloc, &self.disk)?;
        self.fails.clear();
        self.plan.clear();
        self.is_made = false;
        Ok(was_made)
    }

    // How long each file is.
    fn lengths(&self, alloc: Global) -> Result<List<(FileId, u64)>, NoMemory> {
        let mut lengths = List::empty(alloc);
        for held in &snapshot(alloc, &self.disk)? {
            lengths.push((held.file, held.bytes.len() as u64))?;
        }
        Ok(lengths)
    }

    // `crash sure` and `crash full`: a new disk holds what a crash leaves, of each file its sure bytes, or all.
    fn crash(&mut self, alloc: Global, form: &str) -> Result<bool, NoMemory> {
        let keep = match form {
            "sure" => List::empty(alloc),
            "full" => self.lengths(alloc)?,
            _ => return Ok(false),
        };
        if !self.disk.may_keep(alloc, &keep)? {
            return Ok(false);
        }
        self.disk = self.disk.crash(alloc, &keep)?;
        self.restart(alloc)
    }

    // `plan CALL N` and `plan CALL N kept K`
    fn add_fault(&mut self, rest: &str) -> Result<bool, NoMemory> {
        let Some(fault) = fault_of(Line::of(rest)) else {
            return Ok(false);
        };
        self.plan.push(fault)?;
        Ok(!self.is_made && self.fails.is_empty())
    }

    // `wrap FILE`
    fn wrap(&mut self, alloc: Global, name: &str) -> Result<bool, NoMemory> {
        self.make(alloc)?;
        let Some(file) = file_of(name) else {
            return Ok(false);
        };
        self.disk.wrap(file);
        Ok(true)
    }

    /// `before FILE LITERAL`: what a file holds before the first run. `restart`, `crash sure`, `crash full`: see
    /// above. `plan CALL N kept K`: that call of all runs until then fails, and has kept so much. `wrap FILE`: the file
    /// stands under its name with `.xz` added, too.
    pub fn prepare(
        &mut self,
        alloc: Global,
        kept: &Kept,
        line: Line<'_>,
    ) -> Result<bool, NoMemory> {
        match line.word {
            "before" => self.add_file(alloc, kept, line.rest),
            "restart" => self.restart(alloc),
            "crash" => self.crash(alloc, line.rest),
            "plan" => self.add_fault(line.rest),
            _ => self.wrap(alloc, line.rest),
        }
    }
}
