//! The command `retire N`: the volumes of an archive below a number are emptied.
ghost use Rattle.std.specs.Prelude.{◌≡◌, ◌≢◌, ◌≤◌, ℕ, List, [], IfErr, IfOk, OnOk, None};
ghost use Rattle.pcp_base.specs.declared.file.FileId.{FileId as File};
ghost use Rattle.pcp_model.specs.Disk.{contents_of};
ghost use Rattle.pcp_outside.specs.Devices.{LeavesOnly};
ghost use Rattle.logger_core.specs.Reopening.{IsLeft};
ghost use Rattle.logger_core.specs.Retiring.{held_without};
ghost use Rattle.pm_words.specs.Serving.{Meets};
ghost use Rattle.pm_runs.specs.commands.retire.{retire as meaning_of_retire, EmptyingStops, IsWithoutSome, fault_refusal, retired_line};

use archive_recovery::{Archive, recover};
use logger_core::{LogFault, Logger};
use pcp_base::{Bytes, NoMemory};
use pcp_outside::Disk;
use pm_words::Refusal;
use std::alloc::Global;
use text_lines::one_number_line;

// The volume limit of a logger that logs nothing, which is the greatest.
const LIMIT: u64 = 1_073_741_824;

// The line that tells below which number volumes are empty.
fn retired_line(alloc: Global, below: u32) -> Result<Bytes, NoMemory>
    ensures { IfOk result (λ line. line ≡ retired_line below) }
{
    one_number_line(alloc, b"retired", below as u64)
}

// Why a logger that was just opened didn't retire them.
fn refusal_of(fault: LogFault) -> Refusal
    ensures { result ≡ fault_refusal fault }
{
    match fault {
        LogFault::Live { volume } => Refusal::Live { volume },
        _ => Refusal::DiskFault,
    }
}

// Empties the volumes below a number of an archive as recovery left it.
fn empty_below<D: Disk>(disk: &mut D, archive: Archive, below: u32) -> Result<(), Refusal>
    ensures emptied { D.tells → OnOk result ((file : File) → D.held disk.new file ≡ held_without (D.held disk.old) below file) }
    ensures allowed { OnOk result ((archive.label ≢ None) × (below ≤ archive.volume)) }
    ensures any_moment { D.tells → IsLeft archive (D.held disk.old) → LeavesOnly D.moment D.left_since disk.old disk.new (IsWithoutSome below (contents_of (D.held disk.old))) }
    ensures stops { IfErr result (EmptyingStops below archive (D.faults disk.old) (D.faults disk.new) (disk.new ≡ disk.old)) }
    ensures quiet { OnOk result (D.faults disk.new ≡ D.faults disk.old) }
{
    if archive.label.is_none() {
        return Err(Refusal::Live { volume: 0 });
    }
    let Ok(mut logger) = Logger::reopen(disk, archive, LIMIT) else {
        return Err(Refusal::NoMemory);
    };
    match logger.retire(disk, below) {
        Ok(()) => Ok(()),
        Err(fault) => Err(refusal_of(fault)),
    }
}

/// Mends the archive and empties its volumes below a number, whatever the input, and tells the number. Its line is made before anything is
/// done, so that nothing is emptied for want of memory.
pub fn retire<D: Disk>(alloc: Global, below: u32, disk: &mut D) -> Result<Bytes, Refusal>
    ensures meets { (input : List ℕ) → Meets (meaning_of_retire below) input D.Disk disk.old disk.new None [] result }
{
    let line = retired_line(alloc, below)?;
    let archive = recover(alloc, disk)?;
    empty_below(disk, archive, below)?;
    Ok(line)
}
