//! The summary of an archive.
ghost use Rattle.std.specs.Prelude.{◌≡◌, ◌+◌, ◌-◌, ◌<◌, ◌≤◌, None, length, min, drop, vec_len, IfOk, IfErr, OnOk};
ghost use Rattle.std.specs.List.{AllByRecursion};
ghost use Rattle.pcp_model.specs.Disk.{contents_of};
ghost use Rattle.pcp_outside.specs.Causes.{Rose};
ghost use Rattle.archive_loading.specs.Loaded.{IsMeasured};
ghost use Rattle.archive_loading.specs.Looks.{Looks};
ghost use Rattle.archive_reader.specs.Values.{IsWholeFault};
ghost use Rattle.archive_reader.specs.declared.fault.ReaderFault.TheVariants.{DiskFault};
ghost use Rattle.log_summary.specs.Jobs.{AreNext};
ghost use Rattle.log_summary.specs.Summaries.{IsSoFar, IsTableOf, IsSummary, IsSummaryFault};

use crate::job::Job;
use crate::jobs::{count_next, merge_all, next_jobs};
use crate::table::Table;
use archive_meta::MetaState;
use archive_reader::{ArchiveReader, ReaderFault};
use pcp_base::{Bytes, Stamp};
use pcp_outside::{Disk, Turn};
use std::alloc::Global;
use std::thread::Threads;

// Counts some volumes, the first of those from a position on, puts them behind a table, and answers those behind them.
fn sum_some<D: Disk, T: Turn + Sync, R: Threads + Sync>(
    rt: &R,
    alloc: Global,
    workers: u32,
    meta: &MetaState,
    from: Stamp,
    to: Stamp,
    disk: &mut D,
    volumes: &[(u32, u64)],
    index: usize,
    jobs: Vec<Job>,
    total: &mut Table,
    turn: &T,
) -> Result<Vec<Job>, ReaderFault>
    requires within { index + vec_len jobs ≤ length volumes.now }
    requires lengths { D.tells → AllByRecursion (IsMeasured (contents_of (D.held disk.old))) volumes.now }
    requires jobs { D.tells → AreNext (contents_of (D.held disk.old)) meta.now from to volumes.now index jobs.items }
    ensures next { D.tells → IfOk result (λ next. AreNext (contents_of (D.held disk.old)) meta.now from to volumes.now (index + vec_len jobs) next.items) }
    ensures count { IfOk result (λ next. vec_len next ≡ min workers (length volumes.now - (index + vec_len jobs))) }
    ensures summed { D.tells → OnOk result (IsSoFar (contents_of (D.held disk.old)) volumes.now meta.now from to (drop index volumes.now) total.old
        → IsSoFar (contents_of (D.held disk.old)) volumes.now meta.now from to (drop (index + vec_len jobs) volumes.now) total.new) }
    ensures fault { D.tells → IfErr result (λ e. IsSoFar (contents_of (D.held disk.old)) volumes.now meta.now from to (drop index volumes.now) total.old
        → IsWholeFault (contents_of (D.held disk.old)) volumes.now e) }
    ensures looks { Looks D.Disk disk.old disk.new }
    ensures cause { IfErr result (λ e. e ≡ DiskFault → Rose (D.faults disk.old) (D.faults disk.new)) }
    ensures quiet { OnOk result (D.faults disk.new ≡ D.faults disk.old) }
{
    let (counted, next) = count_next(
        rt, alloc, workers, meta, from, to, disk, volumes, index, jobs, turn,
    )?;
    match merge_all(total, counted) {
        Ok(()) => Ok(next),
        Err(fault) => Err(fault),
    }
}

/// What the items of all volumes come to between two moments.
fn sum_volumes<D: Disk, T: Turn + Sync, R: Threads + Sync>(
    rt: &R,
    alloc: Global,
    workers: u32,
    meta: &MetaState,
    from: Stamp,
    to: Stamp,
    disk: &mut D,
    volumes: &[(u32, u64)],
    turn: &T,
) -> Result<Table, ReaderFault>
    requires some { 0 < workers }
    requires lengths { D.tells → AllByRecursion (IsMeasured (contents_of (D.held disk.old))) volumes.now }
    ensures summed { D.tells → IfOk result (IsTableOf (contents_of (D.held disk.old)) volumes.now meta.now from to) }
    ensures fault { D.tells → IfErr result (IsWholeFault (contents_of (D.held disk.old)) volumes.now) }
    ensures looks { Looks D.Disk disk.old disk.new }
    ensures cause { IfErr result (λ e. e ≡ DiskFault → Rose (D.faults disk.old) (D.faults disk.new)) }
    ensures quiet { OnOk result (D.faults disk.new ≡ D.faults disk.old) }
{
    let mut total = Table::empty(alloc);
    let mut index = 0;
    let mut jobs = next_jobs(alloc, volumes, 0, workers)?;
    while index < volumes.len() {
        let behind = index + jobs.len();
        jobs = sum_some(
            rt, alloc, workers, meta, from, to, disk, volumes, index, jobs, &mut total, turn,
        )?;
        index = behind;
    }
    Ok(total)
}

/// The summary of the items of an archive that are stamped neither before the first moment nor after the second: a line for
/// each metric's instance that has numbers, whatever the number of workers, which is at least 1. As many volumes at a time as
/// there are workers are counted beside each other, in their order, one by each worker, each a piece of 2 MiB at a time; meanwhile
/// the calling thread reads the pieces that follow, in these volumes or in the next ones. So some 6 MiB for each worker are in memory,
/// and more only where a record is longer. A worker calls `turn` with its number from 0 and the volume's before it counts. The disk is left as it was. `Compressed` and `NotArchive` name the first place that
/// is wrong, as `ArchiveReader::load` does, or the first record of a volume that is no item's.
pub fn summarize<D: Disk, T: Turn + Sync, R: Threads + Sync>(
    rt: &R,
    alloc: Global,
    workers: u32,
    from: Stamp,
    to: Stamp,
    disk: &mut D,
    turn: &T,
) -> Result<Bytes, ReaderFault>
    requires { 0 < workers }
    ensures summary { D.tells → IfOk result (IsSummary (contents_of (D.held disk.old)) from to) }
    ensures unwrapped { D.tells → OnOk result (D.wrapped_file disk.old ≡ None) }
    ensures fault { D.tells → IfErr result (IsSummaryFault (D.wrapped_file disk.old) (contents_of (D.held disk.old))) }
    ensures looks { Looks D.Disk disk.old disk.new }
    ensures cause { IfErr result (λ e. e ≡ DiskFault → Rose (D.faults disk.old) (D.faults disk.new)) }
    ensures quiet { OnOk result (D.faults disk.new ≡ D.faults disk.old) }
{
    let reader = ArchiveReader::load(alloc, disk)?;
    let table = sum_volumes(
        rt,
        alloc,
        workers,
        reader.meta(),
        from,
        to,
        disk,
        reader.volumes(),
        turn,
    )?;
    match table.text(alloc, reader.meta()) {
        Ok(text) => Ok(text),
        Err(_) => Err(ReaderFault::NoMemory),
    }
}
