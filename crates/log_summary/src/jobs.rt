//! Volumes that workers count beside each other.
ghost use Rattle.std.specs.Prelude.{◌≡◌, ◌+◌, ◌-◌, ◌≤◌, ◌⊎◌, [], ◌∷◌, ◌++◌, List, length, min, vec_len, IfSome, IfOk, IfErr, OnOk};
ghost use Rattle.std.specs.List.{AllByRecursion};
ghost use Rattle.pcp_base.specs.Time.{Moment};
ghost use Rattle.pcp_base.specs.declared.file.FileId.TheVariants.{Volume};
ghost use Rattle.pcp_model.specs.Disk.{Files, contents_of};
ghost use Rattle.pcp_model.specs.declared.records.MetaRecord.{MetaRecord};
ghost use Rattle.pcp_outside.specs.Causes.{Rose};
ghost use Rattle.archive_loading.specs.Loaded.{IsMeasured};
ghost use Rattle.archive_loading.specs.Looks.{Looks};
ghost use Rattle.archive_reader.specs.declared.fault.ReaderFault.TheVariants.{DiskFault, NotArchive, NoMemory as Refused};
ghost use Rattle.log_summary.specs.Jobs.{IsNewJob, IsWithin, IsPiece, AreRead, AreReadOn, AreCountedOn, AreNext, IsCountedOn, LeadOn, MergesAll, StopsWith};

use crate::job::{Job, Progress, count_piece, want_of, with_piece};
use crate::piece::{Piece, Want, read_pieces};
use crate::table::Table;
use archive_meta::MetaState;
use archive_reader::ReaderFault;
use pcp_base::{NoMemory, Stamp};
use pcp_outside::{Disk, FileId, Turn};
use std::alloc::Global;
use std::thread::{Threads, join_mut, map_vec};

fn push(jobs: &mut Vec<Job>, job: Job) -> Result<(), NoMemory>
    ensures items { OnOk result (jobs.new.items ≡ jobs.old.items ++ job ∷ []) }
    ensures len { OnOk result (vec_len jobs.new ≡ vec_len jobs.old + 1) }
{
    jobs.push(job)?;
    Ok(())
}

// A volume of which nothing is read or counted. Its records begin behind the label.
fn new_job(alloc: Global, worker: u32, volume: (u32, u64), is_last: bool) -> Job
    ensures { IsNewJob worker volume is_last result }
{
    let (number, end) = volume;
    Job {
        worker,
        number,
        is_last,
        end,
        is_new: true,
        at: 132,
        bytes: Vec::new(alloc),
        table: Table::empty(alloc),
        progress: Progress::Open,
    }
}

/// The next volumes, from a position on, one for each worker: as many as there are workers, unless fewer are left. Nothing is
/// read of them.
pub fn next_jobs(
    alloc: Global,
    volumes: &[(u32, u64)],
    index: usize,
    workers: u32,
) -> Result<Vec<Job>, NoMemory>
    requires { index ≤ length volumes.now }
    ensures jobs { (files : Files) (records : List MetaRecord) (from to : Moment) → AllByRecursion (IsMeasured files) volumes.now
        → IfOk result (λ jobs. AreNext files records from to volumes.now index jobs.items) }
    ensures count { IfOk result (λ jobs. vec_len jobs ≡ min workers (length volumes.now - index)) }
{
    let mut jobs = Vec::new(alloc);
    let mut at = index;
    for worker in 0..workers {
        if at >= volumes.len() {
            return Ok(jobs);
        }
        let volume = volumes[at];
        at += 1;
        push(
            &mut jobs,
            new_job(alloc, worker, volume, at == volumes.len()),
        )?;
    }
    Ok(jobs)
}

// What is to be read next of each volume.
fn wants_of(alloc: Global, jobs: &[Job]) -> Result<Vec<Want>, NoMemory>
    ensures { (files : Files) → AreRead files jobs.now → IfOk result (λ wants. AllByRecursion (IsWithin files) wants.items) }
{
    let mut wants = Vec::new(alloc);
    for job in jobs {
        wants.push(want_of(job))?;
    }
    Ok(wants)
}

// Puts a piece of each volume behind what was read of it, if it is what follows there.
fn with_pieces(alloc: Global, jobs: Vec<Job>, pieces: Vec<Piece>) -> Result<Vec<Job>, NoMemory>
    ensures on { (files : Files) → AreRead files jobs.items → AllByRecursion (IsPiece files) pieces.items → IfOk result (λ more. AreReadOn files jobs.items more.items) }
    ensures len { IfOk result (λ more. vec_len more ≡ vec_len jobs) }
{
    let mut more = Vec::new(alloc);
    let mut left = pieces.into_iter();
    for job in jobs {
        let Some(piece) = left.next() else {
            push(&mut more, job)?;
            continue;
        };
        let read = with_piece(job, piece)?;
        push(&mut more, read)?;
    }
    Ok(more)
}

// Counts what was read of each volume, by workers beside each other.
fn count_pieces<T: Turn + Sync, R: Threads + Sync>(
    rt: &R,
    meta: &MetaState,
    from: Stamp,
    to: Stamp,
    jobs: Vec<Job>,
    turn: &T,
) -> Result<Vec<Job>, NoMemory>
    ensures on { IfOk result (λ more. AreCountedOn meta.now from to jobs.items more.items) }
    ensures len { IfOk result (λ more. vec_len more ≡ vec_len jobs) }
{
    let counted = map_vec(
        rt,
        jobs,
        &|job: Job| -> Job
            ensures { IsCountedOn meta.entry.now from to job result }
        { count_piece(meta, from, to, job, turn) },
    )?;
    Ok(counted)
}

// Whether more of some volume is to be counted.
fn is_any_open(jobs: &Vec<Job>) -> bool {
    jobs.iter().any(|job| job.is_open())
}

// Whether nothing more is to be read of the volumes.
fn are_all_read(wants: &[Want]) -> bool {
    wants.iter().all(|want| want.count == 0)
}

// Counts the jobs that are held.
fn count_held<T: Turn + Sync, R: Threads + Sync>(
    rt: &R,
    meta: &MetaState,
    from: Stamp,
    to: Stamp,
    turn: &T,
    held: &mut Option<Vec<Job>>,
) -> Result<Vec<Job>, NoMemory>
    ensures on { IfSome held.old (λ jobs. IfOk result (λ more. AreCountedOn meta.now from to jobs.items more.items)) }
    ensures len { IfSome held.old (λ jobs. IfOk result (λ more. vec_len more ≡ vec_len jobs)) }
{
    match held.take() {
        Some(jobs) => count_pieces(rt, meta, from, to, jobs, turn),
        None => Err(NoMemory),
    }
}

// Counts what was read of each volume, by workers beside each other, while it reads what is wanted.
fn count_and_read<D: Disk, T: Turn + Sync, R: Threads + Sync>(
    rt: &R,
    alloc: Global,
    meta: &MetaState,
    from: Stamp,
    to: Stamp,
    jobs: Vec<Job>,
    turn: &T,
    wants: &[Want],
    disk: &mut D,
) -> Result<(Vec<Job>, Vec<Piece>), ReaderFault>
    requires { D.tells → AllByRecursion (IsWithin (contents_of (D.held disk.old))) wants.now }
    ensures on { IfOk result (λ r. AreCountedOn meta.now from to jobs.items r.0.items) }
    ensures len { IfOk result (λ r. vec_len r.0 ≡ vec_len jobs) }
    ensures pieces { D.tells → IfOk result (λ r. AllByRecursion (IsPiece (contents_of (D.held disk.old))) r.1.items) }
    ensures looks { Looks D.Disk disk.old disk.new }
    ensures cause { IfErr result (λ e. e ≡ DiskFault → Rose (D.faults disk.old) (D.faults disk.new)) }
    ensures fault { IfErr result (λ e. (e ≡ DiskFault) ⊎ (e ≡ Refused)) }
    ensures quiet { OnOk result (D.faults disk.new ≡ D.faults disk.old) }
{
    let mut held = Some(jobs);
    let (counted, read) = join_mut(
        rt,
        &mut || -> Result<Vec<Job>, NoMemory>
            ensures on { IfSome held.entry (λ jobs. IfOk result (λ more. AreCountedOn meta.entry.now from to jobs.items more.items)) }
            ensures len { IfSome held.entry (λ jobs. IfOk result (λ more. vec_len more ≡ vec_len jobs)) }
        { count_held(rt, meta, from, to, turn, &mut held) },
        &mut || -> Result<Vec<Piece>, ReaderFault>
            requires { D.tells → AllByRecursion (IsWithin (contents_of (D.held disk.now))) wants.now }
            ensures pieces { D.tells → IfOk result (λ pieces. AllByRecursion (IsPiece (contents_of (D.held disk.entry.now))) pieces.items) }
            ensures looks { Looks D.Disk disk.entry.now disk.exit.now }
            ensures cause { IfErr result (λ e. e ≡ DiskFault → Rose (D.faults disk.entry.now) (D.faults disk.exit.now)) }
            ensures fault { IfErr result (λ e. (e ≡ DiskFault) ⊎ (e ≡ Refused)) }
            ensures quiet { OnOk result (D.faults disk.exit.now ≡ D.faults disk.entry.now) }
        { read_pieces(alloc, wants, disk) },
    );
    let pieces = read?;
    let counted = counted?;
    Ok((counted, pieces))
}

// Counts what was read of each volume, and reads meanwhile what follows in them, or, where nothing does, the first pieces of the next ones.
fn count_round<D: Disk, T: Turn + Sync, R: Threads + Sync>(
    rt: &R,
    alloc: Global,
    meta: &MetaState,
    from: Stamp,
    to: Stamp,
    disk: &mut D,
    jobs: Vec<Job>,
    next: Vec<Job>,
    turn: &T,
) -> Result<(Vec<Job>, Vec<Job>), ReaderFault>
    requires read { D.tells → AreRead (contents_of (D.held disk.old)) jobs.items }
    requires next { D.tells → AreRead (contents_of (D.held disk.old)) next.items }
    ensures on { D.tells → IfOk result (λ r. LeadOn (contents_of (D.held disk.old)) meta.now from to jobs.items r.0.items) }
    ensures len { IfOk result (λ r. vec_len r.0 ≡ vec_len jobs) }
    ensures next { D.tells → IfOk result (λ r. LeadOn (contents_of (D.held disk.old)) meta.now from to next.items r.1.items) }
    ensures next_len { IfOk result (λ r. vec_len r.1 ≡ vec_len next) }
    ensures looks { Looks D.Disk disk.old disk.new }
    ensures cause { IfErr result (λ e. e ≡ DiskFault → Rose (D.faults disk.old) (D.faults disk.new)) }
    ensures fault { IfErr result (λ e. (e ≡ DiskFault) ⊎ (e ≡ Refused)) }
    ensures quiet { OnOk result (D.faults disk.new ≡ D.faults disk.old) }
{
    let wants = wants_of(alloc, &jobs)?;
    if !are_all_read(&wants) {
        let (counted, pieces) = count_and_read(
            rt, alloc, meta, from, to, jobs, turn, &wants, disk,
        )?;
        let more = with_pieces(alloc, counted, pieces)?;
        return Ok((more, next));
    }
    let firsts = wants_of(alloc, &next)?;
    let (counted, pieces) = count_and_read(rt, alloc, meta, from, to, jobs, turn, &firsts, disk)?;
    let begun = with_pieces(alloc, next, pieces)?;
    Ok((counted, begun))
}

/// Some volumes, the first of those from a position on, counted by workers beside each other, one by each, to their ends or to where each
/// breaks off; and those behind them, of which something may be read meanwhile.
pub fn count_next<D: Disk, T: Turn + Sync, R: Threads + Sync>(
    rt: &R,
    alloc: Global,
    workers: u32,
    meta: &MetaState,
    from: Stamp,
    to: Stamp,
    disk: &mut D,
    volumes: &[(u32, u64)],
    index: usize,
    jobs: Vec<Job>,
    turn: &T,
) -> Result<(Vec<Job>, Vec<Job>), ReaderFault>
    requires within { index + vec_len jobs ≤ length volumes.now }
    requires lengths { D.tells → AllByRecursion (IsMeasured (contents_of (D.held disk.old))) volumes.now }
    requires jobs { D.tells → AreNext (contents_of (D.held disk.old)) meta.now from to volumes.now index jobs.items }
    ensures jobs { D.tells → IfOk result (λ r. AreNext (contents_of (D.held disk.old)) meta.now from to volumes.now index r.0.items) }
    ensures len { IfOk result (λ r. vec_len r.0 ≡ vec_len jobs) }
    ensures next { D.tells → IfOk result (λ r. AreNext (contents_of (D.held disk.old)) meta.now from to volumes.now (index + vec_len jobs) r.1.items) }
    ensures count { IfOk result (λ r. vec_len r.1 ≡ min workers (length volumes.now - (index + vec_len jobs))) }
    ensures looks { Looks D.Disk disk.old disk.new }
    ensures cause { IfErr result (λ e. e ≡ DiskFault → Rose (D.faults disk.old) (D.faults disk.new)) }
    ensures fault { IfErr result (λ e. (e ≡ DiskFault) ⊎ (e ≡ Refused)) }
    ensures quiet { OnOk result (D.faults disk.new ≡ D.faults disk.old) }
{
    let mut next = next_jobs(alloc, volumes, index + jobs.len(), workers)?;
    let mut jobs = jobs;
    for _ in 0..u64::MAX {
        if !is_any_open(&jobs) {
            return Ok((jobs, next));
        }
        let (counted, begun) = count_round(rt, alloc, meta, from, to, disk, jobs, next, turn)?;
        jobs = counted;
        next = begun;
    }
    Err(ReaderFault::NoMemory)
}

// The fault of a volume whose items break off at an offset.
fn broken(number: u32, at: u64) -> ReaderFault
    ensures { result ≡ NotArchive (Volume number) at }
{
    ReaderFault::NotArchive {
        file: FileId::Volume(number),
        at,
    }
}

/// Puts what was counted behind a table, one volume's behind another's.
pub fn merge_all(total: &mut Table, jobs: Vec<Job>) -> Result<(), ReaderFault>
    ensures merged { OnOk result (MergesAll total.old jobs.items total.new) }
    ensures fault { IfErr result (λ e. (e ≡ Refused) ⊎ StopsWith jobs.items e) }
{
    for job in jobs {
        match job.progress {
            Progress::Done => total.merge(job.table)?,
            Progress::Broken(at) => return Err(broken(job.number, at)),
            Progress::Open | Progress::Refused => return Err(ReaderFault::NoMemory),
        }
    }
    Ok(())
}
