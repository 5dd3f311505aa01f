//! What is held to be written: runs of results, each made before any write.
ghost use Rattle.std.specs.Prelude.{◌≡◌, ◌≢◌, ◌<◌, ◌≤◌, ◌++◌, ◌+◌, [], if◌then◌else◌, length, min, take, true, false, List as Sequence, IfOk, IfErr, OnOk, OnErr};
ghost use Rattle.std.specs.List.{AllByRecursion};
ghost use Rattle.pcp_base.specs.Results.{Fits};
ghost use Rattle.logger_core.specs.Going.{AreSmall};
ghost use Rattle.logger_core.specs.Grouping.{MayBeAsked, Told};
ghost use Rattle.logger_core.specs.Held.{AreRuns, IsHeldMore, IsRefusedAfter, run_of, joined_run, with_made, counts_of, items_length};
ghost use Rattle.pcp_model.specs.declared.records.MetaRecord.{MetaRecord as Record};
ghost use Rattle.logger_core.specs.declared.ends.Ends.{Ends as Numbers};
ghost use Rattle.logger_core.specs.declared.fault.LogFault.TheVariants.{NoMemory as Refused};
ghost use Rattle.logger_core.specs.Logging.{IsRefused};
ghost use Rattle.logger_core.specs.Planning.{planned_ends};
ghost use Rattle.logger_core.specs.Writing.{IsBounded};

use crate::ends::Ends;
use crate::extending::extend;
use crate::fault::LogFault;
use crate::planning::planned_ends;
use crate::preparing::{Made, prepare};
use archive_meta::{Facts, MetaState};
use pcp_base::{Bytes, List, NoMemory, PmResult, Stamp};
use std::alloc::Global;
use std::mem;

/// A run of results: whether the next volume is opened before it, the framed records of Meta that they need, their own framed
/// records, how many they are, and the stamp of the last.
#[derive(Drop)]
pub struct Run {
    pub crossing: bool,
    pub records: Bytes,
    pub items: Bytes,
    pub count: u32,
    pub stamp: Stamp,
}

/// The runs that are held, in their order, and where the files will end once all are written.
#[derive(Drop)]
pub struct Group {
    pub runs: List<Run>,
    pub planned: Ends,
}

/// The run of one result.
fn run_of(made: Made, stamp: Stamp) -> Run
    ensures { result ≡ run_of made stamp }
{
    Run {
        crossing: made.crossing,
        records: made.records,
        items: made.item,
        count: 1,
        stamp,
    }
}

/// Bytes with more behind them; without memory they are as they were, and the answer is `false`.
fn with_more(bytes: Bytes, more: &[u8]) -> (Bytes, bool)
    ensures { result.0 ≡ (if result.1 then bytes ++ more.now else bytes) }
{
    let mut all = bytes.into_vec();
    let grown = all.extend_from_slice(more).is_ok();
    (List::from_vec(all), grown)
}

/// The first so many bytes.
fn first_bytes(bytes: Bytes, count: usize) -> Bytes
    ensures { result ≡ take count bytes }
{
    let mut all = bytes.into_vec();
    all.truncate(count);
    List::from_vec(all)
}

/// A run with one result more; without memory it is as it was, and the answer is `false`.
fn joined(run: Run, made: &Made, stamp: Stamp) -> (Run, bool)
    requires { run.count < 4294967295 }
    ensures { result.0 ≡ (if result.1 then joined_run run made.now stamp else run) }
{
    let (records_length, items_length) = (run.records.len(), run.items.len());
    let (records, has_records) = with_more(run.records, made.records.as_slice());
    let (items, has_items) = with_more(run.items, made.item.as_slice());
    if has_records && has_items {
        let longer = Run {
            crossing: run.crossing,
            records,
            items,
            count: run.count + 1,
            stamp,
        };
        return (longer, true);
    }
    let same = Run {
        crossing: run.crossing,
        records: first_bytes(records, records_length),
        items: first_bytes(items, items_length),
        count: run.count,
        stamp: run.stamp,
    };
    (same, false)
}

/// Puts what was made of a result behind the runs: into the last one, or into a new one, where there is none or the result goes
/// into the next volume. A refusal leaves them as they were.
fn put(runs: &mut Vec<Run>, made: Made, stamp: Stamp) -> Result<(), NoMemory>
    requires { counts_of runs.old.items < 4294967295 }
    ensures ok { OnOk result (runs.new.items ≡ with_made runs.old.items made stamp) }
    ensures err { OnErr result (runs.new.items ≡ runs.old.items) }
{
    runs.reserve(1)?;
    let Some(last) = runs.pop() else {
        runs.push_reserved(run_of(made, stamp));
        return Ok(());
    };
    if made.crossing {
        runs.push_reserved(last);
        runs.push_reserved(run_of(made, stamp));
        return Ok(());
    }
    let (run, grown) = joined(last, &made, stamp);
    runs.push_reserved(run);
    if !grown {
        return Err(NoMemory);
    }
    Ok(())
}

/// The same of a list of runs.
fn keep(alloc: Global, runs: &mut List<Run>, made: Made, stamp: Stamp) -> Result<(), NoMemory>
    requires { counts_of runs.old < 4294967295 }
    ensures ok { OnOk result (runs.new ≡ with_made runs.old made stamp) }
    ensures err { OnErr result (runs.new ≡ runs.old) }
{
    let mut all = mem::replace(runs, List::empty(alloc)).into_vec();
    let result = put(&mut all, made, stamp);
    *runs = List::from_vec(all);
    result
}

/// Lets all runs go. No memory is taken.
pub(crate) fn let_go(runs: &mut List<Run>)
    ensures { runs.new ≡ [] }
{
    let mut left = runs.len();
    while left > 0 {
        runs.pop();
        left -= 1;
    }
}

/// How many results the runs hold.
pub(crate) fn count_of(runs: &[Run]) -> u32
    requires { counts_of runs.now < 4294967296 }
    ensures { result ≡ counts_of runs.now }
{
    let Some((first, rest)) = runs.split_first() else {
        return 0;
    };
    first.count + count_of(rest)
}

/// How many bytes the records of their results take, at most 2^64 - 1.
pub(crate) fn items_length(runs: &[Run]) -> u64
    ensures { result ≡ min (items_length runs.now) 18446744073709551615 }
{
    let Some((first, rest)) = runs.split_first() else {
        return 0;
    };
    items_length(rest).saturating_add(first.items.len() as u64)
}

/// Where the files end once one more result is written, of which this was made.
fn planned(ends: &Ends, made: &Made, stamp: Stamp) -> Ends
    requires { IsBounded ends.now made.now }
    ensures { result ≡ planned_ends made.now.crossing (length made.now.records) (length made.now.item) stamp ends.now }
{
    let (records, item) = (made.records.len(), made.item.len());
    planned_ends(ends, made.crossing, records, item, stamp)
}

/// Judges a result where the files will end, adds its metadata to those that are known, and holds what is written of it. A refusal
/// leaves all as it was.
pub(crate) fn hold(
    meta: &mut MetaState,
    alloc: Global,
    group: &mut Group,
    limit: u64,
    answer: &PmResult,
    facts: &Facts,
) -> Result<(), LogFault>
    requires some { 0 < length answer.now.sets }
    requires fits { AllByRecursion Fits answer.now.sets }
    requires small { AreSmall group.old.planned }
    requires limited { limit ≤ 1073741824 }
    requires few { counts_of group.old.runs < 4294967295 }
    ensures held { OnOk result (IsHeldMore meta.old group.old limit answer.now facts.now meta.new group.new) }
    ensures fault { IfErr result (IsRefused meta.old group.old.planned limit answer.now facts.now) }
    ensures known { OnErr result (meta.new ≡ meta.old) }
    ensures same { OnErr result (group.new ≡ group.old) }
{
    let made = prepare(alloc, meta, &group.planned, limit, answer, facts)?;
    let planned = planned(&group.planned, &made, answer.stamp);
    let count = meta.count();
    extend(meta, alloc, made.records.as_slice())?;
    match keep(alloc, &mut group.runs, made, answer.stamp) {
        Ok(()) => {
            group.planned = planned;
            Ok(())
        }
        Err(fault) => {
            meta.cut(count);
            Err(fault.into())
        }
    }
}

/// Judges results one after another, each where the ones before it leave the files, and holds them, up to the first that is refused:
/// the error is its position, from 0, and why.
pub(crate) fn hold_all(
    meta: &mut MetaState,
    alloc: Global,
    group: &mut Group,
    limit: u64,
    all: &[(PmResult, Facts)],
) -> Result<(), (u32, LogFault)>
    requires small { AreSmall group.old.planned }
    requires limited { limit ≤ 1073741824 }
    requires few { counts_of group.old.runs + length all.now ≤ 64 }
    requires each { AllByRecursion MayBeAsked all.now }
    ensures held { (records : Sequence Record) (e : Numbers) (done : Sequence Told) → AreSmall e → AreRuns records e limit group.old.runs done meta.old group.old.planned
        → OnOk result (AreRuns records e limit group.new.runs (done ++ all.now) meta.new group.new.planned) }
    ensures refused { (records : Sequence Record) (e : Numbers) (done : Sequence Told) → AreSmall e → AreRuns records e limit group.old.runs done meta.old group.old.planned
        → IfErr result (λ r. IsRefusedAfter records e limit done all.now meta.new group.new r.0 r.1) }
    ensures few { IfErr result (λ r. r.0 ≤ length all.now) }
{
    let Some((one, rest)) = all.split_first() else {
        return Ok(());
    };
    match hold(meta, alloc, group, limit, &one.0, &one.1) {
        Err(fault) => Err((0, fault)),
        Ok(()) => match hold_all(meta, alloc, group, limit, rest) {
            Ok(()) => Ok(()),
            Err((k, fault)) => Err((k + 1, fault)),
        },
    }
}

/// Results that were judged: the runs of those that may be logged, up to the first that is refused, and which one that is and why.
#[derive(Drop)]
pub struct Judged {
    pub group: Group,
    pub refused: Option<(u32, LogFault)>,
}

/// Whether a call was refused for want of memory.
pub(crate) fn is_memory(fault: &LogFault) -> bool
    ensures { (result ≡ true → fault.now ≡ Refused) × (result ≡ false → fault.now ≢ Refused) }
{
    match fault {
        LogFault::NoMemory => true,
        LogFault::Closed
        | LogFault::Live { .. }
        | LogFault::Large { .. }
        | LogFault::NotLater { .. }
        | LogFault::Changed { .. }
        | LogFault::Full { .. }
        | LogFault::DiskFault => false,
    }
}
