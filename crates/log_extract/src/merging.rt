//! The items of a merge, logged one behind another.
ghost use Rattle.std.specs.Prelude.{◌≡◌, ◌↔◌, ℕ, [], List as Sequence, IsTrue, IfErr, IfOk, OnOk};
ghost use Rattle.std.specs.List.{AllByRecursion};
ghost use Rattle.pcp_base.specs.Results.{Fits};
ghost use Rattle.archive_loading.specs.Looks.{Looks};
ghost use Rattle.logging_session.specs.Keeping.{IsWorking};
ghost use Rattle.logging_session.specs.Written.{Report};
ghost use Rattle.logging_run.specs.Running.{Runs};
ghost use Rattle.log_extract.specs.Cursors.{AreParted, IsReady, earliest};
ghost use Rattle.log_extract.specs.Judging.{judge_parts};
ghost use Rattle.log_extract.specs.Logging.{AreLeft, AreQuiet, BlamesSources, HasLogged, IsOfItem, LogsAll, LogsNext, QuietBut, judged_left};

use crate::cursor::Cursor;
use crate::fault::ExtractFault;
use crate::taking::take_both;
use archive_merge::{KeptFacts, MergeFault};
use archive_meta::MetaState;
use logging_run::Run;
use pcp_base::{PmResult, Stamp, ValueSet};
use pcp_outside::Disk;
use std::alloc::Global;

/// The earlier of two stamps, the first where they are equal.
fn earliest(ours: Option<Stamp>, theirs: Option<Stamp>) -> Option<Stamp>
    ensures { result ≡ earliest ours theirs }
{
    let Some(t) = ours else {
        return theirs;
    };
    let Some(s) = theirs else {
        return ours;
    };
    if s.microseconds() < t.microseconds() {
        return theirs;
    }
    ours
}

/// Whether each set holds what can be written.
fn sets_fit(sets: &[ValueSet]) -> bool
    ensures { IsTrue result ↔ AllByRecursion Fits sets.now }
{
    for set in sets {
        if !set.fits() {
            return false;
        }
    }
    true
}

/// Logs the item of a stamp, held to be written with others, where it can be described. What describes it is kept for the next.
fn log_item<D: Disk>(
    alloc: Global,
    kept: &mut KeptFacts,
    first: &MetaState,
    second: &MetaState,
    answer: &PmResult,
    count: usize,
    run: &mut Run,
    disk: &mut D,
) -> Result<(), ExtractFault>
    requires working { IsWorking run.old }
    requires parted { AreParted answer.now.sets count }
    ensures logs { (limit : ℕ) (reports : Sequence Report) (start : D) → HasLogged D.Disk limit run.old start disk.old reports
        → LogsNext D.Disk limit run.new start disk.new reports (judge_parts first.now second.now answer.now.stamp answer.now.sets count) result }
    ensures kinds { IfErr result IsOfItem }
    ensures working { OnOk result (IsWorking run.new) }
{
    kept.describe(
        alloc,
        first,
        second,
        answer.stamp,
        answer.sets.as_slice(),
        count,
    )?;
    if answer.sets.is_empty() {
        return Err(ExtractFault::Merge(MergeFault::NoMemory));
    }
    if !sets_fit(answer.sets.as_slice()) {
        return Err(ExtractFault::Merge(MergeFault::NoMemory));
    }
    run.log_held(alloc, disk, answer, kept.facts())?;
    Ok(())
}

/// Logs the items of what is left of two sources, by rising stamp, up to the first that isn't logged.
pub(crate) fn merge_all<A: Disk, B: Disk, D: Disk>(
    alloc: Global,
    first: &mut Cursor,
    first_disk: &mut A,
    second: &mut Cursor,
    second_disk: &mut B,
    run: &mut Run,
    disk: &mut D,
) -> Result<(), ExtractFault>
    requires working { IsWorking run.old }
    requires first_ready { IsReady A.Disk first_disk.old first.old }
    requires second_ready { IsReady B.Disk second_disk.old second.old }
    ensures logs { (limit : ℕ) (start : D) → Runs D.Disk limit [] run.old start disk.old
        → LogsAll D.Disk limit run.new start disk.new (AreLeft A.Disk B.Disk first_disk.old second_disk.old first.old second.old) (judged_left first.old second.old) result }
    ensures broken { IfErr result (BlamesSources A.Disk B.Disk first_disk.old first_disk.new second_disk.old second_disk.new) }
    ensures first_looks { Looks A.Disk first_disk.old first_disk.new }
    ensures second_looks { Looks B.Disk second_disk.old second_disk.new }
    ensures quiet { OnOk result (AreQuiet A.Disk B.Disk first_disk.old first_disk.new second_disk.old second_disk.new) }
    ensures others_quiet { IfErr result (QuietBut A.Disk B.Disk first_disk.old first_disk.new second_disk.old second_disk.new) }
{
    let mut kept = KeptFacts::empty(alloc);
    for _ in 0..u64::MAX {
        let stamp = match earliest(first.stamp(), second.stamp()) {
            Some(stamp) => stamp,
            None => return Ok(()),
        };
        let (sets, count) = take_both(alloc, stamp, first, first_disk, second, second_disk)?;
        let answer = PmResult { stamp, sets };
        log_item(
            alloc,
            &mut kept,
            first.meta(),
            second.meta(),
            &answer,
            count,
            run,
            disk,
        )?;
    }
    Err(ExtractFault::Merge(MergeFault::NoMemory))
}
