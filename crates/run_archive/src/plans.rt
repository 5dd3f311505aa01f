//! Groups as a run keeps them.
ghost use Rattle.std.specs.Prelude.{◌≡◌, [], if◌then◌else◌, length, replicate, IfOk, OnOk};
ghost use Rattle.run_archive.specs.Plans.{AreBeside, plans_of};
ghost use Rattle.script_runs.specs.Groups.{asked_for, asking, plans_at_start, with_metrics};
ghost use Rattle.script_runs.specs.Steps.{PassesForEach, plans_at};

use crate::metrics::Metrics;
use crate::names::add_below;
use log_schedule::{Config, Group, Groups};
use pcp_base::{List, NoMemory, Pmid, Stamp};
use pmns_core::Names;
use std::alloc::Global;
use std::marker::Model;

/// The groups of a configuration from a run's first tick on: when each is due, and which metrics it has asked for.
#[derive(Drop)]
pub struct Plans<'a> {
    groups: &'a [Group],
    timetables: Groups,
    asked: Vec<Metrics>,
}

impl<'a> Model for Plans<'a> {
    ghost use Rattle.std.specs.Prelude.{List as Sequence};
    ghost use Rattle.run_archive.specs.Plans.{AreBeside, plans_of};
    ghost use Rattle.script_runs.specs.Groups.{Plan};

    ghost Value = { Sequence Plan };

    ghost view = { λ a. plans_of a.groups.now a.timetables a.asked.items };

    ghost invariant = { λ a. AreBeside a.groups.now a.timetables a.asked.items };
}

/// No metrics for each of so many groups.
fn none_asked(alloc: Global, count: usize) -> Result<Vec<Metrics>, NoMemory>
    ensures { IfOk result (λ asked. asked.items ≡ replicate count []) }
{
    let mut asked = Vec::new(alloc);
    for _ in 0..count {
        asked.push(Metrics::none(alloc))?;
    }
    Ok(asked)
}

/// Each group that is due adds the metrics to which its names lead.
fn ask_all(
    alloc: Global,
    names: &Names,
    now: Stamp,
    groups: &[Group],
    timetables: &Groups,
    asked: &mut [Metrics],
) -> Result<(), NoMemory>
    requires { AreBeside groups.now timetables.now asked.old }
    ensures plans { OnOk result (plans_of groups.now timetables.now asked.new ≡ asking names.now now (plans_of groups.now timetables.now asked.old)) }
    ensures many { length asked.new ≡ length asked.old }
{
    for (at, group) in groups.iter().enumerate() {
        if timetables.is_due(at as u32, now) {
            add_below(alloc, &mut asked[at], names, group.names.as_slice())?;
        }
    }
    Ok(())
}

/// Adds the metrics of a group that is due.
fn add_if(all: &mut Metrics, is_due: bool, metrics: &Metrics) -> Result<(), NoMemory>
    ensures { OnOk result (all.new ≡ (if is_due then with_metrics all.old metrics.now else all.old)) }
{
    if is_due {
        return all.add_all(metrics);
    }
    Ok(())
}

/// The metrics of all groups that are due, each once.
fn join_due(
    alloc: Global,
    now: Stamp,
    groups: &[Group],
    timetables: &Groups,
    asked: &[Metrics],
) -> Result<Metrics, NoMemory>
    requires { AreBeside groups.now timetables.now asked.now }
    ensures { IfOk result (λ pmids. pmids ≡ asked_for now (plans_of groups.now timetables.now asked.now)) }
{
    let mut all = Metrics::none(alloc);
    for at in 0..groups.len() {
        let is_due = timetables.is_due(at as u32, now);
        add_if(&mut all, is_due, &asked[at])?;
    }
    Ok(all)
}

impl<'a> Plans<'a> {
    /// The groups start now. More than 4,294,967,295 are refused as want of memory.
    pub fn start(alloc: Global, config: &'a Config, now: Stamp) -> Result<Plans<'a>, NoMemory>
        ensures { IfOk result (λ plans. plans ≡ plans_at_start config.now.groups now) }
    {
        let groups = config.groups.as_slice();
        if groups.len() > u32::MAX as usize {
            return Err(NoMemory);
        }
        Ok(Plans {
            groups,
            timetables: Groups::start(alloc, config, now)?,
            asked: none_asked(alloc, groups.len())?,
        })
    }

    /// The groups at a tick: they start at the first one.
    pub fn at_tick(
        alloc: Global,
        config: &'a Config,
        plans: Option<Plans<'a>>,
        now: Stamp,
    ) -> Result<Plans<'a>, NoMemory>
        ensures { IfOk result (λ at. at ≡ plans_at config.now.groups plans.entry now) }
    {
        match plans {
            Some(plans) => Ok(plans),
            None => Plans::start(alloc, config, now),
        }
    }

    /// Each group that is due adds the metrics to which its names lead now.
    pub fn ask(&mut self, alloc: Global, names: &Names, now: Stamp) -> Result<(), NoMemory>
        ensures { OnOk result (self.new ≡ asking names.now now self.old) }
    {
        ask_all(
            alloc,
            names,
            now,
            self.groups,
            &self.timetables,
            &mut self.asked,
        )
    }

    /// The metrics of all groups that are due, each once.
    pub fn asked_for(&self, alloc: Global, now: Stamp) -> Result<List<Pmid>, NoMemory>
        ensures { IfOk result (λ pmids. pmids ≡ asked_for now self.now) }
    {
        let all = join_due(alloc, now, self.groups, &self.timetables, &self.asked)?;
        all.to_list(alloc)
    }

    /// The moment has passed for each group.
    pub fn passed(&mut self, now: Stamp)
        ensures { PassesForEach now self.old self.new }
    {
        self.timetables.passed(now);
    }
}
