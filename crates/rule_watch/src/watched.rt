//! The rules of a watch, with the windows of each condition.
ghost use Rattle.std.specs.Prelude.{◌≡◌, OnOk};
ghost use Rattle.std.specs.List.{All, list_all, list_any};
ghost use Rattle.rule_watch.specs.Groups.{AreAllNumbers, group_at};
ghost use Rattle.rule_watch.specs.Watched.{EachTo, IsReady, IsReadyRule, IsWatched, IsWatchedRule, Stays, TakesGroup, Turns, group_holds, groups_hold, kept};

use crate::groups::Groups;
use crate::rule::{Condition, Joint};
use crate::streams::{Windows, holds, make_windows, push_values};
use pcp_base::{NoMemory, Text};
use std::alloc::Global;

/// A condition with the number of its metric's name and its windows.
#[derive(Drop)]
pub struct WatchedCondition {
    pub condition: Condition,
    pub number: usize,
    pub windows: Windows,
}

/// A rule with the windows of its conditions.
#[derive(Drop)]
pub struct WatchedRule {
    pub label: Text,
    pub joint: Joint,
    pub conditions: Vec<WatchedCondition>,
}

fn prepare(alloc: Global, watched: &mut WatchedCondition, groups: &Groups) -> Result<(), NoMemory>
    requires { IsWatched watched.old }
    ensures stays { Stays watched.old watched.new }
    ensures ready { OnOk result (IsReady groups.now.groups watched.new) }
{
    let values = groups.values(watched.number);
    make_windows(alloc, &mut watched.windows, &watched.condition, values)
}

fn take(watched: &mut WatchedCondition, groups: &Groups)
    requires watched { IsWatched watched.old }
    requires ready { IsReady groups.now.groups watched.old }
    requires values { AreAllNumbers groups.now.groups }
    ensures { TakesGroup groups.now.groups watched.old watched.new }
{
    let values = groups.values(watched.number);
    push_values(&mut watched.windows, &watched.condition, values);
}

// Makes room for a row in all conditions. No value changes, also where memory is refused.
fn prepare_all(
    alloc: Global,
    conditions: &mut [WatchedCondition],
    groups: &Groups,
) -> Result<(), NoMemory>
    requires { All IsWatched conditions.old }
    ensures stays { EachTo Stays conditions.old conditions.new }
    ensures ready { OnOk result (All (IsReady groups.now.groups) conditions.new) }
{
    for watched in conditions.iter_mut() {
        prepare(alloc, watched, groups)?;
    }
    Ok(())
}

// Takes a row for which there is room into all conditions.
fn take_all(conditions: &mut [WatchedCondition], groups: &Groups)
    requires watched { All IsWatched conditions.old }
    requires ready { All (IsReady groups.now.groups) conditions.old }
    requires values { AreAllNumbers groups.now.groups }
    ensures { EachTo (TakesGroup groups.now.groups) conditions.old conditions.new }
{
    for watched in conditions.iter_mut() {
        take(watched, groups);
    }
}

/// Makes room for a row. No value changes, also where memory is refused.
pub fn prepare_rule(alloc: Global, rule: &mut WatchedRule, groups: &Groups) -> Result<(), NoMemory>
    requires { IsWatchedRule rule.old }
    ensures stays { Turns Stays rule.old rule.new }
    ensures ready { OnOk result (IsReadyRule groups.now.groups rule.new) }
{
    prepare_all(alloc, &mut rule.conditions, groups)
}

/// Takes a row for which there is room.
pub fn take_row(rule: &mut WatchedRule, groups: &Groups)
    requires watched { IsWatchedRule rule.old }
    requires ready { IsReadyRule groups.now.groups rule.old }
    requires values { AreAllNumbers groups.now.groups }
    ensures { Turns (TakesGroup groups.now.groups) rule.old rule.new }
{
    take_all(&mut rule.conditions, groups);
}

fn condition_holds(watched: &WatchedCondition, groups: &Groups) -> bool
    requires { IsWatched watched.now }
    ensures { result ≡ group_holds (kept watched.now.windows) (group_at groups.now.groups watched.now.number) watched.now.condition }
{
    holds(
        &watched.windows,
        &watched.condition,
        groups.values(watched.number),
    )
}

fn any_holds(conditions: &[WatchedCondition], groups: &Groups) -> bool
    requires { All IsWatched conditions.now }
    ensures { result ≡ list_any (λ w. group_holds (kept w.windows) (group_at groups.now.groups w.number) w.condition) conditions.now }
{
    for watched in conditions {
        if condition_holds(watched, groups) {
            return true;
        }
    }
    false
}

fn all_hold(conditions: &[WatchedCondition], groups: &Groups) -> bool
    requires { All IsWatched conditions.now }
    ensures { result ≡ list_all (λ w. group_holds (kept w.windows) (group_at groups.now.groups w.number) w.condition) conditions.now }
{
    for watched in conditions {
        if !condition_holds(watched, groups) {
            return false;
        }
    }
    true
}

/// Whether the rule holds at a row that was taken.
pub fn rule_holds(rule: &WatchedRule, groups: &Groups) -> bool
    requires { IsWatchedRule rule.now }
    ensures { result ≡ groups_hold groups.now.groups rule.now }
{
    match rule.joint {
        Joint::And => all_hold(&rule.conditions, groups),
        Joint::Or => any_holds(&rule.conditions, groups),
    }
}
