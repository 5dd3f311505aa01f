//! A watch over rows, one after another.
ghost use Rattle.std.specs.Prelude.{◌≡◌, ◌≤◌, ◌||◌, ◌∷◌, [], ◌++◌, ℕ, length, map, bytes_eq, List as Sequence, vec_len, OnOk, OnErr, IfOk, slice_get};
ghost use Rattle.std.specs.List.{All, list_any};
ghost use Rattle.std.specs.Option.{option_copied, option_map};
ghost use Rattle.std.specs.Vec.{vec_capacity};
ghost use Rattle.rule_watch.specs.Groups.{AreAllNumbers, KeepsNumbers};
ghost use Rattle.rule_watch.specs.Rows.{Row};
ghost use Rattle.rule_watch.specs.Rules.{AreConditions, AreRules, IsWritten, is_watched};
ghost use Rattle.rule_watch.specs.Shown.{Answers, Shows, rules_of};
ghost use Rattle.rule_watch.specs.Watched.{AreNames, AreValues, AreWatched, EachTo, IsFresh, IsFreshRule, IsKnown, IsKnownRule, IsReadyRule, IsWatchedRule, Stays, TakesGroup, Turns, groups_hold, kept_rules, places_from, rule_of};

use crate::groups::Groups;
use crate::reading::Rules;
use crate::rule::{Condition, Rule};
use crate::watched::{WatchedCondition, WatchedRule, prepare_rule, rule_holds, take_row};
use pcp_base::{List, NoMemory, Text};
use std::alloc::Global;
use std::collections::BTreeMap;
use std::marker::Model;

/// Rules, and of each stream that they speak of its last values. It is handed one sample after another, and tells which
/// rules hold at each.
#[derive(Drop)]
pub struct Watch {
    groups: Groups,
    rules: Vec<WatchedRule>,
}

impl Model for Watch {
    ghost use Rattle.std.specs.Prelude.{List as Sequence};
    ghost use Rattle.rule_watch.specs.Shown.{KeptRule};
    ghost use Rattle.rule_watch.specs.Watched.{AreWatched, kept_rules};

    ghost Value = { Sequence KeptRule };

    ghost view = { λ a. kept_rules a.rules.items };

    ghost invariant = { λ a. AreWatched a.groups.names a.rules.items };
}

// Makes room for a row in all rules. No value changes, also where memory is refused.
fn prepare_rules(alloc: Global, rules: &mut [WatchedRule], groups: &Groups) -> Result<(), NoMemory>
    requires { All IsWatchedRule rules.old }
    ensures stays { EachTo (Turns Stays) rules.old rules.new }
    ensures ready { OnOk result (All (IsReadyRule groups.now.groups) rules.new) }
{
    for rule in rules.iter_mut() {
        prepare_rule(alloc, rule, groups)?;
    }
    Ok(())
}

// Takes a row for which there is room into all rules.
fn take_rows(rules: &mut [WatchedRule], groups: &Groups)
    requires watched { All IsWatchedRule rules.old }
    requires ready { All (IsReadyRule groups.now.groups) rules.old }
    requires values { AreAllNumbers groups.now.groups }
    ensures { EachTo (Turns (TakesGroup groups.now.groups)) rules.old rules.new }
{
    for rule in rules.iter_mut() {
        take_row(rule, groups);
    }
}

// Puts down the numbers of the rules that hold at a row that was taken; there is room for all.
fn put_numbers(numbers: &mut Vec<u32>, rules: &[WatchedRule], groups: &Groups)
    requires watched { All IsWatchedRule rules.now }
    requires few { length rules.now ≤ 64 }
    requires empty { numbers.old.items ≡ [] }
    requires room { length rules.now ≤ vec_capacity numbers.old }
    ensures { numbers.new.items ≡ places_from 0 (groups_hold groups.now.groups) rules.now }
{
    for (at, rule) in rules.iter().enumerate() {
        if rule_holds(rule, groups) {
            numbers.push_reserved(at as u32);
        }
    }
}

// One more row, by the groups of its values. A refusal changes no value.
fn push_row(
    alloc: Global,
    rules: &mut [WatchedRule],
    groups: &mut Groups,
    row: &[(Text, i32, i128)],
) -> Result<Vec<u32>, NoMemory>
    requires rules { AreWatched groups.old.names rules.old }
    requires values { AreValues row.now }
    ensures watched { AreWatched groups.new.names rules.new }
    ensures rules { rules_of (kept_rules rules.new) ≡ rules_of (kept_rules rules.old) }
    ensures ok { IfOk result (λ numbers. Answers (kept_rules rules.old) row.now (kept_rules rules.new) numbers.items) }
    ensures err { OnErr result ((rows : Sequence Row) → Shows (kept_rules rules.old) rows → Shows (kept_rules rules.new) rows) }
{
    let mut numbers = Vec::with_capacity(alloc, rules.len())?;
    groups.take(row)?;
    prepare_rules(alloc, rules, groups)?;
    take_rows(rules, groups);
    put_numbers(&mut numbers, rules, groups);
    Ok(numbers)
}

// The conditions, without a window yet, and their names.
fn watch_conditions(
    alloc: Global,
    groups: &mut Groups,
    conditions: List<Condition>,
) -> Result<Vec<WatchedCondition>, NoMemory>
    requires { AreConditions conditions }
    ensures conditions { IfOk result (λ made. map (λ w. w.condition) made.items ≡ conditions) }
    ensures fresh { IfOk result (λ made. All IsFresh made.items) }
    ensures known { IfOk result (λ made. All (IsKnown groups.new.names) made.items) }
    ensures keeps { OnOk result (KeepsNumbers groups.old.names groups.new.names) }
    ensures named { OnOk result ((name : Sequence ℕ) → list_any (bytes_eq name) groups.new.names ≡ (list_any (bytes_eq name) groups.old.names || list_any (λ c. bytes_eq name c.name) conditions)) }
{
    let mut made = Vec::new(alloc);
    let mut left = conditions.into_vec();
    left.reverse();
    while let Some(condition) = left.pop() {
        let number = groups.add(alloc, condition.name.as_slice())?;
        made.push(WatchedCondition {
            condition,
            number,
            windows: BTreeMap::new(alloc),
        })?;
    }
    Ok(made)
}

fn watch_rule(alloc: Global, groups: &mut Groups, rule: Rule) -> Result<WatchedRule, NoMemory>
    requires { IsWritten rule }
    ensures rule { IfOk result (λ made. rule_of made ≡ rule) }
    ensures fresh { IfOk result IsFreshRule }
    ensures known { IfOk result (IsKnownRule groups.new.names) }
    ensures keeps { OnOk result (KeepsNumbers groups.old.names groups.new.names) }
    ensures named { OnOk result ((name : Sequence ℕ) → list_any (bytes_eq name) groups.new.names ≡ (list_any (bytes_eq name) groups.old.names || list_any (λ c. bytes_eq name c.name) rule.conditions)) }
{
    let Rule {
        label,
        joint,
        conditions,
    } = rule;
    let conditions = watch_conditions(alloc, groups, conditions)?;
    Ok(WatchedRule {
        label,
        joint,
        conditions,
    })
}

fn watch_rules(
    alloc: Global,
    groups: &mut Groups,
    rules: List<Rule>,
) -> Result<Vec<WatchedRule>, NoMemory>
    requires rules { AreRules rules }
    requires names { groups.old.names ≡ [] }
    ensures rules { IfOk result (λ made. map rule_of made.items ≡ rules) }
    ensures fresh { IfOk result (λ made. All IsFreshRule made.items) }
    ensures known { IfOk result (λ made. All (IsKnownRule groups.new.names) made.items) }
    ensures named { OnOk result (AreNames groups.new.names rules) }
{
    let mut made = Vec::new(alloc);
    let mut left = rules.into_vec();
    left.reverse();
    while let Some(rule) = left.pop() {
        made.push(watch_rule(alloc, groups, rule)?)?;
    }
    Ok(made)
}

fn rule_at(rules: &[WatchedRule], number: usize) -> Option<&WatchedRule>
    ensures { option_copied result ≡ slice_get rules.now number }
{
    rules.get(number)
}

impl Watch {
    /// A watch of these rules, which no row was handed to.
    pub fn new(alloc: Global, rules: Rules) -> Result<Watch, NoMemory>
        ensures rules { IfOk result (λ watch. rules_of watch ≡ rules) }
        ensures shows { IfOk result (λ watch. Shows watch []) }
    {
        let mut groups = Groups::none(alloc);
        let rules = watch_rules(alloc, &mut groups, rules.into_list())?;
        Ok(Watch { groups, rules })
    }

    /// Takes one sample's values as names, instances and numbers, and tells the numbers of the rules that hold at it, from
    /// 0 and ascending. The numbers are from -2^63 to 2^64 - 1. What a refusal leaves shows the same rows as before.
    pub fn push(
        &mut self,
        alloc: Global,
        row: &List<(Text, i32, i128)>,
    ) -> Result<List<u32>, NoMemory>
        requires { AreValues row.now }
        ensures ok { IfOk result (λ numbers. Answers self.old row.now self.new numbers) }
        ensures rules { rules_of self.new ≡ rules_of self.old }
        ensures err { OnErr result ((rows : Sequence Row) → Shows self.old rows → Shows self.new rows) }
    {
        let numbers = push_row(alloc, &mut self.rules, &mut self.groups, row.as_slice())?;
        Ok(List::from_vec(numbers))
    }

    /// Whether a rule has a condition on the metric of this name. A row may be handed over without the values of other names
    /// (`rows_may_lack_others`).
    pub fn watches(&self, name: &[u8]) -> bool
        ensures { result ≡ is_watched (rules_of self.now) name.now }
    {
        self.groups.has(name)
    }

    /// The label of the rule with this number, from 0; `None` exactly past the last.
    pub fn label(&self, number: u32) -> Option<&Text>
        ensures { option_copied result ≡ option_map (λ rule. rule.label) (slice_get (rules_of self.now) number) }
    {
        match rule_at(&self.rules, number as usize) {
            Some(rule) => Some(&rule.label),
            None => None,
        }
    }
}
