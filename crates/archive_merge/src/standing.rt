//! Whether kept facts are those of the sets of a stamp. Nothing is copied, and no memory is taken.
ghost use Rattle.std.specs.Prelude.{◌≡◌, ◌↔◌, ◌++◌, false, None, take, IsTrue, IfSome};
ghost use Rattle.std.specs.List.{AllByRecursion};
ghost use Rattle.archive_merge.specs.Facts.{fact_of_set, facts_about, first_lacking, is_lacking};
ghost use Rattle.archive_merge.specs.Kept.{AreMetricsOf, IsFactOf, IsListed};

use crate::lists::{Instances, are_listed, held_where};
use crate::misfits::is_named;
use crate::naming::fact_about;
use archive_meta::{MetaState, has_values};
use pcp_base::{Desc, InDom, Stamp, Text, ValueSet};
use std::collections::BTreeSet;

fn is_same_text(a: &Text, b: &Text) -> bool
    ensures { IsTrue result ↔ (a.now ≡ b.now) }
{
    a.as_slice() == b.as_slice()
}

fn is_same_fact(desc: &Desc, name: &Text, fact: &(Desc, Text)) -> bool
    ensures { IsTrue result ↔ ((desc.now, name.now) ≡ fact.now) }
{
    *desc == fact.0 && is_same_text(name, &fact.1)
}

/// Whether a fact is the one about a set's metric, and each instance that the set shows has a name.
fn is_fact_of(meta: &MetaState, t: Stamp, fact: &(Desc, Text), set: &ValueSet) -> bool
    ensures { IsTrue result → IsFactOf meta.now t fact.now set.now }
{
    let Some((desc, name)) = fact_about(meta, set.pmid) else {
        return false;
    };
    if !is_same_fact(&desc, name, fact) {
        return false;
    }
    is_named(meta, t, desc.indom, &set.body)
}

/// Where the metrics stand behind those of a set, which lacks nothing.
fn behind_set(
    meta: &MetaState,
    t: Stamp,
    metrics: &[(Desc, Text)],
    at: usize,
    set: &ValueSet,
) -> Option<usize>
    ensures metrics { IfSome result (λ behind. take behind metrics.now ≡ take at metrics.now ++ fact_of_set meta.now set.now) }
    ensures whole { IfSome result (λ _. is_lacking meta.now t set.now ≡ false) }
{
    if !has_values(set) {
        return Some(at);
    }
    let Some(fact) = metrics.get(at) else {
        return None;
    };
    if !is_fact_of(meta, t, fact, set) {
        return None;
    }
    Some(at + 1)
}

/// Where the metrics stand behind those of all sets, none of which lacks anything.
fn behind_sets(
    meta: &MetaState,
    t: Stamp,
    metrics: &[(Desc, Text)],
    from: usize,
    sets: &[ValueSet],
) -> Option<usize>
    ensures metrics { IfSome result (λ behind. take behind metrics.now ≡ take from metrics.now ++ facts_about meta.now sets.now) }
    ensures whole { IfSome result (λ _. first_lacking meta.now t sets.now ≡ None) }
{
    let mut at = from;
    for set in sets {
        match behind_set(meta, t, metrics, at, set) {
            Some(behind) => at = behind,
            None => return None,
        }
    }
    Some(at)
}

/// Whether the first so many metrics are those of the first source's sets, the others those of the second's, and no set lacks anything.
pub(crate) fn are_metrics_of(
    metrics: &[(Desc, Text)],
    count: usize,
    first: &MetaState,
    second: &MetaState,
    t: Stamp,
    ours: &[ValueSet],
    theirs: &[ValueSet],
) -> bool
    ensures { IsTrue result → AreMetricsOf metrics.now count first.now second.now t ours.now theirs.now }
{
    let Some(middle) = behind_sets(first, t, metrics, 0, ours) else {
        return false;
    };
    if middle != count {
        return false;
    }
    let Some(end) = behind_sets(second, t, metrics, count, theirs) else {
        return false;
    };
    if end < metrics.len() {
        return false;
    }
    true
}

/// Whether what is listed of a domain is what the sources list of it.
fn is_listed(
    first: &MetaState,
    second: &MetaState,
    t: Stamp,
    ours: &BTreeSet<InDom>,
    theirs: &BTreeSet<InDom>,
    listed: &(InDom, Instances),
) -> bool
    ensures { IsTrue result → IsListed first.now second.now t ours.now.keys theirs.now.keys listed.now }
{
    are_listed(
        held_where(first, ours, listed.0, t),
        held_where(second, theirs, listed.0, t),
        listed.1.as_slice(),
    )
}

/// Whether it is so of each domain.
pub(crate) fn are_all_listed(
    first: &MetaState,
    second: &MetaState,
    t: Stamp,
    ours: &BTreeSet<InDom>,
    theirs: &BTreeSet<InDom>,
    domains: &[(InDom, Instances)],
) -> bool
    ensures { IsTrue result → AllByRecursion (IsListed first.now second.now t ours.now.keys theirs.now.keys) domains.now }
{
    for listed in domains {
        if !is_listed(first, second, t, ours, theirs, listed) {
            return false;
        }
    }
    true
}
