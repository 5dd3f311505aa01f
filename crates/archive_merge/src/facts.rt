//! What describes the sets of a stamp.
ghost use Rattle.std.specs.Prelude.{◌≡◌, ◌++◌, fold, length, map, IfOk, OnOk};
ghost use Rattle.archive_merge.specs.Facts.{domain_facts, domains_used, fact_of_set, facts_about, facts_between, with_used};

use crate::lists::{Instances, held_where, listed};
use crate::naming::fact_about;
use archive_meta::{Facts, MetaState, has_values};
use pcp_base::{Desc, Duplicate, InDom, List, NoMemory, Stamp, Text, ValueSet};
use std::alloc::Global;
use std::collections::BTreeSet;

/// Notes the domain of a set's metric, where the set has values and isn't of the null domain.
fn note_domain(
    meta: &MetaState,
    domains: &mut BTreeSet<InDom>,
    set: &ValueSet,
) -> Result<(), NoMemory>
    ensures { OnOk result (domains.new.keys ≡ with_used meta.now domains.old.keys set.now) }
{
    if !has_values(set) {
        return Ok(());
    }
    let Some((desc, _)) = fact_about(meta, set.pmid) else {
        return Ok(());
    };
    if desc.indom == InDom::null() {
        return Ok(());
    }
    domains.insert(desc.indom)?;
    Ok(())
}

fn note_domains(
    meta: &MetaState,
    domains: &mut BTreeSet<InDom>,
    sets: &[ValueSet],
) -> Result<(), NoMemory>
    ensures { OnOk result (domains.new.keys ≡ fold (with_used meta.now) domains.old.keys sets.now) }
{
    for set in sets {
        note_domain(meta, domains, set)?;
    }
    Ok(())
}

/// The domains that sets use.
pub(crate) fn domains_used(
    alloc: Global,
    meta: &MetaState,
    sets: &[ValueSet],
) -> Result<BTreeSet<InDom>, NoMemory>
    ensures { IfOk result (λ domains. domains.keys ≡ domains_used meta.now sets.now) }
{
    let mut domains: BTreeSet<InDom> = BTreeSet::new(alloc);
    note_domains(meta, &mut domains, sets)?;
    Ok(domains)
}

/// Adds the fact about a set's metric, where it has values.
fn push_fact(
    alloc: Global,
    metrics: &mut List<(Desc, Text)>,
    meta: &MetaState,
    set: &ValueSet,
) -> Result<(), NoMemory>
    ensures { OnOk result (metrics.new ≡ metrics.old ++ fact_of_set meta.now set.now) }
{
    if !has_values(set) {
        return Ok(());
    }
    let Some((desc, name)) = fact_about(meta, set.pmid) else {
        return Ok(());
    };
    let name = name.copy(alloc)?;
    metrics.push((desc, name))
}

fn push_facts(
    alloc: Global,
    metrics: &mut List<(Desc, Text)>,
    meta: &MetaState,
    sets: &[ValueSet],
) -> Result<(), NoMemory>
    ensures { OnOk result (metrics.new ≡ metrics.old ++ facts_about meta.now sets.now) }
{
    for set in sets {
        push_fact(alloc, metrics, meta, set)?;
    }
    Ok(())
}

/// The domains that the sets of both sources use, each with its instances.
fn domain_facts(
    alloc: Global,
    first: &MetaState,
    second: &MetaState,
    t: Stamp,
    ours: &BTreeSet<InDom>,
    theirs: &BTreeSet<InDom>,
    all: &BTreeSet<InDom>,
) -> Result<List<(InDom, Instances)>, NoMemory>
    ensures { IfOk result (λ domains. domains ≡ map (domain_facts first.now second.now t ours.now.keys theirs.now.keys) all.now.keys) }
{
    let mut domains = List::empty(alloc);
    for indom in all {
        let instances = listed(
            alloc,
            held_where(first, ours, *indom, t),
            held_where(second, theirs, *indom, t),
        )?;
        domains.push((*indom, instances))?;
    }
    Ok(domains)
}

/// The facts of sets that can be described, and how many of the metrics are of the first source's sets.
pub(crate) fn facts_between(
    alloc: Global,
    first: &MetaState,
    second: &MetaState,
    t: Stamp,
    used: &BTreeSet<InDom>,
    others: &BTreeSet<InDom>,
    ours: &[ValueSet],
    theirs: &[ValueSet],
) -> Result<(Facts, usize), NoMemory>
    requires used { used.now.keys ≡ domains_used first.now ours.now }
    requires others { others.now.keys ≡ domains_used second.now theirs.now }
    ensures facts { IfOk result (λ made. made.0 ≡ facts_between first.now second.now t ours.now theirs.now) }
    ensures count { IfOk result (λ made. made.1 ≡ length (facts_about first.now ours.now)) }
{
    let mut metrics = List::empty(alloc);
    push_facts(alloc, &mut metrics, first, ours)?;
    let count = metrics.len();
    push_facts(alloc, &mut metrics, second, theirs)?;
    let mut all = domains_used(alloc, first, ours)?;
    note_domains(second, &mut all, theirs)?;
    let domains = domain_facts(alloc, first, second, t, used, others, &all)?;
    Ok((Facts { metrics, domains }, count))
}
