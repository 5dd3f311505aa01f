//! The instances that a result shows, against the lists of their domains.
ghost use Rattle.std.specs.Prelude.{◌≡◌, ◌↔◌, filter, map, IfOk, OnOk, IsTrue};
ghost use Rattle.std.specs.List.{list_all};
ghost use Rattle.std.specs.Option.{option_copied};
ghost use Rattle.archive_meta.specs.Enough.{AreEnough, IsTold};
ghost use Rattle.archive_meta.specs.Facts.{fact_of, listed_of};
ghost use Rattle.pmcd_client.specs.Items.{is_of_domain, lacking, lacks, latest, lists_all, lists_instance, renewed, tells};

use archive_meta::{Facts, has_values};
use pcp_base::{Body, Desc, Duplicate, InDom, List, NoMemory, Pmid, Text, ValueSet};
use std::alloc::Global;
use std::mem;

/// The instances of a domain, by number and name.
pub type Instances = List<(i32, Text)>;

/// Whether a list has an instance.
pub fn lists_instance(pairs: &[(i32, Text)], instance: i32) -> bool
    ensures { result ≡ lists_instance pairs.now instance }
{
    pairs.iter().any(|pair| pair.0 == instance)
}

/// Whether a list has the instance of each value.
fn lists_each<T>(pairs: &[(i32, Text)], values: &[(i32, T)]) -> bool
    ensures { result ≡ list_all (λ v. lists_instance pairs.now v.0) values.now }
{
    for (instance, _) in values {
        if !lists_instance(pairs, *instance) {
            return false;
        }
    }
    true
}

/// Whether a list has every instance that a set shows.
fn lists_all(pairs: &[(i32, Text)], body: &Body) -> bool
    ensures { result ≡ lists_all pairs.now body.now }
{
    match body {
        Body::InPlace(shown) => lists_each(pairs, shown.as_slice()),
        Body::Blocks(shown) => lists_each(pairs, shown.as_slice()),
        Body::Status(_) => true,
    }
}

/// The fact about a metric.
fn fact_of(metrics: &[(Desc, Text)], pmid: Pmid) -> Option<&(Desc, Text)>
    ensures { option_copied result ≡ fact_of metrics.now pmid }
{
    for metric in metrics {
        if metric.0.pmid == pmid {
            return Some(metric);
        }
    }
    None
}

/// The list of a domain.
fn listed_of(domains: &[(InDom, Instances)], indom: InDom) -> Option<&(InDom, Instances)>
    ensures { option_copied result ≡ listed_of domains.now indom }
{
    for listed in domains {
        if listed.0 == indom {
            return Some(listed);
        }
    }
    None
}

/// Whether a set is of a metric of a domain.
fn is_of_domain(metrics: &[(Desc, Text)], indom: InDom, set: &ValueSet) -> bool
    ensures { result ≡ is_of_domain metrics.now indom set.now }
{
    match fact_of(metrics, set.pmid) {
        Some(metric) => metric.0.indom == indom,
        None => false,
    }
}

/// Whether sets show an instance of a domain that its list lacks.
fn lacks(metrics: &[(Desc, Text)], sets: &[ValueSet], listed: &(InDom, Instances)) -> bool
    ensures { result ≡ lacks metrics.now sets.now listed.now }
{
    for set in sets {
        let is_shown = is_of_domain(metrics, listed.0, set);
        if is_shown && !lists_all(listed.1.as_slice(), &set.body) {
            return true;
        }
    }
    false
}

/// The domains whose lists lack an instance that sets show.
fn lacking_among(
    alloc: Global,
    metrics: &[(Desc, Text)],
    domains: &[(InDom, Instances)],
    sets: &[ValueSet],
) -> Result<Vec<InDom>, NoMemory>
    ensures { IfOk result (λ found. found.items ≡ map (λ listed. listed.0) (filter (lacks metrics.now sets.now) domains.now)) }
{
    let mut found = Vec::new(alloc);
    for listed in domains {
        if lacks(metrics, sets, listed) {
            found.push(listed.0)?;
        }
    }
    Ok(found)
}

/// The domains whose lists lack an instance that sets show.
pub fn lacking(alloc: Global, facts: &Facts, sets: &[ValueSet]) -> Result<Vec<InDom>, NoMemory>
    ensures { IfOk result (λ domains. domains.items ≡ lacking facts.now sets.now) }
{
    lacking_among(
        alloc,
        facts.metrics.as_slice(),
        facts.domains.as_slice(),
        sets,
    )
}

/// A domain with the list that came now, or else the one before.
fn latest(
    alloc: Global,
    fresh: &[(InDom, Instances)],
    before: (InDom, Instances),
) -> Result<(InDom, Instances), NoMemory>
    ensures { IfOk result (λ listed. listed ≡ latest fresh.now before) }
{
    match listed_of(fresh, before.0) {
        Some(listed) => Ok(listed.copy(alloc)?),
        None => Ok(before),
    }
}

/// The domains with the lists that came.
fn renewed(
    alloc: Global,
    domains: List<(InDom, Instances)>,
    fresh: &[(InDom, Instances)],
) -> Result<List<(InDom, Instances)>, NoMemory>
    ensures { IfOk result (λ made. made ≡ map (latest fresh.now) domains) }
{
    let mut made = List::from_vec(Vec::with_capacity(alloc, domains.len())?);
    for before in domains.into_vec() {
        let listed = latest(alloc, fresh, before)?;
        made.push(listed)?;
    }
    Ok(made)
}

/// Takes over the lists that came.
pub fn renew(alloc: Global, facts: &mut Facts, fresh: &[(InDom, Instances)]) -> Result<(), NoMemory>
    ensures { OnOk result (facts.new ≡ renewed facts.old fresh.now) }
{
    let domains = mem::replace(&mut facts.domains, List::empty(alloc));
    facts.domains = renewed(alloc, domains, fresh)?;
    Ok(())
}

/// Whether facts describe the metric of a set, and list its instances.
fn tells(facts: &Facts, set: &ValueSet) -> bool
    ensures { result ≡ tells facts.now set.now }
{
    let Some((desc, _)) = fact_of(facts.metrics.as_slice(), set.pmid) else {
        return false;
    };
    if desc.indom == InDom::null() {
        return true;
    }
    match listed_of(facts.domains.as_slice(), desc.indom) {
        Some((_, pairs)) => lists_all(pairs.as_slice(), &set.body),
        None => false,
    }
}

/// Whether facts describe the metric of a set, and list its instances.
fn is_told(facts: &Facts, set: &ValueSet) -> bool
    ensures { IsTrue result ↔ IsTold facts.now set.now }
{
    tells(facts, set)
}

/// Whether facts tell enough of sets to describe them.
pub fn are_enough(facts: &Facts, sets: &[ValueSet]) -> bool
    ensures { IsTrue result ↔ AreEnough facts.now sets.now }
{
    for set in sets {
        if has_values(set) && !is_told(facts, set) {
            return false;
        }
    }
    true
}
