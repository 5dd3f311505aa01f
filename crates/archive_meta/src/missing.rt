//! Which of a result's facts are missing in Meta, as positions in the facts.
ghost use Rattle.std.specs.Prelude.{◌≡◌, ◌↔◌, ℕ, ◌++◌, nat_eq, map, option_to_list, IsTrue, IfOk};
ghost use Rattle.std.specs.List.{AllByRecursion};
ghost use Rattle.indexmap.specs.IndexMap.{get};
ghost use Rattle.pcp_model.specs.Described.{HoldsAt};
ghost use Rattle.archive_meta.specs.Facts.{fact_of, metric_of};
ghost use Rattle.archive_meta.specs.Missing.{is_undescribed, undescribed_metrics, values_of_keys, shown_domain, shown_domains, domains_of, Tells, AreMissingDomains, listed_from, position_from, at_positions};

use crate::descriptions::position_of;
use crate::facts::Facts;
use crate::fitting::has_values;
use crate::state::MetaState;
use crate::taking::{Positions, domain_keys, first_positions, metric_keys, take_positions};
use pcp_base::{Desc, InDom, List, NoMemory, PmResult, Stamp, Text, ValueSet};
use std::alloc::Global;

/// The domain by the facts of the metric of a set with values.
fn shown_domain(
    metrics: &List<(Desc, Text)>,
    positions: &Positions,
    set: &ValueSet,
) -> Option<InDom>
    requires { (q : ℕ) → get nat_eq positions.now q ≡ position_from 0 (map metric_of metrics.now) q }
    ensures { option_to_list result ≡ shown_domain metrics.now set.now }
{
    if !has_values(set) {
        return None;
    }
    let Some(at) = position_of(positions, set.pmid) else {
        return None;
    };
    match metrics.get(at) {
        Some(fact) => Some(fact.0.indom),
        None => None,
    }
}

fn shown_domains(
    alloc: Global,
    metrics: &List<(Desc, Text)>,
    sets: &[ValueSet],
) -> Result<List<u32>, NoMemory>
    ensures { IfOk result (λ keys. keys ≡ shown_domains metrics.now sets.now) }
{
    let table = metric_keys(alloc, metrics.as_slice())?;
    let positions = first_positions(alloc, table.as_slice())?;
    let mut keys = List::empty(alloc);
    for set in sets {
        if let Some(indom) = shown_domain(metrics, &positions, set) {
            keys.push(indom.word())?;
        }
    }
    Ok(keys)
}

/// Where the domains of facts stand, each once, in the order of the sets; behind them those of no set.
fn domain_positions(
    alloc: Global,
    facts: &Facts,
    sets: &[ValueSet],
) -> Result<List<usize>, NoMemory>
    ensures { IfOk result (λ positions. at_positions facts.now.domains positions ≡ domains_of facts.now sets.now) }
{
    let table = domain_keys(alloc, facts.domains.as_slice())?;
    let shown = shown_domains(alloc, &facts.metrics, sets)?;
    let mut keys = shown.into_vec();
    keys.extend_from_slice(table.as_slice())?;
    take_positions(alloc, table.as_slice(), &keys)
}

impl MetaState {
    fn is_undescribed(&self, set: &ValueSet) -> bool
        ensures { result ≡ is_undescribed self.now set.now }
    {
        if !has_values(set) {
            return false;
        }
        match self.description_of(set.pmid) {
            Some(_) => false,
            None => true,
        }
    }

    /// The metrics with values that no record describes.
    fn undescribed_metrics(&self, alloc: Global, sets: &[ValueSet]) -> Result<List<u32>, NoMemory>
        ensures { IfOk result (λ keys. keys ≡ undescribed_metrics self.now sets.now) }
    {
        let mut keys = List::empty(alloc);
        for set in sets {
            if self.is_undescribed(set) {
                keys.push(set.pmid.word())?;
            }
        }
        Ok(keys)
    }

    /// Where the facts stand whose descriptions are missing, in the order of the sets.
    pub(crate) fn missing_metrics(
        &self,
        alloc: Global,
        metrics: &[(Desc, Text)],
        sets: &[ValueSet],
    ) -> Result<List<usize>, NoMemory>
        ensures { IfOk result (λ positions. at_positions metrics.now positions ≡ values_of_keys (fact_of metrics.now) (undescribed_metrics self.now sets.now)) }
    {
        let keys = self.undescribed_metrics(alloc, sets)?;
        if keys.is_empty() {
            return Ok(List::empty(alloc));
        }
        let table = metric_keys(alloc, metrics)?;
        take_positions(alloc, table.as_slice(), keys.as_slice())
    }

    /// Whether these instances of a domain hold at a moment.
    fn holds(&self, t: Stamp, indom: InDom, pairs: &[(i32, Text)]) -> bool
        ensures { Tells self.now t (indom, pairs.now) result }
    {
        match self.domain_at(indom, t) {
            Some(held) => held.are(pairs),
            None => false,
        }
    }

    /// Whether the instances of all domains do.
    fn hold_all(&self, t: Stamp, domains: &[(InDom, List<(i32, Text)>)]) -> bool
        ensures { IsTrue result → AllByRecursion (λ d. HoldsAt self.now d.0 t d.1) domains.now }
    {
        for (indom, pairs) in domains {
            if !self.holds(t, *indom, pairs.as_slice()) {
                return false;
            }
        }
        true
    }

    /// Those of these positions whose domain's record is missing.
    fn lacking(
        &self,
        alloc: Global,
        t: Stamp,
        domains: &List<(InDom, List<(i32, Text)>)>,
        positions: &[usize],
    ) -> Result<List<usize>, NoMemory>
        ensures { IfOk result (λ left. AreMissingDomains self.now t (at_positions domains.now positions.now) (map (listed_from t) (at_positions domains.now left))) }
    {
        let mut left = List::empty(alloc);
        for position in positions {
            if let Some((indom, pairs)) = domains.get(*position) {
                if !self.holds(t, *indom, pairs.as_slice()) {
                    left.push(*position)?;
                }
            }
        }
        Ok(left)
    }

    /// Where the domains stand whose records are missing, in the order of the sets.
    pub(crate) fn missing_domains(
        &self,
        alloc: Global,
        answer: &PmResult,
        facts: &Facts,
    ) -> Result<List<usize>, NoMemory>
        ensures { IfOk result (λ positions. AreMissingDomains self.now answer.now.stamp (domains_of facts.now answer.now.sets) (map (listed_from answer.now.stamp) (at_positions facts.now.domains positions))) }
    {
        if self.hold_all(answer.stamp, facts.domains.as_slice()) {
            return Ok(List::empty(alloc));
        }
        let positions = domain_positions(alloc, facts, answer.sets.as_slice())?;
        self.lacking(alloc, answer.stamp, &facts.domains, positions.as_slice())
    }
}
