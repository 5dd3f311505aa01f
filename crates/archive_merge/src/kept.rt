//! The facts of a stamp's sets, kept for the next.
ghost use Rattle.std.specs.Prelude.{◌≡◌, ◌⊎◌, ◌≤◌, length, None, Some, take, drop, IsTrue, IfErr, IfOk, OnOk};
ghost use Rattle.archive_merge.specs.Facts.{facts_between, misfit_between};
ghost use Rattle.archive_merge.specs.Kept.{HasDomains};
ghost use Rattle.archive_merge.specs.declared.fault.MergeFault.TheVariants.{NoMemory as Refused};

use crate::facts::{domains_used, facts_between};
use crate::fault::MergeFault;
use crate::misfits::{first_clash, misfit_between};
use crate::standing::{are_all_listed, are_metrics_of};
use archive_meta::{Facts, MetaState};
use pcp_base::{InDom, List, Stamp, ValueSet};
use std::alloc::Global;
use std::collections::BTreeSet;
use std::marker::Model;
use std::mem;

/// The facts of the sets of both sources: how many of the metrics are the first's, and which domains the sets of either use.
#[derive(Drop)]
struct SourceFacts {
    facts: Facts,
    count: usize,
    ours: BTreeSet<InDom>,
    theirs: BTreeSet<InDom>,
}

impl Model for SourceFacts {
    ghost use Rattle.archive_meta.specs.declared.facts.Facts.{Facts as AllFacts};
    ghost use Rattle.archive_merge.specs.Kept.{HasDomains};

    ghost Value = { AllFacts };

    ghost view = { λ a. a.facts };

    ghost invariant = { λ a. HasDomains a.facts a.count a.ours a.theirs };
}

impl SourceFacts {
    /// The facts of no set.
    fn none(alloc: Global) -> SourceFacts {
        SourceFacts {
            facts: Facts {
                metrics: List::empty(alloc),
                domains: List::empty(alloc),
            },
            count: 0,
            ours: BTreeSet::new(alloc),
            theirs: BTreeSet::new(alloc),
        }
    }

    fn of(facts: Facts, count: usize, ours: BTreeSet<InDom>, theirs: BTreeSet<InDom>) -> SourceFacts
        requires { HasDomains facts count ours theirs }
        ensures { result ≡ facts }
    {
        SourceFacts {
            facts,
            count,
            ours,
            theirs,
        }
    }

    /// What describes sets, or why they can't be described.
    fn between(
        alloc: Global,
        first: &MetaState,
        second: &MetaState,
        t: Stamp,
        ours: &[ValueSet],
        theirs: &[ValueSet],
    ) -> Result<SourceFacts, MergeFault>
        ensures facts { IfOk result (λ made. (misfit_between first.now second.now t ours.now theirs.now ≡ None) × (made ≡ facts_between first.now second.now t ours.now theirs.now)) }
        ensures fault { IfErr result (λ e. (e ≡ Refused) ⊎ (misfit_between first.now second.now t ours.now theirs.now ≡ Some e)) }
    {
        let used = domains_used(alloc, first, ours)?;
        if let Some(fault) = misfit_between(first, second, t, &used, ours, theirs) {
            return Err(fault);
        }
        let others = domains_used(alloc, second, theirs)?;
        let (facts, count) = facts_between(alloc, first, second, t, &used, &others, ours, theirs)?;
        Ok(SourceFacts::of(facts, count, used, others))
    }

    /// Whether they describe these sets; what else does may be told apart from them by a copy alone.
    fn describes(
        &self,
        first: &MetaState,
        second: &MetaState,
        t: Stamp,
        ours: &[ValueSet],
        theirs: &[ValueSet],
    ) -> bool
        ensures misfit { IsTrue result → (misfit_between first.now second.now t ours.now theirs.now ≡ None) }
        ensures facts { IsTrue result → (self.now ≡ facts_between first.now second.now t ours.now theirs.now) }
    {
        let metrics = self.facts.metrics.as_slice();
        if !are_metrics_of(metrics, self.count, first, second, t, ours, theirs) {
            return false;
        }
        let domains = self.facts.domains.as_slice();
        if !are_all_listed(first, second, t, &self.ours, &self.theirs, domains) {
            return false;
        }
        match first_clash(first, second, t, &self.ours, theirs) {
            Some(_) => false,
            None => true,
        }
    }
}

/// The facts of the stamp that was described last, and those of one before it: two sources whose stamps take turns show the sets of the one and of
/// the other by turns.
#[derive(Drop)]
pub struct KeptFacts {
    last: SourceFacts,
    before: SourceFacts,
}

impl Model for KeptFacts {
    ghost use Rattle.archive_meta.specs.declared.facts.Facts.{Facts as AllFacts};

    ghost Value = { AllFacts };

    ghost view = { λ a. a.last };
}

impl KeptFacts {
    /// No facts.
    pub fn empty(alloc: Global) -> KeptFacts {
        KeptFacts {
            last: SourceFacts::none(alloc),
            before: SourceFacts::none(alloc),
        }
    }

    /// The facts of the stamp that was described last.
    pub fn facts(&self) -> &Facts
        ensures { result.now ≡ self.now }
    {
        &self.last.facts
    }

    /// Describes the sets of a stamp, of which so many, the first ones, are the first source's. A source's metrics and instances are those that its
    /// records say at that stamp. Memory is taken only where neither of the facts that are kept still describe them.
    pub fn describe(
        &mut self,
        alloc: Global,
        first: &MetaState,
        second: &MetaState,
        t: Stamp,
        sets: &[ValueSet],
        count: usize,
    ) -> Result<(), MergeFault>
        requires { count ≤ length sets.now }
        ensures facts { OnOk result ((misfit_between first.now second.now t (take count sets.now) (drop count sets.now) ≡ None)
            × (self.new ≡ facts_between first.now second.now t (take count sets.now) (drop count sets.now))) }
        ensures fault { IfErr result (λ e. (e ≡ Refused) ⊎ (misfit_between first.now second.now t (take count sets.now) (drop count sets.now) ≡ Some e)) }
    {
        let ours = &sets[..count];
        let theirs = &sets[count..];
        if self.last.describes(first, second, t, ours, theirs) {
            return Ok(());
        }
        mem::swap(&mut self.last, &mut self.before);
        if self.last.describes(first, second, t, ours, theirs) {
            return Ok(());
        }
        self.last = SourceFacts::between(alloc, first, second, t, ours, theirs)?;
        Ok(())
    }
}
