//! Sets of one stamp, each of a metric of its own.
ghost use Rattle.std.specs.Prelude.{◌≡◌, [], length, IfOk};
ghost use Rattle.archive_merge.specs.Merging.{with_set, with_sets};

use pcp_base::{List, NoMemory, Pmid, ValueSet};
use std::alloc::Global;
use std::collections::BTreeSet;
use std::marker::Model;

/// The sets of one stamp, of which a metric's first one stands.
#[derive(Drop)]
pub struct StampSets {
    sets: List<ValueSet>,
    seen: BTreeSet<Pmid>,
}

impl Model for StampSets {
    ghost use Rattle.std.specs.Prelude.{List as Sequence};
    ghost use Rattle.pcp_base.specs.declared.result.ValueSet.{ValueSet as Set};
    ghost use Rattle.archive_merge.specs.Merging.{Sees};

    ghost Value = { Sequence Set };

    ghost view = { λ a. a.sets };

    ghost invariant = { λ a. Sees a.seen a.sets };
}

impl StampSets {
    /// No set.
    pub fn empty(alloc: Global) -> StampSets
        ensures { result ≡ [] }
    {
        StampSets {
            sets: List::empty(alloc),
            seen: BTreeSet::new(alloc),
        }
    }

    /// How many sets stand.
    pub fn len(&self) -> usize
        ensures { result ≡ length self.now }
    {
        self.sets.len()
    }

    fn with(self, set: ValueSet) -> Result<StampSets, NoMemory>
        ensures { IfOk result (λ all. all ≡ with_set self set) }
    {
        let StampSets { mut sets, mut seen } = self;
        let is_new = seen.insert(set.pmid)?;
        if !is_new {
            return Ok(StampSets { sets, seen });
        }
        sets.push(set)?;
        Ok(StampSets { sets, seen })
    }

    /// These sets, and behind them those of a result whose metrics have none yet.
    pub fn with_all(self, more: List<ValueSet>) -> Result<StampSets, NoMemory>
        ensures { IfOk result (λ all. all ≡ with_sets self more) }
    {
        let mut all = self;
        for set in more.into_vec() {
            all = all.with(set)?;
        }
        Ok(all)
    }

    /// The sets, in their order.
    pub fn into_list(self) -> List<ValueSet>
        ensures { result ≡ self }
    {
        self.sets
    }
}
