//! Whether the facts of a result are what is kept of its metrics.
ghost use Rattle.std.specs.Prelude.{◌≡◌, ◌↔◌, Some, slice_get, IsTrue, MatchResult};
ghost use Rattle.std.specs.List.{AllByRecursion};
ghost use Rattle.archive_meta.specs.Facts.{has_values, IsKeptAs, FitsFact, FitsMetric, FitSets, IsFirstChange};

use crate::adding::is_same_text;
use crate::facts::{Changed, Facts};
use crate::state::MetaState;
use pcp_base::{Body, Desc, PmResult, Pmid, Text, ValueSet};
use pcp_model::MetaRecord;

/// Whether a set shows values.
pub fn has_values(set: &ValueSet) -> bool
    ensures { result ≡ has_values set.now.body }
{
    match &set.body {
        Body::InPlace(_) | Body::Blocks(_) => true,
        Body::Status(_) => false,
    }
}

fn is_first_name(names: &[Text], name: &Text) -> bool
    ensures { IsTrue result ↔ (slice_get names.now 0 ≡ Some name.now) }
{
    match names.get(0) {
        Some(first) => is_same_text(first, name),
        None => false,
    }
}

fn is_kept_as(one: &MetaRecord, desc: &Desc, name: &Text) -> bool
    ensures { IsTrue result ↔ IsKeptAs desc.now name.now (Some one.now) }
{
    match one {
        MetaRecord::Description(found, names) => {
            found == desc && is_first_name(names.as_slice(), name)
        }
        MetaRecord::Domain(_, _, _) | MetaRecord::Other => false,
    }
}

impl MetaState {
    /// Whether a fact about a metric is what is kept of it.
    fn fits_fact(&self, desc: &Desc, name: &Text) -> bool
        ensures { IsTrue result ↔ FitsFact self.now (desc.now, name.now) }
    {
        match self.description_of(desc.pmid) {
            Some(first) => is_kept_as(first, desc, name),
            None => true,
        }
    }

    /// Whether all facts are.
    fn fits_all(&self, metrics: &[(Desc, Text)]) -> bool
        ensures { IsTrue result ↔ AllByRecursion (FitsFact self.now) metrics.now }
    {
        for (desc, name) in metrics {
            if !self.fits_fact(desc, name) {
                return false;
            }
        }
        true
    }

    /// Whether all facts about one metric are.
    fn fits_metric(&self, metrics: &[(Desc, Text)], pmid: Pmid) -> bool
        ensures { IsTrue result ↔ FitsMetric self.now metrics.now pmid }
    {
        for (desc, name) in metrics {
            if desc.pmid == pmid && !self.fits_fact(desc, name) {
                return false;
            }
        }
        true
    }

    fn fit_sets(&self, sets: &[ValueSet], metrics: &[(Desc, Text)]) -> Result<(), Changed>
        ensures { MatchResult result (λ _. FitSets self.now metrics.now sets.now) (IsFirstChange self.now metrics.now sets.now) }
    {
        for set in sets {
            if has_values(set) && !self.fits_metric(metrics, set.pmid) {
                return Err(Changed { pmid: set.pmid });
            }
        }
        Ok(())
    }

    /// Compares a result's facts with what is kept. `Changed` names the first of its metrics with values whose
    /// description differs from the one kept, or whose name isn't the first one kept.
    pub fn fit(&self, answer: &PmResult, facts: &Facts) -> Result<(), Changed>
        ensures { MatchResult result (λ _. FitSets self.now facts.now.metrics answer.now.sets) (IsFirstChange self.now facts.now.metrics answer.now.sets) }
    {
        let metrics = facts.metrics.as_slice();
        if self.fits_all(metrics) {
            return Ok(());
        }
        self.fit_sets(answer.sets.as_slice(), metrics)
    }
}
