//! The metrics to which names lead.
ghost use Rattle.std.specs.Prelude.{◌≡◌, flat_map, map, OnOk, IfOk};
ghost use Rattle.script_runs.specs.Groups.{metrics_below as below_lem, with_metrics};

use crate::metrics::Metrics;
use pcp_base::{List, NoMemory, Pmid, Text};
use pmns_core::Names;
use std::alloc::Global;

/// Adds the metrics of pairs of name and metric.
fn add_pairs(metrics: &mut Metrics, pairs: &[(Text, Pmid)]) -> Result<(), NoMemory>
    ensures { OnOk result (metrics.new ≡ with_metrics metrics.old (map (λ pair. pair.1) pairs.now)) }
{
    for (_, pmid) in pairs {
        metrics.add(*pmid)?;
    }
    Ok(())
}

/// Adds the metrics to which names lead, each name's in the byte order of their names.
#[tactic(auto, using(crate::proofs::Beside::then_more))]
pub(crate) fn add_below(
    alloc: Global,
    metrics: &mut Metrics,
    names: &Names,
    asked: &[Text],
) -> Result<(), NoMemory>
    ensures { OnOk result (metrics.new ≡ with_metrics metrics.old (flat_map (below_lem names.now) asked.now)) }
{
    for name in asked {
        let pairs = names.traverse(alloc, name)?;
        add_pairs(metrics, pairs.as_slice())?;
    }
    Ok(())
}

/// The metrics to which a name leads, in the byte order of their names.
pub fn metrics_below(alloc: Global, names: &Names, name: &Text) -> Result<List<Pmid>, NoMemory>
    ensures { IfOk result (λ pmids. pmids ≡ below_lem names.now name.now) }
{
    let pairs = names.traverse(alloc, name)?;
    let mut pmids = List::empty(alloc);
    for (_, pmid) in pairs.as_slice() {
        pmids.push(*pmid)?;
    }
    Ok(pmids)
}
