//! Where the first description of each metric stands.
ghost use Rattle.std.specs.Prelude.{◌≡◌, nat_eq, OnOk, OnErr, IfOk};
ghost use Rattle.indexmap.specs.IndexMap.{get, keys, IsUnchanged};
ghost use Rattle.archive_meta.specs.Kept.{NotesMetric, DropsMetric};

use crate::hashing::WordHasher;
use indexmap::IndexMap;
use pcp_base::{List, NoMemory, Pmid};
use std::alloc::Global;

/// By a metric's word, in the order in which metrics are first described.
pub type Descriptions = IndexMap<u32, usize, WordHasher>;

/// Where a metric's first description stands.
pub fn position_of(descriptions: &Descriptions, pmid: Pmid) -> Option<usize>
    ensures { result ≡ get nat_eq descriptions.now pmid }
{
    descriptions.get(&pmid.word()).copied()
}

/// Notes that a description of a metric stands here, unless one was noted before.
pub fn note_metric(descriptions: &mut Descriptions, pmid: Pmid, at: usize) -> Result<(), NoMemory>
    ensures ok { OnOk result (NotesMetric pmid at descriptions.old descriptions.new) }
    ensures err { OnErr result (IsUnchanged descriptions.old descriptions.new) }
{
    match position_of(descriptions, pmid) {
        Some(_) => Ok(()),
        None => {
            descriptions.insert(pmid.word(), at)?;
            Ok(())
        }
    }
}

/// Forgets that the description of a metric that was noted last stands here.
pub fn forget_metric(descriptions: &mut Descriptions, pmid: Pmid, at: usize)
    ensures { DropsMetric pmid at descriptions.old descriptions.new }
{
    if let Some(position) = position_of(descriptions, pmid) {
        if position == at {
            descriptions.pop();
        }
    }
}

/// The metrics that have a position, in the order in which they got it.
pub fn all_metrics(alloc: Global, descriptions: &Descriptions) -> Result<List<Pmid>, NoMemory>
    ensures { IfOk result (λ pmids. pmids ≡ keys descriptions.now) }
{
    let pmids = descriptions
        .keys()
        .map(|word| Pmid::of_word(*word))
        .collect(alloc)?;
    Ok(List::from_vec(pmids))
}
