//! What keys lead to in a table, in the order of the keys, each once.
ghost use Rattle.std.specs.Prelude.{◌≡◌, ℕ, nat_eq, map, IfOk};
ghost use Rattle.indexmap.specs.IndexMap.{get};
ghost use Rattle.archive_meta.specs.Facts.{metric_of, domain_of};
ghost use Rattle.archive_meta.specs.Missing.{values_of_keys, position_from};

use crate::hashing::WordHasher;
use indexmap::IndexMap;
use pcp_base::{Desc, InDom, List, NoMemory, Text};
use std::alloc::Global;

/// Where keys stand.
pub type Positions = IndexMap<u32, usize, WordHasher>;

/// Where the first of equal keys stands in a table.
pub fn first_positions(alloc: Global, table: &[u32]) -> Result<Positions, NoMemory>
    ensures { IfOk result (λ positions. (q : ℕ) → get nat_eq positions q ≡ position_from 0 table.now q) }
{
    let mut positions = IndexMap::with_hasher(alloc, WordHasher::new());
    let mut at = table.len();
    while at > 0 {
        at -= 1;
        positions.insert(table[at], at)?;
    }
    Ok(positions)
}

/// Where what these keys lead to stands in a table, in the order of the keys, each once.
pub fn take_positions(alloc: Global, table: &[u32], keys: &[u32]) -> Result<List<usize>, NoMemory>
    ensures { IfOk result (λ positions. positions ≡ values_of_keys (position_from 0 table.now) keys.now) }
{
    let mut left = first_positions(alloc, table)?;
    let mut positions = List::empty(alloc);
    for key in keys {
        if let Some(at) = left.swap_remove(key) {
            positions.push(at)?;
        }
    }
    Ok(positions)
}

/// The metrics of facts.
pub fn metric_keys(alloc: Global, metrics: &[(Desc, Text)]) -> Result<List<u32>, NoMemory>
    ensures { IfOk result (λ keys. keys ≡ map metric_of metrics.now) }
{
    let keys = metrics
        .iter()
        .map(|fact| fact.0.pmid.word())
        .collect(alloc)?;
    Ok(List::from_vec(keys))
}

/// The domains of facts.
pub fn domain_keys(
    alloc: Global,
    domains: &[(InDom, List<(i32, Text)>)],
) -> Result<List<u32>, NoMemory>
    ensures { IfOk result (λ keys. keys ≡ map domain_of domains.now) }
{
    let keys = domains.iter().map(|listed| listed.0.word()).collect(alloc)?;
    Ok(List::from_vec(keys))
}
