//! The table of PMIDs by name, and what may be added to it.

ghost use Rattle.std.specs.Prelude.{◌≡◌, ℕ, fold, [], ◌∷◌, ◌++◌, IfOk, OnOk, OnErr, None, Ok, List as Sequence};
ghost use Rattle.pmns_core.specs.Pairs.{Pair, least_name, least_with, with_pair, pmid_of, IsInOrder};
ghost use Rattle.pmns_core.specs.Adding.{is_above, is_there, is_under, misfit, after_adding, Adds, AddsOne};
ghost use Rattle.pmns_core.specs.Tables.{pairs_of};

use crate::fault::NamesFault;
use pcp_base::{Duplicate, Pmid, Text};
use std::alloc::{AllocError, Global};
use std::collections::BTreeMap;

/// PMIDs by name.
pub type Table = BTreeMap<Vec<u8>, Pmid>;

/// The PMID of a name.
pub fn pmid_at(table: &Table, name: &[u8]) -> Option<Pmid>
    ensures { result ≡ pmid_of (pairs_of table.now) name.now }
{
    table.get(name).copied()
}

/// Whether the name is there.
pub fn has(table: &Table, name: &[u8]) -> bool
    ensures { result ≡ is_there (pairs_of table.now) name.now }
{
    table.contains_key(name)
}

/// A name and a `.`, with which each name that continues it begins.
pub fn front_of(alloc: Global, name: &[u8]) -> Result<Vec<u8>, AllocError>
    ensures { IfOk result (λ front. front.items ≡ name.now ++ 46 ∷ []) }
{
    let mut front = Vec::from_slice(alloc, name)?;
    front.push(b'.')?;
    Ok(front)
}

// Whether the name continues one that is there.
fn continues_one(table: &Table, name: &[u8]) -> bool
    ensures { result ≡ is_under (pairs_of table.now) name.now }
{
    for (at, byte) in name.iter().enumerate() {
        if *byte == b'.' && has(table, &name[..at]) {
            return true;
        }
    }
    false
}

/// Whether a name that is there continues the name.
pub fn is_continued(alloc: Global, table: &Table, name: &[u8]) -> Result<bool, AllocError>
    requires { IsInOrder (pairs_of table.now) }
    ensures { IfOk result (λ found. found ≡ is_above (pairs_of table.now) name.now) }
{
    let front = front_of(alloc, name)?;
    match table.range(&front..).next() {
        Some((key, _)) => Ok(key.as_slice().starts_with(front.as_slice())),
        None => Ok(false),
    }
}

/// Adds one pair, or tells why its name doesn't fit.
pub fn add_one(alloc: Global, table: &mut Table, name: &Text, pmid: Pmid) -> Result<(), NamesFault>
    requires { IsInOrder (pairs_of table.old) }
    ensures adds { AddsOne result (pairs_of table.old) (pairs_of table.new) name.now pmid }
    ensures order { IsInOrder (pairs_of table.new) }
    ensures least { OnOk result ((q : ℕ) → least_name (pairs_of table.new) q ≡ least_with q (least_name (pairs_of table.old) q) (name.now, pmid)) }
{
    if has(table, name.as_slice()) {
        let name = name.copy(alloc)?;
        return Err(NamesFault::Duplicate { name });
    }
    if continues_one(table, name.as_slice()) || is_continued(alloc, table, name.as_slice())? {
        let name = name.copy(alloc)?;
        return Err(NamesFault::LeafAndNode { name });
    }
    let key = Vec::from_slice(alloc, name.as_slice())?;
    table.insert(key, pmid)?;
    Ok(())
}

/// Adds the pairs in order, or none of them.
pub fn add_all(alloc: Global, table: &mut Table, pairs: &[(Text, Pmid)]) -> Result<(), NamesFault>
    requires { IsInOrder (pairs_of table.old) }
    ensures adds { Adds result pairs.now (pairs_of table.old) (pairs_of table.new) }
    ensures order { IsInOrder (pairs_of table.new) }
    ensures least { OnOk result ((q : ℕ) → least_name (pairs_of table.new) q ≡ fold (least_with q) (least_name (pairs_of table.old) q) pairs.now) }
{
    for (done, pair) in pairs.iter().enumerate() {
        if let Err(fault) = add_one(alloc, table, &pair.0, pair.1) {
            take_back(table, &pairs[..done]);
            return Err(fault);
        }
    }
    Ok(())
}

// Takes out pairs that were added, the last first.
fn take_back(table: &mut Table, pairs: &[(Text, Pmid)])
    ensures { (before : Sequence Pair) → after_adding pairs.now before ≡ Ok (pairs_of table.old) → pairs_of table.new ≡ before }
{
    let mut left = pairs.len();
    while left > 0 {
        left -= 1;
        table.remove(pairs[left].0.as_slice());
    }
}
