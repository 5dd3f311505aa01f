//! The least name of each PMID, in a map beside the table. A slot for each PMID is made before the first
//! name is added, so that whatever can be refused is refused while nothing has changed.

ghost use Rattle.std.specs.Prelude.{◌≡◌, ℕ, ◌<◌, fold, length, slice_index_or, IsSome, OnOk, IfOk};
ghost use Rattle.std.specs.Option.{option_copied};
ghost use Rattle.std.specs.Ordering.{nat_cmp};
ghost use Rattle.std.specs.BTreeMap.{get};
ghost use Rattle.pmns_core.specs.Order.{is_before as before_lem};
ghost use Rattle.pmns_core.specs.Pairs.{Pair, least_with};
ghost use Rattle.pmns_core.specs.Tables.{least_at, HasSlots};

use pcp_base::{List, NoMemory, Pmid, Text};
use std::cmp::Ordering;
use std::collections::BTreeMap;

/// The least name of each PMID; a slot without a name is of a PMID that may get one.
pub type Least = BTreeMap<Pmid, Option<Text>>;

/// The least name of a PMID.
pub fn name_at(least: &Least, pmid: Pmid) -> Option<&Text>
    ensures { option_copied result ≡ least_at least.now pmid }
{
    match least.get(&pmid) {
        Some(slot) => slot.as_ref(),
        None => None,
    }
}

/// Makes a slot for the PMID of each pair, where there is none yet. No name changes, also where memory is refused.
pub fn make_slots(least: &mut Least, pairs: &[(Text, Pmid)]) -> Result<(), NoMemory>
    ensures same { (q : ℕ) → least_at least.new q ≡ least_at least.old q }
    ensures slots { OnOk result (HasSlots least.new pairs.now) }
{
    for pair in pairs {
        make_slot(least, pair.1)?;
    }
    Ok(())
}

fn make_slot(least: &mut Least, pmid: Pmid) -> Result<(), NoMemory>
    ensures same { (q : ℕ) → least_at least.new q ≡ least_at least.old q }
    ensures slot { OnOk result (IsSome (get nat_cmp least.new pmid)) }
    ensures keeps { (q : ℕ) → IsSome (get nat_cmp least.old q) → IsSome (get nat_cmp least.new q) }
{
    if least.contains_key(&pmid) {
        return Ok(());
    }
    least.insert(pmid, None)?;
    Ok(())
}

fn is_before(name: &Text, other: &Text) -> bool
    ensures { result ≡ before_lem name.now other.now }
{
    name.as_slice().cmp(&other.as_slice()) == Ordering::Less
}

// Puts a name into its PMID's slot, where it is less than the one that is there.
fn note(least: &mut Least, name: Text, pmid: Pmid)
    requires { IsSome (get nat_cmp least.old pmid) }
    ensures least { (q : ℕ) → least_at least.new q ≡ least_with q (least_at least.old q) (name, pmid) }
    ensures slots { (q : ℕ) → IsSome (get nat_cmp least.old q) → IsSome (get nat_cmp least.new q) }
{
    let Some(slot) = least.get_mut(&pmid) else {
        return;
    };
    let is_less = match slot {
        Some(other) => is_before(&name, other),
        None => true,
    };
    if is_less {
        *slot = Some(name);
    }
}

/// Puts the names of pairs that were added into the slots of their PMIDs. It takes no memory.
pub fn note_all(least: &mut Least, pairs: List<(Text, Pmid)>)
    requires { HasSlots least.old pairs }
    ensures { (q : ℕ) → least_at least.new q ≡ fold (least_with q) (least_at least.old q) pairs }
{
    let mut left = pairs.into_vec();
    left.reverse();
    while let Some((name, pmid)) = left.pop() {
        note(least, name, pmid);
    }
}
