//! The instances that are listed of a domain for both sources.
ghost use Rattle.std.specs.Prelude.{◌≡◌, ◌++◌, ◌<◌, length, option_to_list, IsTrue, IfOk, OnOk};
ghost use Rattle.std.specs.List.{slice_get};
ghost use Rattle.std.specs.Option.{option_copied};
ghost use Rattle.archive_merge.specs.Facts.{HasNumbers, both_lists, has_domain, kept_of, listed_where, pairs_in};

use crate::naming::held_at;
use archive_meta::MetaState;
use pcp_base::{InDom, List, NoMemory, Stamp, Text};
use pcp_model::DomainInstances;
use std::alloc::Global;
use std::collections::BTreeSet;

/// The instances of a domain, by number and name.
pub(crate) type Instances = List<(i32, Text)>;

/// The instances that hold of a domain at a moment, where it is among these.
pub(crate) fn held_where<'a>(
    meta: &'a MetaState,
    used: &BTreeSet<InDom>,
    indom: InDom,
    t: Stamp,
) -> Option<&'a DomainInstances>
    ensures { pairs_in (option_copied result) ≡ listed_where (has_domain indom used.now.keys) meta.now indom t }
{
    if !used.contains(&indom) {
        return None;
    }
    held_at(meta, indom, t)
}

fn push_pair(
    alloc: Global,
    made: &mut Instances,
    pairs: &DomainInstances,
    at: usize,
) -> Result<(), NoMemory>
    requires { at < length pairs.now }
    ensures { OnOk result (made.new ≡ made.old ++ option_to_list (slice_get pairs.now at)) }
{
    let Some((number, name)) = pairs.get(at) else {
        return Ok(());
    };
    let name = Text::clean_copy(alloc, name)?;
    made.push((number, name))
}

fn copied(alloc: Global, pairs: &DomainInstances) -> Result<Instances, NoMemory>
    ensures { IfOk result (λ made. made ≡ pairs.now) }
{
    let mut made = List::empty(alloc);
    for at in 0..pairs.len() {
        push_pair(alloc, &mut made, pairs, at)?;
    }
    Ok(made)
}

/// The numbers of a list.
fn numbers_of(alloc: Global, pairs: &[(i32, Text)]) -> Result<BTreeSet<i32>, NoMemory>
    ensures { IfOk result (λ numbers. HasNumbers numbers pairs.now) }
{
    let mut numbers: BTreeSet<i32> = BTreeSet::new(alloc);
    for (number, _) in pairs {
        numbers.insert(*number)?;
    }
    Ok(numbers)
}

/// Adds a pair, unless its number is among these.
fn push_other(
    alloc: Global,
    made: &mut Instances,
    numbers: &BTreeSet<i32>,
    pairs: &DomainInstances,
    at: usize,
) -> Result<(), NoMemory>
    requires { at < length pairs.now }
    ensures { OnOk result (made.new ≡ made.old ++ kept_of numbers.now (slice_get pairs.now at)) }
{
    let Some((number, name)) = pairs.get(at) else {
        return Ok(());
    };
    if numbers.contains(&number) {
        return Ok(());
    }
    let name = Text::clean_copy(alloc, name)?;
    made.push((number, name))?;
    Ok(())
}

/// Adds the pairs with other numbers.
fn push_others(alloc: Global, made: &mut Instances, pairs: &DomainInstances) -> Result<(), NoMemory>
    ensures { OnOk result (made.new ≡ both_lists made.old pairs.now) }
{
    let numbers = numbers_of(alloc, made.as_slice())?;
    for at in 0..pairs.len() {
        push_other(alloc, made, &numbers, pairs, at)?;
    }
    Ok(())
}

/// The instances of a domain: those of the first source where its sets use it, and behind them those of other numbers that the second has, where
/// its sets do.
pub(crate) fn listed(
    alloc: Global,
    first: Option<&DomainInstances>,
    second: Option<&DomainInstances>,
) -> Result<Instances, NoMemory>
    ensures { IfOk result (λ made. made ≡ both_lists (pairs_in (option_copied first.entry)) (pairs_in (option_copied second.entry))) }
{
    let mut made = match first {
        Some(pairs) => copied(alloc, pairs)?,
        None => List::empty(alloc),
    };
    if let Some(pairs) = second {
        push_others(alloc, &mut made, pairs)?;
    }
    Ok(made)
}

/// Whether these are all instances that hold, where none hold without a list.
fn are_held(held: Option<&DomainInstances>, pairs: &[(i32, Text)]) -> bool
    ensures { IsTrue result → (pairs.now ≡ pairs_in (option_copied held.entry)) }
{
    match held {
        Some(held) => held.are(pairs),
        None => pairs.is_empty(),
    }
}

fn are_beside(
    first: &DomainInstances,
    second: Option<&DomainInstances>,
    pairs: &[(i32, Text)],
) -> bool
    ensures { IsTrue result → (pairs.now ≡ both_lists first.now (pairs_in (option_copied second.entry))) }
{
    if !first.are(pairs) {
        return false;
    }
    match second {
        Some(second) => second.are(pairs),
        None => true,
    }
}

/// Whether these are the instances that are listed of a domain, as far as that is seen without a copy: what both sources list is compared where both
/// list the same.
pub(crate) fn are_listed(
    first: Option<&DomainInstances>,
    second: Option<&DomainInstances>,
    pairs: &[(i32, Text)],
) -> bool
    ensures { IsTrue result → (pairs.now ≡ both_lists (pairs_in (option_copied first.entry)) (pairs_in (option_copied second.entry))) }
{
    match first {
        Some(first) => are_beside(first, second, pairs),
        None => are_held(second, pairs),
    }
}
