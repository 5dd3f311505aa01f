//! What a source says of a metric, and of instances.
ghost use Rattle.std.specs.Prelude.{◌≡◌, is_some, None, Some, MatchOption, bytes_eq};
ghost use Rattle.std.specs.List.{list_all, list_any, slice_get};
ghost use Rattle.std.specs.Option.{option_copied};
ghost use Rattle.std.specs.Ordering.{int_eq};
ghost use Rattle.archive_merge.specs.Facts.{pairs_in};
ghost use Rattle.archive_merge.specs.Naming.{differ, fact_about, is_numbered, name_in, names_all, pairs_at, renames};

use archive_meta::MetaState;
use pcp_base::{Body, Desc, InDom, Pmid, Stamp, Text};
use pcp_model::DomainInstances;

/// A metric's description with its first name, where it has both.
pub(crate) fn fact_about(meta: &MetaState, pmid: Pmid) -> Option<(Desc, &Text)>
    ensures { MatchOption result (fact_about meta.now pmid ≡ None) (λ fact. fact_about meta.now pmid ≡ Some (fact.0, fact.1.now)) }
{
    let Some(desc) = meta.desc(pmid) else {
        return None;
    };
    let Some(names) = meta.names(pmid) else {
        return None;
    };
    match names.as_slice() {
        [name, ..] => Some((*desc, name)),
        [] => None,
    }
}

/// The instances that hold of a domain at a moment.
pub(crate) fn held_at(meta: &MetaState, indom: InDom, t: Stamp) -> Option<&DomainInstances>
    ensures { pairs_in (option_copied result) ≡ pairs_at meta.now indom t }
{
    meta.domain_at(indom, t)
}

/// The name of an instance: that of the first pair with its number.
pub(crate) fn name_in(pairs: &DomainInstances, instance: i32) -> Option<&[u8]>
    ensures { MatchOption result (name_in instance pairs.now ≡ None) (λ name. name_in instance pairs.now ≡ Some name.now) }
{
    for at in 0..pairs.len() {
        let Some((number, name)) = pairs.get(at) else {
            return None;
        };
        if number == instance {
            return Some(name);
        }
    }
    None
}

fn is_same_number(a: i32, b: i32) -> bool
    ensures { result ≡ int_eq a b }
{
    a == b
}

fn is_number_at(pairs: &DomainInstances, at: usize, instance: i32) -> bool
    ensures { result ≡ is_numbered instance (slice_get pairs.now at) }
{
    match pairs.number(at) {
        Some(number) => is_same_number(number, instance),
        None => false,
    }
}

/// Whether an instance has a name. Names aren't looked at.
fn has_name(pairs: &DomainInstances, instance: i32) -> bool
    ensures { result ≡ is_some (name_in instance pairs.now) }
{
    for at in 0..pairs.len() {
        if is_number_at(pairs, at, instance) {
            return true;
        }
    }
    false
}

fn names_each<T>(pairs: &DomainInstances, shown: &[(i32, T)]) -> bool
    ensures { result ≡ list_all (λ p. is_some (name_in p.0 pairs.now)) shown.now }
{
    for (instance, _) in shown {
        if !has_name(pairs, *instance) {
            return false;
        }
    }
    true
}

/// Whether all instances that a set shows have names.
pub(crate) fn names_all(pairs: &DomainInstances, body: &Body) -> bool
    ensures { result ≡ names_all pairs.now body.now }
{
    match body {
        Body::InPlace(shown) => names_each(pairs, shown.as_slice()),
        Body::Blocks(shown) => names_each(pairs, shown.as_slice()),
        Body::Status(_) => true,
    }
}

fn are_same(a: &[u8], b: &[u8]) -> bool
    ensures { result ≡ bytes_eq a.now b.now }
{
    a == b
}

fn differ(first: &DomainInstances, second: &DomainInstances, instance: i32) -> bool
    ensures { result ≡ differ (name_in instance first.now) (name_in instance second.now) }
{
    let Some(name) = name_in(first, instance) else {
        return false;
    };
    match name_in(second, instance) {
        Some(other) => !are_same(name, other),
        None => false,
    }
}

fn renames_one<T>(first: &DomainInstances, second: &DomainInstances, shown: &[(i32, T)]) -> bool
    ensures { result ≡ list_any (λ p. differ (name_in p.0 first.now) (name_in p.0 second.now)) shown.now }
{
    for (instance, _) in shown {
        if differ(first, second, *instance) {
            return true;
        }
    }
    false
}

/// Whether a set shows an instance that has a name in either list, and another in the second.
pub(crate) fn renames(first: &DomainInstances, second: &DomainInstances, body: &Body) -> bool
    ensures { result ≡ renames first.now second.now body.now }
{
    match body {
        Body::InPlace(shown) => renames_one(first, second, shown.as_slice()),
        Body::Blocks(shown) => renames_one(first, second, shown.as_slice()),
        Body::Status(_) => false,
    }
}
