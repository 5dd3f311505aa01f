//! Why the sets of a stamp can't be described.
ghost use Rattle.std.specs.Prelude.{◌≡◌, ◌==◌, ◌||◌, [], is_some};
ghost use Rattle.std.specs.List.{list_all};
ghost use Rattle.std.specs.Option.{option_copied};
ghost use Rattle.pcp_base.specs.Ids.{null_indom};
ghost use Rattle.archive_merge.specs.Facts.{domains_used, first_clash, first_lacking, is_clashing, is_lacking, misfit_between, pairs_in};
ghost use Rattle.archive_merge.specs.Naming.{name_in, names_all, pairs_at, renames};

use crate::fault::MergeFault;
use crate::naming::{fact_about, held_at, names_all, renames};
use archive_meta::{MetaState, has_values};
use pcp_base::{Body, InDom, Pmid, Stamp, ValueSet};
use pcp_model::DomainInstances;
use std::collections::BTreeSet;

fn shows_none<T>(shown: &[(i32, T)]) -> bool
    ensures { result ≡ list_all (λ p. is_some (name_in p.0 [])) shown.now }
{
    shown.is_empty()
}

/// Whether a set shows no instance.
fn is_bare(body: &Body) -> bool
    ensures { result ≡ names_all [] body.now }
{
    match body {
        Body::InPlace(shown) => shows_none(shown.as_slice()),
        Body::Blocks(shown) => shows_none(shown.as_slice()),
        Body::Status(_) => true,
    }
}

/// Whether all instances that a set shows have names at a moment.
fn are_named(meta: &MetaState, indom: InDom, t: Stamp, body: &Body) -> bool
    ensures { result ≡ names_all (pairs_at meta.now indom t) body.now }
{
    match held_at(meta, indom, t) {
        Some(pairs) => names_all(pairs, body),
        None => is_bare(body),
    }
}

/// Whether each instance that a set of a metric of a domain shows has a name; the null domain needs none.
pub(crate) fn is_named(meta: &MetaState, t: Stamp, indom: InDom, body: &Body) -> bool
    ensures { result ≡ (indom == null_indom || names_all (pairs_at meta.now indom t) body.now) }
{
    if indom == InDom::null() {
        return true;
    }
    are_named(meta, indom, t, body)
}

/// Whether a set with values lacks a description with a name, or one of its instances a name.
fn is_lacking(meta: &MetaState, t: Stamp, set: &ValueSet) -> bool
    ensures { result ≡ is_lacking meta.now t set.now }
{
    if !has_values(set) {
        return false;
    }
    match fact_about(meta, set.pmid) {
        Some((desc, _)) => !is_named(meta, t, desc.indom, &set.body),
        None => true,
    }
}

/// The metric of the first such set.
fn first_lacking(meta: &MetaState, t: Stamp, sets: &[ValueSet]) -> Option<Pmid>
    ensures { result ≡ first_lacking meta.now t sets.now }
{
    for set in sets {
        if is_lacking(meta, t, set) {
            return Some(set.pmid);
        }
    }
    None
}

fn renames_held(first: &DomainInstances, second: Option<&DomainInstances>, body: &Body) -> bool
    ensures { result ≡ renames first.now (pairs_in (option_copied second.entry)) body.now }
{
    match second {
        Some(pairs) => renames(first, pairs, body),
        None => false,
    }
}

/// Whether the second source gives one of the instances that a set shows another name than the first.
fn are_renamed(first: &MetaState, second: &MetaState, indom: InDom, t: Stamp, body: &Body) -> bool
    ensures { result ≡ renames (pairs_at first.now indom t) (pairs_at second.now indom t) body.now }
{
    match held_at(first, indom, t) {
        Some(pairs) => renames_held(pairs, held_at(second, indom, t), body),
        None => false,
    }
}

/// Whether a set of the second source shows an instance to whose number the first gives another name, where the first's sets use the domain.
fn is_clashing(
    first: &MetaState,
    second: &MetaState,
    t: Stamp,
    used: &BTreeSet<InDom>,
    set: &ValueSet,
) -> bool
    ensures { result ≡ is_clashing first.now second.now t used.now.keys set.now }
{
    if !has_values(set) {
        return false;
    }
    let Some((desc, _)) = fact_about(second, set.pmid) else {
        return false;
    };
    if !used.contains(&desc.indom) {
        return false;
    }
    are_renamed(first, second, desc.indom, t, &set.body)
}

/// The metric of the first such set.
pub(crate) fn first_clash(
    first: &MetaState,
    second: &MetaState,
    t: Stamp,
    used: &BTreeSet<InDom>,
    sets: &[ValueSet],
) -> Option<Pmid>
    ensures { result ≡ first_clash first.now second.now t used.now.keys sets.now }
{
    for set in sets {
        if is_clashing(first, second, t, used, set) {
            return Some(set.pmid);
        }
    }
    None
}

/// Why the sets of both sources can't be described.
pub(crate) fn misfit_between(
    first: &MetaState,
    second: &MetaState,
    t: Stamp,
    used: &BTreeSet<InDom>,
    ours: &[ValueSet],
    theirs: &[ValueSet],
) -> Option<MergeFault>
    requires { used.now.keys ≡ domains_used first.now ours.now }
    ensures { result ≡ misfit_between first.now second.now t ours.now theirs.now }
{
    if let Some(pmid) = first_lacking(first, t, ours) {
        return Some(MergeFault::Lacks { source: 1, pmid });
    }
    if let Some(pmid) = first_lacking(second, t, theirs) {
        return Some(MergeFault::Lacks { source: 2, pmid });
    }
    match first_clash(first, second, t, used, theirs) {
        Some(pmid) => Some(MergeFault::Clashes { pmid }),
        None => None,
    }
}
