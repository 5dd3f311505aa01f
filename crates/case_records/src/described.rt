//! Whether an archive's metadata describe an item.
use archive_meta::MetaState;
use pcp_base::{Body, InDom, Item, Stamp, ValueSet};
use pcp_model::DomainInstances;

fn has_name(listed: &DomainInstances, instance: i32) -> bool {
    for at in 0..listed.len() {
        if listed.number(at) == Some(instance) {
            return true;
        }
    }
    false
}

// Whether each of the instances has a name among these.
fn are_named(listed: &DomainInstances, body: &Body) -> bool {
    match body {
        Body::InPlace(pairs) => {
            for pair in pairs.as_slice() {
                if !has_name(listed, pair.0) {
                    return false;
                }
            }
        }
        Body::Blocks(pairs) => {
            for pair in pairs.as_slice() {
                if !has_name(listed, pair.0) {
                    return false;
                }
            }
        }
        Body::Status(_) => {}
    }
    true
}

fn is_described_set(meta: &MetaState, at: Stamp, set: &ValueSet) -> bool {
    if matches!(&set.body, Body::Status(_)) {
        return true;
    }
    let Some(desc) = meta.desc(set.pmid) else {
        return false;
    };
    if desc.indom == InDom::null() {
        return true;
    }
    match meta.domain_at(desc.indom, at) {
        Some(listed) => are_named(listed, &set.body),
        None => false,
    }
}

/// Whether each metric of the item that has values is described, and each instance shown named in the domain at that
/// moment, unless the metric has no instance domain.
pub fn is_described(meta: &MetaState, item: &Item) -> bool {
    let Item::Sample(result) = item else {
        return true;
    };
    for set in result.sets.as_slice() {
        if !is_described_set(meta, result.stamp, set) {
            return false;
        }
    }
    true
}
