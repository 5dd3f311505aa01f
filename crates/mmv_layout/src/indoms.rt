//! What of the instance domains of an image is at fault.
ghost use Rattle.std.specs.Prelude.{◌≡◌, ◌<◌, ◌^◌, IfOk};
ghost use Rattle.mmv_layout.specs.Keys.{HasSerials};
ghost use Rattle.mmv_layout.specs.Entries.{is_instance_of, has_good_run, indom_count};
ghost use Rattle.mmv_layout.specs.Faults.{HasSections, help_fault, indom_reference_fault, indoms_reference_fault, indoms_duplicate_fault, indoms_serial_fault};

use crate::entries::{help_leads, indom_at, indom_count, leads_to_instance, run_at};
use crate::entry_fields::{
    FIRST_OFFSET, count_in_indom, domain_in_instance, long_offset_in_indom, serial_in_indom,
    short_offset_in_indom,
};
use crate::keys::{Key, first_again};
use crate::offsets::indom_offset;
use std::alloc::{AllocError, Global};
use std::collections::BTreeSet;

/// Whether an instance stands at an offset and leads to a domain.
#[tactic(auto, unfolding(crate::specs::Entries::is_instance_of))]
fn is_instance_of(words: &[u64], domain: u128, instance: u128) -> bool
    ensures { result ≡ is_instance_of words.now domain instance }
{
    leads_to_instance(words, instance) && domain_in_instance(words, instance) as u128 == domain
}

/// Whether the run of the domain at an offset consists of its own instances.
#[tactic(auto, using(crate::proofs::Below::all_none, crate::proofs::Below::all_more), unfolding(crate::specs::Entries::has_good_run))]
fn has_good_run(words: &[u64], domain: u128) -> bool
    requires { domain < 2 ^ 80 }
    ensures { result ≡ has_good_run words.now domain }
{
    for k in 0..count_in_indom(words, domain) {
        if !is_instance_of(words, domain, run_at(words, domain, k)) {
            return false;
        }
    }
    true
}

/// The offset of a help field that leads to no string.
#[tactic(auto, unfolding(crate::specs::Faults::help_fault, crate::specs::Faults::unless))]
pub fn help_fault(words: &[u64], field: u64) -> Option<u64>
    ensures { result ≡ help_fault words.now field }
{
    if help_leads(words, field as u128) {
        None
    } else {
        Some(field)
    }
}

/// The offset of the first reference of the domain at an offset that leads nowhere: its run, its helps.
#[tactic(auto, unfolding(crate::specs::Faults::indom_reference_fault, crate::specs::Faults::unless, crate::specs::Faults::or_else))]
fn indom_reference_fault(words: &[u64], domain: u64) -> Option<u64>
    requires { domain < 524288 }
    ensures { result ≡ indom_reference_fault words.now domain }
{
    if !has_good_run(words, domain as u128) {
        return Some(domain + FIRST_OFFSET);
    }
    if let Some(at) = help_fault(words, short_offset_in_indom(domain as u128) as u64) {
        return Some(at);
    }
    help_fault(words, long_offset_in_indom(domain as u128) as u64)
}

/// The offset of the first reference of a domain that leads nowhere.
#[tactic(auto, using(crate::proofs::Firsts::first_none, crate::proofs::Firsts::first_goes), unfolding(crate::specs::Faults::indoms_reference_fault, crate::specs::Faults::unless))]
pub fn indoms_reference_fault(words: &[u64]) -> Option<u64>
    requires { HasSections words.now }
    ensures { result ≡ indoms_reference_fault words.now }
{
    for i in 0..indom_count(words) {
        if let Some(at) = indom_reference_fault(words, indom_offset(words, i)) {
            return Some(at);
        }
    }
    None
}

/// The offset of the first domain whose serial stood before.
pub fn indoms_duplicate_fault(alloc: Global, words: &[u64]) -> Result<Option<u64>, AllocError>
    requires { HasSections words.now }
    ensures { IfOk result (λ at. at ≡ indoms_duplicate_fault words.now) }
{
    let count = indom_count(words);
    let first = first_again(alloc, words, Key::Serial, count)?;
    if first == count {
        return Ok(None);
    }
    Ok(Some(indom_offset(words, first)))
}

/// The offset of the first serial of a domain that is 0 or above 1023.
#[tactic(auto, using(crate::proofs::Firsts::first_none, crate::proofs::Firsts::first_goes), unfolding(crate::specs::Faults::indoms_serial_fault, crate::specs::Faults::unless))]
pub fn indoms_serial_fault(words: &[u64]) -> Option<u64>
    requires { HasSections words.now }
    ensures { result ≡ indoms_serial_fault words.now }
{
    for i in 0..indom_count(words) {
        let domain = indom_offset(words, i);
        let serial = serial_in_indom(words, domain as u128);
        if serial < 1 || 1023 < serial {
            return Some(domain);
        }
    }
    None
}

/// The serials of the domains.
pub fn indom_serials(alloc: Global, words: &[u64]) -> Result<BTreeSet<u32>, AllocError>
    ensures { IfOk result (HasSerials words.now) }
{
    let mut serials: BTreeSet<u32> = BTreeSet::new(alloc);
    for i in 0..indom_count(words) {
        serials.insert(serial_in_indom(words, indom_at(words, i)))?;
    }
    Ok(serials)
}
