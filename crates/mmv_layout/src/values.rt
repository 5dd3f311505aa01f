//! What of the values of an image is at fault.
ghost use Rattle.std.specs.Prelude.{◌≡◌, ◌<◌, ◌^◌, IfOk};
ghost use Rattle.mmv_layout.specs.Entries.{metric_of, instance_leads, choice_leads, value_count};
ghost use Rattle.mmv_layout.specs.Faults.{HasSections, value_reference_fault, values_reference_fault, values_duplicate_fault};

use crate::entries::{
    is_no_domain, leads_to_indom, leads_to_instance, leads_to_metric, leads_to_string, metric_of,
    value_count,
};
use crate::entry_fields::{
    EXTRA_OFFSET, INSTANCE_OFFSET, METRIC_OFFSET, domain_in_instance, extra_in_value,
    instance_in_value, serial_in_indom, serial_in_metric, type_in_metric,
};
use crate::keys::{Key, first_again};
use crate::offsets::value_offset;
use std::alloc::{AllocError, Global};

/// Whether the value at an offset has the instance 0, or an instance of its metric's domain where that has one.
#[tactic(auto, unfolding(crate::specs::Entries::instance_leads))]
fn instance_leads(words: &[u64], value: u128) -> bool
    requires { value < 2 ^ 80 }
    ensures { result ≡ instance_leads words.now value }
{
    let serial = serial_in_metric(words, metric_of(words, value) as u128);
    let instance = instance_in_value(words, value);
    if is_no_domain(serial) {
        return instance == 0;
    }
    let instance = instance as u128;
    if !leads_to_instance(words, instance) {
        return false;
    }
    let domain = domain_in_instance(words, instance) as u128;
    leads_to_indom(words, domain) && serial_in_indom(words, domain) == serial
}

/// Whether the value at an offset leads to a string, where its metric's kind is text.
#[tactic(auto, unfolding(crate::specs::Entries::choice_leads))]
fn choice_leads(words: &[u64], value: u128) -> bool
    requires { value < 2 ^ 80 }
    ensures { result ≡ choice_leads words.now value }
{
    type_in_metric(words, metric_of(words, value) as u128) != 6
        || leads_to_string(words, extra_in_value(words, value) as u128)
}

/// The offset of the first reference of the value at an offset that leads nowhere: its string, its metric, its instance.
#[tactic(auto, unfolding(crate::specs::Faults::value_reference_fault, crate::specs::Faults::unless, crate::specs::Faults::or_else))]
fn value_reference_fault(words: &[u64], value: u64) -> Option<u64>
    requires { value < 524288 }
    ensures { result ≡ value_reference_fault words.now value }
{
    if !leads_to_metric(words, metric_of(words, value as u128) as u128) {
        return Some(value + METRIC_OFFSET);
    }
    if !choice_leads(words, value as u128) {
        return Some(value + EXTRA_OFFSET);
    }
    if !instance_leads(words, value as u128) {
        return Some(value + INSTANCE_OFFSET);
    }
    None
}

/// The offset of the first reference of a value that leads nowhere.
#[tactic(auto, using(crate::proofs::Firsts::first_none, crate::proofs::Firsts::first_goes), unfolding(crate::specs::Faults::values_reference_fault, crate::specs::Faults::unless))]
pub fn values_reference_fault(words: &[u64]) -> Option<u64>
    requires { HasSections words.now }
    ensures { result ≡ values_reference_fault words.now }
{
    for i in 0..value_count(words) {
        if let Some(at) = value_reference_fault(words, value_offset(words, i)) {
            return Some(at);
        }
    }
    None
}

/// The offset of the first value whose metric and instance stood before.
pub fn values_duplicate_fault(alloc: Global, words: &[u64]) -> Result<Option<u64>, AllocError>
    requires { HasSections words.now }
    ensures { IfOk result (λ at. at ≡ values_duplicate_fault words.now) }
{
    let count = value_count(words);
    let first = first_again(alloc, words, Key::Place, count)?;
    if first == count {
        return Ok(None);
    }
    Ok(Some(value_offset(words, first)))
}
