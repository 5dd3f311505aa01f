//! What of the instances and the strings of an image is at fault.
ghost use Rattle.std.specs.Prelude.{◌≡◌, ◌<◌, IfOk};
ghost use Rattle.mmv_layout.specs.Entries.{lies_in_run, instance_count, is_good_string, string_count};
ghost use Rattle.mmv_layout.specs.Faults.{HasSections, instance_name_fault, name_reference_fault, instance_reference_fault, instances_reference_fault, instances_duplicate_fault, instances_serial_fault, string_fault};

use crate::entries::{instance_at, instance_count, leads, leads_to_indom, string_at, string_count};
use crate::entry_fields::{
    NAME_OFFSET, NUMBER_OFFSET, count_in_indom, domain_in_instance, first_in_indom,
    number_in_instance,
};
use crate::fields::has_zero;
use crate::header::version_in;
use crate::keys::{Key, first_again};
use crate::names::{has_text, name_leads};
use crate::offsets::{instance_offset, string_offset};
use crate::sizes::{STRING_SIZE, instance_size};
use std::alloc::{AllocError, Global};

/// Whether the instance at an offset leads to a domain, in whose run it lies.
#[tactic(auto, unfolding(crate::specs::Entries::lies_in_run))]
fn lies_in_run(words: &[u64], instance: u128) -> bool
    ensures { result ≡ lies_in_run words.now instance }
{
    let domain = domain_in_instance(words, instance) as u128;
    leads_to_indom(words, domain)
        && leads(
            first_in_indom(words, domain),
            count_in_indom(words, domain),
            instance_size(version_in(words)),
            instance,
        )
}

/// The offset of the first instance's name field that has no name: it has no zero byte, or is empty.
#[tactic(auto, using(crate::proofs::Firsts::first_none, crate::proofs::Firsts::first_goes), unfolding(crate::specs::Faults::instance_name_fault, crate::specs::Faults::unless))]
pub fn instance_name_fault(words: &[u64]) -> Option<u64>
    requires { HasSections words.now }
    ensures { result ≡ instance_name_fault words.now }
{
    for i in 0..instance_count(words) {
        let name = instance_offset(words, i) + NAME_OFFSET;
        if !has_text(words, name as u128) {
            return Some(name);
        }
    }
    None
}

/// The offset of a name field that leads to no string.
#[tactic(auto, unfolding(crate::specs::Faults::name_reference_fault, crate::specs::Faults::unless))]
pub fn name_reference_fault(words: &[u64], field: u64) -> Option<u64>
    ensures { result ≡ name_reference_fault words.now field }
{
    if name_leads(words, field as u128) {
        None
    } else {
        Some(field)
    }
}

/// The offset of the first reference of the instance at an offset that leads nowhere: its domain, its name.
#[tactic(auto, unfolding(crate::specs::Faults::instance_reference_fault, crate::specs::Faults::unless, crate::specs::Faults::or_else))]
fn instance_reference_fault(words: &[u64], instance: u64) -> Option<u64>
    requires { instance < 524288 }
    ensures { result ≡ instance_reference_fault words.now instance }
{
    if !lies_in_run(words, instance as u128) {
        return Some(instance);
    }
    name_reference_fault(words, instance + NAME_OFFSET)
}

/// The offset of the first reference of an instance that leads nowhere.
#[tactic(auto, using(crate::proofs::Firsts::first_none, crate::proofs::Firsts::first_goes), unfolding(crate::specs::Faults::instances_reference_fault, crate::specs::Faults::unless))]
pub fn instances_reference_fault(words: &[u64]) -> Option<u64>
    requires { HasSections words.now }
    ensures { result ≡ instances_reference_fault words.now }
{
    for i in 0..instance_count(words) {
        if let Some(at) = instance_reference_fault(words, instance_offset(words, i)) {
            return Some(at);
        }
    }
    None
}

/// The offset of the first instance whose number or name stood in its domain before.
pub fn instances_duplicate_fault(alloc: Global, words: &[u64]) -> Result<Option<u64>, AllocError>
    requires { HasSections words.now }
    ensures { IfOk result (λ at. at ≡ instances_duplicate_fault words.now) }
{
    let count = instance_count(words);
    let before = first_again(alloc, words, Key::Number, count)?;
    let first = first_again(alloc, words, Key::InstanceName, before)?;
    if first == count {
        return Ok(None);
    }
    Ok(Some(instance_offset(words, first)))
}

/// The offset of the first negative number of an instance.
#[tactic(auto, using(crate::proofs::Firsts::first_none, crate::proofs::Firsts::first_goes), unfolding(crate::specs::Faults::instances_serial_fault, crate::specs::Faults::unless))]
pub fn instances_serial_fault(words: &[u64]) -> Option<u64>
    requires { HasSections words.now }
    ensures { result ≡ instances_serial_fault words.now }
{
    for i in 0..instance_count(words) {
        let instance = instance_offset(words, i);
        if number_in_instance(words, instance as u128) >= 2147483648 {
            return Some(instance + NUMBER_OFFSET);
        }
    }
    None
}

/// Whether a string has a zero byte.
#[tactic(auto, unfolding(crate::specs::Entries::is_good_string))]
fn is_good_string(words: &[u64], i: u32) -> bool
    ensures { result ≡ is_good_string words.now i }
{
    has_zero(words, string_at(words, i), STRING_SIZE as u32)
}

/// The offset of the first string without a zero byte.
#[tactic(auto, using(crate::proofs::Firsts::first_none, crate::proofs::Firsts::first_goes), unfolding(crate::specs::Faults::string_fault, crate::specs::Faults::unless))]
pub fn string_fault(words: &[u64]) -> Option<u64>
    requires { HasSections words.now }
    ensures { result ≡ string_fault words.now }
{
    for i in 0..string_count(words) {
        if !is_good_string(words, i) {
            return Some(string_offset(words, i));
        }
    }
    None
}
