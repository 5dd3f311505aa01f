//! What of the metrics of an image is at fault.
ghost use Rattle.std.specs.Prelude.{◌≡◌, ◌<◌, IfOk};
ghost use Rattle.mmv_layout.specs.Entries.{is_no_domain, serial_leads, metric_count};
ghost use Rattle.mmv_layout.specs.Keys.{HasSerials};
ghost use Rattle.mmv_layout.specs.Faults.{HasSections, metric_name_fault, code_fault, kind_fault, metric_reference_fault, metrics_reference_fault, metrics_duplicate_fault, metrics_serial_fault};

use crate::entries::{is_no_domain, metric_count};
use crate::entry_fields::{
    item_in_metric, item_offset_in_metric, long_offset_in_metric, semantics_in_metric,
    semantics_offset_in_metric, serial_in_metric, serial_offset_in_metric, short_offset_in_metric,
    type_in_metric, type_offset_in_metric,
};
use crate::indoms::{help_fault, indom_serials};
use crate::instances::name_reference_fault;
use crate::keys::{Key, first_again};
use crate::names::has_name;
use crate::offsets::metric_offset;
use pcp_base::{Kind, Semantics};
use std::alloc::{AllocError, Global};
use std::collections::BTreeSet;

/// Whether a metric's serial is none or that of a domain.
#[tactic(auto, unfolding(crate::specs::Entries::serial_leads))]
fn serial_leads(words: &[u64], serials: &BTreeSet<u32>, serial: u32) -> bool
    requires { HasSerials words.now serials.now }
    ensures { result ≡ serial_leads words.now serial }
{
    is_no_domain(serial) || serials.contains(&serial)
}

/// The offset of the first metric's name field that has no name: it has no zero byte, or breaks the rule for names.
#[tactic(auto, using(crate::proofs::Firsts::first_none, crate::proofs::Firsts::first_goes), unfolding(crate::specs::Faults::metric_name_fault, crate::specs::Faults::unless))]
pub fn metric_name_fault(alloc: Global, words: &[u64]) -> Result<Option<u64>, AllocError>
    requires { HasSections words.now }
    ensures { IfOk result (λ at. at ≡ metric_name_fault words.now) }
{
    for i in 0..metric_count(words) {
        let name = metric_offset(words, i);
        let named = has_name(alloc, words, name as u128)?;
        if !named {
            return Ok(Some(name));
        }
    }
    Ok(None)
}

/// The offset of the first code of the metric at an offset that has no meaning: its type, its semantics.
#[tactic(auto, unfolding(crate::specs::Faults::code_fault, crate::specs::Faults::unless, crate::specs::Faults::or_else))]
fn code_fault(words: &[u64], metric: u64) -> Option<u64>
    requires { metric < 524288 }
    ensures { result ≡ code_fault words.now metric }
{
    if Kind::of_code(type_in_metric(words, metric as u128)).is_none() {
        return Some(type_offset_in_metric(words, metric as u128) as u64);
    }
    if Semantics::of_code(semantics_in_metric(words, metric as u128)).is_none() {
        return Some(semantics_offset_in_metric(words, metric as u128) as u64);
    }
    None
}

/// The offset of the first code of a metric that has no meaning.
#[tactic(auto, using(crate::proofs::Firsts::first_none, crate::proofs::Firsts::first_goes), unfolding(crate::specs::Faults::kind_fault, crate::specs::Faults::unless))]
pub fn kind_fault(words: &[u64]) -> Option<u64>
    requires { HasSections words.now }
    ensures { result ≡ kind_fault words.now }
{
    for i in 0..metric_count(words) {
        if let Some(at) = code_fault(words, metric_offset(words, i)) {
            return Some(at);
        }
    }
    None
}

/// The offset of the first reference of the metric at an offset that leads nowhere: its name, its serial, its helps.
#[tactic(auto, unfolding(crate::specs::Faults::metric_reference_fault, crate::specs::Faults::unless, crate::specs::Faults::or_else))]
fn metric_reference_fault(words: &[u64], serials: &BTreeSet<u32>, metric: u64) -> Option<u64>
    requires serials { HasSerials words.now serials.now }
    requires bound { metric < 524288 }
    ensures { result ≡ metric_reference_fault words.now metric }
{
    if let Some(at) = name_reference_fault(words, metric) {
        return Some(at);
    }
    if !serial_leads(words, serials, serial_in_metric(words, metric as u128)) {
        return Some(serial_offset_in_metric(words, metric as u128) as u64);
    }
    if let Some(at) = help_fault(words, short_offset_in_metric(words, metric as u128) as u64) {
        return Some(at);
    }
    help_fault(words, long_offset_in_metric(words, metric as u128) as u64)
}

/// The offset of the first reference of a metric that leads nowhere, as the domains have these serials.
#[tactic(auto, using(crate::proofs::Firsts::first_none, crate::proofs::Firsts::first_goes), unfolding(crate::specs::Faults::metrics_reference_fault, crate::specs::Faults::unless))]
fn references_fault(words: &[u64], serials: &BTreeSet<u32>) -> Option<u64>
    requires serials { HasSerials words.now serials.now }
    requires sections { HasSections words.now }
    ensures { result ≡ metrics_reference_fault words.now }
{
    for i in 0..metric_count(words) {
        if let Some(at) = metric_reference_fault(words, serials, metric_offset(words, i)) {
            return Some(at);
        }
    }
    None
}

/// The offset of the first reference of a metric that leads nowhere.
pub fn metrics_reference_fault(alloc: Global, words: &[u64]) -> Result<Option<u64>, AllocError>
    requires { HasSections words.now }
    ensures { IfOk result (λ at. at ≡ metrics_reference_fault words.now) }
{
    let serials = indom_serials(alloc, words)?;
    Ok(references_fault(words, &serials))
}

/// The offset of the first metric whose item or name stood before.
pub fn metrics_duplicate_fault(alloc: Global, words: &[u64]) -> Result<Option<u64>, AllocError>
    requires { HasSections words.now }
    ensures { IfOk result (λ at. at ≡ metrics_duplicate_fault words.now) }
{
    let count = metric_count(words);
    let before = first_again(alloc, words, Key::Item, count)?;
    let first = first_again(alloc, words, Key::MetricName, before)?;
    if first == count {
        return Ok(None);
    }
    Ok(Some(metric_offset(words, first)))
}

/// The offset of the first item above 1023.
#[tactic(auto, using(crate::proofs::Firsts::first_none, crate::proofs::Firsts::first_goes), unfolding(crate::specs::Faults::metrics_serial_fault, crate::specs::Faults::unless))]
pub fn metrics_serial_fault(words: &[u64]) -> Option<u64>
    requires { HasSections words.now }
    ensures { result ≡ metrics_serial_fault words.now }
{
    for i in 0..metric_count(words) {
        let metric = metric_offset(words, i);
        if 1023 < item_in_metric(words, metric as u128) {
            return Some(item_offset_in_metric(words, metric as u128) as u64);
        }
    }
    None
}
