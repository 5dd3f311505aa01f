//! The offsets of an image's entries, and which offsets are those of entries.
ghost use Rattle.std.specs.Prelude.{◌≡◌, ◌<◌, ◌^◌};
ghost use Rattle.mmv_layout.specs.Entries.{leads, leads_to_indom, leads_to_instance, leads_to_metric, leads_to_string, indom_count, instance_count, metric_count, value_count, string_count, indom_at, instance_at, metric_at, value_at, string_at, run_at, help_leads, is_no_domain, metric_of};

use crate::contents::{INDOMS, INSTANCES, METRICS, STRINGS, VALUES, section_of};
use crate::entry_fields::{first_in_indom, metric_in_value};
use crate::fields::number64;
use crate::header::version_in;
use crate::sizes::{INDOM_SIZE, STRING_SIZE, VALUE_SIZE, instance_size, metric_size};

/// Whether an offset is that of one of `count` entries of a size, the first of them at `first`.
pub fn leads(first: u64, count: u32, size: u64, offset: u128) -> bool
    requires { 0 < size }
    ensures { result ≡ leads first count size offset }
{
    let first = first as u128;
    if offset < first {
        return false;
    }
    let distance = offset - first;
    if distance % size as u128 != 0 {
        return false;
    }
    distance / (size as u128) < count as u128
}

/// Whether an instance domain stands at an offset.
pub fn leads_to_indom(words: &[u64], offset: u128) -> bool
    ensures { result ≡ leads_to_indom words.now offset }
{
    let section = section_of(words, INDOMS);
    leads(section.offset, section.count, INDOM_SIZE, offset)
}

/// Whether an instance stands at an offset.
pub fn leads_to_instance(words: &[u64], offset: u128) -> bool
    ensures { result ≡ leads_to_instance words.now offset }
{
    let section = section_of(words, INSTANCES);
    leads(
        section.offset,
        section.count,
        instance_size(version_in(words)),
        offset,
    )
}

/// Whether a metric stands at an offset.
pub fn leads_to_metric(words: &[u64], offset: u128) -> bool
    ensures { result ≡ leads_to_metric words.now offset }
{
    let section = section_of(words, METRICS);
    leads(
        section.offset,
        section.count,
        metric_size(version_in(words)),
        offset,
    )
}

/// Whether a string stands at an offset.
pub fn leads_to_string(words: &[u64], offset: u128) -> bool
    ensures { result ≡ leads_to_string words.now offset }
{
    let section = section_of(words, STRINGS);
    leads(section.offset, section.count, STRING_SIZE, offset)
}

/// The offset of an instance domain.
pub fn indom_at(words: &[u64], i: u32) -> u128
    ensures offset { result ≡ indom_at words.now i }
    ensures bound { result < 2 ^ 80 }
{
    section_of(words, INDOMS).offset as u128 + INDOM_SIZE as u128 * i as u128
}

/// The offset of an instance.
pub fn instance_at(words: &[u64], i: u32) -> u128
    ensures offset { result ≡ instance_at words.now i }
    ensures bound { result < 2 ^ 80 }
{
    section_of(words, INSTANCES).offset as u128
        + instance_size(version_in(words)) as u128 * i as u128
}

/// The offset of an instance of the run of the domain at an offset.
pub fn run_at(words: &[u64], domain: u128, k: u32) -> u128
    requires { domain < 2 ^ 80 }
    ensures offset { result ≡ run_at words.now domain k }
    ensures bound { result < 2 ^ 80 }
{
    first_in_indom(words, domain) as u128 + instance_size(version_in(words)) as u128 * k as u128
}

/// The offset of a metric.
pub fn metric_at(words: &[u64], i: u32) -> u128
    ensures offset { result ≡ metric_at words.now i }
    ensures bound { result < 2 ^ 80 }
{
    section_of(words, METRICS).offset as u128 + metric_size(version_in(words)) as u128 * i as u128
}

/// The offset of a value.
pub fn value_at(words: &[u64], i: u32) -> u128
    ensures offset { result ≡ value_at words.now i }
    ensures bound { result < 2 ^ 80 }
{
    section_of(words, VALUES).offset as u128 + VALUE_SIZE as u128 * i as u128
}

/// The offset of a string.
pub fn string_at(words: &[u64], i: u32) -> u128
    ensures offset { result ≡ string_at words.now i }
    ensures bound { result < 2 ^ 80 }
{
    section_of(words, STRINGS).offset as u128 + STRING_SIZE as u128 * i as u128
}

/// Whether the help field at an offset is 0 or leads to a string.
#[tactic(auto, unfolding(crate::specs::Entries::help_leads))]
pub fn help_leads(words: &[u64], field: u128) -> bool
    ensures { result ≡ help_leads words.now field }
{
    let help = number64(words, field);
    help == 0 || leads_to_string(words, help as u128)
}

/// How many domains there are.
pub fn indom_count(words: &[u64]) -> u32
    ensures { result ≡ indom_count words.now }
{
    section_of(words, INDOMS).count
}

pub fn instance_count(words: &[u64]) -> u32
    ensures { result ≡ instance_count words.now }
{
    section_of(words, INSTANCES).count
}

pub fn string_count(words: &[u64]) -> u32
    ensures { result ≡ string_count words.now }
{
    section_of(words, STRINGS).count
}

/// How many metrics there are.
pub fn metric_count(words: &[u64]) -> u32
    ensures { result ≡ metric_count words.now }
{
    section_of(words, METRICS).count
}

/// Whether a metric's serial says that it has no domain.
pub fn is_no_domain(serial: u32) -> bool
    ensures { result ≡ is_no_domain serial }
{
    serial == 0 || serial == u32::MAX
}

/// How many values there are.
pub fn value_count(words: &[u64]) -> u32
    ensures { result ≡ value_count words.now }
{
    section_of(words, VALUES).count
}

/// The offset of the metric of the value at an offset.
#[tactic(auto, unfolding(crate::specs::Entries::metric_of))]
pub fn metric_of(words: &[u64], value: u128) -> u64
    requires { value < 2 ^ 80 }
    ensures { result ≡ metric_of words.now value }
{
    metric_in_value(words, value)
}
