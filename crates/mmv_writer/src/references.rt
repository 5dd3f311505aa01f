//! The offsets to which the references of entries lead.
ghost use Rattle.std.specs.Prelude.{◌≡◌, ◌≤◌, length, bytes_eq, Some};
ghost use Rattle.std.specs.List.{position_or_len};
ghost use Rattle.mmv_writer.specs.Offsets.{instances_in, AreSmall};
ghost use Rattle.mmv_writer.specs.Spelling.{string_offset, help_offset, domain_offset, instance_offset, metric_offset, first_instance, extra_field, instance_field};

use crate::lookups::{DomainTable, MetricTable};
use crate::offsets::SectionOffsets;
use crate::tables::StringTable;
use mmv_layout::{Content, INDOM_SIZE, IndomRow, STRING_SIZE, instance_size, metric_size};
use pcp_base::Text;

/// Which string is the first that is equal to a text, or the number of strings.
#[tactic(auto, using(crate::proofs::Members::first_or_len, crate::proofs::Members::first_fits))]
fn text_index(strings: &StringTable, text: &Text) -> usize
    ensures value { result ≡ position_or_len (λ other. bytes_eq other text.now) strings.now }
    ensures bound { result ≤ length strings.now }
{
    strings.position(text).unwrap_or(strings.len())
}

/// The offset of the first string that is equal to a text.
pub fn string_offset(offsets: &SectionOffsets, strings: &StringTable, text: &Text) -> u64
    requires small { AreSmall offsets.now }
    requires count { length strings.now ≤ 65536 }
    ensures { result ≡ string_offset offsets.now strings.now text.now }
{
    offsets.strings + STRING_SIZE * text_index(strings, text) as u64
}

/// The offset of a help's string, 0 without a help.
pub fn help_offset(offsets: &SectionOffsets, strings: &StringTable, help: &Option<Text>) -> u64
    requires small { AreSmall offsets.now }
    requires count { length strings.now ≤ 65536 }
    ensures { result ≡ help_offset offsets.now strings.now help.now }
{
    match help {
        None => 0,
        Some(text) => string_offset(offsets, strings, text),
    }
}

/// The offset of the domain with a serial.
pub fn domain_offset(offsets: &SectionOffsets, domains: &DomainTable, serial: u32) -> u64
    requires small { AreSmall offsets.now }
    requires count { length domains.now ≤ 65536 }
    ensures { result ≡ domain_offset offsets.now domains.now serial }
{
    offsets.indoms + INDOM_SIZE * domains.domain_of(serial) as u64
}

/// The offset of an instance of the domain with a serial.
fn instance_offset(offsets: &SectionOffsets, domains: &DomainTable, serial: u32, k: u64) -> u64
    requires small { AreSmall offsets.now }
    requires count { instances_in domains.now ≤ 65536 }
    requires member { k ≤ 65536 }
    ensures { result ≡ instance_offset offsets.now domains.now serial k }
{
    offsets.instances + instance_size(offsets.version) * (domains.instances_before(serial) + k)
}

/// The offset of a domain's first instance, 0 where it has none.
pub fn first_instance(offsets: &SectionOffsets, domains: &DomainTable, row: &IndomRow) -> u64
    requires small { AreSmall offsets.now }
    requires count { instances_in domains.now ≤ 65536 }
    ensures { result ≡ first_instance offsets.now domains.now row.now }
{
    if row.instances.is_empty() {
        return 0;
    }
    instance_offset(offsets, domains, row.serial, 0)
}

/// The offset of the metric with an item.
pub fn metric_offset(offsets: &SectionOffsets, metrics: &MetricTable, item: u32) -> u64
    requires small { AreSmall offsets.now }
    requires count { length metrics.now ≤ 65536 }
    ensures { result ≡ metric_offset offsets.now metrics.now item }
{
    offsets.metrics + metric_size(offsets.version) * metrics.metric_of(item) as u64
}

/// The extra field of a content.
pub fn extra_field(offsets: &SectionOffsets, strings: &StringTable, content: &Content) -> u64
    requires small { AreSmall offsets.now }
    requires count { length strings.now ≤ 65536 }
    ensures { result ≡ extra_field offsets.now strings.now content.now }
{
    match content {
        Content::Number(_) => 0,
        Content::Choice(text) => string_offset(offsets, strings, text),
        Content::Raw(_, extra) => *extra,
    }
}

/// The instance field of a value of a metric with a domain.
fn number_field(
    offsets: &SectionOffsets,
    domains: &DomainTable,
    serial: u32,
    instance: &Option<i32>,
) -> u64
    requires small { AreSmall offsets.now }
    requires count { instances_in domains.now ≤ 65536 }
    ensures { result ≡ instance_field offsets.now domains.now (Some serial) instance.now }
{
    match instance {
        None => 0,
        Some(id) => instance_offset(offsets, domains, serial, domains.member_of(serial, id)),
    }
}

/// The instance field of a value of a metric, which may have a domain.
pub fn instance_field(
    offsets: &SectionOffsets,
    domains: &DomainTable,
    serial: Option<u32>,
    instance: &Option<i32>,
) -> u64
    requires small { AreSmall offsets.now }
    requires count { instances_in domains.now ≤ 65536 }
    ensures { result ≡ instance_field offsets.now domains.now serial instance.now }
{
    match serial {
        None => 0,
        Some(serial) => number_field(offsets, domains, serial, instance),
    }
}
