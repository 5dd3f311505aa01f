//! The words of each entry, and of each section.
ghost use Rattle.std.specs.Prelude.{◌≡◌, ◌+◌, ◌<◌, ◌≤◌, ◌^◌, ◌++◌, length, take, drop, OnOk, slice_index};
ghost use Rattle.std.specs.List.{flat_map};
ghost use Rattle.std.specs.Int.{w64, from_le_bytes};
ghost use Rattle.mmv_layout.specs.Fields.{first_words};
ghost use Rattle.mmv_writer.specs.Offsets.{string_length, instances_in, words_in, AreSmall};
ghost use Rattle.mmv_writer.specs.Spelling.{halves, header_words, entry_words, contents_words, domain_offset, domain_words, name_words, instance_words, serial_word, metric_words, value_field, value_words, domain_section, instance_section, metric_section, value_section, string_section};

use crate::lookups::{DomainTable, MetricTable};
use crate::offsets::{Counts, SectionOffsets};
use crate::references::{
    domain_offset, extra_field, first_instance, help_offset, instance_field, metric_offset,
    string_offset,
};
use crate::tables::StringTable;
use byteorder::{ByteOrder, LittleEndian};
use mmv_layout::{
    Content, IndomRow, Layout, MetricRow, STRING_SIZE, ValueRow, has_inline_names, name_width,
};
use pcp_base::{NoMemory, Text};

/// `MMV` and a zero byte, the low byte first.
const MAGIC: u32 = 0x0056_4d4d;

/// How many words a string has.
const STRING_WORDS: usize = STRING_SIZE as usize / 8;

/// The word of two numbers of four bytes.
fn halves(low: u32, high: u32) -> u64
    ensures { result ≡ halves low high }
{
    low as u64 + 4294967296 * high as u64
}

/// The byte at an offset, and zero past the end.
fn byte_or_zero(bytes: &[u8], at: usize) -> u8
    ensures { result ≡ slice_index bytes.now at }
{
    if at < bytes.len() { bytes[at] } else { 0 }
}

/// The word that eight bytes from an offset on make, the low byte first, with zeros past the end.
fn word_at(bytes: &[u8], at: usize) -> u64
    requires { at ≤ 1024 }
    ensures { result ≡ from_le_bytes w64 (take 8 (drop at bytes.now)) }
{
    LittleEndian::read_u64(&[
        byte_or_zero(bytes, at),
        byte_or_zero(bytes, at + 1),
        byte_or_zero(bytes, at + 2),
        byte_or_zero(bytes, at + 3),
        byte_or_zero(bytes, at + 4),
        byte_or_zero(bytes, at + 5),
        byte_or_zero(bytes, at + 6),
        byte_or_zero(bytes, at + 7),
    ])
}

/// Writes a text filled up with zeros to so many words.
fn push_text(out: &mut Vec<u64>, text: &Text, count: usize) -> Result<(), NoMemory>
    requires { count ≤ 32 }
    ensures { OnOk result (out.new.items ≡ out.old.items ++ first_words count text.now) }
{
    let bytes = text.as_slice();
    for k in 0..count {
        out.push(word_at(bytes, 8 * k))?;
    }
    Ok(())
}

/// Writes the header of an image with so many sections.
#[tactic(auto, unfolding(crate::specs::Spelling::header_words))]
pub fn push_header(out: &mut Vec<u64>, draft: &Layout, sections: u32) -> Result<(), NoMemory>
    ensures { OnOk result (out.new.items ≡ out.old.items ++ header_words draft.now sections) }
{
    out.extend_from_slice(&[
        halves(MAGIC, draft.version),
        draft.generation,
        draft.generation,
        halves(sections, draft.flags),
        halves(draft.pid, draft.cluster),
    ])?;
    Ok(())
}

/// Writes the contents entry of a section that isn't empty.
fn push_entry(out: &mut Vec<u64>, kind: u32, count: u64, offset: u64) -> Result<(), NoMemory>
    requires { count ≤ 65536 }
    ensures { OnOk result (out.new.items ≡ out.old.items ++ entry_words kind count offset) }
{
    if count == 0 {
        return Ok(());
    }
    out.extend_from_slice(&[halves(kind, count as u32), offset])?;
    Ok(())
}

/// Writes the contents.
#[tactic(auto, unfolding(crate::specs::Spelling::contents_words))]
pub fn push_contents(
    out: &mut Vec<u64>,
    counts: &Counts,
    offsets: &SectionOffsets,
) -> Result<(), NoMemory>
    requires { words_in counts.now ≤ 65536 }
    ensures { OnOk result (out.new.items ≡ out.old.items ++ contents_words counts.now offsets.now) }
{
    push_entry(out, 1, counts.indoms, offsets.indoms)?;
    push_entry(out, 2, counts.instances, offsets.instances)?;
    push_entry(out, 3, counts.metrics, offsets.metrics)?;
    push_entry(out, 4, counts.values, offsets.values)?;
    push_entry(out, 5, counts.strings, offsets.strings)?;
    Ok(())
}

/// Writes a domain.
#[tactic(auto, unfolding(crate::specs::Spelling::domain_words))]
fn push_domain(
    out: &mut Vec<u64>,
    offsets: &SectionOffsets,
    strings: &StringTable,
    domains: &DomainTable,
    row: &IndomRow,
) -> Result<(), NoMemory>
    requires small { AreSmall offsets.now }
    requires strings { length strings.now ≤ 65536 }
    requires instances { instances_in domains.now ≤ 65536 }
    requires row { length row.now.instances ≤ 65536 }
    ensures { OnOk result (out.new.items ≡ out.old.items ++ domain_words offsets.now strings.now domains.now row.now) }
{
    out.extend_from_slice(&[
        halves(row.serial, row.instances.len() as u32),
        first_instance(offsets, domains, row),
        help_offset(offsets, strings, &row.short),
        help_offset(offsets, strings, &row.long),
    ])?;
    Ok(())
}

/// Writes the domains.
#[tactic(auto, unfolding(crate::specs::Spelling::domain_section))]
pub fn push_domains(
    out: &mut Vec<u64>,
    offsets: &SectionOffsets,
    strings: &StringTable,
    domains: &DomainTable,
    indoms: &[IndomRow],
) -> Result<(), NoMemory>
    requires small { AreSmall offsets.now }
    requires strings { length strings.now ≤ 65536 }
    requires same { domains.now ≡ indoms.now }
    requires instances { instances_in indoms.now ≤ 65536 }
    ensures { OnOk result (out.new.items ≡ out.old.items ++ domain_section offsets.now strings.now indoms.now) }
{
    for row in indoms {
        push_domain(out, offsets, strings, domains, row)?;
    }
    Ok(())
}

/// Writes a name field: the name, or the offset of its string.
#[tactic(auto, unfolding(crate::specs::Spelling::name_words))]
fn push_name(
    out: &mut Vec<u64>,
    offsets: &SectionOffsets,
    strings: &StringTable,
    name: &Text,
) -> Result<(), NoMemory>
    requires small { AreSmall offsets.now }
    requires strings { length strings.now ≤ 65536 }
    ensures { OnOk result (out.new.items ≡ out.old.items ++ name_words offsets.now strings.now name.now) }
{
    if has_inline_names(offsets.version) {
        return push_text(out, name, name_width(offsets.version) as usize / 8);
    }
    out.push(string_offset(offsets, strings, name))?;
    Ok(())
}

/// Writes an instance of the domain at an offset.
#[tactic(auto, unfolding(crate::specs::Spelling::instance_words))]
fn push_instance(
    out: &mut Vec<u64>,
    offsets: &SectionOffsets,
    strings: &StringTable,
    domain: u64,
    instance: &(i32, Text),
) -> Result<(), NoMemory>
    requires small { AreSmall offsets.now }
    requires strings { length strings.now ≤ 65536 }
    ensures { OnOk result (out.new.items ≡ out.old.items ++ instance_words offsets.now strings.now domain instance.now) }
{
    out.extend_from_slice(&[domain, halves(0, instance.0.cast_unsigned())])?;
    push_name(out, offsets, strings, &instance.1)?;
    Ok(())
}

/// Writes the instances of the domain at an offset.
fn push_members(
    out: &mut Vec<u64>,
    offsets: &SectionOffsets,
    strings: &StringTable,
    domain: u64,
    instances: &[(i32, Text)],
) -> Result<(), NoMemory>
    requires small { AreSmall offsets.now }
    requires strings { length strings.now ≤ 65536 }
    ensures { OnOk result (out.new.items ≡ out.old.items ++ flat_map (λ instance. instance_words offsets.now strings.now domain instance) instances.now) }
{
    for instance in instances {
        push_instance(out, offsets, strings, domain, instance)?;
    }
    Ok(())
}

/// Writes the instances of one domain.
fn push_row(
    out: &mut Vec<u64>,
    offsets: &SectionOffsets,
    strings: &StringTable,
    domains: &DomainTable,
    row: &IndomRow,
) -> Result<(), NoMemory>
    requires small { AreSmall offsets.now }
    requires strings { length strings.now ≤ 65536 }
    requires count { length domains.now ≤ 65536 }
    ensures { OnOk result (out.new.items ≡ out.old.items ++ flat_map (λ instance. instance_words offsets.now strings.now (domain_offset offsets.now domains.now row.now.serial) instance) row.now.instances) }
{
    let domain = domain_offset(offsets, domains, row.serial);
    push_members(out, offsets, strings, domain, row.instances.as_slice())?;
    Ok(())
}

/// Writes the instances of all domains.
#[tactic(auto, unfolding(crate::specs::Spelling::instance_section))]
pub fn push_instances(
    out: &mut Vec<u64>,
    offsets: &SectionOffsets,
    strings: &StringTable,
    domains: &DomainTable,
    indoms: &[IndomRow],
) -> Result<(), NoMemory>
    requires small { AreSmall offsets.now }
    requires strings { length strings.now ≤ 65536 }
    requires same { domains.now ≡ indoms.now }
    requires count { length indoms.now ≤ 65536 }
    ensures { OnOk result (out.new.items ≡ out.old.items ++ instance_section offsets.now strings.now indoms.now) }
{
    for row in indoms {
        push_row(out, offsets, strings, domains, row)?;
    }
    Ok(())
}

/// The serial word of a metric.
fn serial_word(serial: Option<u32>) -> u64
    ensures { result ≡ serial_word serial }
{
    match serial {
        None => 4294967295,
        Some(serial) => serial as u64,
    }
}

/// Writes a metric.
#[tactic(auto, unfolding(crate::specs::Spelling::metric_words))]
fn push_metric(
    out: &mut Vec<u64>,
    offsets: &SectionOffsets,
    strings: &StringTable,
    row: &MetricRow,
) -> Result<(), NoMemory>
    requires small { AreSmall offsets.now }
    requires strings { length strings.now ≤ 65536 }
    ensures { OnOk result (out.new.items ≡ out.old.items ++ metric_words offsets.now strings.now row.now) }
{
    push_name(out, offsets, strings, &row.name)?;
    out.extend_from_slice(&[
        halves(row.item, row.kind.code()),
        halves(row.semantics.code(), row.units.word()),
        serial_word(row.serial),
        help_offset(offsets, strings, &row.short),
        help_offset(offsets, strings, &row.long),
    ])?;
    Ok(())
}

/// Writes the metrics.
#[tactic(auto, unfolding(crate::specs::Spelling::metric_section))]
pub fn push_metrics(
    out: &mut Vec<u64>,
    offsets: &SectionOffsets,
    strings: &StringTable,
    metrics: &[MetricRow],
) -> Result<(), NoMemory>
    requires small { AreSmall offsets.now }
    requires strings { length strings.now ≤ 65536 }
    ensures { OnOk result (out.new.items ≡ out.old.items ++ metric_section offsets.now strings.now metrics.now) }
{
    for row in metrics {
        push_metric(out, offsets, strings, row)?;
    }
    Ok(())
}

/// The value field of a content.
fn value_field(content: &Content) -> u64
    ensures { result ≡ value_field content.now }
{
    match content {
        Content::Number(number) => *number,
        Content::Choice(_) => 0,
        Content::Raw(value, _) => *value,
    }
}

/// Writes a value.
#[tactic(auto, unfolding(crate::specs::Spelling::value_words))]
fn push_value(
    out: &mut Vec<u64>,
    offsets: &SectionOffsets,
    strings: &StringTable,
    domains: &DomainTable,
    metrics: &MetricTable,
    row: &ValueRow,
) -> Result<(), NoMemory>
    requires small { AreSmall offsets.now }
    requires strings { length strings.now ≤ 65536 }
    requires instances { instances_in domains.now ≤ 65536 }
    requires metrics { length metrics.now ≤ 65536 }
    ensures { OnOk result (out.new.items ≡ out.old.items ++ value_words offsets.now strings.now domains.now metrics.now row.now) }
{
    let serial = metrics.serial_of(row.item);
    out.extend_from_slice(&[
        value_field(&row.content),
        extra_field(offsets, strings, &row.content),
        metric_offset(offsets, metrics, row.item),
        instance_field(offsets, domains, serial, &row.instance),
    ])?;
    Ok(())
}

/// Writes the values.
#[tactic(auto, unfolding(crate::specs::Spelling::value_section))]
pub fn push_values(
    out: &mut Vec<u64>,
    offsets: &SectionOffsets,
    strings: &StringTable,
    domains: &DomainTable,
    metrics: &MetricTable,
    values: &[ValueRow],
) -> Result<(), NoMemory>
    requires small { AreSmall offsets.now }
    requires strings { length strings.now ≤ 65536 }
    requires instances { instances_in domains.now ≤ 65536 }
    requires metrics { length metrics.now ≤ 65536 }
    ensures { OnOk result (out.new.items ≡ out.old.items ++ value_section offsets.now strings.now domains.now metrics.now values.now) }
{
    for row in values {
        push_value(out, offsets, strings, domains, metrics, row)?;
    }
    Ok(())
}

/// Writes texts as strings.
fn push_texts(out: &mut Vec<u64>, texts: &[&Text]) -> Result<(), NoMemory>
    ensures { OnOk result (out.new.items ≡ out.old.items ++ flat_map (λ text. first_words string_length text.now) texts.now) }
{
    for text in texts {
        push_text(out, *text, STRING_WORDS)?;
    }
    Ok(())
}

/// Writes the strings.
#[tactic(auto, using(crate::proofs::ReadTexts::section_read))]
pub fn push_strings(out: &mut Vec<u64>, strings: &StringTable) -> Result<(), NoMemory>
    ensures { OnOk result (out.new.items ≡ out.old.items ++ string_section strings.now) }
{
    push_texts(out, strings.as_slice())
}
