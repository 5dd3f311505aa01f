//! Each line in its one spelling.
ghost use Rattle.std.specs.Prelude.{◌≡◌, ◌++◌, Some, None, OnOk};
ghost use Rattle.text_lines.specs.LayoutSpelling.{codes_parts, links_parts, full_line};
ghost use Rattle.text_lines.specs.declared.layout_line.Line.TheVariants.{Mmv as mmv_of, String as string_of, Indom as indom_of, Instance as instance_of, Metric as metric_of, Value as value_of};

use crate::layout_line::Written;
use crate::layout_parts::{put_content, put_kind, put_semantics};
use crate::writing::{
    put_help, put_hex_part, put_int, put_number, put_optional_int, put_optional_number, put_text,
};
use mmv_layout::MetricRow;
use pcp_base::{NoMemory, Text};

/// The header's numbers, as its line has them.
#[derive(Clone, Copy)]
pub struct Head {
    pub version: u32,
    pub generation: u64,
    pub flags: u32,
    pub pid: u32,
    pub cluster: u32,
}

/// The line of an image's header.
#[tactic(auto, unfolding(crate::specs::LayoutSpelling::full_line, crate::specs::LayoutSpelling::line_text))]
pub fn put_head(out: &mut Vec<u8>, head: Head) -> Result<(), NoMemory>
    ensures { OnOk result (out.new.items ≡ out.old.items ++ full_line (mmv_of head.version head.generation head.flags head.pid head.cluster)) }
{
    out.extend_from_slice(b"mmv")?;
    put_number(out, head.version as u64)?;
    put_number(out, head.generation)?;
    put_number(out, head.flags as u64)?;
    put_number(out, head.pid as u64)?;
    put_number(out, head.cluster as u64)?;
    out.push(b'\n')?;
    Ok(())
}

/// The line of a string.
#[tactic(auto, unfolding(crate::specs::LayoutSpelling::full_line, crate::specs::LayoutSpelling::line_text))]
pub fn put_string(out: &mut Vec<u8>, text: &Text) -> Result<(), NoMemory>
    ensures { OnOk result (out.new.items ≡ out.old.items ++ full_line (string_of text.now)) }
{
    out.extend_from_slice(b"string")?;
    put_text(out, text)?;
    out.push(b'\n')?;
    Ok(())
}

/// The line of an instance domain.
#[tactic(auto, unfolding(crate::specs::LayoutSpelling::full_line, crate::specs::LayoutSpelling::line_text))]
pub fn put_indom(
    out: &mut Vec<u8>,
    serial: u32,
    short: &Option<Text>,
    long: &Option<Text>,
) -> Result<(), NoMemory>
    ensures { OnOk result (out.new.items ≡ out.old.items ++ full_line (indom_of serial short.now long.now)) }
{
    out.extend_from_slice(b"indom")?;
    put_number(out, serial as u64)?;
    put_help(out, short)?;
    put_help(out, long)?;
    out.push(b'\n')?;
    Ok(())
}

/// The line of an instance.
#[tactic(auto, unfolding(crate::specs::LayoutSpelling::full_line, crate::specs::LayoutSpelling::line_text))]
pub fn put_instance(out: &mut Vec<u8>, serial: u32, id: i32, name: &Text) -> Result<(), NoMemory>
    ensures { OnOk result (out.new.items ≡ out.old.items ++ full_line (instance_of serial id name.now)) }
{
    out.extend_from_slice(b"instance")?;
    put_number(out, serial as u64)?;
    put_int(out, id)?;
    put_text(out, name)?;
    out.push(b'\n')?;
    Ok(())
}

// A metric's name and codes.
#[tactic(auto, unfolding(crate::specs::LayoutSpelling::codes_parts))]
fn put_codes(out: &mut Vec<u8>, row: &MetricRow) -> Result<(), NoMemory>
    ensures { OnOk result (out.new.items ≡ out.old.items ++ codes_parts row.now) }
{
    out.push(b' ')?;
    out.extend_from_slice(row.name.as_slice())?;
    put_number(out, row.item as u64)?;
    put_kind(out, row.kind)?;
    put_semantics(out, row.semantics)?;
    put_hex_part(out, 8, row.units.word() as u64)?;
    Ok(())
}

// A metric's domain and helps.
#[tactic(auto, unfolding(crate::specs::LayoutSpelling::links_parts))]
fn put_links(out: &mut Vec<u8>, row: &MetricRow) -> Result<(), NoMemory>
    ensures { OnOk result (out.new.items ≡ out.old.items ++ links_parts row.now) }
{
    put_optional_number(out, row.serial)?;
    put_help(out, &row.short)?;
    put_help(out, &row.long)?;
    Ok(())
}

/// The line of a metric.
#[tactic(auto, unfolding(crate::specs::LayoutSpelling::full_line, crate::specs::LayoutSpelling::line_text))]
pub fn put_metric(out: &mut Vec<u8>, row: &MetricRow) -> Result<(), NoMemory>
    ensures { OnOk result (out.new.items ≡ out.old.items ++ full_line (metric_of row.now)) }
{
    out.extend_from_slice(b"metric")?;
    put_codes(out, row)?;
    put_links(out, row)?;
    out.push(b'\n')?;
    Ok(())
}

/// The line of a value.
#[tactic(auto, unfolding(crate::specs::LayoutSpelling::full_line, crate::specs::LayoutSpelling::line_text))]
pub fn put_value(
    out: &mut Vec<u8>,
    item: u32,
    instance: Option<i32>,
    content: &Written,
) -> Result<(), NoMemory>
    ensures { OnOk result (out.new.items ≡ out.old.items ++ full_line (value_of item instance content.now)) }
{
    out.extend_from_slice(b"value")?;
    put_number(out, item as u64)?;
    put_optional_int(out, instance)?;
    put_content(out, content)?;
    out.push(b'\n')?;
    Ok(())
}
