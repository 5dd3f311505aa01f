//! All lines of a layout.
ghost use Rattle.std.specs.Prelude.{◌≡◌, ◌++◌, IfOk, OnOk};
ghost use Rattle.text_lines.specs.Whole.{strings_text, instances_text, indom_text, indoms_text, metrics_text, value_text, values_text, layout_text};

use crate::content::written_of;
use crate::kinds::KindTable;
use crate::layout_writing::{
    Head, put_head, put_indom, put_instance, put_metric, put_string, put_value,
};
use mmv_layout::{IndomRow, Layout, MetricRow, ValueRow};
use pcp_base::{Bytes, List, NoMemory, Text};
use std::alloc::Global;

fn put_strings(out: &mut Vec<u8>, strings: &[Text]) -> Result<(), NoMemory>
    ensures { OnOk result (out.new.items ≡ out.old.items ++ strings_text strings.now) }
{
    for text in strings {
        put_string(out, text)?;
    }
    Ok(())
}

fn put_instances(out: &mut Vec<u8>, serial: u32, rows: &[(i32, Text)]) -> Result<(), NoMemory>
    ensures { OnOk result (out.new.items ≡ out.old.items ++ instances_text serial rows.now) }
{
    for row in rows {
        put_instance(out, serial, row.0, &row.1)?;
    }
    Ok(())
}

// A domain, and its instances behind it.
#[tactic(auto, unfolding(crate::specs::Whole::indom_text))]
fn put_indom_row(out: &mut Vec<u8>, row: &IndomRow) -> Result<(), NoMemory>
    ensures { OnOk result (out.new.items ≡ out.old.items ++ indom_text row.now) }
{
    put_indom(out, row.serial, &row.short, &row.long)?;
    put_instances(out, row.serial, row.instances.as_slice())?;
    Ok(())
}

fn put_indoms(out: &mut Vec<u8>, rows: &[IndomRow]) -> Result<(), NoMemory>
    ensures { OnOk result (out.new.items ≡ out.old.items ++ indoms_text rows.now) }
{
    for row in rows {
        put_indom_row(out, row)?;
    }
    Ok(())
}

fn put_metrics(out: &mut Vec<u8>, rows: &[MetricRow]) -> Result<(), NoMemory>
    ensures { OnOk result (out.new.items ≡ out.old.items ++ metrics_text rows.now) }
{
    for row in rows {
        put_metric(out, row)?;
    }
    Ok(())
}

#[tactic(auto, unfolding(crate::specs::Whole::value_text))]
fn put_value_row(
    alloc: Global,
    out: &mut Vec<u8>,
    kinds: &KindTable,
    row: &ValueRow,
) -> Result<(), NoMemory>
    ensures { OnOk result (out.new.items ≡ out.old.items ++ value_text kinds.now row.now) }
{
    let written = written_of(alloc, kinds.kind_of_item(row.item), &row.content)?;
    put_value(out, row.item, row.instance, &written)?;
    Ok(())
}

fn put_values(
    alloc: Global,
    out: &mut Vec<u8>,
    metrics: &[MetricRow],
    rows: &[ValueRow],
) -> Result<(), NoMemory>
    ensures { OnOk result (out.new.items ≡ out.old.items ++ values_text metrics.now rows.now) }
{
    let kinds = KindTable::of(alloc, metrics)?;
    for row in rows {
        put_value_row(alloc, out, &kinds, row)?;
    }
    Ok(())
}

/// The lines of a layout: its header, the strings, each domain with its instances behind it, the metrics, then the
/// values, each by the kind of the first metric with its item.
#[tactic(auto, unfolding(crate::specs::Whole::layout_text))]
pub fn layout_text(alloc: Global, layout: &Layout) -> Result<Bytes, NoMemory>
    ensures { IfOk result (λ bytes. bytes ≡ layout_text layout.now) }
{
    let mut out = Vec::new(alloc);
    put_head(
        &mut out,
        Head {
            version: layout.version,
            generation: layout.generation,
            flags: layout.flags,
            pid: layout.pid,
            cluster: layout.cluster,
        },
    )?;
    put_strings(&mut out, layout.strings.as_slice())?;
    put_indoms(&mut out, layout.indoms.as_slice())?;
    put_metrics(&mut out, layout.metrics.as_slice())?;
    put_values(
        alloc,
        &mut out,
        layout.metrics.as_slice(),
        layout.values.as_slice(),
    )?;
    Ok(List::from_vec(out))
}
