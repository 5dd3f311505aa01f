//! What an image says, row by row.
ghost use Rattle.std.specs.Prelude.{◌≡◌, ◌<◌, ◌^◌, IfOk};
ghost use Rattle.mmv_layout.specs.Images.{IsImage};
ghost use Rattle.mmv_layout.specs.Sizes.{string_size};
ghost use Rattle.mmv_layout.specs.Fields.{text_at};
ghost use Rattle.mmv_layout.specs.Says.{Says};
ghost use Rattle.mmv_layout.specs.Rows.{number_of, help_of, instance_row, instances_of, indom_row, serial_of, metric_row, instance_of, content_of, value_row, indoms_of, metrics_of, values_of, strings_of, layout_of};

use crate::entries::{
    indom_at, indom_count, is_no_domain, metric_at, metric_count, metric_of, run_at, string_at,
    string_count, value_at, value_count,
};
use crate::entry_fields::{
    count_in_indom, extra_in_value, instance_in_value, item_in_metric, long_offset_in_indom,
    long_offset_in_metric, name_in_instance, name_in_metric, number_in_instance,
    semantics_in_metric, serial_in_indom, serial_in_metric, short_offset_in_indom,
    short_offset_in_metric, type_in_metric, units_in_metric, value_in_value,
};
use crate::fields::{number64, text_at};
use crate::header::{cluster_in, first_generation, flags_in, process_in, version_in};
use crate::rows::{Content, IndomRow, Layout, MetricRow, ValueRow};
use crate::sizes::STRING_SIZE;
use pcp_base::{Kind, List, NoMemory, Semantics, Text, Units};
use std::alloc::Global;

/// The text of the string at an offset.
pub fn string_text(alloc: Global, words: &[u64], offset: u128) -> Result<Text, NoMemory>
    requires { offset < 2 ^ 100 }
    ensures { IfOk result (λ text. text ≡ text_at words.now offset string_size) }
{
    Ok(text_at(alloc, words, offset, STRING_SIZE as u32)?)
}

/// The number of the instance at an offset.
fn number_of(words: &[u64], instance: u128) -> i32
    requires { instance < 2 ^ 80 }
    ensures { result ≡ number_of words.now instance }
{
    number_in_instance(words, instance).cast_signed()
}

/// The help to which a field leads, if it isn't 0.
#[tactic(auto, unfolding(crate::specs::Rows::help_of))]
fn help_of(alloc: Global, words: &[u64], field: u128) -> Result<Option<Text>, NoMemory>
    ensures { IfOk result (λ help. help ≡ help_of words.now field) }
{
    let offset = number64(words, field);
    if offset == 0 {
        return Ok(None);
    }
    let text = string_text(alloc, words, offset as u128)?;
    Ok(Some(text))
}

/// The number and the name of the instance at an offset.
#[tactic(auto, unfolding(crate::specs::Rows::instance_row))]
fn instance_row(alloc: Global, words: &[u64], instance: u128) -> Result<(i32, Text), NoMemory>
    requires { instance < 2 ^ 80 }
    ensures { IfOk result (λ row. row ≡ instance_row words.now instance) }
{
    let name = name_in_instance(alloc, words, instance)?;
    Ok((number_of(words, instance), name))
}

/// The instances of the domain at an offset, in the order of its run.
#[tactic(auto, using(crate::proofs::RowLists::rows_none, crate::proofs::RowLists::rows_more), unfolding(crate::specs::Rows::instances_of))]
fn instances_of(alloc: Global, words: &[u64], domain: u128) -> Result<List<(i32, Text)>, NoMemory>
    requires { domain < 2 ^ 80 }
    ensures { IfOk result (λ rows. rows ≡ instances_of words.now domain) }
{
    let mut rows = List::empty(alloc);
    for k in 0..count_in_indom(words, domain) {
        let row = instance_row(alloc, words, run_at(words, domain, k))?;
        rows.push(row)?;
    }
    Ok(rows)
}

/// The row of the domain at an offset.
#[tactic(auto, unfolding(crate::specs::Rows::indom_row))]
fn indom_row(alloc: Global, words: &[u64], domain: u128) -> Result<IndomRow, NoMemory>
    requires { domain < 2 ^ 80 }
    ensures { IfOk result (λ row. row ≡ indom_row words.now domain) }
{
    Ok(IndomRow {
        serial: serial_in_indom(words, domain),
        instances: instances_of(alloc, words, domain)?,
        short: help_of(alloc, words, short_offset_in_indom(domain))?,
        long: help_of(alloc, words, long_offset_in_indom(domain))?,
    })
}

/// The domain that a metric's serial names, if it has one.
#[tactic(auto, unfolding(crate::specs::Rows::serial_of))]
fn serial_of(serial: u32) -> Option<u32>
    ensures { result ≡ serial_of serial }
{
    if is_no_domain(serial) {
        return None;
    }
    Some(serial)
}

/// The row of the metric at an offset.
#[tactic(auto, unfolding(crate::specs::Rows::metric_row))]
fn metric_row(alloc: Global, words: &[u64], metric: u128) -> Result<MetricRow, NoMemory>
    requires { metric < 2 ^ 80 }
    ensures { IfOk result (λ row. row ≡ metric_row words.now metric) }
{
    Ok(MetricRow {
        name: name_in_metric(alloc, words, metric)?,
        item: item_in_metric(words, metric),
        kind: Kind::of_code(type_in_metric(words, metric)).unwrap_or(Kind::I32),
        semantics: Semantics::of_code(semantics_in_metric(words, metric)).unwrap_or(
            Semantics::Counter,
        ),
        units: Units::of_word(units_in_metric(words, metric)),
        serial: serial_of(serial_in_metric(words, metric)),
        short: help_of(alloc, words, short_offset_in_metric(words, metric))?,
        long: help_of(alloc, words, long_offset_in_metric(words, metric))?,
    })
}

/// The number of the instance of the value at an offset, if its metric has a domain.
#[tactic(auto, unfolding(crate::specs::Rows::instance_of))]
pub fn instance_of(words: &[u64], value: u128) -> Option<i32>
    requires { value < 2 ^ 80 }
    ensures { result ≡ instance_of words.now value }
{
    if is_no_domain(serial_in_metric(words, metric_of(words, value) as u128)) {
        return None;
    }
    Some(number_of(words, instance_in_value(words, value) as u128))
}

/// The content of the value at an offset, by the type of its metric.
#[tactic(auto, unfolding(crate::specs::Rows::content_of))]
fn content_of(alloc: Global, words: &[u64], value: u128) -> Result<Content, NoMemory>
    requires { value < 2 ^ 80 }
    ensures { IfOk result (λ content. content ≡ content_of words.now value) }
{
    let code = type_in_metric(words, metric_of(words, value) as u128);
    let (number, extra) = (value_in_value(words, value), extra_in_value(words, value));
    if code <= 3 {
        return Ok(Content::Number(number));
    }
    if code != 6 {
        return Ok(Content::Raw(number, extra));
    }
    let text = string_text(alloc, words, extra as u128)?;
    Ok(Content::Choice(text))
}

/// The row of the value at an offset.
#[tactic(auto, unfolding(crate::specs::Rows::value_row))]
fn value_row(alloc: Global, words: &[u64], value: u128) -> Result<ValueRow, NoMemory>
    requires { value < 2 ^ 80 }
    ensures { IfOk result (λ row. row ≡ value_row words.now value) }
{
    Ok(ValueRow {
        item: item_in_metric(words, metric_of(words, value) as u128),
        instance: instance_of(words, value),
        content: content_of(alloc, words, value)?,
    })
}

/// The rows of the domains, in section order.
#[tactic(auto, using(crate::proofs::RowLists::rows_none, crate::proofs::RowLists::rows_more), unfolding(crate::specs::Rows::indoms_of))]
fn indoms_of(alloc: Global, words: &[u64]) -> Result<List<IndomRow>, NoMemory>
    ensures { IfOk result (λ rows. rows ≡ indoms_of words.now) }
{
    let mut rows = List::empty(alloc);
    for i in 0..indom_count(words) {
        let row = indom_row(alloc, words, indom_at(words, i))?;
        rows.push(row)?;
    }
    Ok(rows)
}

/// The rows of the metrics, in section order.
#[tactic(auto, using(crate::proofs::RowLists::rows_none, crate::proofs::RowLists::rows_more), unfolding(crate::specs::Rows::metrics_of))]
fn metrics_of(alloc: Global, words: &[u64]) -> Result<List<MetricRow>, NoMemory>
    ensures { IfOk result (λ rows. rows ≡ metrics_of words.now) }
{
    let mut rows = List::empty(alloc);
    for i in 0..metric_count(words) {
        let row = metric_row(alloc, words, metric_at(words, i))?;
        rows.push(row)?;
    }
    Ok(rows)
}

/// The rows of the values, in section order.
#[tactic(auto, using(crate::proofs::RowLists::rows_none, crate::proofs::RowLists::rows_more), unfolding(crate::specs::Rows::values_of))]
fn values_of(alloc: Global, words: &[u64]) -> Result<List<ValueRow>, NoMemory>
    ensures { IfOk result (λ rows. rows ≡ values_of words.now) }
{
    let mut rows = List::empty(alloc);
    for i in 0..value_count(words) {
        let row = value_row(alloc, words, value_at(words, i))?;
        rows.push(row)?;
    }
    Ok(rows)
}

/// The texts of the strings, in section order.
#[tactic(auto, using(crate::proofs::RowLists::rows_none, crate::proofs::RowLists::rows_more), unfolding(crate::specs::Rows::strings_of))]
fn strings_of(alloc: Global, words: &[u64]) -> Result<List<Text>, NoMemory>
    ensures { IfOk result (λ rows. rows ≡ strings_of words.now) }
{
    let mut rows = List::empty(alloc);
    for i in 0..string_count(words) {
        let text = string_text(alloc, words, string_at(words, i))?;
        rows.push(text)?;
    }
    Ok(rows)
}

/// What words say, in one pass over each section.
#[tactic(auto, unfolding(crate::specs::Rows::layout_of))]
pub fn layout_of(alloc: Global, words: &[u64]) -> Result<Layout, NoMemory>
    ensures { IfOk result (λ layout. layout ≡ layout_of words.now) }
{
    Ok(Layout {
        version: version_in(words),
        generation: first_generation(words),
        flags: flags_in(words),
        pid: process_in(words),
        cluster: cluster_in(words),
        indoms: indoms_of(alloc, words)?,
        metrics: metrics_of(alloc, words)?,
        values: values_of(alloc, words)?,
        strings: strings_of(alloc, words)?,
    })
}

/// What an image says.
#[tactic(auto, using(crate::proofs::Saying::layout_says))]
pub fn layout(alloc: Global, words: &[u64]) -> Result<Layout, NoMemory>
    requires { IsImage words.now }
    ensures value { IfOk result (λ layout. layout ≡ layout_of words.now) }
    ensures says { IfOk result (λ layout. Says words.now layout) }
{
    let layout = layout_of(alloc, words)?;
    Ok(layout)
}
