//! A table as text.
ghost use Rattle.std.specs.Prelude.{◌≡◌, [], ◌++◌, IfOk, OnOk, unwrap_or};
ghost use Rattle.std.specs.Option.{option_copied};
ghost use Rattle.pm_print.specs.Sets.{instance_part, instance_text, name_in};
ghost use Rattle.log_summary.specs.Lines.{metric_name, instances_of, numbers_part, line_of, with_line, lines_of, lines_text, table_text};
ghost use Rattle.log_summary.specs.Listed.{listed_lines};

use crate::table::Table;
use crate::tally::Tally;
use archive_meta::MetaState;
use pcp_base::{Bytes, List, NoMemory, Pmid, Stamp};
use pcp_model::DomainInstances;
use std::alloc::Global;
use std::collections::BTreeMap;
use text_lines::put_escapes;

// Lines by their metric's name, then by metric and instance.
type Lines = BTreeMap<(Vec<u8>, u32, i32), Vec<u8>>;

// A metric's first name, or `?`.
fn metric_name(meta: &MetaState, pmid: Pmid) -> &[u8]
    ensures { result.now ≡ metric_name meta.now pmid }
{
    match meta.names(pmid) {
        Some(names) => match names.get(0) {
            Some(name) => name.as_slice(),
            None => b"?",
        },
        None => b"?",
    }
}

// The instances that hold of a metric's domain at a moment.
fn instances_of(meta: &MetaState, pmid: Pmid, stamp: Stamp) -> Option<&DomainInstances>
    ensures { unwrap_or (option_copied result) [] ≡ instances_of meta.now pmid stamp }
{
    match meta.desc(pmid) {
        Some(desc) => meta.domain_at(desc.indom, stamp),
        None => None,
    }
}

// The name of the first instance with a number.
fn name_in(listed: &DomainInstances, number: i32) -> Option<&[u8]>
    ensures { option_copied result ≡ name_in listed.now number }
{
    for at in 0..listed.len() {
        if let Some((found, name)) = listed.get(at) {
            if found == number {
                return Some(name);
            }
        }
    }
    None
}

fn name_of<'a>(listed: Option<&'a DomainInstances>, number: i32) -> Option<&'a [u8]>
    ensures { option_copied result ≡ name_in (unwrap_or (option_copied listed.entry) []) number }
{
    match listed {
        Some(instances) => name_in(instances, number),
        None => None,
    }
}

// `#NUMBER`
fn put_number(alloc: Global, out: &mut Vec<u8>, number: i32) -> Result<(), NoMemory>
    ensures { OnOk result (out.new.items ≡ out.old.items ++ instance_text None number) }
{
    let text = format!(in alloc; "#{number}")?;
    out.extend_from_slice(text.as_bytes())?;
    Ok(())
}

// `[INSTANCE]`, or nothing for the null instance.
#[tactic(auto, unfolding(pm_print::specs::Sets::instance_part))]
fn put_instance(
    alloc: Global,
    out: &mut Vec<u8>,
    listed: Option<&DomainInstances>,
    number: i32,
) -> Result<(), NoMemory>
    ensures { OnOk result (out.new.items ≡ out.old.items ++ instance_part (unwrap_or (option_copied listed.entry) []) number) }
{
    if number == -1 {
        return Ok(());
    }
    out.push(b'[')?;
    match name_of(listed, number) {
        Some(name) => put_escapes(out, name)?,
        None => put_number(alloc, out, number)?,
    }
    out.push(b']')?;
    Ok(())
}

// ` COUNT LEAST GREATEST SUM`
#[tactic(auto, unfolding(crate::specs::Lines::numbers_part))]
fn put_numbers(alloc: Global, out: &mut Vec<u8>, tally: &Tally) -> Result<(), NoMemory>
    ensures { OnOk result (out.new.items ≡ out.old.items ++ numbers_part tally.now) }
{
    let count = tally.count;
    let least = tally.least;
    let greatest = tally.greatest;
    let sum = tally.sum;
    let text = format!(in alloc; " {count} {least} {greatest} {sum}\n")?;
    out.extend_from_slice(text.as_bytes())?;
    Ok(())
}

#[tactic(auto, unfolding(crate::specs::Lines::line_of))]
fn put_line(
    alloc: Global,
    out: &mut Vec<u8>,
    meta: &MetaState,
    pmid: Pmid,
    instance: i32,
    tally: &Tally,
) -> Result<(), NoMemory>
    ensures { OnOk result (out.new.items ≡ out.old.items ++ line_of meta.now ((pmid, instance), tally.now)) }
{
    out.extend_from_slice(metric_name(meta, pmid))?;
    put_instance(alloc, out, instances_of(meta, pmid, tally.last), instance)?;
    put_numbers(alloc, out, tally)
}

// The line of a metric's instance.
fn line_of(
    alloc: Global,
    meta: &MetaState,
    pmid: Pmid,
    instance: i32,
    tally: &Tally,
) -> Result<Vec<u8>, NoMemory>
    ensures { IfOk result (λ line. line.items ≡ line_of meta.now ((pmid, instance), tally.now)) }
{
    let mut out = Vec::new(alloc);
    put_line(alloc, &mut out, meta, pmid, instance, tally)?;
    Ok(out)
}

// The lines with one more.
fn add_line(
    alloc: Global,
    lines: &mut Lines,
    meta: &MetaState,
    pmid: Pmid,
    instance: i32,
    tally: &Tally,
) -> Result<(), NoMemory>
    ensures { OnOk result (listed_lines lines.new ≡ with_line meta.now (listed_lines lines.old) ((pmid, instance), tally.now)) }
{
    let name = Vec::from_slice(alloc, metric_name(meta, pmid))?;
    let line = line_of(alloc, meta, pmid, instance, tally)?;
    lines.insert((name, pmid.word(), instance), line)?;
    Ok(())
}

// A line for each row of a table.
fn lines_of(alloc: Global, meta: &MetaState, table: &Table) -> Result<Lines, NoMemory>
    ensures { IfOk result (λ lines. listed_lines lines ≡ lines_of meta.now table.now) }
{
    let mut lines = BTreeMap::new(alloc);
    for (key, tally) in &table.tallies {
        add_line(alloc, &mut lines, meta, Pmid::of_word(key.0), key.1, tally)?;
    }
    Ok(lines)
}

fn put_lines(out: &mut Vec<u8>, lines: &Lines) -> Result<(), NoMemory>
    ensures { OnOk result (out.new.items ≡ out.old.items ++ lines_text (listed_lines lines.now)) }
{
    let mut rest = lines.range(..);
    while let Some((_, line)) = rest.next() {
        out.extend_from_slice(line.as_slice())?;
    }
    Ok(())
}

impl Table {
    /// The lines of what was counted, `NAME COUNT LEAST GREATEST SUM` or `NAME[INSTANCE] ..`, by name, metric and instance. An
    /// instance's name is the one that holds at the last sample counted; one without a name is `#` and its number.
    pub fn text(&self, alloc: Global, meta: &MetaState) -> Result<Bytes, NoMemory>
        ensures { IfOk result (λ text. text ≡ table_text meta.now self.now) }
    {
        let lines = lines_of(alloc, meta, self)?;
        let mut out = Vec::new(alloc);
        put_lines(&mut out, &lines)?;
        Ok(List::from_vec(out))
    }
}
