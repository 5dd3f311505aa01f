//! Which strings an image of given rows has: those given, then each text that no earlier one equals.
ghost use Rattle.std.specs.Prelude.{◌≡◌, ◌++◌, OnOk, IfOk};
ghost use Rattle.std.specs.List.{flat_map};
ghost use Rattle.mmv_writer.specs.Spelling.{texts_of, texts_in, texts_of_name, texts_of_domain, texts_of_instances, texts_of_metric, reference_texts, with_missing, all_strings};
ghost use Rattle.mmv_writer.specs.Tables.{texts_behind};

use crate::tables::StringTable;
use mmv_layout::{Content, IndomRow, Layout, MetricRow, ValueRow, has_inline_names};
use pcp_base::{NoMemory, Text};
use std::alloc::Global;

/// Adds a help, if there is one.
#[tactic(auto, using(crate::proofs::ReadTexts::read_none, crate::proofs::ReadTexts::read_more))]
fn push_help<'a>(texts: &mut Vec<&'a Text>, help: &'a Option<Text>) -> Result<(), NoMemory>
    ensures { OnOk result (texts_behind texts.new.items ≡ texts_behind texts.old.items ++ texts_of help.now) }
{
    match help {
        None => {}
        Some(text) => texts.push(text)?,
    }
    Ok(())
}

/// Adds a short and a long help, in this order, where they are there.
fn push_helps<'a>(
    texts: &mut Vec<&'a Text>,
    short: &'a Option<Text>,
    long: &'a Option<Text>,
) -> Result<(), NoMemory>
    ensures { OnOk result (texts_behind texts.new.items ≡ texts_behind texts.old.items ++ (texts_of short.now ++ texts_of long.now)) }
{
    push_help(texts, short)?;
    push_help(texts, long)?;
    Ok(())
}

/// Adds the helps of domains.
fn push_of_domains<'a>(texts: &mut Vec<&'a Text>, rows: &'a [IndomRow]) -> Result<(), NoMemory>
    ensures { OnOk result (texts_behind texts.new.items ≡ texts_behind texts.old.items ++ flat_map texts_of_domain rows.now) }
{
    for row in rows {
        push_helps(texts, &row.short, &row.long)?;
    }
    Ok(())
}

/// Adds a name, unless it stands in its field.
#[tactic(auto, using(crate::proofs::ReadTexts::read_none, crate::proofs::ReadTexts::read_more))]
fn push_name<'a>(texts: &mut Vec<&'a Text>, version: u32, name: &'a Text) -> Result<(), NoMemory>
    ensures { OnOk result (texts_behind texts.new.items ≡ texts_behind texts.old.items ++ texts_of_name version name.now) }
{
    if has_inline_names(version) {
        return Ok(());
    }
    texts.push(name)?;
    Ok(())
}

/// Adds the names of a domain's instances.
fn push_names<'a>(
    texts: &mut Vec<&'a Text>,
    version: u32,
    instances: &'a [(i32, Text)],
) -> Result<(), NoMemory>
    ensures { OnOk result (texts_behind texts.new.items ≡ texts_behind texts.old.items ++ flat_map (λ instance. texts_of_name version instance.1) instances.now) }
{
    for instance in instances {
        push_name(texts, version, &instance.1)?;
    }
    Ok(())
}

/// Adds the names of instances, domain by domain.
fn push_of_instances<'a>(
    texts: &mut Vec<&'a Text>,
    version: u32,
    rows: &'a [IndomRow],
) -> Result<(), NoMemory>
    ensures { OnOk result (texts_behind texts.new.items ≡ texts_behind texts.old.items ++ flat_map (texts_of_instances version) rows.now) }
{
    for row in rows {
        push_names(texts, version, row.instances.as_slice())?;
    }
    Ok(())
}

/// Adds the name and the helps of a metric.
fn push_of_metric<'a>(
    texts: &mut Vec<&'a Text>,
    version: u32,
    row: &'a MetricRow,
) -> Result<(), NoMemory>
    ensures { OnOk result (texts_behind texts.new.items ≡ texts_behind texts.old.items ++ texts_of_metric version row.now) }
{
    push_name(texts, version, &row.name)?;
    push_helps(texts, &row.short, &row.long)?;
    Ok(())
}

/// Adds the names and the helps of metrics.
fn push_of_metrics<'a>(
    texts: &mut Vec<&'a Text>,
    version: u32,
    rows: &'a [MetricRow],
) -> Result<(), NoMemory>
    ensures { OnOk result (texts_behind texts.new.items ≡ texts_behind texts.old.items ++ flat_map (texts_of_metric version) rows.now) }
{
    for row in rows {
        push_of_metric(texts, version, row)?;
    }
    Ok(())
}

/// Adds the text of a content, if it is one.
#[tactic(auto, using(crate::proofs::ReadTexts::read_none, crate::proofs::ReadTexts::read_more))]
fn push_content<'a>(texts: &mut Vec<&'a Text>, content: &'a Content) -> Result<(), NoMemory>
    ensures { OnOk result (texts_behind texts.new.items ≡ texts_behind texts.old.items ++ texts_in content.now) }
{
    match content {
        Content::Number(_) => {}
        Content::Choice(text) => texts.push(text)?,
        Content::Raw(_, _) => {}
    }
    Ok(())
}

/// Adds the texts of values.
fn push_of_values<'a>(texts: &mut Vec<&'a Text>, rows: &'a [ValueRow]) -> Result<(), NoMemory>
    ensures { OnOk result (texts_behind texts.new.items ≡ texts_behind texts.old.items ++ flat_map (λ row. texts_in row.content) rows.now) }
{
    for row in rows {
        push_content(texts, &row.content)?;
    }
    Ok(())
}

/// The texts to which the references of a draft lead, in the order of its rows.
fn reference_texts<'a>(alloc: Global, draft: &'a Layout) -> Result<Vec<&'a Text>, NoMemory>
    ensures { IfOk result (λ texts. texts_behind texts.items ≡ reference_texts draft.now) }
{
    let mut texts = Vec::new(alloc);
    push_of_domains(&mut texts, draft.indoms.as_slice())?;
    push_of_instances(&mut texts, draft.version, draft.indoms.as_slice())?;
    push_of_metrics(&mut texts, draft.version, draft.metrics.as_slice())?;
    push_of_values(&mut texts, draft.values.as_slice())?;
    Ok(texts)
}

/// Adds each of these texts that no string is equal to.
fn add_missing<'a>(
    alloc: Global,
    strings: &mut StringTable<'a>,
    texts: &[&'a Text],
) -> Result<(), NoMemory>
    ensures { OnOk result (strings.new ≡ with_missing strings.old (texts_behind texts.now)) }
{
    for text in texts {
        strings.add(alloc, *text)?;
    }
    Ok(())
}

/// The strings of the image of a draft.
#[tactic(auto, unfolding(crate::specs::Spelling::all_strings))]
pub fn all_strings<'a>(alloc: Global, draft: &'a Layout) -> Result<StringTable<'a>, NoMemory>
    ensures { IfOk result (λ strings. strings ≡ all_strings draft.now) }
{
    let texts = reference_texts(alloc, draft)?;
    let mut strings = StringTable::of(alloc, draft.strings.as_slice(), texts.as_slice())?;
    add_missing(alloc, &mut strings, texts.as_slice())?;
    Ok(strings)
}
