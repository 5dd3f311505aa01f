//! The descriptions of an archive as text.
ghost use Rattle.std.specs.Prelude.{◌≡◌, ◌++◌, fold, IfOk, OnOk};
ghost use Rattle.pcp_base.specs.Codes.{kind_of_code, semantics_of_code};
ghost use Rattle.archive_meta.specs.Said.{description_of, described_metrics};
ghost use Rattle.pm_print.specs.Infos.{with_name, with_metric, rows_of, kind_or, semantics_or, indom_part, desc_parts, row_line, rows_text, info_text};
ghost use Rattle.pm_print.specs.Rows.{listed_rows};

use crate::sets::put_pmid;
use crate::values::put_decimal;
use archive_meta::MetaState;
use pcp_base::{Bytes, Desc, InDom, Kind, List, NoMemory, Pmid, Semantics, Text};
use std::alloc::Global;
use std::collections::BTreeMap;
use text_lines::{put_hex_part, put_kind, put_number, put_semantics};

// Descriptions by name, and for equal names by the number of the row.
type Rows = BTreeMap<(Vec<u8>, usize), Desc>;

// The rows with one more.
fn add_name(alloc: Global, rows: &mut Rows, desc: &Desc, name: &Text) -> Result<(), NoMemory>
    ensures { OnOk result (listed_rows rows.new ≡ with_name desc.now (listed_rows rows.old) name.now) }
{
    let count = rows.len();
    let key = Vec::from_slice(alloc, name.as_slice())?;
    rows.insert((key, count), *desc)?;
    Ok(())
}

fn add_names(alloc: Global, rows: &mut Rows, desc: &Desc, names: &[Text]) -> Result<(), NoMemory>
    ensures { OnOk result (listed_rows rows.new ≡ fold (with_name desc.now) (listed_rows rows.old) names.now) }
{
    for name in names {
        add_name(alloc, rows, desc, name)?;
    }
    Ok(())
}

// A row for each name of a metric.
fn add_metric(alloc: Global, rows: &mut Rows, meta: &MetaState, pmid: Pmid) -> Result<(), NoMemory>
    ensures { OnOk result (listed_rows rows.new ≡ with_metric meta.now (listed_rows rows.old) pmid) }
{
    match (meta.desc(pmid), meta.names(pmid)) {
        (Some(desc), Some(names)) => add_names(alloc, rows, desc, names.as_slice()),
        _ => Ok(()),
    }
}

fn add_metrics(
    alloc: Global,
    rows: &mut Rows,
    meta: &MetaState,
    pmids: &[Pmid],
) -> Result<(), NoMemory>
    ensures { OnOk result (listed_rows rows.new ≡ fold (with_metric meta.now) (listed_rows rows.old) pmids.now) }
{
    for pmid in pmids {
        add_metric(alloc, rows, meta, *pmid)?;
    }
    Ok(())
}

// The rows of all metrics.
#[tactic(auto, unfolding(crate::specs::Infos::rows_of))]
fn all_rows(alloc: Global, meta: &MetaState) -> Result<Rows, NoMemory>
    ensures { IfOk result (λ rows. listed_rows rows ≡ rows_of meta.now) }
{
    let pmids = meta.pmids(alloc)?;
    let mut rows = BTreeMap::new(alloc);
    add_metrics(alloc, &mut rows, meta, pmids.as_slice())?;
    Ok(rows)
}

fn put_kind_code(out: &mut Vec<u8>, code: u32) -> Result<(), NoMemory>
    ensures { OnOk result (out.new.items ≡ out.old.items ++ kind_or (kind_of_code code) code) }
{
    match Kind::of_code(code) {
        Some(kind) => put_kind(out, kind),
        None => put_number(out, code as u64),
    }
}

fn put_semantics_code(out: &mut Vec<u8>, code: u32) -> Result<(), NoMemory>
    ensures { OnOk result (out.new.items ≡ out.old.items ++ semantics_or (semantics_of_code code) code) }
{
    match Semantics::of_code(code) {
        Some(semantics) => put_semantics(out, semantics),
        None => put_number(out, code as u64),
    }
}

#[tactic(auto, unfolding(crate::specs::Infos::indom_part))]
fn put_indom(out: &mut Vec<u8>, indom: InDom) -> Result<(), NoMemory>
    ensures { OnOk result (out.new.items ≡ out.old.items ++ indom_part indom) }
{
    if indom == InDom::null() {
        out.extend_from_slice(b" -")?;
        return Ok(());
    }
    out.push(b' ')?;
    put_decimal(out, indom.domain() as u64)?;
    out.push(b'.')?;
    put_decimal(out, indom.serial() as u64)?;
    Ok(())
}

// ` KIND INDOM SEMANTICS UNITS`
#[tactic(auto, unfolding(crate::specs::Infos::desc_parts))]
fn put_desc(out: &mut Vec<u8>, desc: &Desc) -> Result<(), NoMemory>
    ensures { OnOk result (out.new.items ≡ out.old.items ++ desc_parts desc.now) }
{
    put_kind_code(out, desc.code)?;
    put_indom(out, desc.indom)?;
    put_semantics_code(out, desc.semantics)?;
    put_hex_part(out, 8, desc.units.word() as u64)?;
    Ok(())
}

// `NAME D.C.I KIND INDOM SEMANTICS UNITS`
#[tactic(auto, unfolding(crate::specs::Infos::row_line))]
fn put_row(out: &mut Vec<u8>, name: &[u8], desc: &Desc) -> Result<(), NoMemory>
    ensures { OnOk result (out.new.items ≡ out.old.items ++ row_line name.now desc.now) }
{
    out.extend_from_slice(name)?;
    out.push(b' ')?;
    put_pmid(out, desc.pmid)?;
    put_desc(out, desc)?;
    out.push(b'\n')?;
    Ok(())
}

fn put_rows(out: &mut Vec<u8>, rows: &Rows) -> Result<(), NoMemory>
    ensures { OnOk result (out.new.items ≡ out.old.items ++ rows_text (listed_rows rows.now)) }
{
    let mut rest = rows.range(..);
    while let Some((key, desc)) = rest.next() {
        put_row(out, key.0.as_slice(), desc)?;
    }
    Ok(())
}

/// The text of all descriptions: a line for each name, by name in byte order, and for equal names in the order in which
/// the metrics are first described. A description without a name has no line.
#[tactic(auto, unfolding(crate::specs::Infos::info_text))]
pub fn info_text(alloc: Global, meta: &MetaState) -> Result<Bytes, NoMemory>
    ensures { IfOk result (λ text. text ≡ info_text meta.now) }
{
    let rows = all_rows(alloc, meta)?;
    let mut out = Vec::new(alloc);
    put_rows(&mut out, &rows)?;
    Ok(List::from_vec(out))
}
