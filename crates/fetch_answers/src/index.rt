//! Metrics, and the rows of values, of a region by item, each in one pass over its section.
ghost use Rattle.std.specs.Prelude.{◌≡◌, ◌==◌, ℕ, false, if◌then◌else◌, Some, None, IfOk, OnOk, length, map};
ghost use Rattle.std.specs.Option.{option_or};
ghost use Rattle.std.specs.Ordering.{nat_cmp};
ghost use Rattle.std.specs.BTreeMap.{get};
ghost use Rattle.fetch_answers.specs.Indexes.{HasPlaces};
ghost use Rattle.fetch_answers.specs.Numbers.{HasNumbers, enumeration, numbers_at, subject_of, with_number};

use mmv_layout::{MetricRow, ValueRow};
use pcp_base::NoMemory;
use std::alloc::Global;
use std::collections::BTreeMap;

/// The numbers of values' rows by instance.
pub type RowNumbers = BTreeMap<i32, u32>;

/// Keeps the place of an item's metric, unless one was kept before.
fn keep_place(table: &mut BTreeMap<u32, usize>, item: u32, place: usize) -> Result<(), NoMemory>
    ensures { OnOk result ((other : ℕ) → get nat_cmp table.new other ≡ option_or (get nat_cmp table.old other) (if item == other then Some place else None)) }
{
    if table.contains_key(&item) {
        return Ok(());
    }
    table.insert(item, place)?;
    Ok(())
}

/// The places of metrics by item.
pub fn places_by_item(alloc: Global, rows: &[MetricRow]) -> Result<BTreeMap<u32, usize>, NoMemory>
    ensures { IfOk result (λ table. HasPlaces table rows.now) }
{
    let mut table: BTreeMap<u32, usize> = BTreeMap::new(alloc);
    for place in 0..rows.len() {
        keep_place(&mut table, rows[place].item, place)?;
    }
    Ok(table)
}

/// Takes the rows of an item out of a table.
fn take_rows(alloc: Global, table: &mut BTreeMap<u32, RowNumbers>, item: u32) -> RowNumbers
    ensures rows { result.entries ≡ numbers_at (get nat_cmp table.old item) }
    ensures others { (other : ℕ) → (item == other) ≡ false → get nat_cmp table.new other ≡ get nat_cmp table.old other }
{
    match table.remove(&item) {
        Some(rows) => rows,
        None => BTreeMap::new(alloc),
    }
}

/// Keeps the number of a value's row under its item and instance.
#[tactic(auto, using(crate::proofs::Numbers::row_kept))]
fn keep_row(
    alloc: Global,
    table: &mut BTreeMap<u32, RowNumbers>,
    row: &ValueRow,
    number: u32,
) -> Result<(), NoMemory>
    ensures { OnOk result ((item : ℕ) → numbers_at (get nat_cmp table.new item) ≡ with_number item (numbers_at (get nat_cmp table.old item)) (number, subject_of row.now)) }
{
    let mut rows = take_rows(alloc, table, row.item);
    rows.insert(row.instance.unwrap_or(-1), number)?;
    table.insert(row.item, rows)?;
    Ok(())
}

/// The rows by item, and those of each item by instance.
#[tactic(auto, using(crate::proofs::Numbers::rows_step, crate::proofs::Numbers::all_rows_kept))]
pub fn rows_by_item(
    alloc: Global,
    rows: &[ValueRow],
    count: u32,
) -> Result<BTreeMap<u32, RowNumbers>, NoMemory>
    requires { count ≡ length rows.now }
    ensures { IfOk result (λ table. HasNumbers table (enumeration 0 (map subject_of rows.now))) }
{
    let mut table: BTreeMap<u32, RowNumbers> = BTreeMap::new(alloc);
    for number in 0..count {
        keep_row(alloc, &mut table, &rows[number as usize], number)?;
    }
    Ok(table)
}
