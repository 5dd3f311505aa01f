//! The row of a sample, which rules watch: its numbers by the first names of their metrics and by instance. Of a name that no
//! rule speaks of nothing is copied.
ghost use Rattle.std.specs.Prelude.{◌≡◌, ◌++◌, [], map, not, bytes_eq, IfOk, IfSome, OnOk};
ghost use Rattle.std.specs.List.{list_any};
ghost use Rattle.std.specs.Option.{option_copied};
ghost use Rattle.std.specs.Ordering.{int_eq};
ghost use Rattle.archive_meta.specs.Said.{description_of, names_of};
ghost use Rattle.log_summary.specs.Numbers.{word_number};
ghost use Rattle.rule_watch.specs.Laws.{watched_row};
ghost use Rattle.rule_watch.specs.Rules.{is_watched};
ghost use Rattle.rule_watch.specs.Shown.{rules_of};
ghost use Rattle.rule_watch.specs.Watched.{AreValues};
ghost use Rattle.rule_watch.specs.Windows.{IsValue};
ghost use Rattle.pm_tasks.specs.Rows.{block_pair, entries_with, entry, first_of, firsts, if_watched, instances_with, names_with, numbers_of, row_of, row_with, watched_name, with_name, word_pair};

use archive_meta::MetaState;
use indexmap::IndexSet;
use log_summary::{block_number, code_of, word_number};
use pcp_base::{Block, Body, Duplicate, List, NoMemory, Pmid, Text, ValueSet};
use rule_watch::Watch;
use std::alloc::Global;
use std::marker::Model;

/// The numbers of a sample, each with its name and instance.
pub(crate) type Row = List<(Text, i32, i128)>;

// Names, each once.
#[derive(Drop)]
struct Names {
    names: IndexSet<Vec<u8>>,
}

impl Model for Names {
    ghost use Rattle.std.specs.Prelude.{List as Sequence, ℕ, map};

    ghost Value = { Sequence (Sequence ℕ) };

    ghost view = { λ n. map (λ name. name.items) n.names.keys };
}

impl Names {
    fn none(alloc: Global) -> Names
        ensures { result ≡ [] }
    {
        Names {
            names: IndexSet::new(alloc),
        }
    }

    // Adds a name, and tells whether it wasn't among them.
    fn add(&mut self, alloc: Global, name: &[u8]) -> Result<bool, NoMemory>
        ensures fresh { IfOk result (λ fresh. fresh ≡ not (list_any (bytes_eq name.now) self.old)) }
        ensures names { OnOk result (self.new ≡ with_name self.old name.now) }
    {
        let name = Vec::from_slice(alloc, name)?;
        let fresh = self.names.insert(name)?;
        Ok(fresh)
    }
}

// Puts an instance's number behind the others, unless it has one already.
fn put_number(
    alloc: Global,
    seen: &mut IndexSet<i32>,
    row: &mut Row,
    name: &Text,
    instance: i32,
    number: Option<i128>,
) -> Result<(), NoMemory>
    requires number { IfSome number IsValue }
    requires values { AreValues row.old }
    ensures seen { OnOk result (seen.new.keys ≡ instances_with instance number seen.old.keys) }
    ensures row { OnOk result (row.new ≡ entries_with name.now seen.old.keys instance number row.old) }
    ensures values { OnOk result (AreValues row.new) }
{
    let Some(number) = number else {
        return Ok(());
    };
    if seen.insert(instance)? {
        let name = name.copy(alloc)?;
        row.push((name, instance, number))?;
    }
    Ok(())
}

// Puts the number of a value of 32 bits, if it is one.
fn put_word(
    alloc: Global,
    seen: &mut IndexSet<i32>,
    row: &mut Row,
    name: &Text,
    code: Option<u32>,
    value: &(i32, u32),
) -> Result<(), NoMemory>
    requires values { AreValues row.old }
    ensures seen { OnOk result (seen.new.keys ≡ instances_with value.now.0 (word_number code value.now.1) seen.old.keys) }
    ensures row { OnOk result (row.new ≡ entries_with name.now seen.old.keys value.now.0 (word_number code value.now.1) row.old) }
    ensures values { OnOk result (AreValues row.new) }
{
    put_number(alloc, seen, row, name, value.0, word_number(code, value.1))
}

// Puts the numbers of values of 32 bits behind those of the sets before.
fn put_words(
    alloc: Global,
    row: &mut Row,
    name: &Text,
    code: Option<u32>,
    values: &[(i32, u32)],
) -> Result<(), NoMemory>
    requires values { AreValues row.old }
    ensures row { OnOk result (row.new ≡ row.old ++ map (entry name.now) (firsts int_eq (word_pair code) values.now)) }
    ensures values { OnOk result (AreValues row.new) }
{
    let mut seen = IndexSet::new(alloc);
    for value in values {
        put_word(alloc, &mut seen, row, name, code, value)?;
    }
    Ok(())
}

// Puts the numbers of values in blocks behind those of the sets before.
fn put_blocks(
    alloc: Global,
    row: &mut Row,
    name: &Text,
    code: Option<u32>,
    values: &[(i32, Block)],
) -> Result<(), NoMemory>
    requires values { AreValues row.old }
    ensures row { OnOk result (row.new ≡ row.old ++ map (entry name.now) (firsts int_eq (block_pair code) values.now)) }
    ensures values { OnOk result (AreValues row.new) }
{
    let mut seen = IndexSet::new(alloc);
    for value in values {
        let number = block_number(code, value.1.bytes());
        put_number(alloc, &mut seen, row, name, value.0, number)?;
    }
    Ok(())
}

fn put_body(
    alloc: Global,
    row: &mut Row,
    name: &Text,
    code: Option<u32>,
    body: &Body,
) -> Result<(), NoMemory>
    requires values { AreValues row.old }
    ensures row { OnOk result (row.new ≡ row.old ++ map (entry name.now) (numbers_of code body.now)) }
    ensures values { OnOk result (AreValues row.new) }
{
    match body {
        Body::InPlace(values) => put_words(alloc, row, name, code, values.as_slice()),
        Body::Blocks(values) => put_blocks(alloc, row, name, code, values.as_slice()),
        Body::Status(_) => Ok(()),
    }
}

// The first name of a metric's description.
fn first_name(meta: &MetaState, pmid: Pmid) -> Option<&Text>
    ensures { option_copied result ≡ first_of (names_of (description_of pmid meta.now)) }
{
    match meta.names(pmid) {
        Some(names) => names.get(0),
        None => None,
    }
}

// That name, if a rule speaks of it.
fn watched_name<'a>(meta: &'a MetaState, watch: &Watch, pmid: Pmid) -> Option<&'a Text>
    ensures { option_copied result ≡ if_watched (is_watched (rules_of watch.now)) (first_of (names_of (description_of pmid meta.now))) }
{
    let name = first_name(meta, pmid)?;
    if !watch.watches(name.as_slice()) {
        return None;
    }
    Some(name)
}

// Puts the numbers of a set that is watched behind the others, unless a set before it is of its name.
fn put_set(
    alloc: Global,
    meta: &MetaState,
    watch: &Watch,
    names: &mut Names,
    row: &mut Row,
    set: &ValueSet,
) -> Result<(), NoMemory>
    requires values { AreValues row.old }
    ensures names { OnOk result (names.new ≡ names_with (watched_name (is_watched (rules_of watch.now)) meta.now set.now) names.old) }
    ensures row { OnOk result (row.new ≡ row_with meta.now set.now (watched_name (is_watched (rules_of watch.now)) meta.now set.now) names.old row.old) }
    ensures values { OnOk result (AreValues row.new) }
{
    let Some(name) = watched_name(meta, watch, set.pmid) else {
        return Ok(());
    };
    if !names.add(alloc, name.as_slice())? {
        return Ok(());
    }
    put_body(alloc, row, name, code_of(meta, set.pmid), &set.body)
}

/// The row of a sample's sets, without the values of names that aren't watched.
pub(crate) fn row_of(
    alloc: Global,
    meta: &MetaState,
    watch: &Watch,
    sets: &[ValueSet],
) -> Result<Row, NoMemory>
    ensures row { IfOk result (λ row. row ≡ watched_row (rules_of watch.now) (row_of meta.now sets.now)) }
    ensures values { IfOk result AreValues }
{
    let mut names = Names::none(alloc);
    let mut row = List::empty(alloc);
    for set in sets {
        put_set(alloc, meta, watch, &mut names, &mut row, set)?;
    }
    Ok(row)
}
