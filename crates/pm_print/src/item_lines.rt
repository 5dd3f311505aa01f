//! The lines of items that are looked at where they stand, one item after another.
ghost use Rattle.std.specs.Prelude.{◌≡◌, ◌++◌, true, IfOk, OnOk};
ghost use Rattle.archive_volume.specs.Items.{item_of};
ghost use Rattle.result_form.specs.Bodies.{as_body};
ghost use Rattle.pm_print.specs.Items.{item_text, sets_lines};
ghost use Rattle.pm_print.specs.Sets.{word_lines, block_lines, body_lines, set_lines};
ghost use Rattle.pm_print.specs.Starts.{IsSaid, AreSaid, IsLone, NamesNone};

use crate::instances::Instances;
use crate::items::{put_front, put_mark};
use crate::sets::{code_in, instances_of, put_block_line, put_status_line, put_word_line};
use crate::starts::{Start, Starts, start_of};
use archive_meta::MetaState;
use archive_volume::ItemView;
use pcp_base::{NoMemory, Stamp};
use result_form::{BlocksView, BodyView, ResultView, SetView, SetsView, WordsView};
use std::alloc::Global;
use std::marker::Model;

fn put_words(
    out: &mut Vec<u8>,
    head: &[u8],
    code: Option<u32>,
    instances: &Instances,
    values: WordsView<'_>,
) -> Result<(), NoMemory>
    ensures { OnOk result (out.new.items ≡ out.old.items ++ word_lines head.now code instances.now values.entry) }
{
    let mut left = values;
    let mut next = 0;
    while let Some(value) = left.next() {
        next = put_word_line(out, head, code, instances, value, next)?;
    }
    Ok(())
}

fn put_blocks(
    out: &mut Vec<u8>,
    head: &[u8],
    code: Option<u32>,
    instances: &Instances,
    values: BlocksView<'_>,
) -> Result<(), NoMemory>
    ensures { OnOk result (out.new.items ≡ out.old.items ++ block_lines head.now code instances.now values.entry) }
{
    let mut left = values;
    let mut next = 0;
    while let Some((instance, block)) = left.next() {
        next = put_block_line(out, head, code, instances, instance, block.bytes(), next)?;
    }
    Ok(())
}

fn put_body(
    out: &mut Vec<u8>,
    head: &[u8],
    code: Option<u32>,
    instances: &Instances,
    body: BodyView<'_>,
) -> Result<(), NoMemory>
    ensures { OnOk result (out.new.items ≡ out.old.items ++ body_lines head.now code instances.now (as_body body.entry)) }
{
    match body {
        BodyView::InPlace(values) => put_words(out, head, code, instances, values),
        BodyView::Blocks(values) => put_blocks(out, head, code, instances, values),
        BodyView::Status(status) => put_status_line(out, head, status),
    }
}

// Whether there is one value, of the null instance.
fn is_lone_word(values: WordsView<'_>) -> bool
    ensures { result ≡ true → IsLone values.entry }
{
    let mut left = values;
    let Some((instance, _)) = left.next() else {
        return false;
    };
    if instance != -1 {
        return false;
    }
    left.next().is_none()
}

// The same of blocks.
fn is_lone_block(values: BlocksView<'_>) -> bool
    ensures { result ≡ true → IsLone values.entry }
{
    let mut left = values;
    let Some((instance, _)) = left.next() else {
        return false;
    };
    if instance != -1 {
        return false;
    }
    left.next().is_none()
}

// Whether no instance is named, mostly: a set has a status, or one value of the null instance.
fn names_none(body: BodyView<'_>) -> bool
    ensures { result ≡ true → NamesNone (as_body body.entry) }
{
    match body {
        BodyView::InPlace(values) => is_lone_word(values),
        BodyView::Blocks(values) => is_lone_block(values),
        BodyView::Status(_) => true,
    }
}

// The lines of a set at a moment, by what is kept of its metric. The domain is looked up where an instance is named.
#[tactic(auto, unfolding(crate::specs::Sets::set_lines))]
fn put_set_lines(
    alloc: Global,
    out: &mut Vec<u8>,
    meta: &MetaState,
    stamp: Stamp,
    start: &Start,
    set: &SetView<'_>,
) -> Result<(), NoMemory>
    requires said { IsSaid meta.now start.now }
    requires metric { start.now.pmid ≡ set.now.pmid }
    ensures { OnOk result (out.new.items ≡ out.old.items ++ set_lines meta.now stamp set.now) }
{
    let code = code_in(&start.desc);
    if names_none(set.body()) {
        return put_body(out, &start.head, code, &Instances::none(), set.body());
    }
    let instances = instances_of(alloc, meta, &start.desc, stamp)?;
    put_body(out, &start.head, code, &instances, set.body())
}

fn put_set(
    alloc: Global,
    out: &mut Vec<u8>,
    meta: &MetaState,
    stamp: Stamp,
    starts: &mut Starts,
    set: &SetView<'_>,
) -> Result<(), NoMemory>
    requires { AreSaid meta.now starts.old.list.items }
    ensures put { OnOk result (out.new.items ≡ out.old.items ++ set_lines meta.now stamp set.now) }
    ensures said { AreSaid meta.now starts.new.list.items }
{
    let pmid = set.pmid();
    if let Some((place, start)) = starts.find(pmid) {
        put_set_lines(alloc, out, meta, stamp, start, set)?;
        starts.next = place.saturating_add(1);
        return Ok(());
    }
    let start = start_of(alloc, meta, pmid)?;
    put_set_lines(alloc, out, meta, stamp, &start, set)?;
    starts.keep(start)
}

fn put_sets(
    alloc: Global,
    out: &mut Vec<u8>,
    meta: &MetaState,
    stamp: Stamp,
    starts: &mut Starts,
    sets: SetsView<'_>,
) -> Result<(), NoMemory>
    requires { AreSaid meta.now starts.old.list.items }
    ensures put { OnOk result (out.new.items ≡ out.old.items ++ sets_lines meta.now stamp sets.entry) }
    ensures said { AreSaid meta.now starts.new.list.items }
{
    let mut left = sets;
    while let Some(set) = left.next() {
        put_set(alloc, out, meta, stamp, starts, &set)?;
    }
    Ok(())
}

#[tactic(auto, unfolding(crate::specs::Items::item_text))]
fn put_result(
    alloc: Global,
    out: &mut Vec<u8>,
    meta: &MetaState,
    starts: &mut Starts,
    read: &ResultView<'_>,
) -> Result<(), NoMemory>
    requires { AreSaid meta.now starts.old.list.items }
    ensures put { OnOk result (out.new.items ≡ out.old.items ++ item_text meta.now (item_of read.now)) }
    ensures said { AreSaid meta.now starts.new.list.items }
{
    let stamp = read.stamp();
    let sets = read.sets();
    if sets.len() == 0 {
        return put_mark(out, stamp, meta);
    }
    put_front(out, stamp, sets.len())?;
    put_sets(alloc, out, meta, stamp, starts, sets)
}

/// Prints the items of an archive one after another, each behind what stands there. What the lines of a metric begin with is
/// looked up in the records of Meta once, and kept.
#[derive(Drop)]
pub struct ItemLines<'a> {
    meta: &'a MetaState,
    starts: Starts,
}

impl<'a> Model for ItemLines<'a> {
    ghost use Rattle.std.specs.Prelude.{List as Sequence};
    ghost use Rattle.pcp_model.specs.declared.records.MetaRecord.{MetaRecord as Record};
    ghost use Rattle.pm_print.specs.Starts.{AreSaid};

    ghost Value = { Sequence Record };

    ghost view = { λ a. a.meta.now };

    ghost invariant = { λ a. AreSaid a.meta.now a.starts.list.items };
}

impl<'a> ItemLines<'a> {
    /// Prints by these records. Nothing is kept yet.
    pub fn of(alloc: Global, meta: &'a MetaState) -> ItemLines<'a>
        ensures { result ≡ meta.now }
    {
        ItemLines {
            meta,
            starts: Starts::none(alloc),
        }
    }

    /// Puts the text of an item behind what stands there, as `put_item` does.
    pub fn put(
        &mut self,
        alloc: Global,
        out: &mut Vec<u8>,
        item: &ItemView<'_>,
    ) -> Result<(), NoMemory>
        ensures same { self.new ≡ self.old }
        ensures put { OnOk result (out.new.items ≡ out.old.items ++ item_text self.old item.now) }
    {
        put_result(alloc, out, self.meta, &mut self.starts, item.result())
    }
}
