//! Counts by metric and instance.
ghost use Rattle.std.specs.Prelude.{◌≡◌, ◌<◌, [], ◌∷◌, fold, length, true, Some, slice_get, OnOk};
ghost use Rattle.std.specs.Option.{option_copied};
ghost use Rattle.archive_meta.specs.Said.{description_of, desc_of};
ghost use Rattle.archive_volume.specs.Items.{item_of};
ghost use Rattle.result_form.specs.Bodies.{as_body};
ghost use Rattle.log_summary.specs.declared.tally.Tally.{Tally as Told};
ghost use Rattle.log_summary.specs.Tables.{Key, joined_to, put, merged, counted};
ghost use Rattle.log_summary.specs.Tallies.{single};
ghost use Rattle.log_summary.specs.Values.{with_value, word_values, block_values, body_values, code_in, set_values, sets_values, item_values};

use crate::numbers::{block_number, word_number};
use crate::tally::Tally;
use archive_meta::MetaState;
use indexmap::IndexMap;
use pcp_base::{NoMemory, Pmid, Stamp};
use result_form::{BlocksView, BodyView, ResultView, SetView, SetsView, WordsView};
use std::alloc::Global;
use std::marker::Model;

/// What was counted, by a metric's word and an instance's number, in the order in which they were first counted. The values of
/// a sample mostly come in the order of those of the sample before, so each is looked for first in the row behind the one
/// counted last, and only where it isn't there by a hash.
#[derive(Drop)]
pub struct Table {
    pub(crate) tallies: IndexMap<(u32, i32), Tally>,
    // The row behind the one counted last.
    next: usize,
}

impl Model for Table {
    ghost use Rattle.log_summary.specs.Tables.{Rows};

    ghost Value = { Rows };

    ghost view = { λ t. t.tallies.entries };
}

// What was counted behind what there is.
fn joined_to(before: Option<&Tally>, tally: Tally) -> Tally
    ensures { result ≡ joined_to (option_copied before.entry) tally }
{
    match before {
        Some(before) => before.joined(&tally),
        None => tally,
    }
}

/// The type code of a metric's description.
pub fn code_of(meta: &MetaState, pmid: Pmid) -> Option<u32>
    ensures { result ≡ code_in (desc_of (description_of pmid meta.now)) }
{
    match meta.desc(pmid) {
        Some(desc) => Some(desc.code),
        None => None,
    }
}

impl Table {
    /// Nothing is counted.
    pub fn empty(alloc: Global) -> Table
        ensures { result ≡ [] }
    {
        Table {
            tallies: IndexMap::new(alloc),
            next: 0,
        }
    }

    // Puts what was counted of one instance behind what the table has of it.
    fn put(&mut self, key: (u32, i32), tally: Tally) -> Result<(), NoMemory>
        ensures { OnOk result (self.new ≡ put self.old (key, tally)) }
    {
        let tally = joined_to(self.tallies.get(&key), tally);
        let (row, _) = self.tallies.insert_full(key, tally)?;
        self.next = row.wrapping_add(1);
        Ok(())
    }

    // The row where a value is looked for first: the one behind the last counted, and behind the last row the first.
    fn expected(&self) -> usize {
        if self.next < self.tallies.len() {
            self.next
        } else {
            0
        }
    }

    // Whether a row is of this metric's instance.
    fn is_at(&self, row: usize, key: (u32, i32)) -> bool
        ensures { result ≡ true → (row < length self.now) × (tally : Told) × (slice_get self.now row ≡ Some (key, tally)) }
    {
        match self.tallies.get_index(row) {
            Some((found, _)) => *found == key,
            None => false,
        }
    }

    // Puts what was counted of the instance whose row this is behind what the row has.
    fn join_at(&mut self, row: usize, tally: &Tally)
        requires { row < length self.old }
        ensures { (key : Key) (before : Told) → slice_get self.old row ≡ Some (key, before) → self.new ≡ put self.old (key, tally.now) }
    {
        let (_, before) = self.tallies.pair_mut(row);
        *before = before.joined(tally);
        self.next = row.wrapping_add(1);
    }

    // Counts a number of an instance.
    fn count_one(&mut self, key: (u32, i32), number: i128, stamp: Stamp) -> Result<(), NoMemory>
        ensures { OnOk result (self.new ≡ put self.old (key, single number stamp)) }
    {
        let row = self.expected();
        let tally = Tally::single(number, stamp);
        if self.is_at(row, key) {
            self.join_at(row, &tally);
            return Ok(());
        }
        self.put(key, tally)
    }

    fn count_number(
        &mut self,
        pmid: Pmid,
        stamp: Stamp,
        instance: i32,
        number: Option<i128>,
    ) -> Result<(), NoMemory>
        ensures { OnOk result (self.new ≡ fold counted self.old (with_value pmid stamp instance number [])) }
    {
        match number {
            Some(number) => self.count_one((pmid.word(), instance), number, stamp),
            None => Ok(()),
        }
    }

    #[tactic(auto, using(crate::proofs::Counting::number_more))]
    fn count_words(
        &mut self,
        code: Option<u32>,
        pmid: Pmid,
        stamp: Stamp,
        values: WordsView<'_>,
    ) -> Result<(), NoMemory>
        ensures { OnOk result (self.new ≡ fold counted self.old (word_values code pmid stamp values.entry)) }
    {
        let mut left = values;
        while let Some((instance, word)) = left.next() {
            self.count_number(pmid, stamp, instance, word_number(code, word))?;
        }
        Ok(())
    }

    #[tactic(auto, using(crate::proofs::Counting::number_more))]
    fn count_blocks(
        &mut self,
        code: Option<u32>,
        pmid: Pmid,
        stamp: Stamp,
        values: BlocksView<'_>,
    ) -> Result<(), NoMemory>
        ensures { OnOk result (self.new ≡ fold counted self.old (block_values code pmid stamp values.entry)) }
    {
        let mut left = values;
        while let Some((instance, block)) = left.next() {
            let number = block_number(code, block.bytes());
            self.count_number(pmid, stamp, instance, number)?;
        }
        Ok(())
    }

    fn count_body(
        &mut self,
        code: Option<u32>,
        pmid: Pmid,
        stamp: Stamp,
        body: BodyView<'_>,
    ) -> Result<(), NoMemory>
        ensures { OnOk result (self.new ≡ fold counted self.old (body_values code pmid stamp (as_body body.entry))) }
    {
        match body {
            BodyView::InPlace(values) => self.count_words(code, pmid, stamp, values),
            BodyView::Blocks(values) => self.count_blocks(code, pmid, stamp, values),
            BodyView::Status(_) => Ok(()),
        }
    }

    fn count_set(
        &mut self,
        meta: &MetaState,
        stamp: Stamp,
        set: &SetView<'_>,
    ) -> Result<(), NoMemory>
        ensures { OnOk result (self.new ≡ fold counted self.old (set_values meta.now stamp set.now)) }
    {
        let pmid = set.pmid();
        let code = code_of(meta, pmid);
        self.count_body(code, pmid, stamp, set.body())
    }

    #[tactic(auto, using(crate::proofs::Counting::values_more))]
    fn count_sets(
        &mut self,
        meta: &MetaState,
        stamp: Stamp,
        sets: SetsView<'_>,
    ) -> Result<(), NoMemory>
        ensures { OnOk result (self.new ≡ fold counted self.old (sets_values meta.now stamp sets.entry)) }
    {
        let mut left = sets;
        while let Some(set) = left.next() {
            self.count_set(meta, stamp, &set)?;
        }
        Ok(())
    }

    /// Counts the numbers of a result, as an item, behind those counted. After a refusal some of them may be counted.
    pub fn count(&mut self, meta: &MetaState, read: &ResultView<'_>) -> Result<(), NoMemory>
        ensures { OnOk result (self.new ≡ fold counted self.old (item_values meta.now (item_of read.now))) }
    {
        self.count_sets(meta, read.stamp(), read.sets())?;
        Ok(())
    }

    /// Puts what another table counted behind what this one did. After a refusal some of it may be there.
    pub fn merge(&mut self, other: Table) -> Result<(), NoMemory>
        ensures { OnOk result (self.new ≡ merged self.old other) }
    {
        let Table { tallies, next: _ } = other;
        for (key, tally) in tallies {
            self.put(key, tally)?;
        }
        Ok(())
    }
}
