//! A region: its words and its gate in one table, each changed in single atomic steps.
ghost use Rattle.std.specs.Prelude.{◌≡◌, ◌+◌, ◌-◌, ◌<◌, ◌≤◌, [], ◌∷◌, ◌++◌, length, slice_index, IfOk, MatchResult};
ghost use Rattle.std.specs.Slots.{slots_items, slots_len, IsFull};
ghost use Rattle.region_core.specs.State.{with_zeros};
ghost use Rattle.region_rule.specs.Views.{fresh_view, numbers_from};
ghost use Rattle.region_rule.specs.Calls.{Opens, OpensNot, Closes, fresh_from};

use crate::fault::{NoMemory, OpenFault};
use crate::opening::Opening;
use crate::pass::Pass;
use crate::rule::Rule;
use crate::view::View;
use atomic_table::{Closed, Seat, Table};
use region_core::{Shape, padding_keeps_the_form};
use std::alloc::{AllocError, Global};
use std::marker::Model;

/// The words of a region, and its gate, which threads share. Word 0 of its table is the gate, and the image words follow.
pub struct Region<S: Shape> {
    pub(crate) table: Table<(), View, Opening, Rule<S>, Global>,
    pub(crate) capacity: u32,
}

impl<S: Shape> Model for Region<S> {
    ghost use Rattle.std.specs.Prelude.{◌≡◌, ◌+◌, ◌<◌, All, length};
    ghost use Rattle.region_core.specs.Shape.{IsWord};
    ghost use Rattle.region_rule.specs.Seats.{MadeRegion};

    ghost Value = { MadeRegion };

    ghost view = { λ r. record { table = r.table.shared.table_id; words = r.table.shared.key.words; passes = r.table.shared.key.passes } };

    ghost invariant = { λ r. (r.table.shared.table_id.words ≡ length r.table.shared.key.words + 1) × (length r.table.shared.key.words ≡ r.capacity) × (2 < r.capacity) × (r.table.shared.table_id.slots ≡ 0) × All IsWord r.table.shared.key.words };
}

impl<S: Shape> Region<S> {
    fn into_table(self) -> Table<(), View, Opening, Rule<S>, Global>
        ensures region { (result.shared.table_id ≡ self.table) × (result.shared.key.words ≡ self.words) × (result.shared.key.passes ≡ self.passes) }
        ensures counts { (result.shared.table_id.words ≡ length self.words + 1) × (result.shared.table_id.slots ≡ 0) }
    {
        let Self { table, capacity: _ } = self;
        table
    }
}

impl<S: Shape> Drop for Region<S> {
    fn drop(self) {
        let Self { table, capacity: _ } = self;
        drop(table);
    }
}

/// The image words of a table that no thread shares any more. The list comes in with as many words as the capacity.
fn copy_words(closed: &Closed<(), Global>, words: &mut Vec<u64>)
    requires { IsFull closed.now.words × (slots_len closed.now.words ≡ length words.old.items + 1) }
    ensures { slots_items closed.now.words ≡ slice_index (slots_items closed.now.words) 0 ∷ words.new.items }
{
    let mut index = 0;
    while index < words.len() {
        words[index] = closed.word(index + 1);
        index += 1;
    }
}

impl<S: Shape> Region<S> {
    /// Makes a region of this image, of the given capacity in words, and so many passes, numbered from 0 upwards.
    /// `TooLarge` comes exactly where the image has more words. Words behind the image are 0.
    pub fn make(
        alloc: Global,
        image: &[u64],
        capacity: u32,
        passes: u32,
    ) -> Result<(Region<S>, Vec<Pass>), OpenFault>
        requires image { S.shaping.IsImage image.now }
        requires capacity { capacity ≤ 65536 }
        requires passes { (0 < passes) × (passes ≤ 256) }
        ensures { MatchResult result (λ made. Opens image.now capacity passes made.0 made.1.items) (OpensNot image.now capacity) }
    {
        if image.len() > capacity as usize {
            return Err(OpenFault::TooLarge {
                need: image.len() as u64,
                capacity: capacity as u64,
            });
        }
        let (region, seat) = Region::open(alloc, image, capacity, passes)?;
        let passes = region.hand_out(alloc, seat, passes)?;
        Ok((region, passes))
    }

    /// The region, and the seat of its first pass, which keeps all other numbers.
    fn open(
        alloc: Global,
        image: &[u64],
        capacity: u32,
        passes: u32,
    ) -> Result<(Region<S>, Seat<(), View>), AllocError>
        requires image { S.shaping.IsImage image.now }
        requires fits { (length image.now ≤ capacity) × (capacity ≤ 65536) }
        requires passes { (0 < passes) × (passes ≤ 256) }
        ensures { IfOk result (λ made. (made.0.words ≡ with_zeros image.now capacity) × (made.0.passes ≡ passes) × (made.1.table_id ≡ made.0.table) × (made.1.me ≡ (fresh_view made.0.words passes 0 (numbers_from 1 (passes - 1)), []))) }
    {
        padding_keeps_the_form::<S>();
        let opening = Opening::of_image(alloc, image, capacity, passes)?;
        let (table, seat) = Table::of_words(alloc, opening.cells(), &opening)?;
        Ok((Region { table, capacity }, seat))
    }

    /// A pass for each number.
    fn hand_out(
        &self,
        alloc: Global,
        first: Seat<(), View>,
        passes: u32,
    ) -> Result<Vec<Pass>, AllocError>
        requires passes { (0 < passes) × (passes ≡ self.now.passes) }
        requires first { (first.table_id ≡ self.now.table) × (first.me ≡ (fresh_view self.now.words passes 0 (numbers_from 1 (passes - 1)), [])) }
        ensures { IfOk result (λ given. given.items ≡ fresh_from self.now 0 passes) }
    {
        let mut given = Vec::with_capacity(alloc, passes as usize)?;
        let mut seat = first;
        let mut number = 0;
        while number + 1 < passes {
            let next = self.hand_on(&mut seat, number);
            given.push(Pass { number, seat })?;
            seat = next;
            number += 1;
        }
        given.push(Pass { number, seat })?;
        Ok(given)
    }

    /// The capacity in words: the image, and the words behind it.
    pub fn capacity(&self) -> u32
        ensures { result ≡ length self.now.words }
    {
        self.capacity
    }

    /// Ends the region, and gives its words: those of the last state of a legal journal that begins with all that the pass
    /// has seen, and in which neither the pass nor one that it gathered has a further entry.
    pub fn close(self, alloc: Global, pass: Pass) -> Result<Vec<u64>, (Region<S>, Pass, NoMemory)>
        requires here { pass.region ≡ self }
        ensures { MatchResult result (λ words. Closes S.shaping pass.view words.items) (λ kept. (kept.0 ≡ self) × (kept.1 ≡ pass)) }
    {
        let Ok(mut words) = Vec::from_elem(alloc, 0u64, self.capacity as usize) else {
            return Err((self, pass, NoMemory));
        };
        let Pass { number: _, seat } = pass;
        let closed = self.into_table().close_with(seat);
        copy_words(&closed, &mut words);
        closed.free();
        Ok(words)
    }
}
