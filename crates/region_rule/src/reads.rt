//! Reads of all words, and of chosen ones.
ghost use Rattle.std.specs.Prelude.{◌≡◌, ◌<◌, MatchResult, All, length};
ghost use Rattle.std.specs.List.{zip};
ghost use Rattle.region_core.specs.declared.mode.Mode.TheVariants.{Idle, Attached};
ghost use Rattle.region_rule.specs.Seats.{IsSeatOf, IsSame};
ghost use Rattle.region_rule.specs.Reads.{Reads, numbered_from, ReadsImage, ReadsNot, StaysIdle, ReadsInside, ReadsChosen, ReadsChosenNot};

use crate::fault::{ReadFault, ValueFault};
use crate::pass::Pass;
use crate::region::Region;
use crate::stint::Stint;
use crate::view::View;
use atomic_table::Seat;
use region_core::Shape;
use std::alloc::Global;

impl<S: Shape> Region<S> {
    /// Loads every word by rising index.
    fn load_all(&self, seat: &mut Seat<(), View>, words: &mut Vec<u64>)
        requires here { IsSeatOf self.now seat.old }
        requires wide { length words.old.items ≡ length self.now.words }
        ensures reads { Reads S.shaping seat.old.me.0 (numbered_from 0 words.new.items) seat.new.me.0 }
        ensures wide { length words.new.items ≡ length words.old.items }
        ensures some { 0 < length words.new.items }
        ensures seat { IsSeatOf self.now seat.new × (seat.new.me.1 ≡ seat.old.me.1) × (seat.new.me.0.number ≡ seat.old.me.0.number) × (seat.new.me.0.mode ≡ seat.old.me.0.mode) }
    {
        let mut index = 0;
        while index < self.capacity {
            let found = self.load(seat, index);
            words[index as usize] = found;
            index += 1;
        }
    }

    /// Reads all words: generation 2, each word by rising index, and generation 1. `Ok` comes exactly where the two numbers
    /// are equal, and the words are then an image of one layout; `Again` carries both numbers where they differ.
    pub fn read_words(&self, alloc: Global, pass: &mut Pass) -> Result<Vec<u64>, ReadFault>
        requires here { pass.old.region ≡ self.now }
        ensures reads { MatchResult
            result
            (λ words. ReadsImage S.shaping pass.old.view words.items pass.new.view)
            (ReadsNot S.shaping pass.old.view pass.new.view) }
        ensures stays { MatchResult result (λ _. IsSame Idle Idle pass.old pass.new) (StaysIdle pass.old pass.new) }
    {
        let mut words = Vec::from_elem(alloc, 0u64, self.capacity as usize)?;
        let first = self.load_second(&mut pass.seat);
        self.load_all(&mut pass.seat, &mut words);
        let last = self.load_first(&mut pass.seat);
        if first != last {
            return Err(ReadFault::Again { first, last });
        }
        Ok(words)
    }

    /// Loads these words in order.
    fn load_each(&self, seat: &mut Seat<(), View>, indexes: &[u32], out: &mut [u64])
        requires here { IsSeatOf self.now seat.old }
        requires long { length out.old ≡ length indexes.now }
        requires below { All (λ index. index < length self.now.words) indexes.now }
        ensures reads { Reads S.shaping seat.old.me.0 (zip indexes.now out.new) seat.new.me.0 }
        ensures long { length out.new ≡ length out.old }
        ensures seat { IsSeatOf self.now seat.new × (seat.new.me.1 ≡ seat.old.me.1) × (seat.new.me.0.number ≡ seat.old.me.0.number) × (seat.new.me.0.mode ≡ seat.old.me.0.mode) }
    {
        let mut at = 0;
        while at < indexes.len() {
            let found = self.load(seat, indexes[at]);
            out[at] = found;
            at += 1;
        }
    }

    /// Reads these words, if generation 2 is the known one: generation 2 first, then the words in order, and generation 1.
    /// `Newer` comes exactly where generation 2 is another one, and nothing else was loaded then; then `Again` exactly where
    /// generation 1 differs from it. What is in `out` after a refusal is not said.
    pub fn read_chosen(
        &self,
        pass: &mut Pass,
        known: u64,
        indexes: &[u32],
        out: &mut [u64],
    ) -> Result<(), ValueFault>
        requires here { pass.old.region ≡ self.now }
        requires long { length out.old ≡ length indexes.now }
        requires below { All (λ index. index < length self.now.words) indexes.now }
        ensures reads { MatchResult
            result
            (λ _. ReadsChosen S.shaping pass.old.view known indexes.now out.new pass.new.view)
            (ReadsChosenNot S.shaping pass.old.view known indexes.now pass.new.view) }
        ensures long { length out.new ≡ length out.old }
        ensures stays { IsSame Idle Idle pass.old pass.new }
    {
        let first = self.load_second(&mut pass.seat);
        if first != known {
            return Err(ValueFault::Newer { found: first });
        }
        self.load_each(&mut pass.seat, indexes, out);
        let last = self.load_first(&mut pass.seat);
        if last != first {
            return Err(ValueFault::Again { first, last });
        }
        Ok(())
    }
}

impl Stint {
    /// Loads every word by rising index into a list that has as many. No change runs meanwhile, so they are an image of the
    /// form of what the stint has seen, which is the region's.
    pub fn words<S: Shape>(&mut self, region: &Region<S>, words: &mut Vec<u64>)
        requires here { self.old.region ≡ region.now }
        requires wide { length words.old.items ≡ length region.now.words }
        ensures reads { ReadsInside S.shaping self.old.view words.new.items self.new.view }
        ensures stays { IsSame Attached Attached self.old self.new }
    {
        region.load_all(&mut self.seat, words);
    }
}
