//! The ten acts of a pass, each one atomic step of the table, and a look.
ghost use Rattle.std.specs.Prelude.{◌≡◌, ◌≢◌, ◌<◌, ◌⊎◌, ℕ, length, slice_set};
ghost use Rattle.region_core.specs.declared.mode.Mode.TheVariants.{Idle, Attached, Bounced, Changing};
ghost use Rattle.region_core.specs.declared.act.Act.TheVariants.{Load, Swap, Add, Enter, Leave, Take, Begin, Put, End, Free};
ghost use Rattle.region_core.specs.Shape.{IsWord};
ghost use Rattle.region_core.specs.State.{g1, g2, IsStable};
ghost use Rattle.region_rule.specs.Views.{now};
ghost use Rattle.region_rule.specs.Seats.{IsSeatOf, Tells, TellsView};

use crate::region::Region;
use crate::rule::{Adds, Begins, Ends, Enters, Frees, Leaves, Loads, Looks, Puts, Swaps, Takes};
use crate::view::View;
use atomic_table::Seat;
use region_core::Shape;

/// The change bit of the gate, 2^63: a pass is changing the layout.
pub(crate) const TAKEN: u64 = 1 << 63;

impl<S: Shape> Region<S> {
    /// A load of an image word.
    pub(crate) fn load(&self, seat: &mut Seat<(), View>, word: u32) -> u64
        requires here { IsSeatOf self.now seat.old }
        requires below { word < length self.now.words }
        ensures tells { Tells S.shaping (Load word) seat.old.me result seat.new.me }
        ensures table { seat.new.table_id ≡ seat.old.table_id }
    {
        self.table.shared.load::<Loads<S>>(seat, word as usize + 1)
    }

    /// A load of generation 2.
    pub(crate) fn load_second(&self, seat: &mut Seat<(), View>) -> u64
        requires here { IsSeatOf self.now seat.old }
        ensures tells { Tells S.shaping (Load 2) seat.old.me result seat.new.me }
        ensures table { seat.new.table_id ≡ seat.old.table_id }
    {
        self.table.shared.load::<Loads<S>>(seat, 3)
    }

    /// A load of generation 1.
    pub(crate) fn load_first(&self, seat: &mut Seat<(), View>) -> u64
        requires here { IsSeatOf self.now seat.old }
        ensures tells { Tells S.shaping (Load 1) seat.old.me result seat.new.me }
        ensures table { seat.new.table_id ≡ seat.old.table_id }
    {
        self.table.shared.load::<Loads<S>>(seat, 2)
    }

    /// A swap of a value word.
    pub(crate) fn swap(&self, seat: &mut Seat<(), View>, word: u32, value: u64) -> u64
        requires here { IsSeatOf self.now seat.old }
        requires inside { seat.old.me.0.mode ≡ Attached }
        requires below { word < length self.now.words }
        requires takes { S.shaping.Takes (S.shaping.form (now seat.old.me.0).words) word value }
        ensures tells { Tells S.shaping (Swap word value) seat.old.me result seat.new.me }
        ensures table { seat.new.table_id ≡ seat.old.table_id }
    {
        self.table
            .shared
            .swap::<Swaps<S>>(seat, word as usize + 1, value)
    }

    /// A fetch_add to a value word.
    pub(crate) fn add(&self, seat: &mut Seat<(), View>, word: u32, number: u64) -> u64
        requires here { IsSeatOf self.now seat.old }
        requires inside { seat.old.me.0.mode ≡ Attached }
        requires below { word < length self.now.words }
        requires takes { (x : ℕ) → IsWord x → S.shaping.Takes (S.shaping.form (now seat.old.me.0).words) word x }
        ensures tells { Tells S.shaping (Add word number) seat.old.me result seat.new.me }
        ensures table { seat.new.table_id ≡ seat.old.table_id }
    {
        self.table
            .shared
            .fetch_add::<Adds<S>>(seat, word as usize + 1, number)
    }

    /// A fetch_add of 1 to the gate.
    pub(crate) fn enter(&self, seat: &mut Seat<(), View>) -> u64
        requires here { IsSeatOf self.now seat.old }
        requires idle { seat.old.me.0.mode ≡ Idle }
        ensures tells { Tells S.shaping Enter seat.old.me result seat.new.me }
        ensures table { seat.new.table_id ≡ seat.old.table_id }
    {
        self.table.shared.fetch_add::<Enters<S>>(seat, 0, 1)
    }

    /// A fetch_sub of 1 from the gate.
    pub(crate) fn leave(&self, seat: &mut Seat<(), View>) -> u64
        requires here { IsSeatOf self.now seat.old }
        requires there { (seat.old.me.0.mode ≡ Attached) ⊎ (seat.old.me.0.mode ≡ Bounced) }
        ensures tells { Tells S.shaping Leave seat.old.me result seat.new.me }
        ensures table { seat.new.table_id ≡ seat.old.table_id }
    {
        self.table.shared.fetch_sub::<Leaves<S>>(seat, 0, 1)
    }

    /// A compare_exchange of the gate from 0 to 2^63.
    pub(crate) fn take(&self, seat: &mut Seat<(), View>) -> u64
        requires here { IsSeatOf self.now seat.old }
        requires idle { seat.old.me.0.mode ≡ Idle }
        ensures tells { Tells S.shaping Take seat.old.me result seat.new.me }
        ensures table { seat.new.table_id ≡ seat.old.table_id }
    {
        self.table
            .shared
            .compare_exchange::<Takes<S>>(seat, 0, 0, TAKEN)
    }

    /// A store of word 1.
    pub(crate) fn begin(&self, seat: &mut Seat<(), View>, generation: u64)
        requires here { IsSeatOf self.now seat.old }
        requires changing { seat.old.me.0.mode ≡ Changing }
        requires stable { IsStable (now seat.old.me.0) }
        requires above { g1 (now seat.old.me.0) < generation }
        ensures tells { Tells S.shaping (Begin generation) seat.old.me generation seat.new.me }
        ensures table { seat.new.table_id ≡ seat.old.table_id }
    {
        self.table.shared.store::<Begins<S>>(seat, 2, generation);
    }

    /// A store of an image word that is no generation.
    pub(crate) fn put(&self, seat: &mut Seat<(), View>, word: u32, value: u64)
        requires here { IsSeatOf self.now seat.old }
        requires changing { seat.old.me.0.mode ≡ Changing }
        requires unstable { g1 (now seat.old.me.0) ≢ g2 (now seat.old.me.0) }
        requires not_first { word ≢ 1 }
        requires not_second { word ≢ 2 }
        requires below { word < length self.now.words }
        ensures tells { Tells S.shaping (Put word value) seat.old.me value seat.new.me }
        ensures table { seat.new.table_id ≡ seat.old.table_id }
    {
        self.table
            .shared
            .store::<Puts<S>>(seat, word as usize + 1, value);
    }

    /// A store of word 2.
    pub(crate) fn end(&self, seat: &mut Seat<(), View>, generation: u64)
        requires here { IsSeatOf self.now seat.old }
        requires changing { seat.old.me.0.mode ≡ Changing }
        requires first { g1 (now seat.old.me.0) ≡ generation }
        requires second { g2 (now seat.old.me.0) ≢ generation }
        requires image { S.shaping.IsImage (slice_set (now seat.old.me.0).words 2 generation) }
        ensures tells { Tells S.shaping (End generation) seat.old.me generation seat.new.me }
        ensures table { seat.new.table_id ≡ seat.old.table_id }
    {
        self.table.shared.store::<Ends<S>>(seat, 3, generation);
    }

    /// A fetch_sub of 2^63 from the gate.
    pub(crate) fn free(&self, seat: &mut Seat<(), View>) -> u64
        requires here { IsSeatOf self.now seat.old }
        requires changing { seat.old.me.0.mode ≡ Changing }
        requires stable { IsStable (now seat.old.me.0) }
        ensures tells { Tells S.shaping Free seat.old.me result seat.new.me }
        ensures table { seat.new.table_id ≡ seat.old.table_id }
    {
        self.table.shared.fetch_sub::<Frees<S>>(seat, 0, TAKEN)
    }

    /// A load of the gate that adds no entry: it tells what the rule says of the pass.
    pub(crate) fn look(&self, seat: &mut Seat<(), View>)
        requires here { IsSeatOf self.now seat.old }
        ensures tells { TellsView S.shaping seat.old.me 0 seat.new.me }
        ensures table { seat.new.table_id ≡ seat.old.table_id }
    {
        self.table.shared.load::<Looks<S>>(seat, 0);
    }
}
