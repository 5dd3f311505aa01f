//! How views are cut in two and joined.
ghost use Rattle.std.specs.Prelude.{◌≡◌, ℕ, ◌+◌, ◌-◌, ◌<◌, []};
ghost use Rattle.region_core.specs.declared.mode.Mode.TheVariants.{Idle};
ghost use Rattle.region_rule.specs.declared.view.Role.TheVariants.{Copied, Numbered};
ghost use Rattle.region_rule.specs.Views.{fresh_view, numbers_from};
ghost use Rattle.region_rule.specs.Tokens.{note_of, after_learning, after_gathering, Knows};
ghost use Rattle.region_rule.specs.Seats.{IsSeatOf, region_of};

use crate::region::Region;
use crate::rule::{Gather, Give, Learn, Noting};
use crate::view::View;
use atomic_table::Seat;
use region_core::Shape;

impl<S: Shape> Region<S> {
    /// A new seat for the pass with the next number.
    pub(crate) fn hand_on(&self, seat: &mut Seat<(), View>, number: u32) -> Seat<(), View>
        requires more { number + 1 < self.now.passes }
        requires table { seat.old.table_id ≡ self.now.table }
        requires fresh { seat.old.me ≡ (fresh_view self.now.words self.now.passes number (numbers_from (number + 1) (self.now.passes - (number + 1))), []) }
        ensures given { (seat.new.table_id ≡ seat.old.table_id) × (seat.new.me ≡ (fresh_view self.now.words self.now.passes number [], [])) }
        ensures next { (result.table_id ≡ seat.old.table_id) × (result.me ≡ (fresh_view self.now.words self.now.passes (number + 1) (numbers_from (number + 2) (self.now.passes - (number + 2))), [])) }
    {
        self.table.shared.split_seat::<Give>(seat)
    }

    /// A seat of no pass that has seen what this one has: that of a note.
    pub(crate) fn note_seat(&self, seat: &mut Seat<(), View>) -> Seat<(), View>
        requires here { IsSeatOf self.now seat.old }
        ensures same { (seat.new.table_id ≡ seat.old.table_id) × (seat.new.me ≡ seat.old.me) }
        ensures note { (result.table_id ≡ seat.old.table_id) × (result.me ≡ (note_of seat.old.me.0, [])) }
    {
        self.table.shared.split_seat::<Noting>(seat)
    }

    /// Joins a note to this pass, which then has seen the longer of the two lists; a load of the gate confirms it.
    pub(crate) fn learn_seat(&self, seat: &mut Seat<(), View>, note: Seat<(), View>)
        requires here { IsSeatOf self.now seat.old }
        requires note { (region_of note ≡ self.now) × (note.me.0.role ≡ Copied) × (note.me.1 ≡ []) }
        ensures table { seat.new.table_id ≡ seat.old.table_id }
        ensures both { seat.new.me ≡ (after_learning seat.old.me.0 note.me.0, seat.old.me.1) }
        ensures knows { Knows S.shaping seat.new.me.0 }
    {
        self.table.shared.join_seat::<Learn>(seat, note);
        self.look(seat);
    }

    /// Joins another pass, which is idle, to this one: it is no pass any more, and its own entries are kept here.
    pub(crate) fn gather_seat(&self, seat: &mut Seat<(), View>, ended: Seat<(), View>)
        requires here { IsSeatOf self.now seat.old }
        requires ended { IsSeatOf self.now ended × (ended.me.1 ≡ []) × (ended.me.0.mode ≡ Idle) }
        ensures table { seat.new.table_id ≡ seat.old.table_id }
        ensures both { seat.new.me ≡ (after_gathering seat.old.me.0 ended.me.0, seat.old.me.1) }
        ensures knows { Knows S.shaping seat.new.me.0 }
    {
        self.table.shared.join_seat::<Gather>(seat, ended);
        self.look(seat);
    }
}
