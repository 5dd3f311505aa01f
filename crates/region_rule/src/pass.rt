//! Passes, and notes of what they have seen.
ghost use Rattle.std.specs.Prelude.{◌≡◌};
ghost use Rattle.region_rule.specs.Tokens.{note_of};
ghost use Rattle.region_core.specs.declared.mode.Mode.TheVariants.{Idle};
ghost use Rattle.region_rule.specs.Seats.{IsSame};
ghost use Rattle.region_rule.specs.Calls.{Learns, Gathers};

use crate::region::Region;
use crate::view::View;
use atomic_table::Seat;
use region_core::Shape;
use std::marker::Model;

/// A caller's token for one region, which neither reads nor is attached nor changes the layout. It takes no bytes of the
/// region, and may go to another thread.
#[derive(Drop)]
pub struct Pass {
    pub(crate) number: u32,
    pub(crate) seat: Seat<(), View>,
}

impl Model for Pass {
    ghost use Rattle.std.specs.Prelude.{◌≡◌, []};
    ghost use Rattle.region_core.specs.declared.mode.Mode.TheVariants.{Idle};
    ghost use Rattle.region_rule.specs.declared.view.Role.TheVariants.{Numbered};
    ghost use Rattle.region_rule.specs.Seats.{Token, token_of};

    ghost Value = { Token };

    ghost view = { λ p. token_of p.seat };

    ghost invariant = { λ p. (p.seat.me.1 ≡ []) × (p.seat.me.0.role ≡ Numbered) × (p.seat.me.0.mode ≡ Idle) × (p.number ≡ p.seat.me.0.number) };
}

/// A copy of what a pass, a reading, a stint or a change has seen.
#[derive(Drop)]
pub struct Note {
    pub(crate) seat: Seat<(), View>,
}

impl Model for Note {
    ghost use Rattle.std.specs.Prelude.{◌≡◌, []};
    ghost use Rattle.region_rule.specs.declared.view.Role.TheVariants.{Copied};
    ghost use Rattle.region_rule.specs.Seats.{Token, token_of};

    ghost Value = { Token };

    ghost view = { λ n. token_of n.seat };

    ghost invariant = { λ n. (n.seat.me.1 ≡ []) × (n.seat.me.0.role ≡ Copied) };
}

impl Pass {
    /// The pass's number, from 0 upwards in the order of `Region::make`.
    pub fn number(&self) -> u32
        ensures { result ≡ self.now.view.number }
    {
        self.number
    }

    /// A note of what the pass has seen.
    pub fn note<S: Shape>(&mut self, region: &Region<S>) -> Note
        requires here { self.old.region ≡ region.now }
        ensures same { self.new ≡ self.old }
        ensures note { (result.region ≡ self.old.region) × (result.view ≡ note_of self.old.view) }
    {
        Note {
            seat: region.note_seat(&mut self.seat),
        }
    }

    /// Takes the longer of what the pass and the note have seen: both are beginnings of it.
    pub fn learn<S: Shape>(&mut self, region: &Region<S>, note: Note)
        requires here { self.old.region ≡ region.now }
        requires note { note.region ≡ region.now }
        ensures learns { Learns S.shaping self.old.view note.view self.new.view }
        ensures stays { IsSame Idle Idle self.old self.new }
    {
        region.learn_seat(&mut self.seat, note.seat);
    }

    /// Ends another pass, and keeps the list of its entries, which are all it made, and the lists that it had kept.
    pub fn gather<S: Shape>(&mut self, region: &Region<S>, ended: Pass)
        requires here { self.old.region ≡ region.now }
        requires ended { ended.region ≡ region.now }
        ensures gathers { Gathers S.shaping self.old.view ended.view self.new.view }
        ensures stays { IsSame Idle Idle self.old self.new }
    {
        region.gather_seat(&mut self.seat, ended.seat);
    }
}
