//! Stints: a pass that is attached may swap and add values, and meanwhile no layout changes.
ghost use Rattle.std.specs.Prelude.{◌≡◌, ◌<◌, MatchResult, length};
ghost use Rattle.region_core.specs.declared.act.Act.TheVariants.{Swap, Add};
ghost use Rattle.region_rule.specs.Steps.{Extends};
ghost use Rattle.region_rule.specs.Tokens.{note_of};
ghost use Rattle.region_core.specs.declared.mode.Mode.TheVariants.{Idle, Attached};
ghost use Rattle.region_rule.specs.Seats.{IsSame};
ghost use Rattle.region_rule.specs.Calls.{Attaches, Bounces, Detaches, KeepsForm, TakesValue, TakesAll, Learns};

use crate::fault::Changing;
use crate::pass::{Note, Pass};
use crate::region::Region;
use crate::steps::TAKEN;
use crate::view::View;
use atomic_table::Seat;
use region_core::Shape;
use std::marker::Model;

/// A pass that is inside its region.
#[derive(Drop)]
pub struct Stint {
    pub(crate) number: u32,
    pub(crate) seat: Seat<(), View>,
}

impl Model for Stint {
    ghost use Rattle.std.specs.Prelude.{◌≡◌, []};
    ghost use Rattle.region_core.specs.declared.mode.Mode.TheVariants.{Attached};
    ghost use Rattle.region_rule.specs.declared.view.Role.TheVariants.{Numbered};
    ghost use Rattle.region_core.specs.State.{IsIn};
    ghost use Rattle.region_core.specs.Journal.{own};
    ghost use Rattle.region_rule.specs.Views.{now};
    ghost use Rattle.region_rule.specs.Seats.{Token, token_of};

    ghost Value = { Token };

    ghost view = { λ s. token_of s.seat };

    ghost invariant = { λ s. (s.seat.me.1 ≡ []) × (s.seat.me.0.role ≡ Numbered) × (s.seat.me.0.mode ≡ Attached) × (s.number ≡ s.seat.me.0.number) × IsIn s.seat.me.0.mode (now s.seat.me.0) s.seat.me.0.number × (own s.seat.me.0.number s.seat.me.0.seen ≡ s.seat.me.0.own) };
}

impl<S: Shape> Region<S> {
    /// Adds 1 to the gate. `Changing` comes exactly where the word before had the change bit; the 1 is then taken back.
    pub fn attach(&self, pass: Pass) -> Result<Stint, (Pass, Changing)>
        requires here { pass.region ≡ self.now }
        ensures attaches { MatchResult
            result
            (λ stint. Attaches S.shaping pass.view stint.view)
            (λ refused. Bounces S.shaping pass.view refused.1.gate refused.0.view) }
        ensures stays { MatchResult result (λ stint. IsSame Idle Attached pass stint) (λ refused. IsSame Idle Idle pass refused.0) }
    {
        let Pass { number, mut seat } = pass;
        let gate = self.enter(&mut seat);
        if gate >= TAKEN {
            self.leave(&mut seat);
            return Err((Pass { number, seat }, Changing { gate }));
        }
        Ok(Stint { number, seat })
    }
}

impl Stint {
    /// Swaps a value word, and answers the word before. The form of what the stint has seen must let the word take the value:
    /// while a stint lives it is the region's form.
    pub fn swap<S: Shape>(&mut self, region: &Region<S>, word: u32, value: u64) -> u64
        requires here { self.old.region ≡ region.now }
        requires below { word < length region.now.words }
        requires takes { TakesValue S.shaping self.old.view word value }
        ensures swaps { Extends S.shaping self.old.view (Swap word value) result self.new.view }
        ensures form { KeepsForm S.shaping self.old.view self.new.view }
        ensures stays { IsSame Attached Attached self.old self.new }
    {
        region.swap(&mut self.seat, word, value)
    }

    /// Adds to a number word, modulo 2^64, and answers the word before.
    pub fn add<S: Shape>(&mut self, region: &Region<S>, word: u32, delta: u64) -> u64
        requires here { self.old.region ≡ region.now }
        requires below { word < length region.now.words }
        requires takes { TakesAll S.shaping self.old.view word }
        ensures adds { Extends S.shaping self.old.view (Add word delta) result self.new.view }
        ensures form { KeepsForm S.shaping self.old.view self.new.view }
        ensures stays { IsSame Attached Attached self.old self.new }
    {
        region.add(&mut self.seat, word, delta)
    }

    /// Ends the stint: takes its 1 from the gate, so that the layout may change once no other pass is inside.
    pub fn detach<S: Shape>(self, region: &Region<S>) -> Pass
        requires here { self.region ≡ region.now }
        ensures detaches { Detaches S.shaping self.view result.view }
        ensures stays { IsSame Attached Idle self result }
    {
        let Stint { number, mut seat } = self;
        region.leave(&mut seat);
        Pass { number, seat }
    }

    /// A note of what the stint has seen.
    pub fn note<S: Shape>(&mut self, region: &Region<S>) -> Note
        requires here { self.old.region ≡ region.now }
        ensures same { self.new ≡ self.old }
        ensures note { (result.region ≡ self.old.region) × (result.view ≡ note_of self.old.view) }
    {
        Note {
            seat: region.note_seat(&mut self.seat),
        }
    }

    /// Takes the longer of what the stint and the note have seen.
    pub fn learn<S: Shape>(&mut self, region: &Region<S>, note: Note)
        requires here { self.old.region ≡ region.now }
        requires note { note.region ≡ region.now }
        ensures learns { Learns S.shaping self.old.view note.view self.new.view }
        ensures form { KeepsForm S.shaping self.old.view self.new.view }
        ensures stays { IsSame Attached Attached self.old self.new }
    {
        region.learn_seat(&mut self.seat, note.seat);
    }
}
