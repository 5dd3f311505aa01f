//! Readings: generation 2 first, then words, then generation 1 (mmv(5)).
ghost use Rattle.std.specs.Prelude.{◌≡◌, ◌≢◌, ◌<◌, ℕ, List, [], ◌∷◌, ◌++◌, MatchResult, length};
ghost use Rattle.region_core.specs.declared.act.Act.TheVariants.{Load};
ghost use Rattle.region_rule.specs.Steps.{Extends};
ghost use Rattle.region_rule.specs.Tokens.{note_of};
ghost use Rattle.region_core.specs.declared.mode.Mode.TheVariants.{Idle};
ghost use Rattle.region_rule.specs.Seats.{IsSame};
ghost use Rattle.region_rule.specs.declared.view.View.{View};
ghost use Rattle.region_rule.specs.Calls.{Learns};
ghost use Rattle.region_rule.specs.Reads.{HasRead, ShowsIn, RefusedIn};

use crate::fault::{Again, Stable};
use crate::pass::{Note, Pass};
use crate::region::Region;
use crate::view::View;
use atomic_table::Seat;
use region_core::Shape;
use std::marker::Model;

/// A pass that reads: it has loaded generation 2, and found `first`.
#[derive(Drop)]
pub struct Reading {
    number: u32,
    first: u64,
    seat: Seat<(), View>,
}

impl Model for Reading {
    ghost use Rattle.std.specs.Prelude.{◌≡◌, []};
    ghost use Rattle.region_core.specs.declared.mode.Mode.TheVariants.{Idle};
    ghost use Rattle.region_rule.specs.declared.view.Role.TheVariants.{Numbered};
    ghost use Rattle.region_rule.specs.Seats.{token_of};
    ghost use Rattle.region_rule.specs.Calls.{Opened};

    ghost Value = { Opened };

    ghost view = { λ r. record { token = token_of r.seat; first = r.first } };

    ghost invariant = { λ r. (r.seat.me.1 ≡ []) × (r.seat.me.0.role ≡ Numbered) × (r.seat.me.0.mode ≡ Idle) × (r.number ≡ r.seat.me.0.number) };
}

impl<S: Shape> Region<S> {
    /// Begins a reading: a load of generation 2.
    pub fn start_read(&self, pass: Pass) -> Reading
        requires here { pass.region ≡ self.now }
        ensures reads { Extends S.shaping pass.view (Load 2) result.first result.token.view }
        ensures begins { HasRead S.shaping pass.view result.first [] result.token.view }
        ensures stays { IsSame Idle Idle pass result.token }
    {
        let Pass { number, mut seat } = pass;
        let first = self.load_second(&mut seat);
        Reading {
            number,
            first,
            seat,
        }
    }
}

impl Reading {
    /// Loads an image word.
    pub fn word<S: Shape>(&mut self, region: &Region<S>, index: u32) -> u64
        requires here { self.old.token.region ≡ region.now }
        requires below { index < length region.now.words }
        ensures reads { Extends S.shaping self.old.token.view (Load index) result self.new.token.view }
        ensures goes_on { (v : View) (found : List (ℕ × ℕ)) → HasRead S.shaping v self.old.first found self.old.token.view → HasRead S.shaping v self.new.first (found ++ (index, result) ∷ []) self.new.token.view }
        ensures first { self.new.first ≡ self.old.first }
        ensures stays { IsSame Idle Idle self.old.token self.new.token }
    {
        region.load(&mut self.seat, index)
    }

    /// Ends the reading by a load of generation 1. `Stable` comes exactly where the two loaded numbers are equal: the words
    /// loaded between are then of one layout, whatever the reading learned meanwhile. `Again` carries both where they differ.
    pub fn end<S: Shape>(self, region: &Region<S>) -> (Pass, Result<Stable, Again>)
        requires here { self.token.region ≡ region.now }
        ensures reads { (last : ℕ) × Extends S.shaping self.token.view (Load 1) last result.0.view × MatchResult
            result.1
            (λ stable. (stable.generation ≡ self.first) × (last ≡ self.first))
            (λ again. (again.first ≡ self.first) × (again.last ≡ last) × (self.first ≢ last)) }
        ensures shown { (v : View) (found : List (ℕ × ℕ)) → HasRead S.shaping v self.first found self.token.view → MatchResult
            result.1
            (λ stable. (form : S.shaping.Form) × ShowsIn S.shaping v (record { generation = stable.generation; form = form; found = found }) result.0.view)
            (λ again. RefusedIn v again.first again.last result.0.view) }
        ensures stays { IsSame Idle Idle self.token result.0 }
    {
        let Reading {
            number,
            first,
            mut seat,
        } = self;
        let last = region.load_first(&mut seat);
        let pass = Pass { number, seat };
        if first != last {
            return (pass, Err(Again { first, last }));
        }
        (pass, Ok(Stable { generation: first }))
    }

    /// A note of what the reading has seen.
    pub fn note<S: Shape>(&mut self, region: &Region<S>) -> Note
        requires here { self.old.token.region ≡ region.now }
        ensures same { self.new ≡ self.old }
        ensures note { (result.region ≡ self.old.token.region) × (result.view ≡ note_of self.old.token.view) }
    {
        Note {
            seat: region.note_seat(&mut self.seat),
        }
    }

    /// Takes the longer of what the reading and the note have seen.
    pub fn learn<S: Shape>(&mut self, region: &Region<S>, note: Note)
        requires here { self.old.token.region ≡ region.now }
        requires note { note.region ≡ region.now }
        ensures learns { Learns S.shaping self.old.token.view note.view self.new.token.view }
        ensures goes_on { (v : View) (found : List (ℕ × ℕ)) → HasRead S.shaping v self.old.first found self.old.token.view → HasRead S.shaping v self.new.first found self.new.token.view }
        ensures first { self.new.first ≡ self.old.first }
        ensures stays { IsSame Idle Idle self.old.token self.new.token }
    {
        region.learn_seat(&mut self.seat, note.seat);
    }
}
