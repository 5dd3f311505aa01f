//! Readings: generation 2 first, then words, then generation 1 (mmv(5)).
ghost use Rattle.std.specs.Prelude.{◌≡◌, ◌≢◌, ◌<◌, ℕ, List, [], ◌∷◌, ◌++◌, MatchResult, length};
ghost use Rattle.region_core.specs.declared.act.Act.TheVariants.{Load};
ghost use Rattle.region_core.specs.declared.mode.Mode.TheVariants.{Idle};
ghost use Rattle.mmv_layout.specs.Form.{Form};
ghost use Rattle.region_rule.specs.declared.view.View.{View};
ghost use Rattle.region_rule.specs.Steps.{Extends};
ghost use Rattle.region_rule.specs.Tokens.{note_of};
ghost use Rattle.region_rule.specs.Seats.{IsSame};
ghost use Rattle.region_rule.specs.Calls.{Learns};
ghost use Rattle.region_rule.specs.Reads.{HasRead, ShowsIn, RefusedIn};
ghost use Rattle.region_words.specs.Images.{mmv};

use crate::pass::{Note, Pass};
use crate::region::Region;
use region_rule::{Again, Reading as RuledReading, Stable};
use std::marker::Model;

/// A pass that reads: it has loaded generation 2, and found `first`.
#[derive(Drop)]
pub struct Reading {
    inner: RuledReading,
}

impl Model for Reading {
    ghost use Rattle.region_rule.specs.Calls.{Opened};

    ghost Value = { Opened };

    ghost view = { λ a. a.inner };
}

impl Region {
    /// Begins a reading: a load of generation 2.
    pub fn start_read(&self, pass: Pass) -> Reading
        requires here { pass.region ≡ self.now }
        ensures reads { Extends mmv pass.view (Load 2) result.first result.token.view }
        ensures begins { HasRead mmv pass.view result.first [] result.token.view }
        ensures stays { IsSame Idle Idle pass result.token }
    {
        let Pass { inner } = pass;
        Reading {
            inner: self.inner.start_read(inner),
        }
    }
}

impl Reading {
    /// Loads a word of the image; `index` counts words of 8 bytes from the image's start.
    pub fn word(&mut self, region: &Region, index: u32) -> u64
        requires here { self.old.token.region ≡ region.now }
        requires below { index < length region.now.words }
        ensures reads { Extends mmv self.old.token.view (Load index) result self.new.token.view }
        ensures goes_on { (v : View) (found : List (ℕ × ℕ)) → HasRead mmv v self.old.first found self.old.token.view → HasRead mmv v self.new.first (found ++ (index, result) ∷ []) self.new.token.view }
        ensures first { self.new.first ≡ self.old.first }
        ensures stays { IsSame Idle Idle self.old.token self.new.token }
    {
        self.inner.word(&region.inner, index)
    }

    /// Ends the reading by a load of generation 1. `Stable` comes exactly where the two loaded numbers are equal: the words
    /// loaded between are then of one layout, whatever the reading learned meanwhile. `Again` carries both where they differ.
    pub fn end(self, region: &Region) -> (Pass, Result<Stable, Again>)
        requires here { self.token.region ≡ region.now }
        ensures reads { (last : ℕ) × Extends mmv self.token.view (Load 1) last result.0.view × MatchResult
            result.1
            (λ stable. (stable.generation ≡ self.first) × (last ≡ self.first))
            (λ again. (again.first ≡ self.first) × (again.last ≡ last) × (self.first ≢ last)) }
        ensures shown { (v : View) (found : List (ℕ × ℕ)) → HasRead mmv v self.first found self.token.view → MatchResult
            result.1
            (λ stable. (form : Form) × ShowsIn mmv v (record { generation = stable.generation; form = form; found = found }) result.0.view)
            (λ again. RefusedIn v again.first again.last result.0.view) }
        ensures stays { IsSame Idle Idle self.token result.0 }
    {
        let Reading { inner } = self;
        let (inner, answer) = inner.end(&region.inner);
        (Pass { inner }, answer)
    }

    /// A note of what the reading has seen.
    pub fn note(&mut self, region: &Region) -> Note
        requires here { self.old.token.region ≡ region.now }
        ensures same { self.new ≡ self.old }
        ensures note { (result.region ≡ self.old.token.region) × (result.view ≡ note_of self.old.token.view) }
    {
        Note {
            inner: self.inner.note(&region.inner),
        }
    }

    /// Takes the longer of what the reading and the note have seen.
    pub fn learn(&mut self, region: &Region, note: Note)
        requires here { self.old.token.region ≡ region.now }
        requires note { note.region ≡ region.now }
        ensures learns { Learns mmv self.old.token.view note.view self.new.token.view }
        ensures goes_on { (v : View) (found : List (ℕ × ℕ)) → HasRead mmv v self.old.first found self.old.token.view → HasRead mmv v self.new.first found self.new.token.view }
        ensures first { self.new.first ≡ self.old.first }
        ensures stays { IsSame Idle Idle self.old.token self.new.token }
    {
        let Note { inner } = note;
        self.inner.learn(&region.inner, inner);
    }
}
