//! Changes of the layout: a pass has the region to itself, raises generation 1, stores the new image's words, and raises
//! generation 2 last (mmv(5)).
ghost use Rattle.std.specs.Prelude.{◌≡◌, MatchResult, length};
ghost use Rattle.region_core.specs.declared.mode.Mode.TheVariants.{Idle, Changing};
ghost use Rattle.region_rule.specs.Tokens.{note_of};
ghost use Rattle.region_rule.specs.Seats.{IsSame};
ghost use Rattle.region_rule.specs.Calls.{Learns};
ghost use Rattle.region_rule.specs.Changes.{left_of, Acts, Starts, Fails, Stores, last_acts};
ghost use Rattle.region_words.specs.Images.{mmv};

use crate::pass::{Note, Pass};
use crate::region::Region;
use crate::shape::Mmv;
use mmv_layout::Image;
use region_rule::{Change as RuledChange, ChangeFault};
use std::marker::Model;

/// A pass that changes the layout: generation 1 is `generation` already, and words of the image are left to store. A change
/// must be finished: it can't be dropped.
pub struct Change {
    pub(crate) inner: RuledChange<Mmv>,
}

impl Model for Change {
    ghost use Rattle.region_rule.specs.Changes.{Relaying};

    ghost Value = { Relaying };

    ghost view = { λ a. a.inner };
}

impl Region {
    /// Begins a change to this image. `TooLarge` comes exactly where the image has more words than the region; `Busy` exactly
    /// where the gate was not 0; and `Spent` exactly where generation 1 is 2^64 - 1, and then the change bit is taken back.
    /// Else generation 1 becomes the greater of the moment and the old one plus 1. The image's own generation is not looked at.
    pub fn begin_change(
        &self,
        pass: Pass,
        image: Image,
        moment: u64,
    ) -> Result<Change, (Pass, Image, ChangeFault)>
        requires here { pass.region ≡ self.now }
        ensures begins { MatchResult
            result
            (λ change. Starts mmv pass.view (length self.now.words) image moment change)
            (λ refused. Fails mmv pass.view (length self.now.words) image refused.0.view refused.2) }
        ensures stays { MatchResult result (λ change. IsSame Idle Changing pass change.token) (λ refused. IsSame Idle Idle pass refused.0 × (refused.1 ≡ image)) }
    {
        let Pass { inner } = pass;
        match self.inner.begin_change(inner, image.into_words(), moment) {
            Ok(inner) => Ok(Change { inner }),
            Err((inner, words, fault)) => Err((Pass { inner }, Image::of_words(words), fault)),
        }
    }
}

impl Change {
    /// The new generation.
    pub fn generation(&self) -> u64
        ensures { result ≡ self.now.generation }
    {
        self.inner.generation()
    }

    /// Stores the next word of the image, and answers how many are left. With none left it does nothing.
    pub fn step(&mut self, region: &Region) -> u32
        requires here { self.old.token.region ≡ region.now }
        ensures left { result ≡ left_of self.new }
        ensures stores { Stores mmv self.old self.new }
        ensures stays { IsSame Changing Changing self.old.token self.new.token }
    {
        self.inner.step(&region.inner)
    }

    /// Stores the words that are left, stores generation 2, and clears the change bit.
    pub fn finish(self, region: &Region) -> Pass
        requires here { self.token.region ≡ region.now }
        ensures finishes { Acts mmv self.token.view (last_acts self) result.view }
        ensures stays { IsSame Changing Idle self.token result }
    {
        let Change { inner } = self;
        Pass {
            inner: inner.finish(&region.inner),
        }
    }

    /// A note of what the change has seen.
    pub fn note(&mut self, region: &Region) -> Note
        requires here { self.old.token.region ≡ region.now }
        ensures same { self.new ≡ self.old }
        ensures note { (result.region ≡ self.old.token.region) × (result.view ≡ note_of self.old.token.view) }
    {
        Note {
            inner: self.inner.note(&region.inner),
        }
    }

    /// Takes the longer of what the change and the note have seen.
    pub fn learn(&mut self, region: &Region, note: Note)
        requires here { self.old.token.region ≡ region.now }
        requires note { note.region ≡ region.now }
        ensures learns { Learns mmv self.old.token.view note.view self.new.token.view }
        ensures image { (self.new.generation ≡ self.old.generation) × (self.new.image ≡ self.old.image) × (self.new.next ≡ self.old.next) }
        ensures stays { IsSame Changing Changing self.old.token self.new.token }
    {
        let Note { inner } = note;
        self.inner.learn(&region.inner, inner);
    }
}
