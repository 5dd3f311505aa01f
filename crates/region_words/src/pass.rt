//! Passes, and notes of what they have seen.
ghost use Rattle.std.specs.Prelude.{◌≡◌};
ghost use Rattle.region_core.specs.declared.mode.Mode.TheVariants.{Idle};
ghost use Rattle.region_rule.specs.Tokens.{note_of};
ghost use Rattle.region_rule.specs.Seats.{IsSame};
ghost use Rattle.region_rule.specs.Calls.{Learns, Gathers};
ghost use Rattle.region_words.specs.Images.{mmv};

use crate::region::Region;
use region_rule::{Note as RuledNote, Pass as RuledPass};
use std::marker::Model;

/// A caller's token for one region. It takes no bytes of the region, and may go to another thread.
#[derive(Drop)]
pub struct Pass {
    pub(crate) inner: RuledPass,
}

impl Model for Pass {
    ghost use Rattle.region_rule.specs.Seats.{Token};

    ghost Value = { Token };

    ghost view = { λ a. a.inner };
}

/// A copy of what a pass, a reading, a stint or a change has seen.
#[derive(Drop)]
pub struct Note {
    pub(crate) inner: RuledNote,
}

impl Model for Note {
    ghost use Rattle.region_rule.specs.Seats.{Token};

    ghost Value = { Token };

    ghost view = { λ a. a.inner };
}

impl Pass {
    /// The pass's number, from 0 upwards in the order of `Region::make`.
    pub fn number(&self) -> u32
        ensures { result ≡ self.now.view.number }
    {
        self.inner.number()
    }

    /// A note of what the pass has seen.
    pub fn note(&mut self, region: &Region) -> Note
        requires here { self.old.region ≡ region.now }
        ensures same { self.new ≡ self.old }
        ensures note { (result.region ≡ self.old.region) × (result.view ≡ note_of self.old.view) }
    {
        Note {
            inner: self.inner.note(&region.inner),
        }
    }

    /// Takes the longer of what the pass and the note have seen: both are beginnings of it.
    pub fn learn(&mut self, region: &Region, note: Note)
        requires here { self.old.region ≡ region.now }
        requires note { note.region ≡ region.now }
        ensures learns { Learns mmv self.old.view note.view self.new.view }
        ensures stays { IsSame Idle Idle self.old self.new }
    {
        let Note { inner } = note;
        self.inner.learn(&region.inner, inner);
    }

    /// Ends another pass, and keeps the list of its entries, which are all it made, and the lists that it had kept.
    pub fn gather(&mut self, region: &Region, ended: Pass)
        requires here { self.old.region ≡ region.now }
        requires ended { ended.region ≡ region.now }
        ensures gathers { Gathers mmv self.old.view ended.view self.new.view }
        ensures stays { IsSame Idle Idle self.old self.new }
    {
        let Pass { inner } = ended;
        self.inner.gather(&region.inner, inner);
    }
}
