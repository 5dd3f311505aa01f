//! Stints: a pass that is attached may swap and add values, and meanwhile no layout changes.
ghost use Rattle.std.specs.Prelude.{◌≡◌, ◌<◌, ◌⊎◌, All, IfOk, OnOk, MatchResult, length, map};
ghost use Rattle.region_core.specs.declared.act.Act.TheVariants.{Swap, Add};
ghost use Rattle.region_core.specs.declared.mode.Mode.TheVariants.{Idle, Attached};
ghost use Rattle.region_rule.specs.Steps.{Extends};
ghost use Rattle.region_rule.specs.Tokens.{note_of};
ghost use Rattle.region_rule.specs.Seats.{IsSame};
ghost use Rattle.region_rule.specs.Calls.{Attaches, Bounces, Detaches, TakesValue, TakesAll, Learns};
ghost use Rattle.region_rule.specs.Reads.{ReadsInside};
ghost use Rattle.region_words.specs.Images.{mmv};
ghost use Rattle.region_words.specs.Calls.{form_seen, Loads};

use crate::pass::{Note, Pass};
use crate::region::Region;
use mmv_layout::{Image, Slot};
use pcp_base::{List, NoMemory, Text};
use region_rule::{Changing, Stint as RuledStint};
use std::alloc::Global;
use std::marker::Model;

/// A pass that is inside its region.
#[derive(Drop)]
pub struct Stint {
    pub(crate) inner: RuledStint,
}

impl Model for Stint {
    ghost use Rattle.region_rule.specs.Seats.{Token};

    ghost Value = { Token };

    ghost view = { λ a. a.inner };
}

impl Region {
    /// Adds 1 to the gate. `Changing` comes exactly where the word before had the change bit; the 1 is then taken back.
    pub fn attach(&self, pass: Pass) -> Result<Stint, (Pass, Changing)>
        requires here { pass.region ≡ self.now }
        ensures attaches { MatchResult
            result
            (λ stint. Attaches mmv pass.view stint.view)
            (λ refused. Bounces mmv pass.view refused.1.gate refused.0.view) }
        ensures stays { MatchResult result (λ stint. IsSame Idle Attached pass stint) (λ refused. IsSame Idle Idle pass refused.0) }
    {
        let Pass { inner } = pass;
        match self.inner.attach(inner) {
            Ok(inner) => Ok(Stint { inner }),
            Err((inner, fault)) => Err((Pass { inner }, fault)),
        }
    }

    /// Loads every word by rising index into a list of the caller's that has as many. While a stint lives no change runs, so
    /// they are an image, of the form of what the stint has seen, which is the region's.
    pub fn words(&self, stint: &mut Stint, words: &mut Vec<u64>)
        requires here { stint.old.region ≡ self.now }
        requires wide { length words.old.items ≡ length self.now.words }
        ensures reads { ReadsInside mmv stint.old.view words.new.items stint.new.view }
        ensures stays { IsSame Attached Attached stint.old stint.new }
    {
        stint.inner.words(&self.inner, words);
    }

    /// The image that loads of every word find.
    fn image_inside(&self, alloc: Global, stint: &mut Stint) -> Result<Image, NoMemory>
        requires here { stint.old.region ≡ self.now }
        ensures reads { MatchResult result (λ image. ReadsInside mmv stint.old.view image stint.new.view) (λ _. stint.new ≡ stint.old) }
        ensures stays { MatchResult result (λ _. IsSame Attached Attached stint.old stint.new) (λ _. stint.new ≡ stint.old) }
    {
        let Ok(mut words) = Vec::from_elem(alloc, 0u64, self.capacity() as usize) else {
            return Err(NoMemory);
        };
        self.words(stint, &mut words);
        Ok(Image::of_words(words))
    }

    /// Loads every word, and tells the value words, in the order of the values. While a stint lives no change runs, so they
    /// are those of the region.
    #[tactic(auto, using(crate::proofs::Inside::slots_inside, crate::proofs::Inside::slots_below))]
    pub fn slots(&self, alloc: Global, stint: &mut Stint) -> Result<List<Slot>, NoMemory>
        requires here { stint.old.region ≡ self.now }
        ensures slots { IfOk result (λ slots. slots ≡ (form_seen stint.new.view).slots) }
        ensures below { IfOk result (All (λ slot. slot.word < length self.now.words)) }
        ensures loads { Loads stint.old.view stint.new.view }
        ensures form { form_seen stint.new.view ≡ form_seen stint.old.view }
        ensures stays { (stint.new ≡ stint.old) ⊎ IsSame Attached Attached stint.old stint.new }
        ensures done { OnOk result (IsSame Attached Attached stint.old stint.new) }
    {
        let Ok(image) = self.image_inside(alloc, stint) else {
            return Err(NoMemory);
        };
        image.slots(alloc)
    }

    /// Loads every word, and tells the strings with their offsets, in section order.
    pub fn texts(&self, alloc: Global, stint: &mut Stint) -> Result<List<(u64, Text)>, NoMemory>
        requires here { stint.old.region ≡ self.now }
        ensures texts { IfOk result (λ texts. map (λ text. text.0) texts ≡ (form_seen stint.new.view).offsets × (map (λ text. text.1) texts ≡ (form_seen stint.new.view).strings)) }
        ensures loads { Loads stint.old.view stint.new.view }
        ensures form { form_seen stint.new.view ≡ form_seen stint.old.view }
        ensures stays { (stint.new ≡ stint.old) ⊎ IsSame Attached Attached stint.old stint.new }
        ensures done { OnOk result (IsSame Attached Attached stint.old stint.new) }
    {
        let Ok(image) = self.image_inside(alloc, stint) else {
            return Err(NoMemory);
        };
        image.texts(alloc)
    }
}

impl Stint {
    /// Swaps a value word, and answers the word before. The form of what the stint has seen must let the word take the value:
    /// a number any value, a string the offset of a string.
    pub fn swap(&mut self, region: &Region, word: u32, value: u64) -> u64
        requires here { self.old.region ≡ region.now }
        requires below { word < length region.now.words }
        requires takes { TakesValue mmv self.old.view word value }
        ensures swaps { Extends mmv self.old.view (Swap word value) result self.new.view }
        ensures form { form_seen self.new.view ≡ form_seen self.old.view }
        ensures stays { IsSame Attached Attached self.old self.new }
    {
        self.inner.swap(&region.inner, word, value)
    }

    /// Adds to a number word, modulo 2^64, and answers the word before.
    pub fn add(&mut self, region: &Region, word: u32, delta: u64) -> u64
        requires here { self.old.region ≡ region.now }
        requires below { word < length region.now.words }
        requires takes { TakesAll mmv self.old.view word }
        ensures adds { Extends mmv self.old.view (Add word delta) result self.new.view }
        ensures form { form_seen self.new.view ≡ form_seen self.old.view }
        ensures stays { IsSame Attached Attached self.old self.new }
    {
        self.inner.add(&region.inner, word, delta)
    }

    /// Ends the stint: takes its 1 from the gate, so that the layout may change once no other pass is inside.
    pub fn detach(self, region: &Region) -> Pass
        requires here { self.region ≡ region.now }
        ensures detaches { Detaches mmv self.view result.view }
        ensures stays { IsSame Attached Idle self result }
    {
        let Stint { inner } = self;
        Pass {
            inner: inner.detach(&region.inner),
        }
    }

    /// A note of what the stint has seen.
    pub fn note(&mut self, region: &Region) -> Note
        requires here { self.old.region ≡ region.now }
        ensures same { self.new ≡ self.old }
        ensures note { (result.region ≡ self.old.region) × (result.view ≡ note_of self.old.view) }
    {
        Note {
            inner: self.inner.note(&region.inner),
        }
    }

    /// Takes the longer of what the stint and the note have seen.
    pub fn learn(&mut self, region: &Region, note: Note)
        requires here { self.old.region ≡ region.now }
        requires note { note.region ≡ region.now }
        ensures learns { Learns mmv self.old.view note.view self.new.view }
        ensures form { form_seen self.new.view ≡ form_seen self.old.view }
        ensures stays { IsSame Attached Attached self.old self.new }
    {
        let Note { inner } = note;
        self.inner.learn(&region.inner, inner);
    }
}
