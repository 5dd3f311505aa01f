//! A stint that keeps what it has found of its region's layout.
ghost use Rattle.std.specs.Prelude.{◌≡◌, ◌<◌, ◌⊎◌, negsuc, IfOk, IfSome, IsSome, OnOk, length, find, unwrap_or};
ghost use Rattle.std.specs.Option.{option_copied};
ghost use Rattle.mmv_layout.specs.Form.{is_slot_of};
ghost use Rattle.region_core.specs.declared.act.Act.TheVariants.{Swap, Add};
ghost use Rattle.region_core.specs.declared.mode.Mode.TheVariants.{Idle, Attached};
ghost use Rattle.region_rule.specs.Calls.{Detaches, Learns, TakesAll, TakesValue};
ghost use Rattle.region_rule.specs.Seats.{IsSame};
ghost use Rattle.region_rule.specs.Steps.{Extends};
ghost use Rattle.region_rule.specs.Tokens.{note_of};
ghost use Rattle.region_words.specs.Calls.{form_seen};
ghost use Rattle.region_words.specs.Images.{mmv};
ghost use Rattle.run_passes.specs.Storing.{Looks, slot_seen, text_among, texts_seen};
ghost use Rattle.run_passes.specs.Keeping.{KeepsSlots, KeepsTexts};

use crate::slots::Slots;
use mmv_layout::Slot;
use pcp_base::{List, NoMemory, Text};
use region_words::{Note, Pass, Region, Stint};
use std::alloc::Global;
use std::marker::Model;

/// A stint, with the value words and the strings of its region once it has looked for them: while it lasts no layout changes, so they
/// are the region's. Contracts see the stint.
#[derive(Drop)]
pub struct KeptStint {
    stint: Stint,
    slots: Option<Slots>,
    texts: Option<List<(u64, Text)>>,
}

impl Model for KeptStint {
    ghost use Rattle.region_rule.specs.Seats.{Token};
    ghost use Rattle.run_passes.specs.Keeping.{KeepsSlots, KeepsTexts};

    ghost Value = { Token };

    ghost view = { λ k. k.stint };

    ghost invariant = { λ k. KeepsSlots k.stint k.slots × KeepsTexts k.stint k.texts };
}

/// Keeps the value words that the stint finds, if none are kept yet.
fn look_for_slots(
    alloc: Global,
    region: &Region,
    stint: &mut Stint,
    slots: &mut Option<Slots>,
) -> Result<(), NoMemory>
    requires here { stint.old.region ≡ region.now }
    requires kept { KeepsSlots stint.old slots.old }
    ensures kept { KeepsSlots stint.new slots.new }
    ensures there { OnOk result (IsSome slots.new) }
    ensures looks { Looks stint.old stint.new }
{
    if slots.is_none() {
        *slots = Some(Slots::new(region.slots(alloc, stint)?));
    }
    Ok(())
}

/// Keeps the strings that the stint finds, if none are kept yet.
fn look_for_texts(
    alloc: Global,
    region: &Region,
    stint: &mut Stint,
    texts: &mut Option<List<(u64, Text)>>,
) -> Result<(), NoMemory>
    requires here { stint.old.region ≡ region.now }
    requires kept { KeepsTexts stint.old texts.old }
    ensures kept { KeepsTexts stint.new texts.new }
    ensures there { OnOk result (IsSome texts.new) }
    ensures looks { Looks stint.old stint.new }
{
    if texts.is_none() {
        *texts = Some(region.texts(alloc, stint)?);
    }
    Ok(())
}

/// The offset of the first string with a text.
fn find_text(texts: &[(u64, Text)], text: &Text) -> Option<u64>
    ensures { result ≡ text_among texts.now text.now }
{
    let (offset, _text) = texts
        .iter()
        .find(|found| found.1.as_slice() == text.as_slice())?;
    Some(*offset)
}

impl KeptStint {
    /// A stint that has not looked yet.
    pub(crate) fn new(stint: Stint) -> KeptStint
        ensures { result ≡ stint }
    {
        KeptStint {
            stint,
            slots: None,
            texts: None,
        }
    }

    /// The value word of an item and an instance; without an instance the metric has no domain.
    pub(crate) fn slot_of(
        &mut self,
        alloc: Global,
        region: &Region,
        item: u32,
        instance: Option<i32>,
    ) -> Result<Option<Slot>, NoMemory>
        requires here { self.old.region ≡ region.now }
        ensures slot { IfOk result (λ slot. slot ≡ slot_seen self.old.view item instance) }
        ensures below { IfOk result (λ slot. IfSome slot (λ found. found.word < length region.now.words)) }
        ensures looks { Looks self.old self.new }
    {
        look_for_slots(alloc, region, &mut self.stint, &mut self.slots)?;
        let Some(slots) = &mut self.slots else {
            unreachable!()
        };
        Ok(slots.slot_of(item, instance))
    }

    /// The offset of the first string with a text.
    pub(crate) fn offset_of(
        &mut self,
        alloc: Global,
        region: &Region,
        text: &Text,
    ) -> Result<Option<u64>, NoMemory>
        requires here { self.old.region ≡ region.now }
        ensures offset { IfOk result (λ offset. offset ≡ text_among (texts_seen self.old.view) text.now) }
        ensures looks { Looks self.old self.new }
    {
        look_for_texts(alloc, region, &mut self.stint, &mut self.texts)?;
        let Some(texts) = &self.texts else {
            unreachable!()
        };
        Ok(find_text(texts.as_slice(), text))
    }

    /// Swaps a value word, as the stint does.
    pub(crate) fn swap(&mut self, region: &Region, word: u32, value: u64) -> u64
        requires here { self.old.region ≡ region.now }
        requires below { word < length region.now.words }
        requires takes { TakesValue mmv self.old.view word value }
        ensures swaps { Extends mmv self.old.view (Swap word value) result self.new.view }
        ensures stays { IsSame Attached Attached self.old self.new }
    {
        self.stint.swap(region, word, value)
    }

    /// Adds to a number word, as the stint does.
    pub(crate) fn add(&mut self, region: &Region, word: u32, delta: u64) -> u64
        requires here { self.old.region ≡ region.now }
        requires below { word < length region.now.words }
        requires takes { TakesAll mmv self.old.view word }
        ensures adds { Extends mmv self.old.view (Add word delta) result self.new.view }
        ensures stays { IsSame Attached Attached self.old self.new }
    {
        self.stint.add(region, word, delta)
    }

    /// Ends the stint, and with it what was kept.
    pub(crate) fn detach(self, region: &Region) -> Pass
        requires here { self.region ≡ region.now }
        ensures detaches { Detaches mmv self.view result.view }
        ensures stays { IsSame Attached Idle self result }
    {
        let KeptStint {
            stint,
            slots: _,
            texts: _,
        } = self;
        stint.detach(region)
    }

    /// A note of what the stint has seen.
    pub(crate) fn note(&mut self, region: &Region) -> Note
        requires here { self.old.region ≡ region.now }
        ensures same { self.new ≡ self.old }
        ensures note { (result.region ≡ self.old.region) × (result.view ≡ note_of self.old.view) }
    {
        self.stint.note(region)
    }

    /// Takes the longer of what the stint and the note have seen.
    pub(crate) fn learn(&mut self, region: &Region, note: Note)
        requires here { self.old.region ≡ region.now }
        requires note { note.region ≡ region.now }
        ensures learns { Learns mmv self.old.view note.view self.new.view }
        ensures stays { IsSame Attached Attached self.old self.new }
    {
        self.stint.learn(region, note);
    }
}
