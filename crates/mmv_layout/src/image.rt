//! An image: words whose form is known.
ghost use Rattle.std.specs.Prelude.{◌≡◌, ◌≢◌, ◌<◌, ◌≤◌, ◌^◌, ◌⊎◌, negsuc, length, All, Contains, IfOk, IfSome, OnOk, Err, None, MatchOption};
ghost use Rattle.mmv_layout.specs.Contents.{cluster_in, is_short};
ghost use Rattle.mmv_layout.specs.Fields.{words_of};
ghost use Rattle.mmv_layout.specs.Faults.{image_in, image_of};
ghost use Rattle.mmv_layout.specs.Images.{IsImage};
ghost use Rattle.mmv_layout.specs.Form.{slots_of, texts_of, IsSlotOf, IsOther};
ghost use Rattle.mmv_layout.specs.Rows.{layout_of};
ghost use Rattle.mmv_layout.specs.SlotTables.{Finds};
ghost use Rattle.mmv_layout.specs.Says.{Says};

use crate::fault::ImageFault;
use crate::fields::words_of;
use crate::first_fault::image_fault;
use crate::header::cluster_in;
use crate::layout::layout;
use crate::rows::{Layout, Slot};
use crate::sizes::HEADER_SIZE;
use crate::slot_table::SlotTable;
use crate::slots::{slot_of, slots, texts};
use pcp_base::{List, NoMemory, Text};
use std::alloc::Global;
use std::marker::Model;

/// Whether so many bytes are fewer than a header, or no whole number of words.
fn is_short(bytes: usize) -> bool
    ensures { result ≡ is_short bytes }
{
    (bytes as u64) < HEADER_SIZE || bytes % 8 != 0
}

/// An image of version 1 or 2 (mmv(5)). Contracts see it as the list of its words.
#[derive(Drop)]
pub struct Image {
    words: Vec<u64>,
}

impl Model for Image {
    ghost use Rattle.std.specs.Prelude.{List as Sequence, ℕ};
    ghost use Rattle.mmv_layout.specs.Images.{IsImage};

    ghost Value = { Sequence ℕ };

    ghost view = { λ a. a.words.items };

    ghost invariant = { λ a. IsImage a.words.items };
}

impl Image {
    /// The image that words are, or their first fault. Further words may follow the sections, up to 65,536 in all.
    #[tactic(auto, using(crate::proofs::Images::is_image_where), unfolding(crate::specs::Faults::image_in))]
    pub fn parse(alloc: Global, words: Vec<u64>) -> Result<Image, ImageFault>
        ensures image { (result ≡ Err ImageFault.NoMemory) ⊎ (result ≡ image_in words.items) }
        ensures words { IfOk result (λ image. image ≡ words.items) }
        ensures form { OnOk result (IsImage words.items) }
    {
        if let Some(fault) = image_fault(alloc, &words)? {
            return Err(fault);
        }
        Ok(Image { words })
    }

    /// The image of words that are known to be one.
    pub fn of_words(words: Vec<u64>) -> Image
        requires { IsImage words.items }
        ensures { result ≡ words.items }
    {
        Image { words }
    }

    /// The image that bytes are, or their first fault: `Short` also where they are no whole number of words.
    #[tactic(auto, using(crate::proofs::Images::large_bytes), unfolding(crate::specs::Faults::image_of))]
    pub fn from_bytes(alloc: Global, bytes: &[u8]) -> Result<Image, ImageFault>
        ensures image { (result ≡ Err ImageFault.NoMemory) ⊎ (result ≡ image_of bytes.now) }
        ensures words { IfOk result (λ image. image ≡ words_of bytes.now) }
        ensures form { OnOk result (IsImage (words_of bytes.now)) }
    {
        if is_short(bytes.len()) {
            let have = bytes.len() as u64;
            return Err(ImageFault::Short { have });
        }
        let words = bytes.len() as u64 / 8;
        if words > 65536 {
            return Err(ImageFault::TooLarge { words });
        }
        Image::parse(alloc, words_of(alloc, bytes)?)
    }

    /// The words of the image, without a copy.
    pub fn into_words(self) -> Vec<u64>
        ensures words { result.items ≡ self }
        ensures image { IsImage self }
    {
        self.words
    }

    /// An equal image; only want of memory refuses it.
    pub fn copy(&self, alloc: Global) -> Result<Image, NoMemory>
        ensures { IfOk result (λ made. made ≡ self.now) }
    {
        let words = Vec::from_slice(alloc, &self.words)?;
        Ok(Image { words })
    }

    /// The words, in order; at least 5 and at most 65,536.
    #[tactic(auto, using(crate::proofs::Images::at_least_five, crate::proofs::Images::at_most))]
    pub fn words(&self) -> &[u64]
        ensures value { result.now ≡ self.now }
        ensures image { IsImage self.now }
        ensures some { 5 ≤ length self.now }
        ensures bound { length self.now ≤ 65536 }
    {
        self.words.as_slice()
    }

    /// The cluster that the metric is served in, at most 4095.
    #[tactic(auto, using(crate::proofs::Images::cluster_fits))]
    pub fn cluster(&self) -> u32
        ensures value { result ≡ cluster_in self.now }
        ensures bound { result ≤ 4095 }
    {
        cluster_in(&self.words)
    }

    /// What the image says: each row by the addresses of its fields, each reference as the row to which it leads.
    pub fn layout(&self, alloc: Global) -> Result<Layout, NoMemory>
        ensures value { IfOk result (λ layout. layout ≡ layout_of self.now) }
        ensures says { IfOk result (λ layout. Says self.now layout) }
    {
        layout(alloc, &self.words)
    }

    /// The value words, in the order of the values.
    pub fn slots(&self, alloc: Global) -> Result<List<Slot>, NoMemory>
        ensures { IfOk result (λ slots. slots ≡ slots_of self.now) }
    {
        slots(alloc, &self.words)
    }

    /// The strings with their offsets, in the order of their section.
    pub fn texts(&self, alloc: Global) -> Result<List<(u64, Text)>, NoMemory>
        ensures { IfOk result (λ texts. texts ≡ texts_of self.now) }
    {
        texts(alloc, &self.words)
    }

    /// The value words by item and instance, for many look-ups.
    pub fn slot_table(&self, alloc: Global) -> Result<SlotTable, NoMemory>
        ensures { IfOk result (λ table. Finds table.slots (slots_of self.now)) }
    {
        SlotTable::of_words(alloc, &self.words)
    }

    /// The word that holds the value of an item and an instance, which is -1 for a metric without a domain; `None`
    /// exactly where no value word belongs to them. A value of kinds `I32` to `U64` has its first word, one of `Text`
    /// its second, and other kinds have none.
    pub fn slot_of(&self, item: u32, instance: i32) -> Option<Slot>
        ensures slot { MatchOption result (All (IsOther item instance) (slots_of self.now))
            (λ s. Contains (slots_of self.now) s × IsSlotOf item instance s) }
        ensures word { IfSome result (λ s. s.word < length self.now) }
        ensures item { item ≤ 1023 ⊎ (result ≡ None) }
    {
        slot_of(&self.words, item, instance)
    }
}
