//! Reads of a whole image, and of the values that a layout known before places.
ghost use Rattle.std.specs.Prelude.{◌≡◌, ◌<◌, MatchResult, All, length, slice_index};
ghost use Rattle.region_core.specs.declared.mode.Mode.TheVariants.{Idle};
ghost use Rattle.region_rule.specs.Seats.{IsSame};
ghost use Rattle.region_rule.specs.Reads.{ReadsImage, ReadsNot, StaysIdle, ReadsChosen, ReadsChosenNot};
ghost use Rattle.region_words.specs.Images.{mmv};

use crate::pass::Pass;
use crate::region::Region;
use mmv_layout::Image;
use region_rule::{ReadFault, ValueFault};
use std::alloc::Global;

/// A layout that is known, by its generation. While the region has that generation, it has that layout.
#[derive(Clone, Copy)]
pub struct Known {
    pub generation: u64,
}

impl Known {
    /// The generation of an image.
    pub fn of_image(image: &Image) -> Known
        ensures { result.generation ≡ slice_index image.now 1 }
    {
        Known {
            generation: image.words()[1],
        }
    }
}

impl Region {
    /// Reads all words: generation 2, each word by rising index, and generation 1. `Ok` comes exactly where the two numbers
    /// are equal, and the words are then an image; `Again` carries both numbers where they differ.
    pub fn read_image(&self, alloc: Global, pass: &mut Pass) -> Result<Image, ReadFault>
        requires here { pass.old.region ≡ self.now }
        ensures reads { MatchResult
            result
            (λ image. ReadsImage mmv pass.old.view image pass.new.view)
            (ReadsNot mmv pass.old.view pass.new.view) }
        ensures stays { MatchResult result (λ _. IsSame Idle Idle pass.old pass.new) (StaysIdle pass.old pass.new) }
    {
        let words = self.inner.read_words(alloc, &mut pass.inner)?;
        Ok(Image::of_words(words))
    }

    /// Reads these words, if the layout is the known one: generation 2 first, then the words in order, and generation 1.
    /// `Newer` comes exactly where generation 2 is another one, and nothing else was loaded then; then `Again` exactly where
    /// generation 1 differs from it. What is in `out` after a refusal is not said.
    pub fn read_values(
        &self,
        pass: &mut Pass,
        known: &Known,
        indexes: &[u32],
        out: &mut [u64],
    ) -> Result<(), ValueFault>
        requires here { pass.old.region ≡ self.now }
        requires long { length out.old ≡ length indexes.now }
        requires below { All (λ index. index < length self.now.words) indexes.now }
        ensures reads { MatchResult
            result
            (λ _. ReadsChosen mmv pass.old.view known.now.generation indexes.now out.new pass.new.view)
            (ReadsChosenNot mmv pass.old.view known.now.generation indexes.now pass.new.view) }
        ensures long { length out.new ≡ length out.old }
        ensures stays { IsSame Idle Idle pass.old pass.new }
    {
        let generation = known.generation;
        self.inner
            .read_chosen(&mut pass.inner, generation, indexes, out)
    }
}
