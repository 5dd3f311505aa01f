//! An image as one of version 2.
ghost use Rattle.std.specs.Prelude.{◌≡◌, ◌⊎◌, Err};
ghost use Rattle.mmv_writer.specs.Lifting.{lifted};

use crate::drafting::words_of_draft;
use crate::fault::BuildFault;
use mmv_layout::{Image, ImageFault};
use std::alloc::Global;

/// The image of version 2 that says what an image says, in the one spelling: its strings first, in their order, and
/// behind them the names that weren't among them. `TooLarge` exactly where that needs more than 65,536 words; no other
/// fault comes but want of memory.
#[tactic(auto, unfolding(crate::specs::Lifting::lifted, crate::specs::Lifting::lifted_words))]
pub fn lift(alloc: Global, image: &Image) -> Result<Image, ImageFault>
    ensures { (result ≡ Err ImageFault.NoMemory) ⊎ (result ≡ lifted image.now) }
{
    let _words = image.words();
    let Ok(mut layout) = image.layout(alloc) else {
        return Err(ImageFault::NoMemory);
    };
    layout.version = 2;
    match words_of_draft(alloc, &layout) {
        Ok(words) => Ok(Image::of_words(words)),
        Err(BuildFault::TooLarge { words }) => Err(ImageFault::TooLarge { words }),
        Err(_) => Err(ImageFault::NoMemory),
    }
}
