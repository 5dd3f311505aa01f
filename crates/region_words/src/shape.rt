//! Images of memory mapped values as a kind of layout.

use region_core::Shape;

/// The layout of memory mapped values: which words are images, which form an image has, and which values a word takes.
pub struct Mmv;

impl Shape for Mmv {
    ghost use Rattle.region_words.specs.Images.{mmv};
    ghost use Rattle.region_words.specs.Images.{mmv_laws};

    ghost shaping = { mmv };

    ghost laws = { mmv_laws };
}
