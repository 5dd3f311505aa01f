//! What a layout has to say of itself, so that regions of it have the laws of this crate. A new kind of layout implements
//! `Shape` in a crate of its own.

/// A kind of layout: which word lists are images, which form an image has, which words of a form hold values, and which
/// values such a word takes. Words 1 and 2 of an image are its generation, twice (mmv(5)).
pub trait Shape {
    ghost use Rattle.region_core.specs.Shape.{Shaping, IsShape};

    ghost shaping: { Shaping };

    ghost laws: { IsShape shaping };
}
