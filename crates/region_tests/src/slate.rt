//! The toy layout as a type, by which tests make regions.

use region_core::Shape;

/// Regions whose images are slates: a number of counters, the generation twice, the counters, and one text word.
pub struct Slate;

impl Shape for Slate {
    ghost use Rattle.region_slate.specs.Slate.{slate};
    ghost use Rattle.region_slate.proofs.SlateLaws.{slate_laws};

    ghost shaping = { slate };

    ghost laws = { slate_laws };
}
