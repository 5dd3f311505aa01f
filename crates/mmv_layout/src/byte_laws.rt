//! That words of 8 bytes, and the numbers in them, are those of an image's bytes, the low byte first (mmv(5)).
ghost use Rattle.mmv_layout.specs.ByteLaws.{WordsHoldBytes, NumberHoldsBytes, NumberHoldsHalves};

/// The words that bytes make hold these bytes, each at its offset.
#[tactic(auto, using(crate::proofs::Bytes::words_hold))]
pub fn words_hold_bytes()
    ensures { WordsHoldBytes }
{}

/// A number of four bytes is that of its bytes, the low byte first.
#[tactic(auto, using(crate::proofs::Bytes::number_holds))]
pub fn number_holds_bytes()
    ensures { NumberHoldsBytes }
{}

/// A number of eight bytes is that of its halves, the low one first.
#[tactic(auto, using(crate::proofs::Bytes::number_splits))]
pub fn number_holds_halves()
    ensures { NumberHoldsHalves }
{}
