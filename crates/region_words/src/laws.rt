//! What lets a caller swap and add, and what words that were loaded inside tell. Each law is the contract of a function
//! without parameters, which does nothing.

ghost use Rattle.region_words.specs.Calls.{NumbersTakeAll, SlotsTakeOffsets, WordsTellTheForm};

/// The value word of a number takes every value, as a swap and as a sum.
#[tactic(auto, using(crate::proofs::Inside::numbers_take))]
pub fn numbers_take_all()
    ensures { NumbersTakeAll }
{}

/// Each value word takes the offset of a string.
#[tactic(auto, using(crate::proofs::Inside::slots_take))]
pub fn slots_take_offsets()
    ensures { SlotsTakeOffsets }
{}

/// Words that were loaded inside are an image that has the slots, and the strings, of what the stint has seen.
#[tactic(auto, using(crate::proofs::Inside::words_tell))]
pub fn words_tell_the_form()
    ensures { WordsTellTheForm }
{}
