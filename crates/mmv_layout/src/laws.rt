//! What holds of every image: it says one layout, a value has one slot at most, and some changes of words keep its form.
ghost use Rattle.mmv_layout.specs.Form.{HasOneSlotEach};
ghost use Rattle.mmv_layout.specs.Says.{SaysOneLayout};
ghost use Rattle.mmv_layout.specs.ShapeLaws.{HasGenerationTwice, GenerationIsNoValue, ValueKeepsTheForm, LengthKeepsTheForm, GenerationKeepsTheForm, LengthKeepsTheLayout, FormIsSaid, TextsAreTheForms, SlotHoldsTheContent, ValuesHaveSlots};

/// An image says exactly one layout.
#[tactic(auto, using(crate::proofs::Saying::says_one))]
pub fn says_one_layout()
    ensures { SaysOneLayout }
{}

/// Words 1 and 2 of an image are there and equal.
pub fn has_generation_twice()
    ensures { HasGenerationTwice }
{}

/// Words 1 and 2 of an image are no value words.
pub fn generation_is_no_value()
    ensures { GenerationIsNoValue }
{}

/// An image with another value in a value word that takes it is an image of the same form.
pub fn value_keeps_the_form()
    ensures { ValueKeepsTheForm }
{}

/// An image with further words behind it, up to 65,536 in all, is an image of the same form.
pub fn length_keeps_the_form()
    ensures { LengthKeepsTheForm }
{}

/// An image with both generations replaced by one number is an image of the same form.
pub fn generation_keeps_the_form()
    ensures { GenerationKeepsTheForm }
{}

/// An image has at most one value word for an item and an instance.
pub fn one_slot_each()
    ensures { HasOneSlotEach }
{}

/// An image with further words behind it, up to 65,536 in all, says the same.
pub fn length_keeps_the_layout()
    ensures { LengthKeepsTheLayout }
{}

/// The form of words is what they say without the generation and the contents of their values.
pub fn form_is_said()
    ensures { FormIsSaid }
{}

/// The texts with their offsets are the strings and the offsets of the form.
pub fn texts_are_the_forms()
    ensures { TextsAreTheForms }
{}

/// What a value word of an image holds is the content of its value.
pub fn slot_holds_the_content()
    ensures { SlotHoldsTheContent }
{}

/// Each value of a kind that has a value word has its slot, which holds its content.
pub fn values_have_slots()
    ensures { ValuesHaveSlots }
{}
