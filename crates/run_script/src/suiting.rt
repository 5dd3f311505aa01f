//! Whether an image has what a step names.
ghost use Rattle.std.specs.Prelude.{◌≡◌, ◌<◌, ◌^◌, length, bytes_eq};
ghost use Rattle.std.specs.List.{list_any};
ghost use Rattle.mmv_layout.specs.Rows.{string_text};
ghost use Rattle.mmv_layout.specs.Form.{texts_of};
ghost use Rattle.run_script.specs.Recording.{image_words, slot_in, holds_number, takes_given, takes_swap, takes_add, place_of};
ghost use Rattle.run_script.specs.RecordingSteps.{IsNear, is_held, suits_in};

use crate::lines::Given;
use crate::script::Line;
use mmv_layout::{Image, STRING_SIZE, Slot, byte_at, string_at, string_count};
use pcp_base::{Kind, Text};
use text_lines::{Written, content_of};

/// The words of the image at a position, and none where there is no image.
pub fn image_words(images: &[(Text, Image)], at: usize) -> &[u64]
    ensures { result.now ≡ image_words images.now at }
{
    match images.get(at) {
        Some((_, image)) => image.words(),
        None => &[],
    }
}

// The slot of an item and an instance, which is none for a metric without a domain.
#[tactic(auto, using(crate::proofs::Slotted::slot_is))]
fn slot_in(image: &Image, item: u32, instance: Option<i32>) -> Option<Slot>
    ensures { result ≡ slot_in image.now item instance }
{
    let _words = image.words();
    image.slot_of(item, instance.unwrap_or(-1))
}

// Whether the text of the string at a place is this one.
fn is_text_at(words: &[u64], place: u128, text: &[u8]) -> bool
    requires { place < 2 ^ 80 }
    ensures { result ≡ bytes_eq (string_text words.now place) text.now }
{
    let mut rest = text;
    for k in 0..STRING_SIZE {
        let byte = byte_at(words, place + k as u128);
        if byte == 0 {
            return rest.is_empty();
        }
        let Some((first, behind)) = rest.split_first() else {
            return false;
        };
        if *first != byte {
            return false;
        }
        rest = behind;
    }
    rest.is_empty()
}

// Whether some string of an image has this text.
#[tactic(auto, using(crate::proofs::TextBytes::any_none, crate::proofs::TextBytes::any_more, crate::proofs::TextBytes::any_found), unfolding(mmv_layout::specs::Form::texts_of))]
fn has_text(words: &[u64], text: &[u8]) -> bool
    ensures { result ≡ list_any (λ found. bytes_eq found.1 text.now) (texts_of words.now) }
{
    for i in 0..string_count(words) {
        if is_text_at(words, string_at(words, i), text) {
            return true;
        }
    }
    false
}

// Whether a value word of a kind takes what is swapped in.
fn takes_given(words: &[u64], kind: Kind, value: &Given) -> bool
    ensures { result ≡ takes_given words.now kind value.now }
{
    match value {
        Given::Number(number) => content_of(kind, Written::Number(*number)).is_some(),
        Given::Choice(text) => match kind {
            Kind::Text => has_text(words, text.as_slice()),
            _ => false,
        },
    }
}

// Whether an image has the slot, and it takes the value.
fn takes_swap(image: &Image, item: u32, instance: Option<i32>, value: &Given) -> bool
    ensures { result ≡ takes_swap image.now (slot_in image.now item instance) value.now }
{
    match slot_in(image, item, instance) {
        Some(slot) => takes_given(image.words(), slot.kind, value),
        None => false,
    }
}

// Whether the value words of a kind hold numbers.
fn holds_number(kind: Kind) -> bool
    ensures { result ≡ holds_number kind }
{
    match kind {
        Kind::I32 => true,
        Kind::U32 => true,
        Kind::I64 => true,
        Kind::U64 => true,
        _ => false,
    }
}

// Whether an image has the slot, and it holds a number.
fn takes_add(image: &Image, item: u32, instance: Option<i32>) -> bool
    ensures { result ≡ takes_add (slot_in image.now item instance) }
{
    match slot_in(image, item, instance) {
        Some(slot) => holds_number(slot.kind),
        None => false,
    }
}

/// Whether an image has what a line names, if the line's region is one of those that may hold the image.
pub fn suits_in(held: &[bool], image: &Image, line: &Line) -> bool
    requires size { length held.now ≡ 64 }
    requires near { IsNear (place_of line.now) }
    ensures { result ≡ suits_in (is_held held.now) image.now line.now }
{
    match line {
        Line::Swap {
            region,
            item,
            instance,
            value,
            ..
        } => !held[*region as usize] || takes_swap(image, *item, *instance, value),
        Line::Add {
            region,
            item,
            instance,
            ..
        } => !held[*region as usize] || takes_add(image, *item, *instance),
        _ => true,
    }
}
