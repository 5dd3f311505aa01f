//! The value words and the strings of an image.
ghost use Rattle.std.specs.Prelude.{◌≡◌, ◌≢◌, ◌<◌, ◌≤◌, ◌^◌, ◌⊎◌, length, None, IfOk, IfSome, MatchOption, All, Contains};
ghost use Rattle.std.specs.List.{find};
ghost use Rattle.mmv_layout.specs.Images.{IsImage};
ghost use Rattle.mmv_layout.specs.Rows.{item_of, type_of};
ghost use Rattle.mmv_layout.specs.Form.{slot_in, slot_at, slots_of, is_slot_of, texts_of, IsSlotOf, IsOther};

use crate::entries::{metric_of, string_at, string_count, value_at, value_count};
use crate::entry_fields::{item_in_metric, type_in_metric};
use crate::layout::{instance_of, string_text};
use crate::rows::Slot;
use pcp_base::{Kind, List, NoMemory, Text};
use std::alloc::Global;

/// The type of the metric of the value at an offset.
fn type_of(words: &[u64], value: u128) -> u32
    requires { value < 2 ^ 80 }
    ensures { result ≡ type_of words.now value }
{
    type_in_metric(words, metric_of(words, value) as u128)
}

/// The slot of the value at an offset, in a word.
fn slot_in(words: &[u64], value: u128, word: u32) -> Slot
    requires { value < 2 ^ 80 }
    ensures { result ≡ slot_in words.now value word }
{
    Slot {
        item: item_in_metric(words, metric_of(words, value) as u128),
        instance: instance_of(words, value).unwrap_or(-1),
        kind: Kind::of_code(type_of(words, value)).unwrap_or(Kind::I32),
        word,
    }
}

/// The value word of the value at an offset: the first of a number of 32 or 64 bits, the second of a string.
#[tactic(auto, unfolding(crate::specs::Form::slot_at))]
fn slot_at(words: &[u64], value: u128) -> Option<Slot>
    requires { value < 2 ^ 20 }
    ensures { result ≡ slot_at words.now value }
{
    let code = type_of(words, value);
    let word = (value / 8) as u32;
    if code <= 3 {
        return Some(slot_in(words, value, word));
    }
    if code == 6 {
        return Some(slot_in(words, value, word + 1));
    }
    None
}

/// The value words of an image, in the order of the values.
#[tactic(auto, using(crate::proofs::SlotLists::gives_none, crate::proofs::SlotLists::gives_nothing, crate::proofs::SlotLists::gives_one, crate::proofs::EntryOffsets::value_near), unfolding(crate::specs::Form::slots_of))]
pub fn slots(alloc: Global, words: &[u64]) -> Result<List<Slot>, NoMemory>
    requires { IsImage words.now }
    ensures { IfOk result (λ slots. slots ≡ slots_of words.now) }
{
    let mut slots = List::empty(alloc);
    for i in 0..value_count(words) {
        if let Some(slot) = slot_at(words, value_at(words, i)) {
            slots.push(slot)?;
        }
    }
    Ok(slots)
}

/// The strings of an image with their offsets, in section order.
#[tactic(auto, using(crate::proofs::RowLists::rows_none, crate::proofs::RowLists::rows_more, crate::proofs::EntryOffsets::string_near), unfolding(crate::specs::Form::texts_of))]
pub fn texts(alloc: Global, words: &[u64]) -> Result<List<(u64, Text)>, NoMemory>
    requires { IsImage words.now }
    ensures { IfOk result (λ texts. texts ≡ texts_of words.now) }
{
    let mut texts = List::empty(alloc);
    for i in 0..string_count(words) {
        let offset = string_at(words, i);
        let text = string_text(alloc, words, offset)?;
        texts.push((offset as u64, text))?;
    }
    Ok(texts)
}

/// Whether a slot is that of an item and an instance.
fn is_slot_of(item: u32, instance: i32, slot: Slot) -> bool
    ensures { result ≡ is_slot_of item instance slot }
{
    slot.item == item && slot.instance == instance
}

/// The first value word of an item and an instance.
#[tactic(auto, using(crate::proofs::EntryOffsets::value_near), unfolding(crate::specs::Form::slots_of))]
fn first_slot(words: &[u64], item: u32, instance: i32) -> Option<Slot>
    requires { IsImage words.now }
    ensures { result ≡ find (is_slot_of item instance) (slots_of words.now) }
{
    for i in 0..value_count(words) {
        if let Some(slot) = slot_at(words, value_at(words, i)) {
            if is_slot_of(item, instance, slot) {
                return Some(slot);
            }
        }
    }
    None
}

/// The value word of an item and an instance, which is -1 for a metric without a domain; `None` exactly where an
/// image has none. The first word of a value of kinds `I32` to `U64`, and the second of a `Text`; other kinds have none.
pub fn slot_of(words: &[u64], item: u32, instance: i32) -> Option<Slot>
    requires { IsImage words.now }
    ensures first { result ≡ find (is_slot_of item instance) (slots_of words.now) }
    ensures slot { MatchOption result (All (IsOther item instance) (slots_of words.now))
        (λ s. Contains (slots_of words.now) s × IsSlotOf item instance s) }
    ensures word { IfSome result (λ s. s.word < length words.now) }
    ensures item { item ≤ 1023 ⊎ (result ≡ None) }
{
    first_slot(words, item, instance)
}
