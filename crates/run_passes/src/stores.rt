//! Swaps and adds of an attached pass, by the layout that it finds.
ghost use Rattle.std.specs.Prelude.{◌≡◌, ◌⊎◌, IfOk, MatchResult};
ghost use Rattle.region_core.specs.declared.mode.Mode.TheVariants.{Attached};
ghost use Rattle.region_rule.specs.Seats.{IsSame};
ghost use Rattle.region_words.specs.Calls.{Loads};
ghost use Rattle.script_runs.specs.PassSteps.{swaps, adds};
ghost use Rattle.script_runs.specs.Slots.{number_for, holds_number, low_bits};
ghost use Rattle.run_passes.specs.Works.{IsHere, Works, Rests};
ghost use Rattle.run_passes.specs.Storing.{Looks, StoresOrLoads, said_of, texts_seen, value_among, swap_seen, add_seen};

use crate::kept::KeptStint;
use crate::said::Said;
use crate::worker::Worker;
use mmv_layout::Content;
use pcp_base::{Kind, NoMemory};
use region_words::Region;
use run_script::Given;
use std::alloc::Global;
use text_lines::{Written, content_of};

/// The 64 bits of a number in the kind's range.
fn number_for(kind: Kind, number: i128) -> Option<u64>
    ensures { result ≡ number_for kind number }
{
    match content_of(kind, Written::Number(number)) {
        Some(Content::Number(field)) => Some(field),
        _ => None,
    }
}

/// What a slot of this kind is given: the bits of a number, or the offset of the first string with a text.
fn value_for(
    alloc: Global,
    region: &Region,
    stint: &mut KeptStint,
    kind: Kind,
    value: &Given,
) -> Result<Option<u64>, NoMemory>
    requires here { stint.old.region ≡ region.now }
    ensures value { IfOk result (λ found. found ≡ value_among (texts_seen stint.old.view) kind value.now) }
    ensures looks { Looks stint.old stint.new }
{
    let text = match value {
        Given::Number(number) => return Ok(number_for(kind, *number)),
        Given::Choice(text) => text,
    };
    let Kind::Text = kind else {
        return Ok(None);
    };
    stint.offset_of(alloc, region, text)
}

/// Swaps a value into the slot of an item and an instance, in the layout that an attached pass finds. `Ok(false)`: there is no such
/// slot, or it doesn't take the value. Then, and where memory is refused, the pass only looked at the layout.
pub fn swap_in(
    alloc: Global,
    region: &Region,
    stint: &mut KeptStint,
    item: u32,
    instance: Option<i32>,
    value: &Given,
) -> Result<bool, NoMemory>
    requires here { stint.old.region ≡ region.now }
    ensures stored { MatchResult result (StoresOrLoads (swap_seen stint.old.view item instance value.now) stint.old.view stint.new.view) (λ _. Loads stint.old.view stint.new.view) }
    ensures stays { (stint.new ≡ stint.old) ⊎ IsSame Attached Attached stint.old stint.new }
{
    let Some(slot) = stint.slot_of(alloc, region, item, instance)? else {
        return Ok(false);
    };
    let Ok(found) = value_for(alloc, region, stint, slot.kind, value) else {
        return Err(NoMemory);
    };
    let Some(value) = found else {
        return Ok(false);
    };
    stint.swap(region, slot.word, value);
    Ok(true)
}

/// Whether the value words of this kind hold numbers.
fn holds_number(kind: Kind) -> bool
    ensures { result ≡ holds_number kind }
{
    matches!(kind, Kind::I32 | Kind::U32 | Kind::I64 | Kind::U64)
}

/// A whole number modulo 2^64.
fn low_bits(number: i128) -> u64
    ensures { result ≡ low_bits number }
{
    number.rem_euclid(1 << 64) as u64
}

/// Adds a number, modulo 2^64, to the slot of an item and an instance, in the layout that an attached pass finds. `Ok(false)`: there
/// is no such slot, or it holds no number. Then, and where memory is refused, the pass only looked at the layout.
pub fn add_in(
    alloc: Global,
    region: &Region,
    stint: &mut KeptStint,
    item: u32,
    instance: Option<i32>,
    number: i128,
) -> Result<bool, NoMemory>
    requires here { stint.old.region ≡ region.now }
    ensures stored { MatchResult result (StoresOrLoads (add_seen stint.old.view item instance number) stint.old.view stint.new.view) (λ _. Loads stint.old.view stint.new.view) }
    ensures stays { (stint.new ≡ stint.old) ⊎ IsSame Attached Attached stint.old stint.new }
{
    let Some(slot) = stint.slot_of(alloc, region, item, instance)? else {
        return Ok(false);
    };
    if !holds_number(slot.kind) {
        return Ok(false);
    }
    stint.add(region, slot.word, low_bits(number));
    Ok(true)
}

/// What a store says: nothing, and where there was nothing to store its condition fails.
fn stored_or_not(stored: Result<bool, NoMemory>) -> Result<Option<Said>, NoMemory>
    ensures { result ≡ said_of stored }
{
    if stored? {
        return Ok(Some(Said::Nothing));
    }
    Ok(None)
}

/// Swaps a value into the slot of an item and an instance.
pub fn swap(
    worker: Worker,
    alloc: Global,
    region: &Region,
    item: u32,
    instance: Option<i32>,
    value: &Given,
) -> (Worker, Result<Option<Said>, NoMemory>)
    requires here { IsHere region.now worker }
    ensures { MatchResult
        result.1
        (λ said. Works region.now (λ r k doing. swaps r k item instance value.now doing) worker result.0 said)
        (λ _. Rests region.now worker result.0) }
{
    let Worker::Inside(mut stint) = worker else {
        return (worker, Ok(None));
    };
    let stored = swap_in(alloc, region, &mut stint, item, instance, value);
    (Worker::Inside(stint), stored_or_not(stored))
}

/// Adds a number to the slot of an item and an instance.
pub fn add(
    worker: Worker,
    alloc: Global,
    region: &Region,
    item: u32,
    instance: Option<i32>,
    number: i128,
) -> (Worker, Result<Option<Said>, NoMemory>)
    requires here { IsHere region.now worker }
    ensures { MatchResult
        result.1
        (λ said. Works region.now (λ r k doing. adds r k item instance number doing) worker result.0 said)
        (λ _. Rests region.now worker result.0) }
{
    let Worker::Inside(mut stint) = worker else {
        return (worker, Ok(None));
    };
    let stored = add_in(alloc, region, &mut stint, item, instance, number);
    (Worker::Inside(stint), stored_or_not(stored))
}
