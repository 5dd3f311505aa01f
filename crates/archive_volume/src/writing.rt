//! The record of an item.
ghost use Rattle.std.specs.Prelude.{◌≡◌, ◌+◌, ◌<◌, ◌≤◌, ◌++◌, length, IfOk, OnOk};
ghost use Rattle.std.specs.List.{AllByRecursion};
ghost use Rattle.pcp_base.specs.Results.{Fits};
ghost use Rattle.pcp_base.specs.Time.{IsMoment};
ghost use Rattle.pcp_model.specs.Words.{word};
ghost use Rattle.pcp_model.specs.Frame.{frame};
ghost use Rattle.pcp_model.specs.Payload.{payload, payload_length, ResultInRange};
ghost use Rattle.archive_volume.specs.Items.{IsWritable, ItemInRange, item_payload, item_length};

use pcp_base::{Bytes, Item, List, NoMemory, PmResult, Stamp};
use pcp_model::put_word;
use result_form::{length, put_payload};
use std::alloc::Global;

/// Puts the record of a sample behind what the buffer holds: its payload between its two length words. It has at least
/// one set, each of which can be written, and the record has at most 16 MiB. After a refusal the buffer may hold a
/// part of it.
#[tactic(auto, unfolding(pcp_model::specs::Frame::frame))]
pub fn put_sample(out: &mut Vec<u8>, answer: &PmResult) -> Result<(), NoMemory>
    requires fits { AllByRecursion Fits answer.now.sets }
    requires room { payload_length answer.now + 8 ≤ 16777216 }
    ensures bytes { OnOk result (out.new.items ≡ out.old.items ++ frame (payload answer.now)) }
    ensures length { OnOk result (length out.new.items ≡ length out.old.items + (payload_length answer.now + 8)) }
    // What was written is read again: each number is in its range.
    ensures range { OnOk result (ResultInRange answer.now) }
{
    let framed = (length(answer) + 8) as u32;
    put_word(out, framed)?;
    put_payload(out, answer)?;
    put_word(out, framed)?;
    Ok(())
}

/// Puts the record of a mark behind what the buffer holds: a stamp and no set.
#[tactic(auto, unfolding(pcp_model::specs::Frame::frame))]
pub fn put_mark(out: &mut Vec<u8>, stamp: Stamp) -> Result<(), NoMemory>
    ensures bytes { OnOk result (out.new.items ≡ out.old.items ++ frame (word stamp.sec ++ (word stamp.usec ++ word 0))) }
    ensures length { OnOk result (length out.new.items ≡ length out.old.items + 20) }
    ensures range { OnOk result (IsMoment stamp) }
{
    put_word(out, 20)?;
    put_word(out, stamp.sec())?;
    put_word(out, stamp.usec())?;
    put_word(out, 0)?;
    put_word(out, 20)?;
    Ok(())
}

/// The framed record of a sample, which has at least one set. Each set can be written, and the record has at most 16
/// MiB.
pub fn encode_sample(alloc: Global, answer: &PmResult) -> Result<Bytes, NoMemory>
    requires some { 0 < length answer.now.sets }
    requires fits { AllByRecursion Fits answer.now.sets }
    requires room { payload_length answer.now + 8 ≤ 16777216 }
    ensures bytes { IfOk result (λ bytes. bytes ≡ frame (payload answer.now)) }
    ensures length { IfOk result (λ bytes. length bytes ≡ payload_length answer.now + 8) }
    // What was written is read again: each number is in its range.
    ensures range { OnOk result (ResultInRange answer.now) }
{
    let mut out = Vec::with_capacity(alloc, (length(answer) + 8) as usize)?;
    put_sample(&mut out, answer)?;
    Ok(List::from_vec(out))
}

/// The framed record of an item. A sample has at least one set, each of which can be written, and the record has at
/// most 16 MiB.
pub fn encode_item(alloc: Global, item: &Item) -> Result<Bytes, NoMemory>
    requires writable { IsWritable item.now }
    requires room { item_length item.now + 8 ≤ 16777216 }
    ensures bytes { IfOk result (λ bytes. bytes ≡ frame (item_payload item.now)) }
    ensures length { IfOk result (λ bytes. length bytes ≡ item_length item.now + 8) }
    // What was written is read again: each number is in its range.
    ensures range { OnOk result (ItemInRange item.now) }
{
    match item {
        Item::Sample(answer) => encode_sample(alloc, answer),
        Item::Mark(stamp) => {
            let mut out = Vec::with_capacity(alloc, 20)?;
            put_mark(&mut out, *stamp)?;
            Ok(List::from_vec(out))
        }
    }
}
