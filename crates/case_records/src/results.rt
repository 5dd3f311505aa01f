//! Results (pmFetch(3)) and the items of a volume as the bytes of their records.
use crate::items::{write_item, write_result};
use archive_volume::{decode_item, encode_item, encode_sample, put_mark, put_sample};
use pcp_base::{Body, Duplicate, Item, NoMemory, PmResult, Stamp};
use pcp_model::put_word;
use result_form::{FormFault, decode, encode, fits, length, put_payload};
use std::alloc::Global;

fn tell_fault(alloc: Global, fault: FormFault) -> Result<Vec<u8>, NoMemory> {
    let told = match fault {
        FormFault::Short { at } => format!(in alloc; "Short {at}\n")?,
        FormFault::Stamp { at } => format!(in alloc; "Stamp {at}\n")?,
        FormFault::Count { at } => format!(in alloc; "Count {at}\n")?,
        FormFault::Mode { at } => format!(in alloc; "Mode {at}\n")?,
        FormFault::Offset { at } => format!(in alloc; "Place {at}\n")?,
        FormFault::Block { at } => format!(in alloc; "Block {at}\n")?,
        FormFault::Trailing { at } => format!(in alloc; "Trailing {at}\n")?,
        FormFault::NoMemory => format!(in alloc; "NoMemory\n")?,
    };
    Ok(told.into_bytes())
}

fn decode_text(alloc: Global, payload: &[u8]) -> Result<Vec<u8>, NoMemory> {
    match decode(alloc, payload) {
        Ok(found) => {
            let mut out = String::new(alloc);
            write_result(&mut out, &found)?;
            out.push('\n')?;
            Ok(out.into_bytes())
        }
        Err(fault) => tell_fault(alloc, fault),
    }
}

// The bytes of a result that was read, written again.
fn encode_again(alloc: Global, payload: &[u8]) -> Result<Option<Vec<u8>>, NoMemory> {
    match decode(alloc, payload) {
        Ok(found) => {
            if !fits(&found) {
                return Ok(None);
            }
            Ok(Some(encode(alloc, &found)?.into_vec()))
        }
        Err(_) => Ok(None),
    }
}

// The same behind two bytes.
fn put_again(alloc: Global, payload: &[u8]) -> Result<Option<Vec<u8>>, NoMemory> {
    match decode(alloc, payload) {
        Ok(found) => {
            if !fits(&found) {
                return Ok(None);
            }
            let mut out = b"> ".to_vec(alloc)?;
            put_payload(&mut out, &found)?;
            Ok(Some(out))
        }
        Err(_) => Ok(None),
    }
}

fn length_text(alloc: Global, payload: &[u8]) -> Result<Option<Vec<u8>>, NoMemory> {
    match decode(alloc, payload) {
        Ok(found) => {
            let bytes = length(&found);
            Ok(Some(format!(in alloc; "{bytes}\n")?.into_bytes()))
        }
        Err(_) => Ok(None),
    }
}

fn decode_item_text(alloc: Global, payload: &[u8]) -> Result<Vec<u8>, NoMemory> {
    match decode_item(alloc, payload) {
        Ok(item) => {
            let mut out = String::new(alloc);
            write_item(&mut out, &item.copy(alloc)?)?;
            out.push('\n')?;
            Ok(out.into_bytes())
        }
        Err(fault) => tell_fault(alloc, fault),
    }
}

// The framed record of an item, where it can be written.
fn frame_item(alloc: Global, item: Item) -> Result<Option<Vec<u8>>, NoMemory> {
    match item {
        Item::Mark(stamp) => Ok(Some(encode_item(alloc, &Item::Mark(stamp))?.into_vec())),
        Item::Sample(answer) => {
            if !fits(&answer) {
                return Ok(None);
            }
            if length(&answer) > 16_777_208 {
                return Ok(None);
            }
            if answer.sets.is_empty() {
                return Ok(None);
            }
            Ok(Some(encode_item(alloc, &Item::Sample(answer))?.into_vec()))
        }
    }
}

// Its framed record, and the same once more behind it.
fn frame_sample(alloc: Global, answer: &PmResult) -> Result<Option<Vec<u8>>, NoMemory> {
    if !fits(answer) {
        return Ok(None);
    }
    if length(answer) > 16_777_208 {
        return Ok(None);
    }
    if answer.sets.is_empty() {
        return Ok(None);
    }
    let mut out = encode_sample(alloc, answer)?.into_vec();
    put_sample(&mut out, answer)?;
    Ok(Some(out))
}

// A mark's framed record, and the same once more behind it.
fn frame_mark(alloc: Global, stamp: &Stamp) -> Result<Option<Vec<u8>>, NoMemory> {
    let mut out = Vec::new(alloc);
    put_mark(&mut out, *stamp)?;
    put_mark(&mut out, *stamp)?;
    Ok(Some(out))
}

fn frame_twice(alloc: Global, payload: &[u8]) -> Result<Option<Vec<u8>>, NoMemory> {
    let Ok(item) = decode_item(alloc, payload) else {
        return Ok(None);
    };
    match &item {
        Item::Sample(answer) => frame_sample(alloc, answer),
        Item::Mark(stamp) => frame_mark(alloc, stamp),
    }
}

fn frame_again(alloc: Global, payload: &[u8]) -> Result<Option<Vec<u8>>, NoMemory> {
    match decode_item(alloc, payload) {
        Ok(item) => frame_item(alloc, item),
        Err(_) => Ok(None),
    }
}

// The payload of a set of so many pairs, each with a block of 4 bytes of its own.
fn many_pairs(alloc: Global, count: u32) -> Result<Vec<u8>, NoMemory> {
    let mut payload = Vec::new(alloc);
    for word in [100, 0, 1, 0x1180_0403, count, 1] {
        put_word(&mut payload, word)?;
    }
    let first = count.saturating_mul(2).saturating_add(9);
    for pair in 0..count {
        put_word(&mut payload, pair)?;
        put_word(&mut payload, first.saturating_add(pair.saturating_mul(2)))?;
    }
    for pair in 0..count {
        put_word(&mut payload, 0x0100_0008)?;
        put_word(&mut payload, pair)?;
    }
    Ok(payload)
}

// How many values a result has, and its length.
fn tell_size(alloc: Global, answer: &PmResult) -> Result<Vec<u8>, NoMemory> {
    let mut values = 0usize;
    for set in answer.sets.as_slice() {
        if let Body::Blocks(pairs) = &set.body {
            values = values.saturating_add(pairs.len());
        }
    }
    let bytes = length(answer);
    Ok(format!(in alloc; "{values} values in {bytes} bytes\n")?.into_bytes())
}

// `many COUNT`: a result of so many pairs is read.
fn read_many(alloc: Global, count: &str) -> Result<Option<Vec<u8>>, NoMemory> {
    let Ok(count) = count.parse::<u32>() else {
        return Ok(None);
    };
    let payload = many_pairs(alloc, count)?;
    match decode(alloc, &payload) {
        Ok(found) => Ok(Some(tell_size(alloc, &found)?)),
        Err(fault) => Ok(Some(tell_fault(alloc, fault)?)),
    }
}

/// `decode`, `encode`, `put` and `length` of a result's payload, `item`, `frame` and `frame_twice` of an item's: what it
/// is read as, the bytes of what was read written again, and their number; and `many COUNT`.
pub fn tell_result(alloc: Global, form: &str, payload: &[u8]) -> Result<Option<Vec<u8>>, NoMemory> {
    match form {
        "decode" => Ok(Some(decode_text(alloc, payload)?)),
        "encode" => encode_again(alloc, payload),
        "put" => put_again(alloc, payload),
        "length" => length_text(alloc, payload),
        "item" => Ok(Some(decode_item_text(alloc, payload)?)),
        "frame" => frame_again(alloc, payload),
        "frame_twice" => frame_twice(alloc, payload),
        _ => match form.strip_prefix("many ") {
            Some(count) => read_many(alloc, count),
            None => Ok(None),
        },
    }
}
