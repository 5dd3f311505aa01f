//! The one spelling of a payload, put behind what a buffer of the caller's holds: the words, and behind them the
//! blocks in the order of the pairs.
ghost use Rattle.std.specs.Prelude.{◌≡◌, ◌+◌, ◌*◌, ◌/◌, ◌≤◌, ◌<◌, ◌++◌, length, FitsSigned, OnOk, IfOk};
ghost use Rattle.std.specs.Int.{w32};
ghost use Rattle.std.specs.List.{AllByRecursion};
ghost use Rattle.pcp_base.specs.Results.{Fits};
ghost use Rattle.pcp_base.specs.Time.{IsMoment};
ghost use Rattle.pcp_model.specs.Words.{word, signed_word, zeros};
ghost use Rattle.pcp_model.specs.Payload.{value_pairs, offset_pairs, pair_blocks, offsets_from, block_length, blocks_length, blocks_in, blocks_of, body_words, set_words, body_length, sets_length, head_length, result_head, payload, payload_length, block, blocks_bytes, filling, BodyInRange, ResultInRange};
ghost use Rattle.result_form.specs.Ranges.{IsPair, IsBlockPair, HasNumbers};

use crate::sizes::block_length;
use byteorder::{BigEndian, ByteOrder};
use pcp_base::{Block, Body, NoMemory, PmResult, ValueSet};
use pcp_model::{put_signed, put_word};

fn put_value_pair(out: &mut Vec<u8>, instance: i32, value: u32) -> Result<(), NoMemory>
    ensures bytes { OnOk result (out.new.items ≡ out.old.items ++ (signed_word instance ++ word value)) }
    ensures grows { OnOk result (length out.new.items ≡ length out.old.items + 8) }
    ensures range { IsPair (instance, value) }
{
    put_signed(out, instance)?;
    put_word(out, value)?;
    Ok(())
}

fn put_value_pairs(out: &mut Vec<u8>, pairs: &[(i32, u32)]) -> Result<(), NoMemory>
    ensures bytes { OnOk result (out.new.items ≡ out.old.items ++ value_pairs pairs.now) }
    ensures grows { OnOk result (length out.new.items ≡ length out.old.items + 8 * length pairs.now) }
    ensures range { OnOk result (AllByRecursion IsPair pairs.now) }
{
    for (instance, value) in pairs {
        put_value_pair(out, *instance, *value)?;
    }
    Ok(())
}

/// A pair whose block begins at a byte, and the byte behind this block.
fn put_offset_pair(
    out: &mut Vec<u8>,
    at: u64,
    instance: i32,
    value: &Block,
) -> Result<u64, NoMemory>
    requires { at ≤ 16777216 }
    ensures bytes { OnOk result (out.new.items ≡ out.old.items ++ (signed_word instance ++ word (3 + at / 4))) }
    ensures grows { OnOk result (length out.new.items ≡ length out.old.items + 8) }
    ensures range { OnOk result (IsBlockPair (instance, value.now)) }
    ensures next { IfOk result (λ next. next ≡ at + block_length value.now) }
{
    put_signed(out, instance)?;
    put_word(out, (3 + at / 4) as u32)?;
    Ok(at + block_length(value))
}

/// The pairs of a set whose first block begins at a byte, and the byte behind its last block.
fn put_offset_pairs(out: &mut Vec<u8>, at: u64, pairs: &[(i32, Block)]) -> Result<u64, NoMemory>
    requires { at + blocks_length (pair_blocks pairs.now) ≤ 16777216 }
    ensures bytes { OnOk result (out.new.items ≡ out.old.items ++ offset_pairs (offsets_from at (pair_blocks pairs.now)) pairs.now) }
    ensures grows { OnOk result (length out.new.items ≡ length out.old.items + 8 * length pairs.now) }
    ensures range { OnOk result (AllByRecursion IsBlockPair pairs.now) }
    ensures next { IfOk result (λ next. next ≡ at + blocks_length (pair_blocks pairs.now)) }
{
    let mut offset = at;
    for (instance, value) in pairs {
        offset = put_offset_pair(out, offset, *instance, value)?;
    }
    Ok(offset)
}

/// The words of a set behind its metric, and the byte behind its last block.
fn put_body(out: &mut Vec<u8>, at: u64, body: &Body) -> Result<u64, NoMemory>
    requires room { at + blocks_length (blocks_in body.now) ≤ 16777216 }
    requires few { body_length body.now ≤ 16777216 }
    ensures bytes { OnOk result (out.new.items ≡ out.old.items ++ body_words (offsets_from at (blocks_in body.now)) body.now) }
    ensures grows { OnOk result (length out.new.items ≡ length out.old.items + body_length body.now) }
    ensures range { OnOk result (BodyInRange body.now) }
    ensures next { IfOk result (λ next. next ≡ at + blocks_length (blocks_in body.now)) }
{
    match body {
        Body::InPlace(pairs) => {
            put_word(out, pairs.len() as u32)?;
            put_word(out, 0)?;
            put_value_pairs(out, pairs.as_slice())?;
            Ok(at)
        }
        Body::Blocks(pairs) => {
            put_word(out, pairs.len() as u32)?;
            put_word(out, 1)?;
            let next = put_offset_pairs(out, at, pairs.as_slice())?;
            Ok(next)
        }
        Body::Status(status) => {
            put_signed(out, *status)?;
            Ok(at)
        }
    }
}

/// A set's words, and the byte behind its last block.
fn put_set(out: &mut Vec<u8>, at: u64, set: &ValueSet) -> Result<u64, NoMemory>
    requires room { at + blocks_length (blocks_in set.now.body) ≤ 16777216 }
    requires few { body_length set.now.body ≤ 16777216 }
    ensures bytes { OnOk result (out.new.items ≡ (out.old.items ++ word set.now.pmid) ++ body_words (offsets_from at (blocks_in set.now.body)) set.now.body) }
    ensures grows { OnOk result (length out.new.items ≡ length out.old.items + (4 + body_length set.now.body)) }
    ensures range { OnOk result (HasNumbers set.now) }
    ensures next { IfOk result (λ next. next ≡ at + blocks_length (blocks_in set.now.body)) }
{
    put_word(out, set.pmid.word())?;
    put_body(out, at, &set.body)
}

fn put_sets(out: &mut Vec<u8>, at: u64, sets: &[ValueSet]) -> Result<(), NoMemory>
    requires room { at + blocks_length (blocks_of sets.now) ≤ 16777216 }
    requires few { sets_length sets.now ≤ 16777216 }
    ensures bytes { OnOk result (out.new.items ≡ out.old.items ++ set_words (offsets_from at (blocks_of sets.now)) sets.now) }
    ensures grows { OnOk result (length out.new.items ≡ length out.old.items + sets_length sets.now) }
    ensures range { OnOk result (AllByRecursion HasNumbers sets.now) }
{
    let mut offset = at;
    for set in sets {
        offset = put_set(out, offset, set)?;
    }
    Ok(())
}

fn put_zeros(out: &mut Vec<u8>, count: usize) -> Result<(), NoMemory>
    ensures bytes { OnOk result (out.new.items ≡ out.old.items ++ zeros count) }
    ensures grows { OnOk result (length out.new.items ≡ length out.old.items + count) }
{
    for _ in 0..count {
        out.push(0)?;
    }
    Ok(())
}

fn put_block(out: &mut Vec<u8>, value: &Block) -> Result<(), NoMemory>
    ensures bytes { OnOk result (out.new.items ≡ out.old.items ++ block value.now) }
    ensures grows { OnOk result (length out.new.items ≡ length out.old.items + block_length value.now) }
{
    let bytes = value.bytes();
    let size = (4 + bytes.len()) as u32;
    let mut head = [value.code(); 4];
    BigEndian::write_u24(&mut head[1..], size);
    out.extend_from_slice(&head)?;
    out.extend_from_slice(bytes)?;
    put_zeros(out, (4 - bytes.len() % 4) % 4)
}

fn put_pair_blocks(out: &mut Vec<u8>, pairs: &[(i32, Block)]) -> Result<(), NoMemory>
    ensures bytes { OnOk result (out.new.items ≡ out.old.items ++ blocks_bytes (pair_blocks pairs.now)) }
    ensures grows { OnOk result (length out.new.items ≡ length out.old.items + blocks_length (pair_blocks pairs.now)) }
{
    for (_, value) in pairs {
        put_block(out, value)?;
    }
    Ok(())
}

fn put_set_blocks(out: &mut Vec<u8>, body: &Body) -> Result<(), NoMemory>
    ensures bytes { OnOk result (out.new.items ≡ out.old.items ++ blocks_bytes (blocks_in body.now)) }
    ensures grows { OnOk result (length out.new.items ≡ length out.old.items + blocks_length (blocks_in body.now)) }
{
    if let Body::Blocks(pairs) = body {
        put_pair_blocks(out, pairs.as_slice())?;
    }
    Ok(())
}

fn put_blocks(out: &mut Vec<u8>, sets: &[ValueSet]) -> Result<(), NoMemory>
    ensures bytes { OnOk result (out.new.items ≡ out.old.items ++ blocks_bytes (blocks_of sets.now)) }
    ensures grows { OnOk result (length out.new.items ≡ length out.old.items + blocks_length (blocks_of sets.now)) }
{
    for set in sets {
        put_set_blocks(out, &set.body)?;
    }
    Ok(())
}

fn body_size(body: &Body) -> u64
    requires { body_length body.now ≤ 16777216 }
    ensures { result ≡ body_length body.now }
{
    match body {
        Body::InPlace(pairs) => 8 + 8 * pairs.len() as u64,
        Body::Blocks(pairs) => 8 + 8 * pairs.len() as u64,
        Body::Status(_) => 4,
    }
}

fn head_size(answer: &PmResult) -> u64
    requires { head_length answer.now ≤ 16777216 }
    ensures { result ≡ head_length answer.now }
{
    let mut size = 12;
    for set in answer.sets.as_slice() {
        size += 4 + body_size(&set.body);
    }
    size
}

#[tactic(auto, using(pcp_model::proofs::Payloads::sets_few))]
fn put_head(out: &mut Vec<u8>, at: u64, answer: &PmResult) -> Result<(), NoMemory>
    requires offsets { at ≡ head_length answer.now }
    requires room { payload_length answer.now ≤ 16777216 }
    ensures bytes { OnOk result (out.new.items ≡ out.old.items ++ result_head (offsets_from at (blocks_of answer.now.sets)) answer.now) }
    ensures grows { OnOk result (length out.new.items ≡ length out.old.items + at) }
    ensures moment { OnOk result (IsMoment answer.now.stamp) }
    ensures numbers { OnOk result (AllByRecursion HasNumbers answer.now.sets) }
{
    let sets = answer.sets.as_slice();
    put_word(out, answer.stamp.sec())?;
    put_word(out, answer.stamp.usec())?;
    put_word(out, sets.len() as u32)?;
    put_sets(out, at, sets)?;
    Ok(())
}

/// Puts a result's payload behind what the buffer holds; its blocks stand behind the last set, in the order of the
/// pairs. Each set holds what can be written, and the payload has at most 16 MiB. After a refusal the buffer may hold
/// a part of it.
#[tactic(auto, unfolding(pcp_model::specs::Payload::payload))]
pub fn put_payload(out: &mut Vec<u8>, answer: &PmResult) -> Result<(), NoMemory>
    requires fits { AllByRecursion Fits answer.now.sets }
    requires room { payload_length answer.now ≤ 16777216 }
    ensures bytes { OnOk result (out.new.items ≡ out.old.items ++ payload answer.now) }
    ensures length { OnOk result (length out.new.items ≡ length out.old.items + payload_length answer.now) }
    // What was written is read again: each number is in its range.
    ensures range { OnOk result (ResultInRange answer.now) }
{
    let at = head_size(answer);
    put_head(out, at, answer)?;
    put_blocks(out, answer.sets.as_slice())?;
    Ok(())
}
