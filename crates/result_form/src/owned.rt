//! A payload that was checked, as a value of its own.
ghost use Rattle.std.specs.Prelude.{◌≡◌, drop, IfOk};
ghost use Rattle.result_form.specs.Shown.{shown_values, shown_block, shown_blocks, shown_body, shown_set, shown_sets, shown_result};
ghost use Rattle.result_form.specs.Lying.{BlockLies, PairsLie, SetLies, SetsLie};

use crate::bodies::instance_in;
use crate::sets::set_size;
use crate::words::{behind, is_status, word_in};
use pcp_base::{Block, Body, Bytes, List, NoMemory, PmResult, Pmid, Shared, Stamp, ValueSet};
use std::alloc::Global;

/// So many values in place, whose pairs stand at the front of these bytes.
#[tactic(auto, unfolding(crate::specs::Shown::shown_values))]
fn values_of(alloc: Global, count: u32, words: &[u8]) -> Result<List<(i32, u32)>, NoMemory>
    ensures { IfOk result (λ pairs. pairs ≡ shown_values count words.now) }
{
    let mut left = words;
    let mut pairs = List::from_vec(Vec::with_capacity(alloc, count as usize)?);
    for _ in 0..count {
        let instance = instance_in(left);
        let value = word_in(left, 4);
        pairs.push((instance, value))?;
        left = behind(left, 8);
    }
    Ok(pairs)
}

/// The block to which an offset leads, at its place among the bytes behind the sets.
#[tactic(auto, using(crate::proofs::Tails::drop_behind, crate::proofs::Tails::length_behind), unfolding(crate::specs::Shown::shown_block))]
fn block_of(payload: &[u8], end: usize, tail: &Shared, offset: u32) -> Result<Block, NoMemory>
    requires tail { tail.now ≡ drop end payload.now }
    requires lies { BlockLies payload.now end offset }
    ensures { IfOk result (λ block. block ≡ shown_block payload.now offset) }
{
    let begin = offset.saturating_sub(3) as usize * 4;
    let head = word_in(payload, begin);
    let code = (head / 16_777_216) as u8;
    Block::within(code, tail, begin + 4 - end, head % 16_777_216 - 4)
}

/// So many blocks, whose pairs stand at the front of these bytes.
#[tactic(auto, unfolding(crate::specs::Shown::shown_blocks))]
fn blocks_of(
    alloc: Global,
    payload: &[u8],
    end: usize,
    tail: &Shared,
    count: u32,
    words: &[u8],
) -> Result<List<(i32, Block)>, NoMemory>
    requires tail { tail.now ≡ drop end payload.now }
    requires lie { PairsLie payload.now end count words.now }
    ensures { IfOk result (λ pairs. pairs ≡ shown_blocks payload.now count words.now) }
{
    let mut left = words;
    let mut pairs = List::from_vec(Vec::with_capacity(alloc, count as usize)?);
    for _ in 0..count {
        let instance = instance_in(left);
        let offset = word_in(left, 4);
        let block = block_of(payload, end, tail, offset)?;
        pairs.push((instance, block))?;
        left = behind(left, 8);
    }
    Ok(pairs)
}

/// What a set holds, whose words stand at the front of these bytes.
#[tactic(auto, unfolding(crate::specs::Shown::shown_body))]
fn body_of(
    alloc: Global,
    payload: &[u8],
    end: usize,
    tail: &Shared,
    words: &[u8],
) -> Result<Body, NoMemory>
    requires tail { tail.now ≡ drop end payload.now }
    requires lies { SetLies payload.now end words.now }
    ensures { IfOk result (λ body. body ≡ shown_body payload.now words.now) }
{
    let number = word_in(words, 4);
    if is_status(number) {
        return Ok(Body::Status(number.cast_signed()));
    }
    let pairs = behind(words, 12);
    if word_in(words, 8) == 0 {
        let values = values_of(alloc, number, pairs)?;
        return Ok(Body::InPlace(values));
    }
    let blocks = blocks_of(alloc, payload, end, tail, number, pairs)?;
    Ok(Body::Blocks(blocks))
}

/// The set whose words stand at the front of these bytes.
fn set_of(
    alloc: Global,
    payload: &[u8],
    end: usize,
    tail: &Shared,
    words: &[u8],
) -> Result<ValueSet, NoMemory>
    requires tail { tail.now ≡ drop end payload.now }
    requires lies { SetLies payload.now end words.now }
    ensures { IfOk result (λ set. set ≡ shown_set payload.now words.now) }
{
    let pmid = Pmid::of_word(word_in(words, 0));
    let body = body_of(alloc, payload, end, tail, words)?;
    Ok(ValueSet { pmid, body })
}

/// So many sets, the first of which begins at the front of these bytes.
#[tactic(auto, unfolding(crate::specs::Shown::shown_sets))]
fn sets_of(
    alloc: Global,
    payload: &[u8],
    end: usize,
    tail: &Shared,
    count: u32,
    words: &[u8],
) -> Result<List<ValueSet>, NoMemory>
    requires tail { tail.now ≡ drop end payload.now }
    requires lie { SetsLie payload.now end count words.now }
    ensures { IfOk result (λ sets. sets ≡ shown_sets payload.now count words.now) }
{
    let mut left = words;
    let mut sets = List::from_vec(Vec::with_capacity(alloc, count as usize)?);
    for _ in 0..count {
        let set = set_of(alloc, payload, end, tail, left)?;
        sets.push(set)?;
        left = behind(left, set_size(left));
    }
    Ok(sets)
}

/// The result of a payload whose sets end at a byte. What stands behind them is copied once, and each block is a place in
/// it, however often offsets lead there; where no set has blocks, nothing stands there.
pub fn result_of(
    alloc: Global,
    payload: &[u8],
    stamp: Stamp,
    count: u32,
    end: usize,
) -> Result<PmResult, NoMemory>
    requires { SetsLie payload.now end count (drop 12 payload.now) }
    ensures { IfOk result (λ r. r ≡ shown_result payload.now stamp count) }
{
    let bytes = Vec::from_slice(alloc, behind(payload, end))?;
    let tail = Shared::build(Bytes::from_vec(bytes))?;
    let sets = sets_of(alloc, payload, end, &tail, count, behind(payload, 12))?;
    Ok(PmResult { stamp, sets })
}
