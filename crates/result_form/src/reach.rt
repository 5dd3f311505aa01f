//! Where a set's words end, and which blocks its pairs lead to, in a payload that isn't checked.
ghost use Rattle.std.specs.Prelude.{◌≡◌, ◌+◌, ◌-◌, ◌*◌, ◌/◌, ◌<◌, ◌≤◌, length, MatchResult, IfOk, OnOk};
ghost use Rattle.result_form.specs.declared.fault.FormFault.TheVariants.{Short};
ghost use Rattle.result_form.specs.Decoding.{padded_size, block_at, offset_block, offset_pair, blocks_from};
ghost use Rattle.result_form.specs.Reaching.{IsSpan, reach_of};

use crate::fault::FormFault;
use crate::words::{is_status, word_at};

/// The words of a set: the byte behind them, the byte behind its first three, and how many pairs follow there whose values
/// stand in blocks.
#[derive(Clone, Copy)]
pub struct SetSpan {
    pub next: usize,
    pub from: usize,
    pub blocks: u32,
}

/// The byte behind so many pairs that begin at a byte.
fn pairs_end(payload: &[u8], from: usize, count: u32) -> Result<usize, FormFault>
    requires { from ≤ length payload.now }
    ensures { MatchResult result (λ end. (end ≡ from + 8 * count) × (end ≤ length payload.now))
        (λ e. (length payload.now < from + 8 * count) × (e ≡ Short (from + (length payload.now - from) / 4 * 4))) }
{
    let rest = payload.len() - from;
    if rest / 8 < count as usize {
        return Err(FormFault::Short {
            at: (from + rest / 4 * 4) as u64,
        });
    }
    Ok(from + 8 * count as usize)
}

/// The words of the set at a byte.
pub fn span_at(payload: &[u8], at: usize) -> Result<SetSpan, FormFault>
    ensures span { IsSpan payload.now at result }
    ensures within { IfOk result (λ span. span.next ≤ length payload.now) }
{
    word_at(payload, at)?;
    let number = word_at(payload, at + 4)?;
    if is_status(number) {
        return Ok(SetSpan {
            next: at + 8,
            from: at + 8,
            blocks: 0,
        });
    }
    let mode = word_at(payload, at + 8)?;
    if mode > 1 {
        return Err(FormFault::Mode {
            at: (at + 8) as u64,
        });
    }
    let from = at + 12;
    let next = pairs_end(payload, from, number)?;
    if mode == 0 {
        return Ok(SetSpan {
            next,
            from,
            blocks: 0,
        });
    }
    Ok(SetSpan {
        next,
        from,
        blocks: number,
    })
}

/// How many bytes a block takes with its padding, by its first word.
fn padded_size(head: u32) -> usize
    ensures { result ≡ padded_size head }
{
    let size = (head % 16_777_216) as usize;
    size + (4 - size % 4) % 4
}

/// The byte behind the block that begins at a byte.
#[tactic(auto, unfolding(crate::specs::Decoding::block_at))]
fn block_end(payload: &[u8], at: usize) -> Result<usize, FormFault>
    ensures { result ≡ reach_of (block_at payload.now at) }
{
    let head = word_at(payload, at)?;
    let end = at + padded_size(head);
    if head % 16_777_216 < 4 || payload.len() < end {
        return Err(FormFault::Block { at: at as u64 });
    }
    Ok(end)
}

/// The byte behind the block at an offset, the offset's word being at a byte.
#[tactic(auto, unfolding(crate::specs::Decoding::offset_block))]
fn offset_end(payload: &[u8], sets_end: usize, at: usize, offset: u32) -> Result<usize, FormFault>
    ensures { result ≡ reach_of (offset_block payload.now sets_end at offset) }
{
    let begin = offset.saturating_sub(3) as usize * 4;
    if begin < sets_end || payload.len() < begin + 4 {
        return Err(FormFault::Offset { at: at as u64 });
    }
    block_end(payload, begin)
}

/// The byte behind the block to which the pair at a byte leads.
#[tactic(auto, unfolding(crate::specs::Decoding::offset_pair, crate::specs::Decoding::pair_at))]
fn pair_end(payload: &[u8], sets_end: usize, at: usize) -> Result<usize, FormFault>
    ensures end { result ≡ reach_of (offset_pair payload.now sets_end at) }
    ensures within { OnOk result (at + 8 ≤ length payload.now) }
{
    word_at(payload, at)?;
    let offset = word_at(payload, at + 4)?;
    offset_end(payload, sets_end, at + 4, offset)
}

/// The greater of an end reached before and of the ends of the blocks to which so many pairs lead.
#[tactic(auto, unfolding(crate::specs::Decoding::blocks_from))]
pub fn pairs_reach(
    payload: &[u8],
    sets_end: usize,
    reached: usize,
    count: u32,
    from: usize,
) -> Result<usize, FormFault>
    ensures { result ≡ reach_of (blocks_from payload.now sets_end reached count from) }
{
    let mut at = from;
    let mut reach = reached;
    for _ in 0..count {
        let end = pair_end(payload, sets_end, at)?;
        reach = reach.max(end);
        at += 8;
    }
    Ok(reach)
}
