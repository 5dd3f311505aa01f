//! Where bytes that are no payload of a result stop being like one, byte by byte.
ghost use Rattle.std.specs.Prelude.{◌≡◌, ◌⊎◌, ◌+◌, ◌*◌, ◌<◌, ◌≤◌, length, IfOk, OnOk};
ghost use Rattle.pdu_codec.specs.ResultMisfit.{byte_between, word_between, any_word, most_values, least_end, count_word, led_by, offset_at, offsets_from, pairs_at, most_mode, values_at, set_at, sets_at, stop_behind, walk_of_sets, result_misfit};

use pcp_base::be32;

/// The furthest byte to which an offset leads.
const FURTHEST: u64 = 17_179_869_168;

/// What is known of the blocks to which offsets led.
#[derive(Clone, Copy)]
pub struct Blocks {
    /// Where all sets end at the latest.
    pub limit: u64,
    /// The last byte of the first length that is too small, or the end of the bytes.
    pub stop: u64,
    /// How far the blocks reach whose length stands.
    pub reach: u64,
    /// Whether there is a block whose length doesn't stand.
    pub is_open: bool,
}

/// Where the next set begins, and what is known of the blocks of those before it.
#[derive(Clone, Copy)]
pub struct Sets {
    pub at: usize,
    pub blocks: Blocks,
}

/// A number with one byte more, where it lies between these; else the byte at which it stops.
fn byte_between(payload: &[u8], at: usize, before: u32, least: u32, most: u32) -> Result<u32, usize>
    requires { before < 16777216 }
    ensures number { result ≡ byte_between payload.now at before least most }
    ensures within { OnOk result (at < length payload.now) }
    ensures range { IfOk result (λ n. n ≤ most) }
{
    if at >= payload.len() {
        return Err(payload.len());
    }
    let number = before * 256 + u32::from(payload[at]);
    if number < least {
        return Err(at);
    }
    if number > most {
        return Err(at);
    }
    Ok(number)
}

/// The word at a byte, between two numbers; else the byte at which it stops.
#[tactic(auto, unfolding(crate::specs::ResultMisfit::word_between))]
fn word_between(payload: &[u8], at: usize, least: u32, most: u32) -> Result<u32, usize>
    ensures number { result ≡ word_between payload.now at least most }
    ensures within { OnOk result (at + 4 ≤ length payload.now) }
    ensures range { IfOk result (λ n. n ≤ most) }
{
    let first = byte_between(payload, at, 0, least / 16_777_216, most / 16_777_216)?;
    let second = byte_between(payload, at + 1, first, least / 65_536, most / 65_536)?;
    let third = byte_between(payload, at + 2, second, least / 256, most / 256)?;
    byte_between(payload, at + 3, third, least, most)
}

/// How many values fit into a set, so that all sets still end at or before a byte.
fn most_values(at: usize, others: u32, limit: u64) -> u32
    requires { at < 4294967296 }
    ensures { result ≡ most_values at others limit }
{
    let room = limit.saturating_sub(at as u64 + 12 + 8 * u64::from(others)) / 8;
    room.min(2_147_483_647) as u32
}

/// Where all sets end at the least, if the one at a byte has so many values.
fn least_end(at: usize, others: u32, count: u32) -> u64
    requires { at < 4294967296 }
    ensures { result ≡ least_end at others count }
{
    at as u64 + 12 + 8 * u64::from(count) + 8 * u64::from(others)
}

/// The number of a set's values, or its status.
fn count_word(payload: &[u8], at: usize, others: u32, limit: u64) -> Result<u32, usize>
    requires { at < 4294967296 }
    ensures number { result ≡ count_word payload.now at others limit }
    ensures within { OnOk result (at + 8 ≤ length payload.now) }
{
    if at + 4 < payload.len() && payload[at + 4] >= 128 {
        return word_between(payload, at + 4, 0, u32::MAX);
    }
    word_between(payload, at + 4, 0, most_values(at, others, limit))
}

/// What is known of the blocks with the one to which this offset leads.
fn led(payload: &[u8], blocks: Blocks, offset: u32) -> Blocks
    ensures { result ≡ led_by payload.now blocks offset }
{
    let begin = u64::from(offset.saturating_sub(3)) * 4;
    let mut next = blocks;
    next.limit = blocks.limit.min(begin);
    match be32(payload, begin as usize) {
        None => next.is_open = true,
        Some(head) => {
            let size = u64::from(head % 16_777_216);
            if size < 4 {
                next.stop = blocks.stop.min(begin + 3);
            } else {
                next.reach = blocks.reach.max(begin + size + (4 - size % 4) % 4);
            }
        }
    }
    next
}

/// The offset of the pair at a byte: no offset leads before the least end of all sets.
#[tactic(auto, unfolding(crate::specs::ResultMisfit::offset_at))]
fn offset_at(payload: &[u8], end: u64, at: usize) -> Result<u32, usize>
    requires end { end ≤ 17179869168 }
    requires at { at ≤ length payload.now }
    ensures offset { result ≡ offset_at payload.now end at }
    ensures within { OnOk result (at + 8 ≤ length payload.now) }
{
    word_between(payload, at, 0, u32::MAX)?;
    word_between(payload, at + 4, (3 + end / 4) as u32, u32::MAX)
}

/// What is known of the blocks behind so many pairs whose words are offsets; `end` is the least end of all sets.
#[tactic(auto, unfolding(crate::specs::ResultMisfit::offsets_from))]
fn offsets_from(
    payload: &[u8],
    end: u64,
    before: Blocks,
    count: u32,
    from: usize,
) -> Result<Blocks, usize>
    requires end { end ≤ 17179869168 }
    requires from { from ≤ length payload.now }
    ensures blocks { result ≡ offsets_from payload.now end before count from }
    ensures within { OnOk result (from + 8 * count ≤ length payload.now) }
{
    let mut blocks = before;
    let mut at = from;
    for _ in 0..count {
        let offset = offset_at(payload, end, at)?;
        blocks = led(payload, blocks, offset);
        at += 8;
    }
    Ok(blocks)
}

/// What stands behind the pairs of a set, which begins at a byte.
#[tactic(auto, unfolding(crate::specs::ResultMisfit::pairs_at))]
fn pairs_at(
    payload: &[u8],
    at: usize,
    others: u32,
    blocks: Blocks,
    count: u32,
    mode: u32,
) -> Result<Sets, usize>
    requires at { at + 12 ≤ length payload.now }
    requires small { length payload.now < 4294967296 }
    requires end { (mode ≡ 0) ⊎ (least_end at others count ≤ 17179869168) }
    ensures sets { result ≡ pairs_at payload.now at others blocks count mode }
    ensures within { IfOk result (λ s. s.at ≤ length payload.now) }
{
    let next = at + 12 + 8 * count as usize;
    if mode == 0 {
        if payload.len() < next {
            return Err(payload.len());
        }
        return Ok(Sets { at: next, blocks });
    }
    let blocks = offsets_from(
        payload,
        least_end(at, others, count),
        blocks,
        count,
        at + 12,
    )?;
    Ok(Sets { at: next, blocks })
}

/// How a set's values may stand: by blocks only where an offset can lead behind all sets.
fn most_mode(end: u64) -> u32
    ensures { result ≡ most_mode end }
{
    if FURTHEST < end { 0 } else { 1 }
}

/// What stands behind a set that begins at a byte, by the number of its values.
#[tactic(auto, unfolding(crate::specs::ResultMisfit::values_at))]
fn values_at(
    payload: &[u8],
    at: usize,
    others: u32,
    blocks: Blocks,
    count: u32,
) -> Result<Sets, usize>
    requires at { at + 8 ≤ length payload.now }
    requires small { length payload.now < 4294967296 }
    ensures sets { result ≡ values_at payload.now at others blocks count }
    ensures within { IfOk result (λ s. s.at ≤ length payload.now) }
{
    if count == 0 || count >= 1 << 31 {
        return Ok(Sets { at: at + 8, blocks });
    }
    let most = most_mode(least_end(at, others, count));
    let mode = word_between(payload, at + 8, 0, most)?;
    pairs_at(payload, at, others, blocks, count, mode)
}

/// What stands behind the set that begins where those before it end; so many others follow it.
#[tactic(auto, unfolding(crate::specs::ResultMisfit::set_at))]
fn set_at(payload: &[u8], others: u32, sets: Sets) -> Result<Sets, usize>
    requires at { sets.at ≤ length payload.now }
    requires small { length payload.now < 4294967296 }
    ensures sets { result ≡ set_at payload.now others sets }
    ensures within { IfOk result (λ s. s.at ≤ length payload.now) }
{
    word_between(payload, sets.at, 0, u32::MAX)?;
    let count = count_word(payload, sets.at, others, sets.blocks.limit)?;
    values_at(payload, sets.at, others, sets.blocks, count)
}

/// What stands behind so many sets.
#[tactic(auto, unfolding(crate::specs::ResultMisfit::sets_at))]
fn sets_at(payload: &[u8], count: u32, before: Sets) -> Result<Sets, usize>
    requires at { before.at ≤ length payload.now }
    requires small { length payload.now < 4294967296 }
    ensures sets { result ≡ sets_at payload.now count before }
{
    let mut sets = before;
    for i in 0..count {
        sets = set_at(payload, count - 1 - i, sets)?;
    }
    Ok(sets)
}

/// The byte behind all sets at which the payload stops.
fn stop_behind(payload: &[u8], sets: Sets) -> usize
    ensures { result ≡ stop_behind payload.now sets }
{
    let size = payload.len() as u64;
    let blocks = sets.blocks;
    if blocks.stop < size {
        return blocks.stop as usize;
    }
    if blocks.is_open {
        return payload.len();
    }
    size.min(blocks.reach.max(sets.at as u64)) as usize
}

/// What stands behind all sets.
#[tactic(auto, unfolding(crate::specs::ResultMisfit::walk_of_sets))]
fn walk(payload: &[u8]) -> Result<Sets, usize>
    requires { length payload.now < 4294967296 }
    ensures { result ≡ walk_of_sets payload.now }
{
    word_between(payload, 0, 0, 2_147_483_647)?;
    word_between(payload, 4, 0, 999_999)?;
    let count = word_between(payload, 8, 0, 2_147_483_647)?;
    let blocks = Blocks {
        limit: 1 << 36,
        stop: payload.len() as u64,
        reach: 0,
        is_open: false,
    };
    sets_at(payload, count, Sets { at: 12, blocks })
}

/// The first byte with which no payload goes on, or the end; of a payload its end.
pub fn result_misfit(payload: &[u8]) -> usize
    requires { length payload.now < 4294967296 }
    ensures stop { result ≡ result_misfit payload.now }
    ensures within { result ≤ length payload.now }
{
    let stop = match walk(payload) {
        Ok(sets) => stop_behind(payload, sets),
        Err(at) => at,
    };
    stop.min(payload.len())
}
