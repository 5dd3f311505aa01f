//! How many bytes a payload has, without writing it.
ghost use Rattle.std.specs.Prelude.{◌≡◌, ◌+◌, ◌*◌, ◌≤◌, length, min};
ghost use Rattle.pcp_model.specs.Payload.{block_length, blocks_length, blocks_in, body_length, pair_blocks, payload_length};

use pcp_base::{Block, Body, PmResult};

/// How many bytes a block takes with its first word and its padding.
pub fn block_length(block: &Block) -> u64
    ensures value { result ≡ block_length block.now }
    ensures fits { length block.now.bytes ≤ 16777211 }
{
    let bytes = block.bytes().len() as u64;
    4 + bytes + (4 - bytes % 4) % 4
}

/// A length with what pairs and their blocks take, at most 2^64 - 1.
fn with_pairs(before: u64, pairs: &[(i32, Block)]) -> u64
    ensures { result ≡ min (before + blocks_length (pair_blocks pairs.now)) 18446744073709551615 }
{
    let mut total = before;
    for (_, block) in pairs {
        total = total.saturating_add(block_length(block));
    }
    total
}

/// What a set with so many pairs takes behind its metric, at most 2^64 - 1.
fn pairs_size(count: usize) -> u64
    ensures { result ≡ min (8 + 8 * count) 18446744073709551615 }
{
    (count as u64).saturating_mul(8).saturating_add(8)
}

/// A length with what a set takes behind its metric, its blocks too, at most 2^64 - 1.
fn with_body(before: u64, body: &Body) -> u64
    ensures { result ≡ min (before + body_length body.now + blocks_length (blocks_in body.now)) 18446744073709551615 }
{
    match body {
        Body::InPlace(pairs) => before.saturating_add(pairs_size(pairs.len())),
        Body::Blocks(pairs) => with_pairs(
            before.saturating_add(pairs_size(pairs.len())),
            pairs.as_slice(),
        ),
        Body::Status(_) => before.saturating_add(4),
    }
}

/// How many bytes a result's payload has in its one spelling, at most 2^64 - 1.
pub fn length(answer: &PmResult) -> u64
    ensures { result ≡ min (payload_length answer.now) 18446744073709551615 }
{
    let mut total: u64 = 12;
    for set in answer.sets.as_slice() {
        total = with_body(total.saturating_add(4), &set.body);
    }
    total
}
