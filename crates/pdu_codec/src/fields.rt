//! The fields of bodies: words, states and texts.
ghost use Rattle.std.specs.Prelude.{◌≡◌, ◌≤◌, length, IfOk};
ghost use Rattle.pdu_codec.specs.Reading.{Gives, word_at, signed_at, common, given_at, state_of, state_at, clean_length, text_behind, text_at};

use crate::fault::PduFault;
use pcp_base::{Text, be32};
use std::alloc::Global;

/// A zero word.
pub const ZERO: [u8; 4] = [0; 4];

/// The word at a byte, and the byte behind it.
pub fn word_at(bytes: &[u8], at: usize) -> Result<(u32, usize), PduFault>
    ensures word { result ≡ word_at bytes.now at }
    ensures within { IfOk result (λ x. x.1 ≤ length bytes.now) }
{
    match be32(bytes, at) {
        Some(word) => Ok((word, at + 4)),
        None => Err(PduFault::Body {
            at: bytes.len() as u64,
        }),
    }
}

/// The word at a byte as a number with a sign.
#[tactic(auto, unfolding(crate::specs::Reading::signed_at))]
pub fn signed_at(bytes: &[u8], at: usize) -> Result<(i32, usize), PduFault>
    ensures word { result ≡ signed_at bytes.now at }
    ensures within { IfOk result (λ x. x.1 ≤ length bytes.now) }
{
    let (word, next) = word_at(bytes, at)?;
    Ok((word.cast_signed(), next))
}

/// How many bytes both begin with.
#[tactic(auto, unfolding(crate::specs::Reading::common))]
fn common(wanted: &[u8], bytes: &[u8]) -> usize
    ensures value { result ≡ common wanted.now bytes.now }
    ensures few { result ≤ length wanted.now }
    ensures within { result ≤ length bytes.now }
{
    match wanted {
        [] => 0,
        [first, others @ ..] => match bytes {
            [] => 0,
            [byte, rest @ ..] => {
                if first == byte {
                    1 + common(others, rest)
                } else {
                    0
                }
            }
        },
    }
}

/// The byte behind bytes that have to stand at a byte.
pub fn given_at(wanted: &[u8], bytes: &[u8], at: usize) -> Result<usize, PduFault>
    requires { at ≤ length bytes.now }
    ensures next { result ≡ given_at wanted.now bytes.now at }
    ensures within { IfOk result (λ next. next ≤ length bytes.now) }
{
    let same = common(wanted, &bytes[at..]);
    if same < wanted.len() {
        return Err(PduFault::Body {
            at: (at + same) as u64,
        });
    }
    Ok(at + wanted.len())
}

/// A state, 0 or 1: whether it includes.
#[tactic(auto, unfolding(crate::specs::Reading::state_at))]
pub fn state_at(bytes: &[u8], at: usize) -> Result<(bool, usize), PduFault>
    requires { at ≤ length bytes.now }
    ensures state { result ≡ state_at bytes.now at }
    ensures within { IfOk result (λ x. x.1 ≤ length bytes.now) }
{
    let last = given_at(&[0, 0, 0], bytes, at)?;
    match bytes.get(last) {
        Some(0) => Ok((true, last + 1)),
        Some(1) => Ok((false, last + 1)),
        _ => Err(PduFault::Body { at: last as u64 }),
    }
}

/// How many bytes stand before the first zero byte.
#[tactic(auto, unfolding(crate::specs::Reading::clean_length))]
fn clean_length(bytes: &[u8]) -> usize
    ensures value { result ≡ clean_length bytes.now }
    ensures within { result ≤ length bytes.now }
{
    let mut count = 0;
    for byte in bytes {
        if *byte == 0 {
            return count;
        }
        count += 1;
    }
    count
}

/// The text of so many bytes that begins at a byte, and the byte behind its padding.
#[tactic(auto, using(crate::proofs::TextReaders::clean_text))]
fn text_behind(
    alloc: Global,
    bytes: &[u8],
    size: u32,
    from: usize,
) -> Result<(Text, usize), PduFault>
    requires { from ≤ length bytes.now }
    ensures text { Gives result (text_behind bytes.now size from) }
    ensures within { IfOk result (λ x. x.1 ≤ length bytes.now) }
{
    let size = size as usize;
    let text = &bytes[from..bytes.len().min(from + size)];
    let clean = clean_length(text);
    if clean < text.len() {
        return Err(PduFault::Body {
            at: (from + clean) as u64,
        });
    }
    let end = from + size + (4 - size % 4) % 4;
    if bytes.len() < end {
        return Err(PduFault::Body {
            at: bytes.len() as u64,
        });
    }
    Ok((Text::clean_copy(alloc, text)?, end))
}

/// The text whose length stands at a byte, and the byte behind its padding.
#[tactic(auto, unfolding(crate::specs::Reading::text_at))]
pub fn text_at(alloc: Global, bytes: &[u8], at: usize) -> Result<(Text, usize), PduFault>
    ensures text { Gives result (text_at bytes.now at) }
    ensures within { IfOk result (λ x. x.1 ≤ length bytes.now) }
{
    let (size, from) = word_at(bytes, at)?;
    text_behind(alloc, bytes, size, from)
}
