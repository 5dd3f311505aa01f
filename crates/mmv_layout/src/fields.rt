//! Numbers and texts at offsets of an image, and the words of bytes.
ghost use Rattle.std.specs.Prelude.{◌≡◌, ◌+◌, ◌<◌, ◌≤◌, ◌^◌, IfOk, length, take, drop};
ghost use Rattle.std.specs.Int.{w64, from_le_bytes};
ghost use Rattle.mmv_layout.specs.Fields.{number32, number64, byte_at, text_at, has_zero, words_of};

use byteorder::{ByteOrder, LittleEndian};
use pcp_base::{List, Text};
use std::alloc::{AllocError, Global};

/// The number of eight bytes at an offset that is a multiple of 8, and 0 past the words. Offsets have 128 bits, so that
/// no sum of numbers from an image wraps.
#[tactic(auto, unfolding(crate::specs::Fields::number64))]
pub fn number64(words: &[u64], at: u128) -> u64
    ensures { result ≡ number64 words.now at }
{
    let index = at / 8;
    if index < words.len() as u128 {
        words[index as usize]
    } else {
        0
    }
}

/// The number of four bytes at an offset that is a multiple of 4.
#[tactic(auto, unfolding(crate::specs::Fields::number32))]
pub fn number32(words: &[u64], at: u128) -> u32
    ensures { result ≡ number32 words.now at }
{
    ((number64(words, at) >> (8 * (at % 8) as u32)) % 4294967296) as u32
}

/// The byte at an offset.
#[tactic(auto, unfolding(crate::specs::Fields::byte_at))]
pub fn byte_at(words: &[u64], at: u128) -> u8
    ensures { result ≡ byte_at words.now at }
{
    ((number64(words, at) >> (8 * (at % 8) as u32)) % 256) as u8
}

/// Whether one of the `n` bytes at an offset is zero.
#[tactic(auto, using(crate::proofs::Below::some_none, crate::proofs::Below::some_more), unfolding(crate::specs::Fields::has_zero))]
pub fn has_zero(words: &[u64], at: u128, n: u32) -> bool
    requires { at < 2 ^ 100 }
    ensures { result ≡ has_zero words.now at n }
{
    for k in 0..n {
        if byte_at(words, at + k as u128) == 0 {
            return true;
        }
    }
    false
}

/// The bytes at an offset before the first zero byte, `n` at most.
fn bytes_at(alloc: Global, words: &[u64], at: u128, n: u32) -> Result<Vec<u8>, AllocError>
    requires { at < 2 ^ 100 }
    ensures { IfOk result (λ text. text.items ≡ text_at words.now at n) }
{
    let mut text = Vec::with_capacity(alloc, n as usize)?;
    for k in 0..n {
        let byte = byte_at(words, at + k as u128);
        if byte == 0 {
            return Ok(text);
        }
        text.push(byte)?;
    }
    Ok(text)
}

/// The text at an offset: its bytes before the first zero byte, `n` at most.
#[tactic(auto, using(crate::proofs::Texts::text_clean))]
pub fn text_at(alloc: Global, words: &[u64], at: u128, n: u32) -> Result<Text, AllocError>
    requires { at < 2 ^ 100 }
    ensures { IfOk result (λ text. text ≡ text_at words.now at n) }
{
    let bytes = bytes_at(alloc, words, at, n)?;
    Ok(Text::of_clean(List::from_vec(bytes)))
}

/// The word that eight bytes make, the low byte first.
#[tactic(auto, using(pcp_base::proofs::Orders::little_eight))]
fn word_of(bytes: &[u8], at: usize) -> u64
    requires { at + 8 ≤ length bytes.now }
    ensures { result ≡ from_le_bytes w64 (take 8 (drop at bytes.now)) }
{
    LittleEndian::read_u64(&bytes[at..at + 8])
}

/// The words that whole groups of eight bytes make.
pub fn words_of(alloc: Global, bytes: &[u8]) -> Result<Vec<u64>, AllocError>
    ensures { IfOk result (λ words. words.items ≡ words_of bytes.now) }
{
    let count = bytes.len() / 8;
    let mut words = Vec::with_capacity(alloc, count)?;
    for i in 0..count {
        words.push(word_of(bytes, 8 * i))?;
    }
    Ok(words)
}
