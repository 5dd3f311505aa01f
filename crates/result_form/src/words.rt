//! Words and parts of bytes, 0 and nothing where they don't lie in the bytes.
ghost use Rattle.std.specs.Prelude.{◌≡◌, ◌+◌, ◌<◌, ◌≤◌, length, take, drop, MatchResult};
ghost use Rattle.pcp_base.specs.Fields.{number_at};
ghost use Rattle.result_form.specs.declared.fault.FormFault.TheVariants.{Short};
ghost use Rattle.result_form.specs.Decoding.{word_at, word_below, stamp_of};
ghost use Rattle.result_form.specs.Shown.{word_in, is_status};

use crate::fault::FormFault;
use pcp_base::{Stamp, be32};

/// The word at a byte, and 0 where it doesn't lie in the bytes.
#[tactic(auto, unfolding(crate::specs::Shown::word_in))]
pub fn word_in(bytes: &[u8], at: usize) -> u32
    ensures { result ≡ word_in bytes.now at }
{
    match be32(bytes, at) {
        Some(word) => word,
        None => 0,
    }
}

/// Whether a number of values is a status: 0 or below.
pub fn is_status(number: u32) -> bool
    ensures { result ≡ is_status number }
{
    number == 0 || number >= 1 << 31
}

/// The bytes behind so many.
pub fn behind(bytes: &[u8], count: usize) -> &[u8]
    ensures { result.now ≡ drop count bytes.now }
{
    if count < bytes.len() {
        &bytes[count..]
    } else {
        &bytes[bytes.len()..]
    }
}

/// So many bytes, or all where there are no more.
pub fn front(bytes: &[u8], count: usize) -> &[u8]
    ensures front { result.now ≡ take count bytes.now }
    ensures size { length result.now ≤ count }
{
    if count < bytes.len() {
        &bytes[..count]
    } else {
        bytes
    }
}

/// The word at a byte of a payload that isn't checked.
pub fn word_at(payload: &[u8], at: usize) -> Result<u32, FormFault>
    ensures word { result ≡ word_at payload.now at }
    ensures cases { MatchResult result (λ n. (at + 4 ≤ length payload.now) × (n ≡ number_at payload.now at)) (λ e. (length payload.now < at + 4) × (e ≡ Short at)) }
{
    match be32(payload, at) {
        Some(word) => Ok(word),
        None => Err(FormFault::Short { at: at as u64 }),
    }
}

/// The word at a byte of a payload that isn't checked, where it is below a bound.
pub fn word_below(payload: &[u8], at: usize, bound: u32, fault: FormFault) -> Result<u32, FormFault>
    ensures { result ≡ word_below payload.now at bound fault }
{
    let word = word_at(payload, at)?;
    if word < bound { Ok(word) } else { Err(fault) }
}

/// The time stamp at the front of a payload that isn't checked.
#[tactic(auto, unfolding(crate::specs::Decoding::stamp_of))]
pub fn stamp_of(payload: &[u8]) -> Result<Stamp, FormFault>
    ensures { result ≡ stamp_of payload.now }
{
    let sec = word_below(payload, 0, 1 << 31, FormFault::Stamp { at: 0 })?;
    let usec = word_below(payload, 4, 1_000_000, FormFault::Stamp { at: 4 })?;
    match Stamp::build(sec, usec) {
        Some(stamp) => Ok(stamp),
        None => Err(FormFault::Stamp { at: 0 }),
    }
}
