//! The texts of a record.
ghost use Rattle.std.specs.Prelude.{◌≡◌, ◌+◌, ◌<◌, ◌≤◌, length, take, position, IfOk, IfSome, IfNone};
ghost use Rattle.pcp_base.specs.Texts.{IsText};
ghost use Rattle.pcp_model.specs.Instances.{is_zero, text_of};
ghost use Rattle.archive_meta.specs.Decoding.{first_name};

use memchr::memchr;
use pcp_base::{NoMemory, Text, be32};
use std::alloc::Global;

/// Where the first zero byte stands.
fn zero_in(bytes: &[u8]) -> Option<usize>
    ensures value { result ≡ position is_zero bytes.now }
    ensures within { IfSome result (λ at. at < length bytes.now) }
    ensures front { IfSome result (λ at. IsText (take at bytes.now)) }
    ensures all { IfNone result (IsText bytes.now) }
{
    memchr(0, bytes)
}

/// The text of bytes of which none is zero.
#[tactic(auto, using(pcp_model::proofs::ZeroBytes::text_clean))]
fn clean_text(alloc: Global, bytes: &[u8]) -> Result<Option<Text>, NoMemory>
    requires { IsText bytes.now }
    ensures { IfOk result (λ found. found ≡ text_of bytes.now) }
{
    Ok(Some(Text::clean_copy(alloc, bytes)?))
}

/// The name with which bytes begin, whose length stands in front of it.
#[tactic(auto, unfolding(crate::specs::Decoding::first_name))]
pub fn first_name(alloc: Global, bytes: &[u8]) -> Result<Option<Text>, NoMemory>
    ensures name { IfOk result (λ found. found ≡ first_name bytes.now) }
    ensures within { IfOk result (λ found. IfSome found (λ name. 4 + length name ≤ length bytes.now)) }
{
    let Some(word) = be32(bytes, 0) else {
        return Ok(None);
    };
    let rest = &bytes[4..];
    let size = word as usize;
    if rest.len() < size {
        return Ok(None);
    }
    let name = &rest[..size];
    match zero_in(name) {
        Some(_) => Ok(None),
        None => clean_text(alloc, name),
    }
}
