//! The bodies of what a client sends.
ghost use Rattle.std.specs.Prelude.{◌≡◌, ◌≤◌, length};
ghost use Rattle.pdu_codec.specs.Reading.{Gives, profile_at, fetch_at, desc_req_at, instance_req_at, creds_at, child_at, traverse_at};

use crate::fault::PduFault;
use crate::fields::{ZERO, given_at, signed_at, state_at, text_at, word_at};
use crate::lists::{Head, many, parts_at};
use crate::pdu::Pdu;
use pcp_base::{InDom, Pmid};
use std::alloc::Global;

/// The body of a CREDS: the version of this protocol.
pub const CREDS: [u8; 8] = [0, 0, 0, 1, 1, 2, 0, 0];

#[tactic(auto, unfolding(crate::specs::Reading::profile_at))]
pub fn profile_at(alloc: Global, bytes: &[u8], at: usize) -> Result<(Pdu, usize), PduFault>
    ensures { Gives result (profile_at bytes.now at) }
{
    let (context, next) = word_at(bytes, at)?;
    let (global, next) = state_at(bytes, next)?;
    let (count, next) = word_at(bytes, next)?;
    let next = given_at(&ZERO, bytes, next)?;
    let (heads, next) = many::<Head>(alloc, bytes, count, next)?;
    let (parts, next) = parts_at(alloc, bytes, heads.as_slice(), next)?;
    let pdu = Pdu::Profile {
        context,
        global,
        parts,
    };
    Ok((pdu, next))
}

#[tactic(auto, unfolding(crate::specs::Reading::fetch_at))]
pub fn fetch_at(alloc: Global, bytes: &[u8], at: usize) -> Result<(Pdu, usize), PduFault>
    ensures { Gives result (fetch_at bytes.now at) }
{
    let (context, next) = word_at(bytes, at)?;
    let (sec, next) = word_at(bytes, next)?;
    let (usec, next) = word_at(bytes, next)?;
    let (count, next) = word_at(bytes, next)?;
    let (pmids, next) = many::<Pmid>(alloc, bytes, count, next)?;
    let pdu = Pdu::Fetch {
        context,
        sec,
        usec,
        pmids,
    };
    Ok((pdu, next))
}

#[tactic(auto, unfolding(crate::specs::Reading::desc_req_at))]
pub fn desc_req_at(bytes: &[u8], at: usize) -> Result<(Pdu, usize), PduFault>
    ensures { result ≡ desc_req_at bytes.now at }
{
    let (word, next) = word_at(bytes, at)?;
    let pmid = Pmid::of_word(word);
    Ok((Pdu::DescReq { pmid }, next))
}

#[tactic(auto, unfolding(crate::specs::Reading::instance_req_at))]
pub fn instance_req_at(bytes: &[u8], at: usize) -> Result<(Pdu, usize), PduFault>
    ensures { result ≡ instance_req_at bytes.now at }
{
    let (word, next) = word_at(bytes, at)?;
    let (instance, next) = signed_at(bytes, next)?;
    let indom = InDom::of_word(word);
    Ok((Pdu::InstanceReq { indom, instance }, next))
}

#[tactic(auto, unfolding(crate::specs::Reading::creds_at))]
pub fn creds_at(bytes: &[u8], at: usize) -> Result<(Pdu, usize), PduFault>
    requires { at ≤ length bytes.now }
    ensures { result ≡ creds_at bytes.now at }
{
    let next = given_at(&CREDS, bytes, at)?;
    Ok((Pdu::Creds, next))
}

#[tactic(auto, unfolding(crate::specs::Reading::child_at))]
pub fn child_at(alloc: Global, bytes: &[u8], at: usize) -> Result<(Pdu, usize), PduFault>
    ensures { Gives result (child_at bytes.now at) }
{
    let (name, next) = text_at(alloc, bytes, at)?;
    Ok((Pdu::PmnsChild { name }, next))
}

#[tactic(auto, unfolding(crate::specs::Reading::traverse_at))]
pub fn traverse_at(alloc: Global, bytes: &[u8], at: usize) -> Result<(Pdu, usize), PduFault>
    ensures { Gives result (traverse_at bytes.now at) }
{
    let (name, next) = text_at(alloc, bytes, at)?;
    Ok((Pdu::PmnsTraverse { name }, next))
}
