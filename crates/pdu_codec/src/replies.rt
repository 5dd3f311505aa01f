//! The bodies of what pmcd answers; of names and identifiers either side sends both.
ghost use Rattle.std.specs.Prelude.{◌≡◌};
ghost use Rattle.pdu_codec.specs.Reading.{Gives, error_at, desc_at, instance_at, ids_at, names_at};

use crate::fault::PduFault;
use crate::fields::{signed_at, word_at};
use crate::lists::many;
use crate::pdu::Pdu;
use pcp_base::{Desc, InDom, Pmid, Text, Units};
use std::alloc::Global;

#[tactic(auto, unfolding(crate::specs::Reading::error_at))]
pub fn error_at(bytes: &[u8], at: usize) -> Result<(Pdu, usize), PduFault>
    ensures { result ≡ error_at bytes.now at }
{
    let (code, next) = signed_at(bytes, at)?;
    Ok((Pdu::Error { code }, next))
}

#[tactic(auto, unfolding(crate::specs::Reading::desc_at))]
pub fn desc_at(bytes: &[u8], at: usize) -> Result<(Pdu, usize), PduFault>
    ensures { result ≡ desc_at bytes.now at }
{
    let (pmid, next) = word_at(bytes, at)?;
    let (code, next) = word_at(bytes, next)?;
    let (indom, next) = word_at(bytes, next)?;
    let (semantics, next) = word_at(bytes, next)?;
    let (units, next) = word_at(bytes, next)?;
    let description = Desc {
        pmid: Pmid::of_word(pmid),
        code,
        indom: InDom::of_word(indom),
        semantics,
        units: Units::of_word(units),
    };
    Ok((Pdu::Desc(description), next))
}

#[tactic(auto, unfolding(crate::specs::Reading::instance_at))]
pub fn instance_at(alloc: Global, bytes: &[u8], at: usize) -> Result<(Pdu, usize), PduFault>
    ensures { Gives result (instance_at bytes.now at) }
{
    let (word, next) = word_at(bytes, at)?;
    let (count, next) = word_at(bytes, next)?;
    let (pairs, next) = many::<(i32, Text)>(alloc, bytes, count, next)?;
    let indom = InDom::of_word(word);
    Ok((Pdu::Instance { indom, pairs }, next))
}

#[tactic(auto, unfolding(crate::specs::Reading::ids_at))]
pub fn ids_at(alloc: Global, bytes: &[u8], at: usize) -> Result<(Pdu, usize), PduFault>
    ensures { Gives result (ids_at bytes.now at) }
{
    let (status, next) = signed_at(bytes, at)?;
    let (count, next) = word_at(bytes, next)?;
    let (pmids, next) = many::<Pmid>(alloc, bytes, count, next)?;
    Ok((Pdu::PmnsIds { status, pmids }, next))
}

#[tactic(auto, unfolding(crate::specs::Reading::names_at))]
pub fn names_at(alloc: Global, bytes: &[u8], at: usize) -> Result<(Pdu, usize), PduFault>
    ensures { Gives result (names_at bytes.now at) }
{
    let (status, next) = signed_at(bytes, at)?;
    let (count, next) = word_at(bytes, next)?;
    let (names, next) = many::<Text>(alloc, bytes, count, next)?;
    Ok((Pdu::PmnsNames { status, names }, next))
}
