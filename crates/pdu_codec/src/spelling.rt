//! The one spelling of a PDU.
ghost use Rattle.std.specs.Prelude.{◌≡◌, ◌+◌, ◌*◌, ◌<◌, ◌≤◌, ◌++◌, length, FitsSigned, OnOk, IfOk, IsTrue, ◌↔◌};
ghost use Rattle.std.specs.Int.{w32};
ghost use Rattle.std.specs.List.{AllByRecursion};
ghost use Rattle.pcp_model.specs.Words.{word, signed_word};
ghost use Rattle.pdu_codec.specs.Types.{code_of_type, type_of};
ghost use Rattle.pdu_codec.specs.Spelling.{all_bytes, all_lengths, text_bytes, text_length, pair_bytes, pair_length, desc_bytes, fetch_bytes, profile_bytes, profile_length, body_bytes, body_length, pdu_length, pdu_bytes, IsWord, IsShort, IsPair, IsDesc, IsFetch, IsProfile, InRange, IsWritable};

use crate::parts::{put_heads, put_listed, put_pairs, put_pmids, put_state, put_text, put_texts};
use crate::pdu::Pdu;
use crate::sizes::pdu_length;
use pcp_base::{Bytes, Desc, InDom, List, NoMemory, Pmid, Text};
use pcp_model::{put_signed, put_word};
use profile_filter::DomainPart;
use result_form::put_payload;
use std::alloc::Global;

/// The number of a PDU's type.
fn code_of(pdu: &Pdu) -> u32
    ensures { result ≡ code_of_type (type_of pdu.now) }
{
    match pdu {
        Pdu::Error { .. } => 0x7000,
        Pdu::Result(_) => 0x7001,
        Pdu::Profile { .. } => 0x7002,
        Pdu::Fetch { .. } => 0x7003,
        Pdu::DescReq { .. } => 0x7004,
        Pdu::Desc(_) => 0x7005,
        Pdu::InstanceReq { .. } => 0x7006,
        Pdu::Instance { .. } => 0x7007,
        Pdu::Creds => 0x700c,
        Pdu::PmnsIds { .. } => 0x700d,
        Pdu::PmnsNames { .. } => 0x700e,
        Pdu::PmnsChild { .. } => 0x700f,
        Pdu::PmnsTraverse { .. } => 0x7010,
    }
}

#[tactic(auto, using(crate::proofs::Lengths::few_parts))]
fn put_profile(
    out: &mut Vec<u8>,
    context: u32,
    global: bool,
    parts: &[DomainPart],
) -> Result<(), NoMemory>
    requires { profile_length parts.now ≤ 65536 }
    ensures bytes { OnOk result (out.new.items ≡ out.old.items ++ profile_bytes context global parts.now) }
    ensures grows { OnOk result (length out.new.items ≡ length out.old.items + profile_length parts.now) }
    ensures range { OnOk result (IsProfile context parts.now) }
{
    put_word(out, context)?;
    put_state(out, global)?;
    put_word(out, parts.len() as u32)?;
    put_word(out, 0)?;
    put_heads(out, parts)?;
    put_listed(out, parts)
}

fn put_desc(out: &mut Vec<u8>, description: &Desc) -> Result<(), NoMemory>
    ensures bytes { OnOk result (out.new.items ≡ out.old.items ++ desc_bytes description.now) }
    ensures grows { OnOk result (length out.new.items ≡ length out.old.items + 20) }
    ensures range { OnOk result (IsDesc description.now) }
{
    put_word(out, description.pmid.word())?;
    put_word(out, description.code)?;
    put_word(out, description.indom.word())?;
    put_word(out, description.semantics)?;
    put_word(out, description.units.word())
}

fn put_fetch(
    out: &mut Vec<u8>,
    context: u32,
    sec: u32,
    usec: u32,
    pmids: &[Pmid],
) -> Result<(), NoMemory>
    requires { 4 * length pmids.now ≤ 65536 }
    ensures bytes { OnOk result (out.new.items ≡ out.old.items ++ fetch_bytes context sec usec pmids.now) }
    ensures grows { OnOk result (length out.new.items ≡ length out.old.items + (16 + 4 * length pmids.now)) }
    ensures range { OnOk result (IsFetch context sec usec pmids.now) }
{
    put_word(out, context)?;
    put_word(out, sec)?;
    put_word(out, usec)?;
    put_word(out, pmids.len() as u32)?;
    put_pmids(out, pmids)
}

#[tactic(auto, using(crate::proofs::Lengths::few_pairs))]
fn put_instance(out: &mut Vec<u8>, indom: InDom, pairs: &[(i32, Text)]) -> Result<(), NoMemory>
    requires { all_lengths pair_length pairs.now ≤ 65536 }
    ensures bytes { OnOk result (out.new.items ≡ out.old.items ++ (word indom ++ (word (length pairs.now) ++ all_bytes pair_bytes pairs.now))) }
    ensures grows { OnOk result (length out.new.items ≡ length out.old.items + (8 + all_lengths pair_length pairs.now)) }
    ensures range { OnOk result ((indom < 4294967296) × (length pairs.now < 4294967296) × AllByRecursion IsPair pairs.now) }
{
    put_word(out, indom.word())?;
    put_word(out, pairs.len() as u32)?;
    put_pairs(out, pairs)
}

fn put_ids(out: &mut Vec<u8>, status: i32, pmids: &[Pmid]) -> Result<(), NoMemory>
    requires { 4 * length pmids.now ≤ 65536 }
    ensures bytes { OnOk result (out.new.items ≡ out.old.items ++ (signed_word status ++ (word (length pmids.now) ++ all_bytes word pmids.now))) }
    ensures grows { OnOk result (length out.new.items ≡ length out.old.items + (8 + 4 * length pmids.now)) }
    ensures range { OnOk result (FitsSigned w32 status × (length pmids.now < 4294967296) × AllByRecursion IsWord pmids.now) }
{
    put_signed(out, status)?;
    put_word(out, pmids.len() as u32)?;
    put_pmids(out, pmids)
}

#[tactic(auto, using(crate::proofs::Lengths::few_texts))]
fn put_names(out: &mut Vec<u8>, status: i32, names: &[Text]) -> Result<(), NoMemory>
    requires { all_lengths text_length names.now ≤ 65536 }
    ensures bytes { OnOk result (out.new.items ≡ out.old.items ++ (signed_word status ++ (word (length names.now) ++ all_bytes text_bytes names.now))) }
    ensures grows { OnOk result (length out.new.items ≡ length out.old.items + (8 + all_lengths text_length names.now)) }
    ensures range { OnOk result (FitsSigned w32 status × (length names.now < 4294967296) × AllByRecursion IsShort names.now) }
{
    put_signed(out, status)?;
    put_word(out, names.len() as u32)?;
    put_texts(out, names)
}

/// The body of a PDU.
fn put_body(out: &mut Vec<u8>, pdu: &Pdu) -> Result<(), NoMemory>
    requires fits { IsWritable pdu.now }
    requires room { body_length pdu.now ≤ 65524 }
    ensures bytes { OnOk result (out.new.items ≡ out.old.items ++ body_bytes pdu.now) }
    ensures grows { OnOk result (length out.new.items ≡ length out.old.items + body_length pdu.now) }
    ensures range { OnOk result (InRange pdu.now) }
{
    match pdu {
        Pdu::Error { code } => put_signed(out, *code),
        Pdu::Result(answer) => put_payload(out, answer),
        Pdu::Profile {
            context,
            global,
            parts,
        } => put_profile(out, *context, *global, parts.as_slice()),
        Pdu::Fetch {
            context,
            sec,
            usec,
            pmids,
        } => put_fetch(out, *context, *sec, *usec, pmids.as_slice()),
        Pdu::DescReq { pmid } => put_word(out, pmid.word()),
        Pdu::Desc(description) => put_desc(out, description),
        Pdu::InstanceReq { indom, instance } => {
            put_word(out, indom.word())?;
            put_signed(out, *instance)
        }
        Pdu::Instance { indom, pairs } => put_instance(out, *indom, pairs.as_slice()),
        Pdu::Creds => {
            put_word(out, 1)?;
            put_word(out, 0x0102_0000)
        }
        Pdu::PmnsIds { status, pmids } => put_ids(out, *status, pmids.as_slice()),
        Pdu::PmnsNames { status, names } => put_names(out, *status, names.as_slice()),
        Pdu::PmnsChild { name } => put_text(out, name),
        Pdu::PmnsTraverse { name } => put_text(out, name),
    }
}

/// The one spelling of a PDU: no sender is named, and padding is zeros. Each set of a result holds what can be written,
/// and the PDU has at most 65,536 bytes.
#[tactic(auto, unfolding(crate::specs::Spelling::pdu_bytes))]
pub fn encode(alloc: Global, pdu: &Pdu) -> Result<Bytes, NoMemory>
    requires fits { IsWritable pdu.now }
    requires room { pdu_length pdu.now ≤ 65536 }
    ensures bytes { IfOk result (λ bytes. bytes ≡ pdu_bytes pdu.now) }
    ensures length { IfOk result (λ bytes. length bytes ≡ pdu_length pdu.now) }
    // What was written is read again: each number is in its range.
    ensures range { OnOk result (InRange pdu.now) }
{
    let size = pdu_length(pdu);
    let mut out = Vec::with_capacity(alloc, size as usize)?;
    put_word(&mut out, size as u32)?;
    put_word(&mut out, code_of(pdu))?;
    put_word(&mut out, 0)?;
    put_body(&mut out, pdu)?;
    Ok(List::from_vec(out))
}

/// Whether `encode` can write a PDU: each set of a result holds what can be written, and it has at most 65,536 bytes.
pub fn fits(pdu: &Pdu) -> bool
    ensures { IsTrue result ↔ (IsWritable pdu.now × (pdu_length pdu.now ≤ 65536)) }
{
    if pdu_length(pdu) > 65_536 {
        return false;
    }
    match pdu {
        Pdu::Result(answer) => result_form::fits(answer),
        _ => true,
    }
}
