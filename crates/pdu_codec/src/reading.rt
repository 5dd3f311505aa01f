//! The reader of a whole PDU.
ghost use Rattle.std.specs.Prelude.{◌≡◌, ◌+◌, ◌<◌, ◌≤◌, length, IfOk, IfErr, OnOk, Ok};
ghost use Rattle.pdu_codec.specs.declared.pdu.Pdu.{Pdu as Said};
ghost use Rattle.pdu_codec.specs.Bodies.{IsPdu};
ghost use Rattle.pdu_codec.specs.Decoding.{head_of, fault_of, result_at, body_at, whole_body, pdu_in};
ghost use Rattle.pdu_codec.specs.Faults.{IsPduFault};
ghost use Rattle.pdu_codec.specs.Reading.{Gives};

use crate::fault::PduFault;
use crate::misfit::result_misfit;
use crate::pdu::Pdu;
use crate::replies::{desc_at, error_at, ids_at, instance_at, names_at};
use crate::requests::{
    child_at, creds_at, desc_req_at, fetch_at, instance_req_at, profile_at, traverse_at,
};
use crate::types::{PduType, type_of_code};
use pcp_base::be32;
use result_form::FormFault;
use std::alloc::Global;

/// How many bytes a PDU has before its body.
const HEAD: usize = 12;

/// The type of bytes whose first word is their number.
#[tactic(auto, unfolding(crate::specs::Decoding::head_of))]
fn head_of(bytes: &[u8]) -> Result<PduType, PduFault>
    ensures kind { result ≡ head_of bytes.now }
    ensures long { OnOk result (12 ≤ length bytes.now) }
    ensures small { OnOk result (length bytes.now < 4294967296) }
{
    let Some(size) = be32(bytes, 0) else {
        return Err(PduFault::Length { found: 0 });
    };
    if size as usize != bytes.len() || size < 12 {
        return Err(PduFault::Length {
            found: u64::from(size),
        });
    }
    let Some(code) = be32(bytes, 4) else {
        return Err(PduFault::Length { found: 0 });
    };
    match type_of_code(code) {
        Some(kind) => Ok(kind),
        None => Err(PduFault::Unknown {
            found: u64::from(code),
        }),
    }
}

/// Why bytes are no payload, by where they stop being like one.
fn fault_of(fault: FormFault, payload: &[u8], at: usize) -> PduFault
    requires small { at + length payload.now < 4294967296 }
    ensures { result ≡ fault_of payload.now at fault }
{
    match fault {
        FormFault::NoMemory => PduFault::NoMemory,
        FormFault::Short { .. }
        | FormFault::Stamp { .. }
        | FormFault::Count { .. }
        | FormFault::Mode { .. }
        | FormFault::Offset { .. }
        | FormFault::Block { .. }
        | FormFault::Trailing { .. } => PduFault::Body {
            at: (at + result_misfit(payload)) as u64,
        },
    }
}

/// The result whose payload the bytes from one on are.
fn result_at(alloc: Global, bytes: &[u8], at: usize) -> Result<(Pdu, usize), PduFault>
    requires at { at ≤ length bytes.now }
    requires small { length bytes.now < 4294967296 }
    ensures { Gives result (result_at bytes.now at) }
{
    let payload = &bytes[at..];
    match result_form::decode(alloc, payload) {
        Ok(answer) => Ok((Pdu::Result(answer), bytes.len())),
        Err(fault) => Err(fault_of(fault, payload, at)),
    }
}

/// The body that begins at a byte, by its type, and the byte behind it.
fn body_at(alloc: Global, kind: PduType, bytes: &[u8], at: usize) -> Result<(Pdu, usize), PduFault>
    requires at { at ≤ length bytes.now }
    requires small { length bytes.now < 4294967296 }
    ensures { Gives result (body_at kind bytes.now at) }
{
    match kind {
        PduType::Error => error_at(bytes, at),
        PduType::Result => result_at(alloc, bytes, at),
        PduType::Profile => profile_at(alloc, bytes, at),
        PduType::Fetch => fetch_at(alloc, bytes, at),
        PduType::DescReq => desc_req_at(bytes, at),
        PduType::Desc => desc_at(bytes, at),
        PduType::InstanceReq => instance_req_at(bytes, at),
        PduType::Instance => instance_at(alloc, bytes, at),
        PduType::Creds => creds_at(bytes, at),
        PduType::PmnsIds => ids_at(alloc, bytes, at),
        PduType::PmnsNames => names_at(alloc, bytes, at),
        PduType::PmnsChild => child_at(alloc, bytes, at),
        PduType::PmnsTraverse => traverse_at(alloc, bytes, at),
    }
}

/// What was read, where nothing stands behind it.
fn whole_body(bytes: &[u8], pdu: Pdu, next: usize) -> Result<Pdu, PduFault>
    ensures { result ≡ whole_body bytes.now (pdu, next) }
{
    if next < bytes.len() {
        return Err(PduFault::Body { at: next as u64 });
    }
    Ok(pdu)
}

#[tactic(auto, unfolding(crate::specs::Decoding::pdu_in))]
fn read(alloc: Global, bytes: &[u8]) -> Result<Pdu, PduFault>
    ensures { Gives result (pdu_in bytes.now) }
{
    let kind = head_of(bytes)?;
    let (pdu, next) = body_at(alloc, kind, bytes, HEAD)?;
    whole_body(bytes, pdu, next)
}

/// The PDU that these bytes are. A refusal tells that the length word isn't the number of bytes, or that no PDU has the
/// type, or the first byte that no PDU of this type has, which is the end of bytes that are too few; or that memory was
/// refused. The word that says whom it is from isn't looked at, nor is any padding.
pub fn decode(alloc: Global, bytes: &[u8]) -> Result<Pdu, PduFault>
    // What is read is what the bytes spell.
    ensures found { IfOk result (λ p. IsPdu bytes.now p) }
    // What the bytes spell is read, unless memory runs out.
    ensures only { (p : Said) → IsPdu bytes.now p → Gives result (Ok p) }
    // A refusal is the one fault that the bytes have, or want of memory.
    ensures fault { IfErr result (IsPduFault bytes.now) }
{
    read(alloc, bytes)
}
