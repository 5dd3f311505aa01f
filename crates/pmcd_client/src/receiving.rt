//! One PDU is received, exactly its bytes.
ghost use Rattle.std.specs.Prelude.{◌≡◌, ◌≤◌, length, MatchResult};
ghost use Rattle.pcp_outside.specs.Sides.{source_side};
ghost use Rattle.pdu_codec.specs.Bodies.{IsPdu};
ghost use Rattle.pmcd_client.specs.Pieces.{Fills, FillsNot, IsUndecoded, Receives, unread_by};

use crate::faults::{ReplyFault, TalkFault};
use pcp_base::be32;
use pcp_outside::Source;
use pdu_codec::{Pdu, PduFault, decode};
use std::alloc::Global;

/// How many bytes are taken at once.
const PIECE: usize = 4096;

/// A length word has so many bytes.
const WORD: usize = 4;

/// No PDU is shorter, which its header is.
const LEAST: usize = 12;

/// No PDU is longer.
const MOST: usize = 65_536;

/// Reads on until there are so many bytes, or to the end of the input.
fn fill<I: Source>(input: &mut I, bytes: &mut Vec<u8>, goal: usize) -> Result<(), TalkFault>
    requires few { length bytes.old.items ≤ goal }
    ensures { MatchResult result
        (λ _. Fills (source_side I.Source input.old input.new) goal bytes.old.items bytes.new.items)
        (FillsNot (source_side I.Source input.old input.new) goal bytes.old.items bytes.new.items) }
{
    let mut piece = [0u8; 4096];
    while bytes.len() < goal {
        let room = (goal - bytes.len()).min(PIECE);
        let Ok(count) = input.take(&mut piece[..room]) else {
            return Err(TalkFault::ReadFault);
        };
        if count == 0 {
            return Ok(());
        }
        match bytes.extend_from_slice(&piece[..count]) {
            Ok(()) => {}
            Err(_) => return Err(TalkFault::NoMemory),
        }
    }
    Ok(())
}

fn unread(number: u64, why: ReplyFault) -> TalkFault
    ensures { result ≡ TalkFault.Peer number why }
{
    TalkFault::Peer { reply: number, why }
}

/// What is told where whole bytes weren't decoded.
fn unread_by(number: u64, fault: PduFault) -> TalkFault
    ensures { result ≡ unread_by number fault }
{
    match fault {
        PduFault::NoMemory => TalkFault::NoMemory,
        PduFault::Length { .. } | PduFault::Unknown { .. } | PduFault::Body { .. } => {
            unread(number, ReplyFault::Decode)
        }
    }
}

/// The PDU that whole bytes are.
fn pdu_in(alloc: Global, bytes: &[u8], number: u64) -> Result<Pdu, TalkFault>
    ensures { MatchResult result (IsPdu bytes.now) (IsUndecoded bytes.now number) }
{
    match decode(alloc, bytes) {
        Ok(pdu) => Ok(pdu),
        Err(fault) => Err(unread_by(number, fault)),
    }
}

/// Receives one PDU into a buffer: its length word first, then the rest of it. Nothing behind it is taken.
pub fn receive<I: Source>(
    alloc: Global,
    input: &mut I,
    bytes: &mut Vec<u8>,
    number: u64,
) -> Result<Pdu, TalkFault>
    ensures { Receives (source_side I.Source input.old input.new) number result }
{
    bytes.clear();
    fill(input, bytes, WORD)?;
    let Some(length) = be32(bytes.as_slice(), 0) else {
        let bytes = bytes.len() as u64;
        return Err(unread(number, ReplyFault::Ended { bytes }));
    };
    let length = length as usize;
    if length < LEAST || length > MOST {
        let found = length as u64;
        return Err(unread(number, ReplyFault::Length { found }));
    }
    match fill(input, bytes, length) {
        Ok(()) => {}
        Err(fault) => return Err(fault),
    }
    if bytes.len() < length {
        let bytes = bytes.len() as u64;
        return Err(unread(number, ReplyFault::Ended { bytes }));
    }
    pdu_in(alloc, bytes.as_slice(), number)
}
