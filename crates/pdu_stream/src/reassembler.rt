//! What has come of a stream and wasn't given yet.
ghost use Rattle.std.specs.Prelude.{◌≡◌, ℕ, List, [], ◌++◌, Err};
ghost use Rattle.pdu_stream.specs.declared.fault.StreamFault.TheVariants.{Lost as NoMore};
ghost use Rattle.pdu_stream.specs.declared.phase.Phase.TheVariants.{Open, Lost};
ghost use Rattle.pdu_stream.specs.State.{IsKept};
ghost use Rattle.pdu_stream.specs.Reading.{HasRead, Answers, Reads, phase_after, answer_for, pending_in};

use crate::fault::StreamFault;
use crate::phase::Phase;
use crate::splitting::{Parts, take_whole};
use pcp_base::{Bytes, List as Items};
use std::alloc::Global;
use std::marker::Model;

/// The whole PDUs of a stream whose bytes come in pieces. It keeps the bytes of the PDU that isn't whole yet.
#[derive(Drop)]
pub struct Reassembler {
    buffer: Vec<u8>,
    phase: Phase,
}

impl Model for Reassembler {
    ghost use Rattle.pdu_stream.specs.State.{State, IsKept};

    ghost Value = { State };

    ghost view = { λ r. record { phase = r.phase; rest = r.buffer.items } };

    ghost invariant = { λ r. IsKept r.phase r.buffer.items };
}

/// How a stream goes on behind these PDUs.
fn phase_of(parts: &Parts) -> Phase
    ensures { result ≡ phase_after parts.now.bad }
{
    match parts.bad {
        None => Phase::Open,
        Some(found) => Phase::Bad { found },
    }
}

/// The PDUs, or where there is none the length word that no PDU has.
fn answer_of(parts: Parts) -> Result<Items<Bytes>, StreamFault>
    ensures { result ≡ answer_for parts.pdus parts.bad }
{
    let Some(found) = parts.bad else {
        return Ok(parts.pdus);
    };
    if parts.pdus.is_empty() {
        return Err(StreamFault::BadLength { found });
    }
    Ok(parts.pdus)
}

/// What a piece of an open stream gives. Until all its memory is there the stream counts as lost.
fn read(
    alloc: Global,
    buffer: &mut Vec<u8>,
    phase: &mut Phase,
    piece: &[u8],
) -> Result<Items<Bytes>, StreamFault>
    ensures reads { Reads (buffer.old.items ++ piece.now) phase.new buffer.new.items result }
    ensures kept { IsKept phase.new buffer.new.items }
{
    *phase = Phase::Lost;
    let parts = take_whole(alloc, buffer, piece)?;
    *phase = phase_of(&parts);
    answer_of(parts)
}

impl Reassembler {
    /// A reassembler that has seen no byte.
    pub fn new(alloc: Global) -> Self
        ensures { result ≡ record { phase = Open; rest = [] } }
    {
        Reassembler {
            buffer: Vec::new(alloc),
            phase: Phase::Open,
        }
    }

    /// The PDUs that this piece makes whole, in order. `BadLength` comes where behind the PDUs that were given a length word
    /// is below 12 or above 65,536: at once where this piece makes no PDU whole, else from the next call on, whatever its
    /// piece is. After `NoMemory` every later call answers `Lost`.
    pub fn feed(&mut self, alloc: Global, piece: &[u8]) -> Result<Items<Bytes>, StreamFault>
        // Whatever the stream was so far and in whatever pieces it came, it was read as it splits, and so it is with this
        // piece behind it.
        ensures stream { (stream : List ℕ) (given : List (List ℕ)) → HasRead stream given self.old → Answers stream given piece.now self.old self.new result }
        ensures lost { self.old.phase ≡ Lost → (result ≡ Err NoMore) × (self.new.phase ≡ Lost) }
    {
        match self.phase {
            Phase::Open => read(alloc, &mut self.buffer, &mut self.phase, piece),
            Phase::Bad { found } => Err(StreamFault::BadLength { found }),
            Phase::Lost => Err(StreamFault::Lost),
        }
    }

    /// How many bytes of the PDU that isn't whole yet have come; 0 where no PDU can become whole any more.
    pub fn pending(&self) -> u32
        ensures { result ≡ pending_in self.now }
    {
        match self.phase {
            Phase::Open => self.buffer.len() as u32,
            Phase::Bad { .. } | Phase::Lost => 0,
        }
    }
}
