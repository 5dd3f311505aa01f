//! A conversation with a client, from the greeting to its end.
ghost use Rattle.std.specs.Prelude.{◌≡◌, ◌<◌, ◌≤◌, ◌++◌, ℕ, List as Sequence, [], length, IfOk, IfErr, OnOk};
ghost use Rattle.pcp_base.specs.Time.{Moment};
ghost use Rattle.pdu_stream.specs.Reading.{HasRead};
ghost use Rattle.pmcd_session.specs.Going.{Brings, GoesBehind, Moves, StaysOpen, end_of_input};
ghost use Rattle.pmcd_session.specs.Pieces.{HasReason, IsQuiet, IsStreamEnd, WritesIn};
ghost use Rattle.pmcd_session.specs.Sessions.{AllStand, CountsOn, History, IsCaused, OthersStand, Runs};
ghost use Rattle.pcp_outside.specs.Sides.{source_side, sink_side, clock_side};

use crate::agent::Agent;
use crate::sending::{greet, serve_all};
use crate::standing::Standing;
use pcp_base::{Bytes, List};
use pcp_outside::{Clock, SessionEnd, Sink, Source};
use pdu_stream::{Reassembler, StreamFault};
use std::alloc::Global;

/// No session takes more bytes.
const MOST_TAKEN: u64 = 1_099_511_627_776;

/// How many bytes are taken at once.
const PIECE: usize = 4096;

/// The PDUs that a piece of the input makes whole.
fn whole_pdus(
    alloc: Global,
    stream: &mut Reassembler,
    piece: &[u8],
) -> Result<List<Bytes>, SessionEnd>
    ensures brings { (taken : Sequence ℕ) (given : Sequence (Sequence ℕ)) → HasRead taken given stream.old → Brings (taken ++ piece.now) given stream.old stream.new result }
    ensures ends { IfErr result IsStreamEnd }
{
    match stream.feed(alloc, piece) {
        Ok(pdus) => Ok(pdus),
        Err(StreamFault::BadLength { found }) => Err(SessionEnd::BadLength {
            found: u64::from(found),
        }),
        Err(StreamFault::Lost) => Err(SessionEnd::NoMemory),
        Err(StreamFault::NoMemory) => Err(SessionEnd::NoMemory),
    }
}

/// Whether more may come: a length word that no PDU has ends the session behind the PDUs before it.
fn go_on(alloc: Global, stream: &mut Reassembler) -> Result<(), SessionEnd>
    ensures stays { (taken : Sequence ℕ) (given : Sequence (Sequence ℕ)) → HasRead taken given stream.old → StaysOpen taken given stream.new result }
    ensures ends { IfErr result IsStreamEnd }
{
    let nothing: &[u8] = &[];
    whole_pdus(alloc, stream, nothing)?;
    Ok(())
}

/// Serves the PDUs that a piece of the input makes whole.
fn serve_piece<A: Agent, O: Sink, C: Clock>(
    alloc: Global,
    regions: &A::Regions,
    s: &mut Standing<A>,
    out: &mut O,
    clock: &mut C,
    stream: &mut Reassembler,
    piece: &[u8],
) -> Result<(), SessionEnd>
    requires here { A.sits regions.now s.old.agent }
    ensures done { (moments : Sequence Moment) × (bytes : Sequence ℕ) × (C.tells → C.left clock.old ≡ moments ++ C.left clock.new)
        × (O.tells → WritesIn result (O.written out.old) (O.written out.new) bytes)
        × GoesBehind (A.reads regions.now) (A.loads regions.now) (record { taken = piece.now; moments = moments; bytes = bytes }) stream.old s.old stream.new s.new result }
    ensures reason { IfErr result (HasReason C.tells (C.left clock.new) (C.faults clock.old) (C.faults clock.new) (O.faults out.old) (O.faults out.new)) }
    ensures later { (C.faults clock.old ≤ C.faults clock.new) × (O.faults out.old ≤ O.faults out.new) }
    ensures here { A.sits regions.now s.new.agent }
    ensures quiet { IsQuiet result (C.faults clock.old) (C.faults clock.new) (O.faults out.old) (O.faults out.new) }
{
    let pdus = match whole_pdus(alloc, stream, piece) {
        Ok(pdus) => pdus,
        Err(end) => return Err(end),
    };
    match serve_all(alloc, regions, s, out, clock, pdus.as_slice()) {
        Ok(()) => go_on(alloc, stream),
        Err(end) => Err(end),
    }
}

/// How a session ends whose input has ended: between PDUs, or inside one.
fn end_of_input(pending: u32) -> SessionEnd
    ensures { result ≡ end_of_input pending }
{
    if pending == 0 {
        return SessionEnd::Closed;
    }
    SessionEnd::Torn {
        bytes: u64::from(pending),
    }
}

/// Takes the next bytes of the input, and serves the PDUs that they make whole.
fn serve_next<A: Agent, I: Source, O: Sink, C: Clock>(
    alloc: Global,
    regions: &A::Regions,
    s: &mut Standing<A>,
    input: &mut I,
    out: &mut O,
    clock: &mut C,
    stream: &mut Reassembler,
    buffer: &mut [u8],
) -> Result<usize, SessionEnd>
    requires here { A.sits regions.now s.old.agent }
    requires room { 0 < length buffer.old }
    ensures done { (more : History) × Moves (source_side I.Source input.old input.new) (sink_side O.Sink out.old out.new) (clock_side C.Clock clock.old clock.new) result more
        × GoesBehind (A.reads regions.now) (A.loads regions.now) more stream.old s.old stream.new s.new result
        × (length more.taken ≤ length buffer.old) × IfOk result (λ n. (n ≡ length more.taken) × (0 < n)) }
    ensures cause { IfErr result (IsCaused (source_side I.Source input.old input.new) (sink_side O.Sink out.old out.new) (clock_side C.Clock clock.old clock.new)) }
    ensures later { CountsOn (source_side I.Source input.old input.new) (sink_side O.Sink out.old out.new) (clock_side C.Clock clock.old clock.new) }
    ensures here { A.sits regions.now s.new.agent }
    ensures quiet { OnOk result (AllStand (source_side I.Source input.old input.new) (sink_side O.Sink out.old out.new) (clock_side C.Clock clock.old clock.new)) }
    ensures still { IfErr result (OthersStand (source_side I.Source input.old input.new) (sink_side O.Sink out.old out.new) (clock_side C.Clock clock.old clock.new)) }
{
    let count = match input.take(buffer) {
        Ok(count) => count,
        Err(_) => return Err(SessionEnd::ReadFault),
    };
    if count == 0 {
        return Err(end_of_input(stream.pending()));
    }
    match serve_piece(alloc, regions, s, out, clock, stream, &buffer[..count]) {
        Ok(()) => Ok(count),
        Err(end) => Err(end),
    }
}

/// Greets a client, and serves its PDUs until the input ends, something fails, or no more bytes may be taken.
pub fn converse<A: Agent, I: Source, O: Sink, C: Clock>(
    alloc: Global,
    regions: &A::Regions,
    s: &mut Standing<A>,
    input: &mut I,
    out: &mut O,
    clock: &mut C,
) -> SessionEnd
    requires here { A.sits regions.now s.old.agent }
    ensures runs { Runs (A.reads regions.now) (A.loads regions.now) s.old.agent s.new.agent (source_side I.Source input.old input.new) (sink_side O.Sink out.old out.new) (clock_side C.Clock clock.old clock.new) result }
    ensures cause { IsCaused (source_side I.Source input.old input.new) (sink_side O.Sink out.old out.new) (clock_side C.Clock clock.old clock.new) result }
    ensures later { CountsOn (source_side I.Source input.old input.new) (sink_side O.Sink out.old out.new) (clock_side C.Clock clock.old clock.new) }
    ensures here { A.sits regions.now s.new.agent }
    ensures still { OthersStand (source_side I.Source input.old input.new) (sink_side O.Sink out.old out.new) (clock_side C.Clock clock.old clock.new) result }
{
    s.is_met = false;
    s.contexts.renew(alloc);
    if let Err(end) = greet(alloc, out) {
        return end;
    }
    let mut stream = Reassembler::new(alloc);
    let mut buffer = [0u8; PIECE];
    let mut taken: u64 = 0;
    while taken < MOST_TAKEN {
        let room = (MOST_TAKEN - taken).min(PIECE as u64) as usize;
        match serve_next(
            alloc,
            regions,
            s,
            input,
            out,
            clock,
            &mut stream,
            &mut buffer[..room],
        ) {
            Ok(count) => taken += count as u64,
            Err(end) => return end,
        }
    }
    SessionEnd::Spent
}
