//! The line to a pmcd: requests go out, and the reply to each comes in.
ghost use Rattle.std.specs.Prelude.{◌≡◌, ◌+◌, ◌≤◌, ◌∷◌, [], OnOk, MatchResult, Some};
ghost use Rattle.pcp_outside.specs.Causes.{shown_count};
ghost use Rattle.pcp_outside.specs.Sides.{source_side, sink_side};
ghost use Rattle.pdu_codec.specs.declared.pdu.Pdu.TheVariants as pdus;
ghost use Rattle.pdu_codec.specs.Spelling.{IsWritable, pdu_length};
ghost use Rattle.pmcd_client.specs.Bytes.{Passes, Stops};
ghost use Rattle.pmcd_client.specs.Pieces.{Awaits, Sends, SendsNot};
ghost use Rattle.pmcd_client.specs.Turns.{requests_of};

use crate::faults::TalkFault;
use crate::judging::judge;
use crate::receiving::receive;
use pcp_outside::{Sink, Source, write_all};
use pdu_codec::{Pdu, encode};
use std::alloc::Global;

/// A buffer for one reply, and how many replies came, as far as 64 bits tell.
#[derive(Drop)]
pub struct Line {
    pub bytes: Vec<u8>,
    pub replies: u64,
    ghost few: { replies ≤ 18446744073709551615 },
}

/// Writes a request.
fn send<L: Sink>(alloc: Global, out: &mut L, request: &Pdu) -> Result<(), TalkFault>
    requires fits { IsWritable request.now }
    requires room { pdu_length request.now ≤ 65536 }
    ensures { MatchResult result (λ _. Sends (sink_side L.Sink out.old out.new) (request.now ∷ [])) (SendsNot (sink_side L.Sink out.old out.new) (request.now ∷ [])) }
{
    let bytes = encode(alloc, request)?;
    match write_all(out, bytes.as_slice()) {
        Ok(()) => Ok(()),
        Err(_) => Err(TalkFault::WriteFault),
    }
}

/// Says that the client speaks the protocol, and writes a request.
fn introduce<L: Sink>(alloc: Global, out: &mut L, asked: &Pdu) -> Result<(), TalkFault>
    requires fits { IsWritable asked.now }
    requires room { pdu_length asked.now ≤ 65536 }
    ensures { MatchResult result (λ _. Sends (sink_side L.Sink out.old out.new) (pdus.Creds ∷ asked.now ∷ [])) (SendsNot (sink_side L.Sink out.old out.new) (pdus.Creds ∷ asked.now ∷ [])) }
{
    match send(alloc, out, &Pdu::Creds) {
        Ok(()) => send(alloc, out, asked),
        Err(fault) => Err(fault),
    }
}

/// Writes the requests of a turn: before it asks for the metrics of names, a client says that it speaks the protocol.
fn send_requests<L: Sink>(alloc: Global, out: &mut L, asked: &Pdu) -> Result<(), TalkFault>
    requires fits { IsWritable asked.now }
    requires room { pdu_length asked.now ≤ 65536 }
    ensures { MatchResult result (λ _. Sends (sink_side L.Sink out.old out.new) (requests_of (Some asked.now))) (SendsNot (sink_side L.Sink out.old out.new) (requests_of (Some asked.now))) }
{
    match asked {
        Pdu::PmnsNames { .. } => introduce(alloc, out, asked),
        _ => send(alloc, out, asked),
    }
}

impl Line {
    /// A line over which nothing came yet.
    pub fn new(alloc: Global) -> Line
        ensures { result.replies ≡ 0 }
    {
        Line {
            bytes: Vec::new(alloc),
            replies: 0,
        }
    }

    /// Awaits the reply to a turn whose requests were written; where nothing was asked, the greeting.
    pub fn await_reply<I: Source>(
        &mut self,
        alloc: Global,
        turn: &Option<Pdu>,
        reply: &mut I,
    ) -> Result<Pdu, TalkFault>
        ensures reply { Awaits (source_side I.Source reply.old reply.new) self.old.replies turn.now result }
        ensures counted { OnOk result (self.new.replies ≡ shown_count (self.old.replies + 1)) }
        ensures few { self.old.replies ≤ 18446744073709551615 }
    {
        let pdu = receive(alloc, reply, &mut self.bytes, self.replies)?;
        if let Some(why) = judge(turn, &pdu) {
            return Err(TalkFault::Peer {
                reply: self.replies,
                why,
            });
        }
        self.replies = self.replies.saturating_add(1);
        Ok(pdu)
    }

    /// Asks for one reply, which fits.
    pub fn ask<I: Source, L: Sink>(
        &mut self,
        alloc: Global,
        asked: Pdu,
        reply: &mut I,
        request: &mut L,
    ) -> Result<Pdu, TalkFault>
        requires fits { IsWritable asked }
        requires room { pdu_length asked ≤ 65536 }
        ensures done { MatchResult result
            (λ pdu. Passes (source_side I.Source reply.old reply.new) (sink_side L.Sink request.old request.new) (Some asked ∷ []) (pdu ∷ []))
            (λ e. Stops (source_side I.Source reply.old reply.new) (sink_side L.Sink request.old request.new) (Some asked ∷ []) self.old.replies [] e) }
        ensures counted { OnOk result (self.new.replies ≡ shown_count (self.old.replies + 1)) }
    {
        match send_requests(alloc, request, &asked) {
            Ok(()) => self.await_reply(alloc, &Some(asked), reply),
            Err(fault) => Err(fault),
        }
    }
}
