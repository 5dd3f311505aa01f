//! How what a command writes goes to the sink.
ghost use Rattle.pcp_outside.specs.Sides.{sink_side};
ghost use Rattle.pm_words.specs.Streams.{Sends, Finishes};
ghost use Rattle.pm_words.specs.Telling.{TellsEnd, TellsRefusal};

use crate::refusal::Refusal;
use pcp_base::Bytes;
use pcp_outside::{Sink, write_all};
use std::alloc::Global;

/// Writes a piece of an output, unless the sink has failed before; and whether it has failed.
pub fn send<O: Sink>(out: &mut O, failed: bool, piece: &[u8]) -> bool
    ensures { Sends (sink_side O.Sink out.old out.new) failed piece.now result }
{
    if failed {
        return true;
    }
    match write_all(out, piece) {
        Ok(()) => false,
        Err(_) => true,
    }
}

// Writes the last piece of an output, and tells the status.
fn finish<O: Sink>(out: &mut O, failed: bool, piece: &[u8]) -> u8
    ensures { Finishes (sink_side O.Sink out.old out.new) failed piece.now result }
{
    let gone = send(out, failed, piece);
    if gone {
        return 4;
    }
    0
}

// Writes the last line of a refusal, unless the sink has failed before, and tells the status.
fn tell_refusal<O: Sink>(alloc: Global, out: &mut O, failed: bool, refusal: &Refusal) -> u8
    ensures { TellsRefusal (sink_side O.Sink out.old out.new) failed refusal.now result }
{
    if failed {
        return refusal.status();
    }
    match refusal.tell(alloc, out) {
        Ok(()) => refusal.status(),
        Err(_) => 9,
    }
}

/// Tells the end of a call: writes the last piece of its output, or the last line of its refusal, unless the sink has failed before, and
/// answers the exit status.
pub fn tell_end<O: Sink>(
    alloc: Global,
    out: &mut O,
    failed: bool,
    ran: Result<Bytes, Refusal>,
) -> u8
    ensures { TellsEnd (sink_side O.Sink out.old out.new) failed ran result }
{
    match ran {
        Ok(text) => finish(out, failed, text.as_slice()),
        Err(refusal) => tell_refusal(alloc, out, failed, &refusal),
    }
}
