//! A whole PDU is served, and its reply written.
ghost use Rattle.std.specs.Prelude.{◌≡◌, ◌≤◌, ◌++◌, ℕ, List as Sequence, IfErr, IsErrOf, ◌≢◌, OnOk};
ghost use Rattle.pcp_base.specs.Time.{Moment};
ghost use Rattle.pcp_outside.specs.Causes.{Rose};
ghost use Rattle.pdu_codec.specs.Spelling.{IsWritable};
ghost use Rattle.pcp_outside.specs.declared.doors.SessionEnd.TheVariants.{WriteFault as Unwritten};
ghost use Rattle.pmcd_session.specs.Pieces.{end_of, HasReason, IsQuiet, IsSendEnd, ServesAll, ServesOne, WritesIn};
ghost use Rattle.pmcd_session.specs.Replies.{greeting, reply_bytes};

use crate::agent::Agent;
use crate::answering::reply_to;
use crate::halt::Halt;
use crate::replies::{greeting, reply_bytes};
use crate::standing::Standing;
use pcp_base::Bytes;
use pcp_outside::{Clock, SessionEnd, Sink, write_all};
use pdu_codec::Pdu;
use std::alloc::Global;

fn end_of(halt: Halt) -> SessionEnd
    ensures { result ≡ end_of halt }
{
    match halt {
        Halt::ClockEnd => SessionEnd::ClockEnd,
        Halt::ClockFault => SessionEnd::ClockFault,
        Halt::NoMemory => SessionEnd::NoMemory,
    }
}

/// Writes a reply.
fn send<O: Sink>(alloc: Global, out: &mut O, reply: &Pdu) -> Result<(), SessionEnd>
    requires { IsWritable reply.now }
    ensures written { O.tells → WritesIn result (O.written out.old) (O.written out.new) (reply_bytes reply.now) }
    ensures refused { O.tells → IsErrOf result SessionEnd.NoMemory → O.written out.new ≡ O.written out.old }
    ensures ends { IfErr result IsSendEnd }
    ensures later { O.faults out.old ≤ O.faults out.new }
    ensures cause { IsErrOf result SessionEnd.WriteFault → Rose (O.faults out.old) (O.faults out.new) }
    ensures quiet { OnOk result (O.faults out.new ≡ O.faults out.old) }
    ensures still { IfErr result (λ e. e ≢ Unwritten → O.faults out.new ≡ O.faults out.old) }
{
    let Ok(bytes) = reply_bytes(alloc, reply) else {
        return Err(SessionEnd::NoMemory);
    };
    match write_all(out, bytes.as_slice()) {
        Ok(()) => Ok(()),
        Err(_) => Err(SessionEnd::WriteFault),
    }
}

/// Writes the greeting.
pub fn greet<O: Sink>(alloc: Global, out: &mut O) -> Result<(), SessionEnd>
    ensures written { O.tells → WritesIn result (O.written out.old) (O.written out.new) (reply_bytes greeting) }
    ensures ends { IfErr result IsSendEnd }
    ensures later { O.faults out.old ≤ O.faults out.new }
    ensures cause { IsErrOf result SessionEnd.WriteFault → Rose (O.faults out.old) (O.faults out.new) }
    ensures quiet { OnOk result (O.faults out.new ≡ O.faults out.old) }
    ensures still { IfErr result (λ e. e ≢ Unwritten → O.faults out.new ≡ O.faults out.old) }
{
    send(alloc, out, &greeting())
}

/// Serves a whole PDU and writes its reply, if there is one.
fn serve_one<A: Agent, O: Sink, C: Clock>(
    alloc: Global,
    regions: &A::Regions,
    s: &mut Standing<A>,
    out: &mut O,
    clock: &mut C,
    pdu: &[u8],
) -> Result<(), SessionEnd>
    requires here { A.sits regions.now s.old.agent }
    ensures done { (moments : Sequence Moment) × (bytes : Sequence ℕ) × (C.tells → C.left clock.old ≡ moments ++ C.left clock.new)
        × (O.tells → WritesIn result (O.written out.old) (O.written out.new) bytes)
        × ServesOne (A.reads regions.now) (A.loads regions.now) s.old pdu.now moments bytes s.new result }
    ensures reason { IfErr result (HasReason C.tells (C.left clock.new) (C.faults clock.old) (C.faults clock.new) (O.faults out.old) (O.faults out.new)) }
    ensures later { (C.faults clock.old ≤ C.faults clock.new) × (O.faults out.old ≤ O.faults out.new) }
    ensures here { A.sits regions.now s.new.agent }
    ensures quiet { IsQuiet result (C.faults clock.old) (C.faults clock.new) (O.faults out.old) (O.faults out.new) }
{
    let reply = match reply_to(alloc, regions, s, clock, pdu) {
        Ok(Some(reply)) => reply,
        Ok(None) => return Ok(()),
        Err(halt) => return Err(end_of(halt)),
    };
    send(alloc, out, &reply)
}

/// Serves whole PDUs one after another.
pub fn serve_all<A: Agent, O: Sink, C: Clock>(
    alloc: Global,
    regions: &A::Regions,
    s: &mut Standing<A>,
    out: &mut O,
    clock: &mut C,
    pdus: &[Bytes],
) -> Result<(), SessionEnd>
    requires here { A.sits regions.now s.old.agent }
    ensures done { (moments : Sequence Moment) × (bytes : Sequence ℕ) × (C.tells → C.left clock.old ≡ moments ++ C.left clock.new)
        × (O.tells → WritesIn result (O.written out.old) (O.written out.new) bytes)
        × ServesAll (A.reads regions.now) (A.loads regions.now) s.old pdus.now moments bytes s.new result }
    ensures reason { IfErr result (HasReason C.tells (C.left clock.new) (C.faults clock.old) (C.faults clock.new) (O.faults out.old) (O.faults out.new)) }
    ensures later { (C.faults clock.old ≤ C.faults clock.new) × (O.faults out.old ≤ O.faults out.new) }
    ensures here { A.sits regions.now s.new.agent }
    ensures quiet { IsQuiet result (C.faults clock.old) (C.faults clock.new) (O.faults out.old) (O.faults out.new) }
{
    for pdu in pdus {
        match serve_one(alloc, regions, s, out, clock, pdu.as_slice()) {
            Ok(()) => {}
            Err(end) => return Err(end),
        }
    }
    Ok(())
}
