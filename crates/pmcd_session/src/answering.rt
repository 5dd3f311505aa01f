//! What is replied to a whole PDU.
ghost use Rattle.std.specs.Prelude.{◌≡◌, ◌≤◌, ◌++◌, List as Sequence, IfErr, MatchResult, ◌≢◌, OnOk};
ghost use Rattle.pcp_base.specs.Time.{Moment};
ghost use Rattle.pmcd_session.specs.declared.halt.Halt.TheVariants.{ClockFault as Failing};
ghost use Rattle.pmcd_session.specs.Clocking.{taken_by, HasCauseIn, HasMomentFor};
ghost use Rattle.pmcd_session.specs.Serving.{Does, GoesOn, Halts};

use crate::agent::Agent;
use crate::halt::Halt;
use crate::requests::{needs_moment, request_in};
use crate::serving::serve;
use crate::standing::Standing;
use pcp_base::Stamp;
use pcp_outside::Clock;
use pdu_codec::Pdu;
use std::alloc::Global;

/// The clock's next moment, where one is needed.
fn moment_for<C: Clock>(clock: &mut C, is_needed: bool) -> Result<Option<Stamp>, Halt>
    ensures moments { C.tells → C.left clock.old ≡ taken_by result ++ C.left clock.new }
    ensures answer { HasMomentFor C.tells (C.left clock.new) (C.faults clock.old) (C.faults clock.new) is_needed result }
    ensures later { C.faults clock.old ≤ C.faults clock.new }
    ensures quiet { OnOk result (C.faults clock.new ≡ C.faults clock.old) }
    ensures still { IfErr result (λ h. h ≢ Failing → C.faults clock.new ≡ C.faults clock.old) }
{
    if !is_needed {
        return Ok(None);
    }
    match clock.now() {
        Ok(Some(moment)) => Ok(Some(moment)),
        Ok(None) => Err(Halt::ClockEnd),
        Err(_) => Err(Halt::ClockFault),
    }
}

/// Serves a whole PDU of a client, and answers the reply, if there is one.
pub fn reply_to<A: Agent, C: Clock>(
    alloc: Global,
    regions: &A::Regions,
    s: &mut Standing<A>,
    clock: &mut C,
    pdu: &[u8],
) -> Result<Option<Pdu>, Halt>
    requires here { A.sits regions.now s.old.agent }
    ensures done { (moments : Sequence Moment) × (C.tells → C.left clock.old ≡ moments ++ C.left clock.new) × MatchResult result
        (λ reply. Does (A.reads regions.now) s.old pdu.now (record { moments = moments; reply = reply; after = s.new }))
        (λ halt. Halts (A.loads regions.now) s.old pdu.now moments s.new halt) }
    ensures loads { GoesOn (A.loads regions.now) s.old s.new }
    ensures cause { IfErr result (HasCauseIn C.tells (C.left clock.new) (C.faults clock.old) (C.faults clock.new)) }
    ensures later { C.faults clock.old ≤ C.faults clock.new }
    ensures here { A.sits regions.now s.new.agent }
    ensures quiet { OnOk result (C.faults clock.new ≡ C.faults clock.old) }
    ensures still { IfErr result (λ h. h ≢ Failing → C.faults clock.new ≡ C.faults clock.old) }
{
    let asked = request_in(alloc, pdu)?;
    let is_needed = needs_moment(s.is_met, &asked);
    match moment_for(clock, is_needed) {
        Ok(moment) => Ok(serve(alloc, regions, s, asked, moment)?),
        Err(halt) => Err(halt),
    }
}
