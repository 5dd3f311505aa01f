//! Requests that an agent tells the reply of: descriptions, instances and names.
ghost use Rattle.std.specs.Prelude.{◌≡◌, ℤ, List as Sequence, Some, [], IfOk};
ghost use Rattle.std.specs.Option.{option_copied};
ghost use Rattle.pdu_codec.specs.declared.pdu.Pdu.TheVariants.{DescReq, InstanceReq, PmnsIds, PmnsNames, PmnsChild, PmnsTraverse};
ghost use Rattle.fetch_answers.specs.Readings.{RegionReading};
ghost use Rattle.pmcd_session.specs.Agents.{named_by};
ghost use Rattle.pmcd_session.specs.Serving.{Tells};
ghost use Rattle.pmcd_session.specs.Telling.{ShowsNames};

use crate::agent::Agent;
use crate::replies::{child_reply, ids_reply, instances_reply, names_reply, traverse_reply};
use crate::standing::Standing;
use fetch_engine::AskFault;
use pcp_base::{InDom, NoMemory, Pmid, Text};
use pdu_codec::Pdu;
use pmns_core::Names;
use std::alloc::Global;

/// A region was missed, so names can't be told: PM_ERR_AGAIN (pmErrStr(3)).
const AGAIN: i32 = -12389;

/// The reply to a request for a metric's description (pmLookupDesc(3)): `Desc`, or an `Error` with its status.
pub fn tell_description<A: Agent>(
    alloc: Global,
    regions: &A::Regions,
    s: &mut Standing<A>,
    pmid: Pmid,
) -> Result<Pdu, NoMemory>
    requires here { A.sits regions.now s.old.agent }
    ensures told { IfOk result (λ reply. Tells (A.reads regions.now) s.old (DescReq pmid) (record { moments = []; reply = Some reply; after = s.new })) }
    ensures loads { A.loads regions.now s.old.agent s.new.agent }
    ensures here { A.sits regions.now s.new.agent }
{
    match s.agent.description(alloc, regions, pmid) {
        Ok(desc) => Ok(Pdu::Desc(desc)),
        Err(AskFault::Status(code)) => Ok(Pdu::Error { code }),
        Err(AskFault::NoMemory) => Err(NoMemory),
    }
}

/// The reply to a request for the instances of a domain, or for the one of a number (pmGetInDom(3)).
pub fn tell_instances<A: Agent>(
    alloc: Global,
    regions: &A::Regions,
    s: &mut Standing<A>,
    indom: InDom,
    instance: i32,
) -> Result<Pdu, NoMemory>
    requires here { A.sits regions.now s.old.agent }
    ensures told { IfOk result (λ reply. Tells (A.reads regions.now) s.old (InstanceReq indom instance) (record { moments = []; reply = Some reply; after = s.new })) }
    ensures loads { A.loads regions.now s.old.agent s.new.agent }
    ensures here { A.sits regions.now s.new.agent }
{
    match s.agent.instances(alloc, regions, indom) {
        Ok(pairs) => instances_reply(alloc, indom, instance, pairs),
        Err(AskFault::Status(code)) => Ok(Pdu::Error { code }),
        Err(AskFault::NoMemory) => Err(NoMemory),
    }
}

/// The name space that an agent holds since it read the regions for it, or `None` while one is missing.
fn names_shown<A: Agent>(agent: &A) -> Option<&Names>
    ensures { (readings : Sequence RegionReading) → A.named agent.now ≡ Some (named_by readings) → ShowsNames readings (option_copied result) }
{
    let named = agent.named()?;
    if !named.missing.is_empty() {
        return None;
    }
    Some(&named.names)
}

/// The identifiers of names; the status that a request has isn't looked at.
pub fn tell_ids<A: Agent>(
    alloc: Global,
    regions: &A::Regions,
    s: &mut Standing<A>,
    asked: &[Text],
) -> Result<Pdu, NoMemory>
    requires here { A.sits regions.now s.old.agent }
    ensures told { (status : ℤ) → IfOk result (λ reply. Tells (A.reads regions.now) s.old (PmnsNames status asked.now) (record { moments = []; reply = Some reply; after = s.new })) }
    ensures loads { A.loads regions.now s.old.agent s.new.agent }
    ensures here { A.sits regions.now s.new.agent }
{
    s.agent.read_names(alloc, regions)?;
    match names_shown(&s.agent) {
        Some(names) => ids_reply(alloc, names, asked),
        None => Ok(Pdu::Error { code: AGAIN }),
    }
}

/// The names of identifiers; the status that a request has isn't looked at.
pub fn tell_names<A: Agent>(
    alloc: Global,
    regions: &A::Regions,
    s: &mut Standing<A>,
    asked: &[Pmid],
) -> Result<Pdu, NoMemory>
    requires here { A.sits regions.now s.old.agent }
    ensures told { (status : ℤ) → IfOk result (λ reply. Tells (A.reads regions.now) s.old (PmnsIds status asked.now) (record { moments = []; reply = Some reply; after = s.new })) }
    ensures loads { A.loads regions.now s.old.agent s.new.agent }
    ensures here { A.sits regions.now s.new.agent }
{
    s.agent.read_names(alloc, regions)?;
    match names_shown(&s.agent) {
        Some(names) => names_reply(alloc, names, asked),
        None => Ok(Pdu::Error { code: AGAIN }),
    }
}

/// The reply to a request for the components that continue a name (pmGetChildren(3)).
pub fn tell_children<A: Agent>(
    alloc: Global,
    regions: &A::Regions,
    s: &mut Standing<A>,
    name: &Text,
) -> Result<Pdu, NoMemory>
    requires here { A.sits regions.now s.old.agent }
    ensures told { IfOk result (λ reply. Tells (A.reads regions.now) s.old (PmnsChild name.now) (record { moments = []; reply = Some reply; after = s.new })) }
    ensures loads { A.loads regions.now s.old.agent s.new.agent }
    ensures here { A.sits regions.now s.new.agent }
{
    s.agent.read_names(alloc, regions)?;
    match names_shown(&s.agent) {
        Some(names) => child_reply(alloc, names, name),
        None => Ok(Pdu::Error { code: AGAIN }),
    }
}

/// The reply to a request for the names that equal or continue a name (pmTraversePMNS(3)).
pub fn tell_below<A: Agent>(
    alloc: Global,
    regions: &A::Regions,
    s: &mut Standing<A>,
    name: &Text,
) -> Result<Pdu, NoMemory>
    requires here { A.sits regions.now s.old.agent }
    ensures told { IfOk result (λ reply. Tells (A.reads regions.now) s.old (PmnsTraverse name.now) (record { moments = []; reply = Some reply; after = s.new })) }
    ensures loads { A.loads regions.now s.old.agent s.new.agent }
    ensures here { A.sits regions.now s.new.agent }
{
    s.agent.read_names(alloc, regions)?;
    match names_shown(&s.agent) {
        Some(names) => traverse_reply(alloc, names, name),
        None => Ok(Pdu::Error { code: AGAIN }),
    }
}
