//! What is done with a request.
ghost use Rattle.std.specs.Prelude.{◌≡◌, Some, None, [], is_some, option_to_list, IfOk, true};
ghost use Rattle.pmcd_session.specs.Serving.{DoesIf, FetchesIf, GoesOn, Meets, Serves, Sets, may_fetch, needs_moment};
ghost use Rattle.pmcd_session.specs.Contexts.{may_set, with_profile};
ghost use Rattle.pdu_codec.specs.declared.pdu.Pdu.TheVariants.{Fetch};

use crate::agent::Agent;
use crate::replies::protocol_error;
use crate::standing::Standing;
use crate::telling::{
    tell_below, tell_children, tell_description, tell_ids, tell_instances, tell_names,
};
use pcp_base::{List, NoMemory, Pmid, Stamp};
use pdu_codec::Pdu;
use profile_filter::DomainPart;
use std::alloc::Global;

/// A client that isn't known yet says that it speaks this protocol; else nothing is done.
fn meet<A>(s: &mut Standing<A>, request: &Pdu) -> Option<Pdu>
    ensures { Meets s.old request.now (record { moments = []; reply = result; after = s.new }) }
{
    match request {
        Pdu::Creds => {
            s.is_met = true;
            None
        }
        _ => Some(protocol_error()),
    }
}

/// Replaces the profile of a context.
fn set_profile<A>(
    alloc: Global,
    s: &mut Standing<A>,
    context: u32,
    global: bool,
    parts: List<DomainPart>,
) -> Option<Pdu>
    ensures { Sets (may_set context parts) s.old (record s.old { contexts = with_profile s.old.contexts context global parts }) (record { moments = []; reply = result; after = s.new }) }
{
    if s.contexts.set(alloc, context, global, parts) {
        return None;
    }
    Some(protocol_error())
}

/// The answer of a fetch, where it has a moment.
fn fetch<A: Agent>(
    alloc: Global,
    regions: &A::Regions,
    s: &mut Standing<A>,
    context: u32,
    pmids: &[Pmid],
    moment: Option<Stamp>,
) -> Result<Pdu, NoMemory>
    requires here { A.sits regions.now s.old.agent }
    requires moment { is_some moment ≡ may_fetch context pmids.now }
    ensures done { IfOk result (λ reply. FetchesIf (A.reads regions.now) (may_fetch context pmids.now) s.old context pmids.now (record { moments = option_to_list moment; reply = Some reply; after = s.new })) }
    ensures loads { GoesOn (A.loads regions.now) s.old s.new }
    ensures here { A.sits regions.now s.new.agent }
{
    let Some(stamp) = moment else {
        return Ok(protocol_error());
    };
    let Some(profile) = s.contexts.profile(context) else {
        return Ok(protocol_error());
    };
    let answer = s.agent.fetch(alloc, regions, profile, pmids, stamp)?;
    Ok(Pdu::Result(answer))
}

/// Serves a client that is known.
fn serve_known<A: Agent>(
    alloc: Global,
    regions: &A::Regions,
    s: &mut Standing<A>,
    request: Pdu,
    moment: Option<Stamp>,
) -> Result<Option<Pdu>, NoMemory>
    requires here { A.sits regions.now s.old.agent }
    requires moment { is_some moment ≡ needs_moment true (Some request) }
    ensures done { IfOk result (λ reply. Serves (A.reads regions.now) s.old request (record { moments = option_to_list moment; reply = reply; after = s.new })) }
    ensures loads { GoesOn (A.loads regions.now) s.old s.new }
    ensures here { A.sits regions.now s.new.agent }
{
    match request {
        Pdu::Profile {
            context,
            global,
            parts,
        } => Ok(set_profile(alloc, s, context, global, parts)),
        Pdu::Fetch { context, pmids, .. } => {
            let reply = fetch(alloc, regions, s, context, pmids.as_slice(), moment)?;
            Ok(Some(reply))
        }
        Pdu::DescReq { pmid } => {
            let reply = tell_description(alloc, regions, s, pmid)?;
            Ok(Some(reply))
        }
        Pdu::InstanceReq { indom, instance } => {
            let reply = tell_instances(alloc, regions, s, indom, instance)?;
            Ok(Some(reply))
        }
        Pdu::PmnsNames { names, .. } => {
            let reply = tell_ids(alloc, regions, s, names.as_slice())?;
            Ok(Some(reply))
        }
        Pdu::PmnsIds { pmids, .. } => {
            let reply = tell_names(alloc, regions, s, pmids.as_slice())?;
            Ok(Some(reply))
        }
        Pdu::PmnsChild { name } => {
            let reply = tell_children(alloc, regions, s, &name)?;
            Ok(Some(reply))
        }
        Pdu::PmnsTraverse { name } => {
            let reply = tell_below(alloc, regions, s, &name)?;
            Ok(Some(reply))
        }
        Pdu::Creds => Ok(Some(protocol_error())),
        Pdu::Error { .. } => Ok(Some(protocol_error())),
        Pdu::Result(_) => Ok(Some(protocol_error())),
        Pdu::Desc(_) => Ok(Some(protocol_error())),
        Pdu::Instance { .. } => Ok(Some(protocol_error())),
    }
}

/// Serves what was asked, at a moment where the clock is asked for one.
pub fn serve<A: Agent>(
    alloc: Global,
    regions: &A::Regions,
    s: &mut Standing<A>,
    asked: Option<Pdu>,
    moment: Option<Stamp>,
) -> Result<Option<Pdu>, NoMemory>
    requires here { A.sits regions.now s.old.agent }
    requires moment { is_some moment ≡ needs_moment s.old.is_met asked }
    ensures done { IfOk result (λ reply. DoesIf (A.reads regions.now) s.old s.old.is_met asked (record { moments = option_to_list moment; reply = reply; after = s.new })) }
    ensures loads { GoesOn (A.loads regions.now) s.old s.new }
    ensures here { A.sits regions.now s.new.agent }
{
    let Some(request) = asked else {
        return Ok(Some(protocol_error()));
    };
    if !s.is_met {
        return Ok(meet(s, &request));
    }
    serve_known(alloc, regions, s, request, moment)
}
