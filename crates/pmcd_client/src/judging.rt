//! Whether a reply fits what was asked.
ghost use Rattle.std.specs.Prelude.{◌≡◌, ◌≢◌, ◌↔◌, ℕ, ℤ, if◌then◌else◌, None, Some, IfSome, IsSome, IsTrue, AllPairs};
ghost use Rattle.pdu_codec.specs.declared.pdu.Pdu.TheVariants as pdus;
ghost use Rattle.pmcd_client.specs.Pieces.{IsJudged, IsMisplaced};
ghost use Rattle.pmcd_client.specs.Turns.{numbers, pmids_of};

use crate::faults::ReplyFault;
use crate::listing::lists_instance;
use pcp_base::{InDom, Pmid, Text, ValueSet};
use pdu_codec::Pdu;

/// What is told of an answer to what was asked, and of one to something else.
fn shaped(fits: bool) -> Option<ReplyFault>
    ensures { result ≡ (if fits then None else Some ReplyFault.Shape) }
{
    if fits { None } else { Some(ReplyFault::Shape) }
}

/// Why a PDU that isn't the one due doesn't fit.
fn misplaced(reply: &Pdu) -> Option<ReplyFault>
    ensures why { IfSome result (IsMisplaced reply.now) }
    ensures some { IsSome result }
{
    match reply {
        Pdu::Error { code } => Some(ReplyFault::Code { code: *code }),
        _ => Some(ReplyFault::Type),
    }
}

/// Whether all numbers of instances differ.
fn are_distinct(pairs: &[(i32, Text)]) -> bool
    ensures { IsTrue result ↔ AllPairs (λ a b. a ≢ b) (numbers pairs.now) }
{
    let mut rest = pairs;
    while let [(instance, _), others @ ..] = rest {
        if lists_instance(others, *instance) {
            return false;
        }
        rest = others;
    }
    true
}

/// Whether there is one set for each metric, in their order.
fn are_of(sets: &[ValueSet], pmids: &[Pmid]) -> bool
    ensures { IsTrue result ↔ (pmids_of sets.now ≡ pmids.now) }
{
    if sets.len() != pmids.len() {
        return false;
    }
    for (set, pmid) in sets.iter().zip(pmids.iter()) {
        if set.pmid != *pmid {
            return false;
        }
    }
    true
}

/// What is told of a greeting's code.
fn coded(code: i32) -> Option<ReplyFault>
    ensures { IsJudged None (pdus.Error code) result }
{
    if code != 0 {
        return Some(ReplyFault::Code { code });
    }
    None
}

/// What is told of the greeting.
fn judge_greeting(reply: &Pdu) -> Option<ReplyFault>
    ensures { IsJudged None reply.now result }
{
    match reply {
        Pdu::Error { code } => coded(*code),
        _ => misplaced(reply),
    }
}

/// What is told of a reply to a question about names.
fn judge_metrics(names: &[Text], reply: &Pdu) -> Option<ReplyFault>
    ensures { (status : ℤ) → IsJudged (Some (pdus.PmnsNames status names.now)) reply.now result }
{
    match reply {
        Pdu::PmnsIds { status, pmids } => shaped(*status == 0 && pmids.len() == names.len()),
        _ => misplaced(reply),
    }
}

/// What is told of a reply to a question about a metric.
fn judge_description(pmid: Pmid, reply: &Pdu) -> Option<ReplyFault>
    ensures { IsJudged (Some (pdus.DescReq pmid)) reply.now result }
{
    match reply {
        Pdu::Desc(desc) => shaped(desc.pmid == pmid),
        _ => misplaced(reply),
    }
}

/// What is told of a reply to a question about a domain.
fn judge_instances(indom: InDom, reply: &Pdu) -> Option<ReplyFault>
    ensures { (instance : ℤ) → IsJudged (Some (pdus.InstanceReq indom instance)) reply.now result }
{
    match reply {
        Pdu::Instance {
            indom: found,
            pairs,
        } => {
            let distinct = are_distinct(pairs.as_slice());
            shaped(*found == indom && distinct)
        }
        _ => misplaced(reply),
    }
}

/// What is told of a reply to a fetch.
fn judge_values(pmids: &[Pmid], reply: &Pdu) -> Option<ReplyFault>
    ensures { (context sec usec : ℕ) → IsJudged (Some (pdus.Fetch context sec usec pmids.now)) reply.now result }
{
    match reply {
        Pdu::Result(answer) => shaped(are_of(answer.sets.as_slice(), pmids)),
        _ => misplaced(reply),
    }
}

/// What is told of a reply: nothing where it fits, and else why it doesn't.
pub fn judge(turn: &Option<Pdu>, reply: &Pdu) -> Option<ReplyFault>
    ensures { IsJudged turn.now reply.now result }
{
    let Some(asked) = turn else {
        return judge_greeting(reply);
    };
    match asked {
        Pdu::PmnsNames { names, .. } => judge_metrics(names.as_slice(), reply),
        Pdu::DescReq { pmid } => judge_description(*pmid, reply),
        Pdu::InstanceReq { indom, .. } => judge_instances(*indom, reply),
        Pdu::Fetch { pmids, .. } => judge_values(pmids.as_slice(), reply),
        _ => misplaced(reply),
    }
}
