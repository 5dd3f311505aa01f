//! What a client's bytes ask for.
ghost use Rattle.std.specs.Prelude.{◌≡◌, ◌≢◌, IfOk};
ghost use Rattle.pmcd_session.specs.Serving.{Asks, may_fetch, needs_moment};

use pcp_base::{NoMemory, Pmid};
use pdu_codec::{Pdu, PduFault, decode};
use std::alloc::Global;

/// Bytes that are no PDU ask for nothing.
fn nothing_for(fault: PduFault) -> Result<Option<Pdu>, NoMemory>
    ensures { IfOk result (λ asked. (asked ≡ None) × (fault ≢ PduFault.NoMemory)) }
{
    match fault {
        PduFault::NoMemory => Err(NoMemory),
        PduFault::Length { .. } => Ok(None),
        PduFault::Unknown { .. } => Ok(None),
        PduFault::Body { .. } => Ok(None),
    }
}

/// The PDU that bytes are, or `None` where they are none.
pub fn request_in(alloc: Global, bytes: &[u8]) -> Result<Option<Pdu>, NoMemory>
    ensures { IfOk result (λ asked. Asks bytes.now asked) }
{
    match decode(alloc, bytes) {
        Ok(pdu) => Ok(Some(pdu)),
        Err(fault) => nothing_for(fault),
    }
}

/// How many contexts there are.
const CONTEXTS: u32 = 16;

/// How many metrics a fetch may ask for.
const METRICS: usize = 1024;

/// Whether a fetch is in a context, and of at most 1,024 metrics.
fn may_fetch(context: u32, pmids: &[Pmid]) -> bool
    ensures { result ≡ may_fetch context pmids.now }
{
    context < CONTEXTS && pmids.len() <= METRICS
}

/// Whether the clock is asked: a known client asks for values, in a fetch that isn't refused.
pub fn needs_moment(is_met: bool, asked: &Option<Pdu>) -> bool
    ensures { result ≡ needs_moment is_met asked.now }
{
    if !is_met {
        return false;
    }
    match asked {
        Some(Pdu::Fetch { context, pmids, .. }) => may_fetch(*context, pmids.as_slice()),
        _ => false,
    }
}
