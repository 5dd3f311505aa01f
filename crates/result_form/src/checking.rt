//! Whether bytes are a payload: its words, then its blocks, then its end.
ghost use Rattle.std.specs.Prelude.{◌≡◌, ◌≤◌, length, IfOk, Ok};
ghost use Rattle.result_form.specs.Decoding.{sets_end, sets_from};
ghost use Rattle.result_form.specs.Reaching.{reach_of, IsChecked};

use crate::fault::FormFault;
use crate::reach::{pairs_reach, span_at};
use crate::words::{stamp_of, word_below};
use pcp_base::Stamp;

/// The byte behind so many sets, the first of which begins at a byte.
#[tactic(auto, unfolding(crate::specs::Decoding::sets_end))]
fn sets_end(payload: &[u8], count: u32, from: usize) -> Result<usize, FormFault>
    requires { from ≤ length payload.now }
    ensures end { result ≡ sets_end payload.now count from }
    ensures within { IfOk result (λ end. end ≤ length payload.now) }
{
    let mut at = from;
    for _ in 0..count {
        at = span_at(payload, at)?.next;
    }
    Ok(at)
}

/// The greatest end of the sets and of their blocks.
#[tactic(auto, unfolding(crate::specs::Decoding::sets_from))]
fn sets_reach(payload: &[u8], end: usize, count: u32, from: usize) -> Result<usize, FormFault>
    requires { sets_end payload.now count from ≡ Ok end }
    ensures { result ≡ reach_of (sets_from payload.now end end count from) }
{
    let mut at = from;
    let mut reach = end;
    for _ in 0..count {
        let span = span_at(payload, at)?;
        reach = pairs_reach(payload, end, reach, span.blocks, span.from)?;
        at = span.next;
    }
    Ok(reach)
}

/// The stamp of a payload, the number of its sets and where they end, where it is the payload of a result.
#[tactic(auto, unfolding(crate::specs::Decoding::payload_result))]
pub fn check(payload: &[u8]) -> Result<(Stamp, u32, usize), FormFault>
    ensures { IsChecked payload.now result }
{
    let stamp = stamp_of(payload)?;
    let count = word_below(payload, 8, 1 << 31, FormFault::Count { at: 8 })?;
    let end = sets_end(payload, count, 12)?;
    let reach = sets_reach(payload, end, count, 12)?;
    if reach < payload.len() {
        return Err(FormFault::Trailing { at: reach as u64 });
    }
    Ok((stamp, count, end))
}
