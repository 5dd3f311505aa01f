//! Which results can be written, and their payloads as bytes of their own.
ghost use Rattle.std.specs.Prelude.{◌≡◌, ◌≤◌, length, IfOk, OnOk, IsTrue, ◌↔◌};
ghost use Rattle.std.specs.List.{AllByRecursion};
ghost use Rattle.pcp_base.specs.Results.{Fits};
ghost use Rattle.pcp_model.specs.Payload.{payload, payload_length, ResultInRange};

use crate::sizes::length;
use crate::spelling::put_payload;
use pcp_base::{Bytes, List, NoMemory, PmResult, ValueSet};
use std::alloc::Global;

/// Whether each set holds what can be written.
fn sets_fit(sets: &[ValueSet]) -> bool
    ensures { IsTrue result ↔ AllByRecursion Fits sets.now }
{
    for set in sets {
        if !set.fits() {
            return false;
        }
    }
    true
}

/// Whether `encode` can write a result: each set holds what can be written, and the payload has at most 16 MiB.
pub fn fits(answer: &PmResult) -> bool
    ensures { IsTrue result ↔ (AllByRecursion Fits answer.now.sets × (payload_length answer.now ≤ 16777216)) }
{
    if length(answer) > 16_777_216 {
        return false;
    }
    sets_fit(answer.sets.as_slice())
}

/// The one spelling of a result: its blocks stand behind the last set, in the order of the pairs, with zeros as
/// padding. Each set holds what can be written, and the payload has at most 16 MiB.
pub fn encode(alloc: Global, answer: &PmResult) -> Result<Bytes, NoMemory>
    requires fits { AllByRecursion Fits answer.now.sets }
    requires room { payload_length answer.now ≤ 16777216 }
    ensures bytes { IfOk result (λ bytes. bytes ≡ payload answer.now) }
    ensures length { IfOk result (λ bytes. length bytes ≡ payload_length answer.now) }
    // What was written is read again: each number is in its range.
    ensures range { OnOk result (ResultInRange answer.now) }
{
    let mut out = Vec::with_capacity(alloc, length(answer) as usize)?;
    put_payload(&mut out, answer)?;
    Ok(List::from_vec(out))
}
