//! The reader of a payload.
ghost use Rattle.std.specs.Prelude.{IfOk, IfErr, Ok};
ghost use Rattle.pcp_model.specs.Payload.{IsPayload};
ghost use Rattle.result_form.specs.Decoding.{Gives};
ghost use Rattle.result_form.specs.Faults.{IsFormFault};

use crate::fault::FormFault;
use crate::view::ResultView;
use pcp_base::PmResult;
use std::alloc::Global;

/// The result of a payload. The blocks may stand anywhere behind the last set, shared and out of order, with any
/// padding; a refusal tells the first fault and its offset, or that memory was refused. What stands behind the sets is
/// copied once, and each block is a place in it, however often offsets lead to it.
pub fn decode(alloc: Global, payload: &[u8]) -> Result<PmResult, FormFault>
    // What is read is what the payload spells.
    ensures found { IfOk result (λ r. IsPayload payload.now r) }
    // What the payload spells is read, unless memory runs out.
    ensures only { (r : PmResult) → IsPayload payload.now r → Gives result (Ok r) }
    // Which fault it is: the first of the words in their order, of the blocks in the order of the pairs, or at the end.
    ensures fault { IfErr result (IsFormFault payload.now) }
{
    let read = ResultView::read(payload)?;
    let answer = read.to_result(alloc)?;
    Ok(answer)
}
