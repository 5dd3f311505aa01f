//! A payload's result, looked at where it stands.
ghost use Rattle.std.specs.Prelude.{◌≡◌, ◌≢◌, IfOk, IfErr, Ok};
ghost use Rattle.pcp_model.specs.Payload.{IsPayload};
ghost use Rattle.result_form.specs.declared.fault.FormFault.TheVariants.{NoMemory as Refused};
ghost use Rattle.result_form.specs.Faults.{IsFormFault};

use crate::checking::check;
use crate::fault::FormFault;
use crate::owned::result_of;
use crate::sets::SetsView;
use crate::words::behind;
use pcp_base::{NoMemory, PmResult, Stamp};
use std::alloc::Global;
use std::marker::Model;

/// The result that a payload is, over the payload's own bytes, all of which were checked. Contracts see the result.
#[derive(Drop)]
pub struct ResultView<'a> {
    payload: &'a [u8],
    stamp: Stamp,
    count: u32,
    end: usize,
}

impl<'a> Model for ResultView<'a> {
    ghost use Rattle.pcp_base.specs.declared.result.PmResult.{PmResult};
    ghost use Rattle.result_form.specs.Shown.{shown_result};
    ghost use Rattle.result_form.specs.Reaching.{IsRead};

    ghost Value = { PmResult };

    ghost view = { λ a. shown_result a.payload.now a.stamp a.count };

    ghost invariant = { λ a. IsRead a.payload.now a.stamp a.count a.end };
}

impl<'a> ResultView<'a> {
    /// The result of a payload. The blocks may stand anywhere behind the last set, shared and out of order, with any padding;
    /// a refusal tells the first fault and its offset. No memory is taken.
    pub fn read(payload: &'a [u8]) -> Result<ResultView<'a>, FormFault>
        // What is shown is what the payload spells.
        ensures found { IfOk result (λ r. IsPayload payload.now r) }
        // What the payload spells is shown, always.
        ensures only { (r : PmResult) → IsPayload payload.now r → result ≡ Ok r }
        // Which fault it is: the first of the words in their order, of the blocks in the order of the pairs, or at the end.
        ensures fault { IfErr result (IsFormFault payload.now) }
        // It is one of the bytes, and never want of memory.
        ensures bytes { IfErr result (λ e. e ≢ Refused) }
    {
        let (stamp, count, end) = check(payload)?;
        Ok(ResultView {
            payload,
            stamp,
            count,
            end,
        })
    }

    /// The time stamp.
    pub fn stamp(&self) -> Stamp
        ensures { result ≡ self.now.stamp }
    {
        self.stamp
    }

    /// The sets in their order, from the first on.
    pub fn sets(&self) -> SetsView<'a>
        ensures { result ≡ self.now.sets }
    {
        SetsView::of(self.payload, self.count, behind(self.payload, 12))
    }

    /// The result as a value of its own.
    pub fn to_result(&self, alloc: Global) -> Result<PmResult, NoMemory>
        ensures { IfOk result (λ r. r ≡ self.now) }
    {
        result_of(alloc, self.payload, self.stamp, self.count, self.end)
    }
}
