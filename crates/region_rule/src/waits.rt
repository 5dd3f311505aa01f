//! The calls that wait. Each ensures what it says if it returns.
ghost use Rattle.std.specs.Prelude.{◌≡◌, MatchResult, length};
ghost use Rattle.region_core.specs.declared.mode.Mode.TheVariants.{Idle, Attached, Changing};
ghost use Rattle.region_rule.specs.Seats.{IsSame};
ghost use Rattle.region_rule.specs.Waits.{AttachesAtLast, StartsAtLast, FailsAtLast};

use crate::change::Change;
use crate::fault::ChangeFault;
use crate::pass::Pass;
use crate::region::Region;
use crate::stint::Stint;
use region_core::Shape;
use std::sync::Wait;
use std::thread;

impl<S: Shape> Region<S> {
    /// Attaches, and tries again while a pass is changing the layout.
    pub fn attach_wait<R: Wait>(&self, rt: &R, pass: Pass) -> Stint
        requires here { pass.region ≡ self.now }
        ensures attaches { AttachesAtLast S.shaping pass.view result.view }
        ensures stays { IsSame Idle Attached pass result }
    {
        let mut waiting = pass;
        for _ in rt.forever() {
            match self.attach(waiting) {
                Ok(stint) => return stint,
                Err((back, _)) => waiting = back,
            }
            thread::yield_now();
        }
        // The loop goes on for ever.
        unreachable!()
    }

    /// Begins a change, and tries again while the gate is not 0: it never answers `Busy`.
    pub fn begin_change_wait<R: Wait>(
        &self,
        rt: &R,
        pass: Pass,
        image: Vec<u64>,
        moment: u64,
    ) -> Result<Change<S>, (Pass, Vec<u64>, ChangeFault)>
        requires here { pass.region ≡ self.now }
        requires image { S.shaping.IsImage image.items }
        ensures begins { MatchResult
            result
            (λ change. StartsAtLast S.shaping pass.view (length self.now.words) image.items moment change)
            (λ refused. FailsAtLast S.shaping pass.view (length self.now.words) image.items refused.0.view refused.2) }
        ensures stays { MatchResult result (λ change. IsSame Idle Changing pass change.token) (λ refused. IsSame Idle Idle pass refused.0 × (refused.1.items ≡ image.items)) }
    {
        let mut waiting = pass;
        let mut kept = image;
        for _ in rt.forever() {
            match self.begin_change(waiting, kept, moment) {
                Err((back, image, ChangeFault::Busy { gate: _ })) => {
                    waiting = back;
                    kept = image;
                }
                answer => return answer,
            }
            thread::yield_now();
        }
        // The loop goes on for ever.
        unreachable!()
    }
}
