//! The calls that wait. Each ensures what it says if it returns.
ghost use Rattle.std.specs.Prelude.{◌≡◌, MatchResult, length};
ghost use Rattle.region_core.specs.declared.mode.Mode.TheVariants.{Idle, Attached, Changing};
ghost use Rattle.region_rule.specs.Seats.{IsSame};
ghost use Rattle.region_rule.specs.Waits.{AttachesAtLast, StartsAtLast, FailsAtLast};
ghost use Rattle.region_words.specs.Images.{mmv};

use crate::change::Change;
use crate::pass::Pass;
use crate::region::Region;
use crate::stint::Stint;
use mmv_layout::Image;
use region_rule::ChangeFault;
use std::sync::Wait;

impl Region {
    /// Attaches, and tries again while a pass is changing the layout.
    pub fn attach_wait<R: Wait>(&self, rt: &R, pass: Pass) -> Stint
        requires here { pass.region ≡ self.now }
        ensures attaches { AttachesAtLast mmv pass.view result.view }
        ensures stays { IsSame Idle Attached pass result }
    {
        let Pass { inner } = pass;
        Stint {
            inner: self.inner.attach_wait(rt, inner),
        }
    }

    /// Begins a change, and tries again while the gate is not 0: it never answers `Busy`.
    pub fn begin_change_wait<R: Wait>(
        &self,
        rt: &R,
        pass: Pass,
        image: Image,
        moment: u64,
    ) -> Result<Change, (Pass, Image, ChangeFault)>
        requires here { pass.region ≡ self.now }
        ensures begins { MatchResult
            result
            (λ change. StartsAtLast mmv pass.view (length self.now.words) image moment change)
            (λ refused. FailsAtLast mmv pass.view (length self.now.words) image refused.0.view refused.2) }
        ensures stays { MatchResult result (λ change. IsSame Idle Changing pass change.token) (λ refused. IsSame Idle Idle pass refused.0 × (refused.1 ≡ image)) }
    {
        let Pass { inner } = pass;
        match self
            .inner
            .begin_change_wait(rt, inner, image.into_words(), moment)
        {
            Ok(inner) => Ok(Change { inner }),
            Err((inner, words, fault)) => Err((Pass { inner }, Image::of_words(words), fault)),
        }
    }
}
