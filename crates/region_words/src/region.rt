//! A region: its words and its gate, which threads share.
ghost use Rattle.std.specs.Prelude.{◌≡◌, ◌<◌, ◌≤◌, All, length, IfOk, MatchResult};
ghost use Rattle.region_rule.specs.Calls.{Opens, OpensNot, Closes};
ghost use Rattle.region_words.specs.Images.{mmv};

use crate::pass::Pass;
use crate::shape::Mmv;
use mmv_layout::Image;
use pcp_base::NoMemory;
use region_rule::{OpenFault, Pass as RuledPass, Region as RuledRegion};
use std::alloc::{AllocError, Global};
use std::marker::Model;

/// The words of a region, and its gate, which threads share.
#[derive(Drop)]
pub struct Region {
    pub(crate) inner: RuledRegion<Mmv>,
}

impl Model for Region {
    ghost use Rattle.region_rule.specs.Seats.{MadeRegion};

    ghost Value = { MadeRegion };

    ghost view = { λ a. a.inner };
}

/// The passes of this crate.
fn passes_of(alloc: Global, passes: Vec<RuledPass>) -> Result<Vec<Pass>, AllocError>
    ensures { IfOk result (λ given. given.items ≡ passes.items) }
{
    let mut given = Vec::with_capacity(alloc, passes.len())?;
    for inner in passes {
        given.push(Pass { inner })?;
    }
    Ok(given)
}

impl Region {
    /// Makes a region of this image, of the given capacity in words, and so many passes, numbered from 0 upwards.
    /// `TooLarge` comes exactly where the image has more words. Words behind the image are 0.
    #[tactic(auto, using(crate::proofs::Inside::opens_here))]
    pub fn make(
        alloc: Global,
        image: &Image,
        capacity: u32,
        passes: u32,
    ) -> Result<(Region, Vec<Pass>), OpenFault>
        requires capacity { capacity ≤ 65536 }
        requires passes { (0 < passes) × (passes ≤ 256) }
        ensures opens { MatchResult result (λ made. Opens image.now capacity passes made.0 made.1.items) (OpensNot image.now capacity) }
        ensures here { IfOk result (λ made. All (λ pass. pass.region ≡ made.0) made.1.items) }
    {
        let (inner, passes) = RuledRegion::make(alloc, image.words(), capacity, passes)?;
        let passes = passes_of(alloc, passes)?;
        Ok((Region { inner }, passes))
    }

    /// The capacity in words: the image, and the words behind it.
    pub fn capacity(&self) -> u32
        ensures { result ≡ length self.now.words }
    {
        self.inner.capacity()
    }

    /// Ends the region, and gives its words: those of the last state of a legal journal that begins with all that the pass
    /// has seen, and in which neither the pass nor one that it gathered has a further entry.
    pub fn close(self, alloc: Global, pass: Pass) -> Result<Vec<u64>, (Region, Pass, NoMemory)>
        requires here { pass.region ≡ self }
        ensures { MatchResult result (λ words. Closes mmv pass.view words.items) (λ kept. (kept.0 ≡ self) × (kept.1 ≡ pass)) }
    {
        let Region { inner } = self;
        let Pass { inner: pass } = pass;
        match inner.close(alloc, pass) {
            Ok(words) => Ok(words),
            Err((inner, pass, _)) => Err((Region { inner }, Pass { inner: pass }, NoMemory)),
        }
    }
}
