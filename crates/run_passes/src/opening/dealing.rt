//! Dealing the passes of regions to seats, one of each region to each seat.
ghost use Rattle.std.specs.Prelude.{◌≡◌, All, IfOk, length};
ghost use Rattle.run_passes.specs.Makings.{HasEach, IsDealt, AreEmpty, one_more, lists_of};

use super::making::Made;
use fetch_engine::Mounted;
use pcp_base::NoMemory;
use region_words::Pass;
use std::alloc::Global;

/// Regions with the passes of their script, and what each seat is dealt: a pass of each region, in their order.
#[derive(Drop)]
pub(crate) struct Dealt {
    pub(crate) mounted: Vec<Mounted>,
    pub(crate) passes: Vec<Vec<Pass>>,
    pub(crate) hands: Vec<Vec<Pass>>,
}

/// So many hands without a pass.
fn empty_hands(alloc: Global, seats: u32) -> Result<Vec<Vec<Pass>>, NoMemory>
    ensures { IfOk result (λ hands. AreEmpty seats hands.items) }
{
    let mut hands = Vec::new(alloc);
    for _ in 0..seats {
        hands.push(Vec::new(alloc))?;
    }
    Ok(hands)
}

/// The hands, each with one pass more.
fn deal(alloc: Global, hands: Vec<Vec<Pass>>, passes: Vec<Pass>) -> Result<Vec<Vec<Pass>>, NoMemory>
    requires { length hands.items ≡ length passes.items }
    ensures { IfOk result (λ dealt. lists_of dealt.items ≡ one_more (lists_of hands.items) passes.items) }
{
    let mut dealt = Vec::with_capacity(alloc, hands.len())?;
    let mut left = passes.into_iter();
    for mut hand in hands {
        let Some(pass) = left.next() else {
            unreachable!()
        };
        hand.push(pass)?;
        dealt.push(hand)?;
    }
    Ok(dealt)
}

/// Each seat is dealt its pass of each region.
pub(crate) fn deal_all(alloc: Global, made: Vec<Made>, seats: u32) -> Result<Dealt, NoMemory>
    requires { All (HasEach seats) made.items }
    ensures { IfOk result (λ dealt. IsDealt seats made.items dealt.mounted.items dealt.passes.items (lists_of dealt.hands.items)) }
{
    let mut mounted = Vec::new(alloc);
    let mut passes = Vec::new(alloc);
    let mut hands = empty_hands(alloc, seats)?;
    for region in made {
        hands = deal(alloc, hands, region.seated)?;
        mounted.push(region.mounted)?;
        passes.push(region.own)?;
    }
    Ok(Dealt {
        mounted,
        passes,
        hands,
    })
}
