//! The passes of regions are dealt to writers, and given back. The writers have a place for each, and the lists keep theirs: so nothing is
//! refused once a pass has moved.
ghost use Rattle.std.specs.Prelude.{◌≡◌, ◌<◌, ◌≤◌, ◌++◌, ℕ, IfOk, None, length, replicate, slice_get, slice_set, Some, vec_capacity};
ghost use Rattle.std.specs.Global.{Vec as Listed};
ghost use Rattle.region_rule.specs.Seats.{Token};
ghost use Rattle.run_passes.specs.Dealing.{AreDealt, AreEmptied, AreLaidBack, HavePlaces, HaveRoom, HaveRoomFor, IsDealt, all_back, lists_of, some_of};
ghost use Rattle.run_passes.specs.Hands.{KnownHand};

use crate::hand::Hand;
use pcp_base::NoMemory;
use region_words::Pass;
use std::alloc::Global;

/// How many writers there are: as many as the most passes of a region.
fn most(lists: &[Vec<Pass>]) -> u32
    requires few { (j : ℕ) (list : Listed Token) → slice_get lists.now j ≡ Some list → length list.items ≤ 256 }
    ensures enough { (j : ℕ) (list : Listed Token) → slice_get lists.now j ≡ Some list → length list.items ≤ result }
{
    let mut most = 0;
    for list in lists {
        most = most.max(list.len() as u32);
    }
    most
}

/// So many places without a pass.
fn no_passes(alloc: Global, count: usize) -> Result<Vec<Option<Pass>>, NoMemory>
    ensures { IfOk result (λ passes. passes.items ≡ replicate count None) }
{
    let mut passes = Vec::new(alloc);
    for _ in 0..count {
        passes.push(None)?;
    }
    Ok(passes)
}

/// A writer for each number that a region has a pass of, with a place for its pass of each region.
pub(crate) fn make_hands(alloc: Global, lists: &[Vec<Pass>]) -> Result<Vec<Hand>, NoMemory>
    requires few { (j : ℕ) (list : Listed Token) → slice_get lists.now j ≡ Some list → length list.items ≤ 256 }
    ensures { IfOk result (λ hands. HavePlaces lists.now hands.items) }
{
    let count = most(lists);
    let mut hands = Vec::new(alloc);
    for number in 0..count {
        let passes = no_passes(alloc, lists.len())?;
        hands.push(Hand { number, passes })?;
    }
    Ok(hands)
}

/// Puts a writer's pass of the region at a position into its place.
fn put(hand: &mut Hand, at: usize, pass: Pass)
    requires place { at < length hand.old.passes }
    ensures number { hand.new.number ≡ hand.old.number }
    ensures passes { hand.new.passes ≡ slice_set hand.old.passes at (Some pass) }
{
    hand.passes[at] = Some(pass);
}

/// Each writer gets its pass of the region at a position, if the region has one.
fn deal_list(hands: &mut Vec<Hand>, at: usize, list: &mut Vec<Pass>)
    requires enough { length list.old.items ≤ length hands.old.items }
    requires places { (k : ℕ) (hand : KnownHand) → slice_get hands.old.items k ≡ Some hand → at < length hand.passes }
    ensures dealt { IsDealt at list.old.items hands.old.items hands.new.items }
    ensures emptied { length list.new.items ≡ 0 }
    ensures room { length list.old.items ≤ vec_capacity list.new }
{
    while let Some(pass) = list.pop() {
        let number = list.len();
        put(&mut hands[number], at, pass);
    }
}

/// Each writer gets the pass of its number in each region that has one. The lists keep the room that they had.
pub(crate) fn deal(hands: &mut Vec<Hand>, lists: &mut Vec<Vec<Pass>>)
    requires places { HavePlaces lists.old.items hands.old.items }
    ensures dealt { AreDealt lists.old.items hands.new.items }
    ensures emptied { AreEmptied lists.old.items lists.new.items }
{
    for at in 0..lists.len() {
        deal_list(hands, at, &mut lists[at]);
    }
}

/// Puts a writer's pass behind those of a list, if it has one.
fn put_back(list: &mut Vec<Pass>, pass: Option<Pass>)
    requires room { (own : Token) → pass ≡ Some own → length list.old.items < vec_capacity list.old }
    ensures items { list.new.items ≡ list.old.items ++ some_of pass }
    ensures room { vec_capacity list.new ≡ vec_capacity list.old }
{
    match pass {
        Some(pass) => list.push_reserved(pass),
        None => {}
    }
}

/// The lists with a writer's passes behind.
fn lay_back(lists: &mut Vec<Vec<Pass>>, passes: Vec<Option<Pass>>)
    requires few { length passes.items ≤ length lists.old.items }
    requires room { HaveRoom lists.old.items passes.items }
    ensures { AreLaidBack lists.old.items passes.items lists.new.items }
{
    let mut at = 0;
    for pass in passes {
        put_back(&mut lists[at], pass);
        at += 1;
    }
}

/// The passes of all writers, by regions and numbers, into lists that have room for them.
pub(crate) fn give_back(lists: &mut Vec<Vec<Pass>>, hands: Vec<Hand>)
    requires room { HaveRoomFor lists.old.items hands.items }
    ensures { lists_of lists.new.items ≡ all_back (lists_of lists.old.items) hands.items }
{
    for hand in hands {
        lay_back(lists, hand.passes);
    }
}
