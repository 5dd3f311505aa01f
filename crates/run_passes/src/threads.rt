//! The writers of a script run beside each other.
ghost use Rattle.std.specs.Prelude.{◌≡◌, ℕ, None, MatchResult};
ghost use Rattle.std.specs.Bool.{OnTrue};
ghost use Rattle.std.specs.List.{AllByRecursion};
ghost use Rattle.std.specs.Thread.{IsSync};
ghost use Rattle.run_script.specs.Recording.{refused_line};
ghost use Rattle.run_script.specs.Rules.{KeepsRules};
ghost use Rattle.run_passes.specs.Crews.{ServesScript};
ghost use Rattle.run_passes.specs.Dealing.{HavePlaces};
ghost use Rattle.run_passes.specs.Hands.{AreServedAt, HasWritten, IsHand, IsSameHand};
ghost use Rattle.run_passes.specs.Written.{AreReady, AreSame, AreWritten, HaveComeBack, HaveWritten};

use crate::dealing::{deal, give_back, make_hands};
use crate::hand::Hand;
use crate::positions::places_of;
use fetch_engine::Server;
use pcp_outside::Turn;
use region_words::Pass;
use run_script::Script;
use std::alloc::Global;
use std::sync::Wait;
use std::thread::{Threads, join_mut};

/// A writer, and the others, beside each other. Answers of both whether memory sufficed.
#[cycle(crew)]
fn beside<R: Threads + Wait + Sync, T: Turn + Sync>(
    rt: &R,
    alloc: Global,
    server: &Server,
    script: &Script,
    places: &[usize],
    turn: &T,
    hand: &mut Hand,
    hands: &mut [Hand],
) -> (bool, bool)
    requires rules { KeepsRules script.now }
    requires taken { refused_line script.now ≡ None }
    requires serves { (seats : ℕ) × ServesScript script.now seats server.now }
    requires places { AreServedAt script.now server.now places.now }
    requires hand { IsHand script.now server.now hand.old }
    requires hands { AllByRecursion (IsHand script.now server.now) hands.old }
    ensures hand { IsHand script.now server.now hand.new }
    ensures same { IsSameHand hand.old hand.new }
    ensures written { OnTrue result.0 (HasWritten script.now server.now hand.old hand.new) }
    ensures hands { AllByRecursion (IsHand script.now server.now) hands.new }
    ensures same_all { AreSame hands.old hands.new }
    ensures all_written { OnTrue result.1 (AreWritten script.now server.now hands.old hands.new) }
{
    join_mut(
        rt,
        &mut || -> bool
            requires rules { KeepsRules script.now }
            requires taken { refused_line script.now ≡ None }
            requires serves { (seats : ℕ) × ServesScript script.now seats server.now }
            requires places { AreServedAt script.now server.now places.now }
            requires hand { IsHand script.now server.now hand.now }
            ensures hand { IsHand script.entry.now server.entry.now hand.exit.now }
            ensures same { IsSameHand hand.entry.now hand.exit.now }
            ensures written { OnTrue result (HasWritten script.entry.now server.entry.now hand.entry.now hand.exit.now) }
        { hand.write(rt, alloc, server, script, places, turn).is_ok() },
        &mut || -> bool
            requires sync { IsSync R.row × IsSync T.row }
            requires rules { KeepsRules script.now }
            requires taken { refused_line script.now ≡ None }
            requires serves { (seats : ℕ) × ServesScript script.now seats server.now }
            requires places { AreServedAt script.now server.now places.now }
            requires hands { AllByRecursion (IsHand script.now server.now) hands.now }
            ensures hands { AllByRecursion (IsHand script.entry.now server.entry.now) hands.exit.now }
            ensures same_all { AreSame hands.entry.now hands.exit.now }
            ensures all_written { OnTrue result (AreWritten script.entry.now server.entry.now hands.entry.now hands.exit.now) }
        { run(rt, alloc, server, script, places, turn, hands) },
    )
}

/// All writers, beside each other; for the last one no thread is begun. Answers whether memory sufficed.
#[cycle(crew)]
fn run<R: Threads + Wait + Sync, T: Turn + Sync>(
    rt: &R,
    alloc: Global,
    server: &Server,
    script: &Script,
    places: &[usize],
    turn: &T,
    hands: &mut [Hand],
) -> bool
    requires rules { KeepsRules script.now }
    requires taken { refused_line script.now ≡ None }
    requires serves { (seats : ℕ) × ServesScript script.now seats server.now }
    requires places { AreServedAt script.now server.now places.now }
    requires hands { AllByRecursion (IsHand script.now server.now) hands.old }
    ensures hands { AllByRecursion (IsHand script.now server.now) hands.new }
    ensures same_all { AreSame hands.old hands.new }
    ensures all_written { OnTrue result (AreWritten script.now server.now hands.old hands.new) }
{
    let Some((hand, hands)) = hands.split_first_mut() else {
        return true;
    };
    if hands.is_empty() {
        return hand.write(rt, alloc, server, script, places, turn).is_ok();
    }
    let answers = beside(rt, alloc, server, script, places, turn, hand, hands);
    let (one, others) = answers;
    one & others
}

/// Deals the passes to the writers, runs them, and gives the passes back. Answers whether memory sufficed.
fn write_all<R: Threads + Wait + Sync, T: Turn + Sync>(
    rt: &R,
    alloc: Global,
    server: &Server,
    script: &Script,
    places: &[usize],
    turn: &T,
    hands: Vec<Hand>,
    passes: &mut Vec<Vec<Pass>>,
) -> bool
    requires rules { KeepsRules script.now }
    requires taken { refused_line script.now ≡ None }
    requires serves { (seats : ℕ) × ServesScript script.now seats server.now }
    requires places { AreServedAt script.now server.now places.now }
    requires ready { AreReady script.now server.now passes.old.items }
    requires room { HavePlaces passes.old.items hands.items }
    ensures back { HaveComeBack script.now server.now passes.old.items passes.new.items }
    ensures written { OnTrue result (HaveWritten script.now server.now passes.old.items passes.new.items) }
{
    let mut hands = hands;
    deal(&mut hands, passes);
    let is_well = run(rt, alloc, server, script, places, turn, &mut hands);
    give_back(passes, hands);
    is_well
}

/// Runs the steps of a script by its writers, beside each other: each pass number is a writer, which runs the steps of its passes in all
/// regions, in order, and takes its turn before each. A step waits while another pass keeps it from its region. The passes come back,
/// none of which does anything, each with exactly the entries of its own lines. `Err`: memory was refused, and the passes come back too;
/// each open change was finished, and each stint detached.
pub fn run_writers<R: Threads + Wait + Sync, T: Turn + Sync>(
    rt: &R,
    alloc: Global,
    script: &Script,
    server: &Server,
    passes: Vec<Vec<Pass>>,
    turn: &T,
) -> Result<Vec<Vec<Pass>>, Vec<Vec<Pass>>>
    requires rules { KeepsRules script.now }
    requires taken { refused_line script.now ≡ None }
    requires serves { (seats : ℕ) × ServesScript script.now seats server.now }
    requires ready { AreReady script.now server.now passes.items }
    ensures { MatchResult
        result
        (λ done. HaveWritten script.now server.now passes.items done.items)
        (λ back. HaveComeBack script.now server.now passes.items back.items) }
{
    let Ok(places) = places_of(alloc, script, server) else {
        return Err(passes);
    };
    let Ok(hands) = make_hands(alloc, &passes) else {
        return Err(passes);
    };
    let mut passes = passes;
    let is_well = write_all(rt, alloc, server, script, &places, turn, hands, &mut passes);
    if !is_well {
        return Err(passes);
    }
    Ok(passes)
}
