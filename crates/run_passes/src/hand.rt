//! One writer, a pass number: it runs the lines of its passes in all regions, in order.
ghost use Rattle.std.specs.Prelude.{◌≡◌, ◌⊎◌, ◌<◌, ◌≤◌, ◌+◌, ◌∷◌, ℕ, [], None, true, length, map, replicate, slice_get, Some, IsSome, OnOk, MatchResult, vec_capacity};
ghost use Rattle.fetch_engine.specs.declared.server.Mounted.{Mounted};
ghost use Rattle.run_script.specs.Recording.{place_of as place_in, refused_line, suits};
ghost use Rattle.run_script.specs.Rules.{IsPlaced, KeepsRules};
ghost use Rattle.run_passes.specs.Crews.{ServesScript};
ghost use Rattle.run_passes.specs.declared.writer.Writer.TheVariants.{Away};
ghost use Rattle.run_passes.specs.Hands.{ActsAt, AreIdle, AreLaidDown, ArePresent, AreServedAt, AreWriters, Comes, HasWritten, HaveRun, IsHand, IsReadyAt, IsSameHand, LaidDown, StayAway, hand_of, writer_of as writer_in};
ghost use Rattle.run_passes.specs.Writers.{IsWriter, RunsLine, StaysWriter};

use crate::writer::Writer;
use fetch_engine::Server;
use pcp_base::NoMemory;
use pcp_outside::Turn;
use region_words::Pass;
use run_script::{Line, Script};
use std::alloc::Global;
use std::marker::Model;
use std::sync::Wait;

/// A writer: its number, and its pass in each region that has one, in ascending cluster.
#[derive(Drop)]
pub(crate) struct Hand {
    pub(crate) number: u32,
    pub(crate) passes: Vec<Option<Pass>>,
}

impl Model for Hand {
    ghost use Rattle.run_passes.specs.Hands.{KnownHand};

    ghost Value = { KnownHand };

    ghost view = { λ h. record { number = h.number; passes = h.passes.items } };
}

/// The region and the pass that a step names; `None` for a tick and a flush.
fn place_of(line: &Line) -> Option<(u32, u32)>
    ensures { result ≡ place_in line.now }
{
    match line {
        Line::Attach { region, pass }
        | Line::Detach { region, pass }
        | Line::Step { region, pass }
        | Line::Finish { region, pass }
        | Line::Load { region, pass }
        | Line::Done { region, pass } => Some((*region, *pass)),
        Line::Swap { region, pass, .. }
        | Line::Add { region, pass, .. }
        | Line::Begin { region, pass, .. }
        | Line::Word { region, pass, .. } => Some((*region, *pass)),
        Line::Tick { .. } | Line::Flush => None,
    }
}

/// The position at which a region is served.
fn position_in(places: &[usize], region: u32) -> usize
    requires { region < length places.now }
    ensures { slice_get places.now region ≡ Some result }
{
    places[region as usize]
}

/// Runs a line by the writer of its region.
fn run_at<R: Wait>(
    rt: &R,
    alloc: Global,
    server: &Server,
    script: &Script,
    writers: &mut Vec<Writer>,
    at: usize,
    line: &Line,
) -> Result<(), NoMemory>
    requires few { length server.now ≤ 64 }
    requires there { at < length server.now }
    requires as_many { length writers.old.items ≡ length server.now }
    requires ready { IsReadyAt script.now server.now at line.now writers.old.items }
    requires placed { IsPlaced script.now.images script.now.regions line.now }
    ensures { MatchResult
        result
        (λ _. ActsAt server.now at writers.old.items writers.new.items (λ region was done. RunsLine region script.now.images line.now was done))
        (λ _. ActsAt server.now at writers.old.items writers.new.items StaysWriter) }
{
    let Some(region) = server.region(at as u32) else {
        unreachable!()
    };
    writers[at].run(rt, alloc, region, script, line)
}

/// Runs a step, where it is one of this writer. Before it the writer takes its turn.
fn run_step<R: Wait, T: Turn>(
    rt: &R,
    alloc: Global,
    server: &Server,
    script: &Script,
    places: &[usize],
    number: u32,
    writers: &mut Vec<Writer>,
    turn: &T,
    taken: &mut u64,
    line: &Line,
) -> Result<(), NoMemory>
    requires rules { KeepsRules script.now }
    requires serves { (seats : ℕ) × ServesScript script.now seats server.now }
    requires places { AreServedAt script.now server.now places.now }
    requires line { IsPlaced script.now.images script.now.regions line.now × (suits script.now line.now ≡ true) × IsSome (place_in line.now) }
    requires writers { AreWriters server.now number writers.old.items }
    requires present { ArePresent script.now server.now number writers.old.items }
    requires comes { Comes script.now server.now number line.now writers.old.items }
    requires few { taken.old < 18446744073709551615 }
    ensures writers { AreWriters server.now number writers.new.items }
    ensures present { ArePresent script.now server.now number writers.new.items }
    ensures away { StayAway writers.old.items writers.new.items }
    ensures run { OnOk result (HaveRun script.now server.now number ((0, line.now) ∷ []) writers.old.items writers.new.items) }
    ensures taken { taken.new ≤ taken.old + 1 }
{
    let Some((region, pass)) = place_of(line) else {
        unreachable!()
    };
    if pass != number {
        return Ok(());
    }
    turn.turn(number, *taken);
    *taken += 1;
    let at = position_in(places, region);
    run_at(rt, alloc, server, script, writers, at, line)
}

/// Runs the steps of this writer, in order.
fn run_steps<R: Wait, T: Turn>(
    rt: &R,
    alloc: Global,
    server: &Server,
    script: &Script,
    places: &[usize],
    number: u32,
    writers: &mut Vec<Writer>,
    turn: &T,
) -> Result<(), NoMemory>
    requires rules { KeepsRules script.now }
    requires taken { refused_line script.now ≡ None }
    requires serves { (seats : ℕ) × ServesScript script.now seats server.now }
    requires places { AreServedAt script.now server.now places.now }
    requires writers { AreWriters server.now number writers.old.items }
    requires present { ArePresent script.now server.now number writers.old.items }
    requires idle { AreIdle writers.old.items }
    ensures writers { AreWriters server.now number writers.new.items }
    ensures present { ArePresent script.now server.now number writers.new.items }
    ensures away { StayAway writers.old.items writers.new.items }
    ensures run { OnOk result (HaveRun script.now server.now number script.now.steps writers.old.items writers.new.items) }
{
    let mut taken = 0;
    for step in script.steps.as_slice() {
        run_step(
            rt, alloc, server, script, places, number, writers, turn, &mut taken, &step.1,
        )?;
    }
    Ok(())
}

fn writer_of(pass: Option<Pass>) -> Writer
    ensures { result ≡ writer_in pass }
{
    match pass {
        Some(pass) => Writer::Idle(pass),
        None => Writer::Away,
    }
}

/// Takes up the passes of a hand.
fn take_up(passes: &mut Vec<Option<Pass>>, writers: &mut Vec<Writer>)
    requires none { writers.old.items ≡ [] }
    requires room { length passes.old.items ≤ vec_capacity writers.old }
    ensures taken { writers.new.items ≡ map writer_in passes.old.items }
    ensures none { passes.new.items ≡ replicate (length passes.old.items) None }
{
    for at in 0..passes.len() {
        let pass = passes[at].take();
        writers.push_reserved(writer_of(pass));
    }
}

/// Ends what a writer is doing, if it isn't away.
fn put_down(server: &Server, at: usize, writer: Writer) -> Option<Pass>
    requires few { length server.now ≤ 64 }
    requires there { at < length server.now }
    requires here { (number : ℕ) × ((mounted : Mounted) → slice_get server.now at ≡ Some mounted → (writer ≡ Away) ⊎ IsWriter mounted.region number writer) }
    ensures { (number : ℕ) (mounted : Mounted) → slice_get server.now at ≡ Some mounted → (writer ≡ Away) ⊎ IsWriter mounted.region number writer → LaidDown mounted.region number writer result }
{
    match writer {
        Writer::Away => None,
        writer => {
            let Some(region) = server.region(at as u32) else {
                unreachable!()
            };
            Some(writer.close(region))
        }
    }
}

/// Ends what writers are doing, and lays their passes down.
fn lay_down(server: &Server, number: u32, writers: Vec<Writer>, passes: &mut Vec<Option<Pass>>)
    requires few { length server.now ≤ 64 }
    requires writers { AreWriters server.now number writers.items }
    requires none { length passes.old.items ≡ length server.now }
    ensures as_many { length passes.new.items ≡ length server.now }
    ensures laid { AreLaidDown server.now number writers.items passes.new.items }
{
    let mut writers = writers;
    while let Some(writer) = writers.pop() {
        let at = writers.len();
        passes[at] = put_down(server, at, writer);
    }
    writers.destroy_empty();
}

/// Runs the lines of a number by the passes of that number, in order. Whatever ends it, no pass is left at work.
fn write_lines<R: Wait, T: Turn>(
    rt: &R,
    alloc: Global,
    server: &Server,
    script: &Script,
    places: &[usize],
    number: u32,
    passes: &mut Vec<Option<Pass>>,
    turn: &T,
) -> Result<(), NoMemory>
    requires rules { KeepsRules script.now }
    requires taken { refused_line script.now ≡ None }
    requires serves { (seats : ℕ) × ServesScript script.now seats server.now }
    requires places { AreServedAt script.now server.now places.now }
    requires hand { IsHand script.now server.now (hand_of number passes.old.items) }
    ensures hand { IsHand script.now server.now (hand_of number passes.new.items) }
    ensures same { IsSameHand (hand_of number passes.old.items) (hand_of number passes.new.items) }
    ensures written { OnOk result (HasWritten script.now server.now (hand_of number passes.old.items) (hand_of number passes.new.items)) }
{
    let Ok(mut writers) = Vec::with_capacity(alloc, passes.len()) else {
        return Err(NoMemory);
    };
    take_up(passes, &mut writers);
    let answer = run_steps(
        rt,
        alloc,
        server,
        script,
        places,
        number,
        &mut writers,
        turn,
    );
    lay_down(server, number, writers, passes);
    answer
}

impl Hand {
    /// Runs the lines of this writer, in order. Whatever ends it, no pass is left at work.
    pub(crate) fn write<R: Wait, T: Turn>(
        &mut self,
        rt: &R,
        alloc: Global,
        server: &Server,
        script: &Script,
        places: &[usize],
        turn: &T,
    ) -> Result<(), NoMemory>
        requires rules { KeepsRules script.now }
        requires taken { refused_line script.now ≡ None }
        requires serves { (seats : ℕ) × ServesScript script.now seats server.now }
        requires places { AreServedAt script.now server.now places.now }
        requires hand { IsHand script.now server.now self.old }
        ensures hand { IsHand script.now server.now self.new }
        ensures same { IsSameHand self.old self.new }
        ensures written { OnOk result (HasWritten script.now server.now self.old self.new) }
    {
        let number = self.number;
        write_lines(
            rt,
            alloc,
            server,
            script,
            places,
            number,
            &mut self.passes,
            turn,
        )
    }
}
