//! The passes of one region, one of which acts at a time.
ghost use Rattle.std.specs.Prelude.{◌≡◌, ◌<◌, ℕ, IsOk, length, slice_get, Some};
ghost use Rattle.fetch_engine.specs.Servers.{IsSeated};
ghost use Rattle.script_runs.specs.Closing.{closed_region, each_pass};
ghost use Rattle.run_passes.specs.declared.worker.Worker.{Worker as Doer};
ghost use Rattle.run_passes.specs.Workers.{IsWorker};
ghost use Rattle.run_passes.specs.Works.{NeedsNone, step_of};
ghost use Rattle.run_passes.specs.Openings.{idle_crew};
ghost use Rattle.run_passes.specs.Sweeps.{AreIdle, ClosedAt, EndedAt, EndedBelow, GatheredAt, GoesAt, region_after_step};
ghost use Rattle.run_passes.specs.Turns.{ActsAt, IsCrewAt, TakesTurn};

use crate::deed::Deed;
use crate::said::Said;
use crate::worker::Worker;
use fetch_engine::{Seat, Server};
use pcp_base::NoMemory;
use region_words::{Note, Pass, Region};
use std::alloc::Global;
use std::mem;

/// Lets a pass make its call, once it has learned what the note tells, and gives a note of what it has seen then.
fn turn(
    alloc: Global,
    crew: &mut Vec<Worker>,
    region: &Region,
    pass: usize,
    deed: &Deed<'_>,
    note: Note,
) -> (Note, Result<Option<Said>, NoMemory>)
    requires there { pass < length crew.old.items }
    requires here { (k : ℕ) (worker : Doer) → slice_get crew.old.items k ≡ Some worker → IsWorker region.now k worker }
    requires note { note.region ≡ region.now }
    ensures region { result.0.region ≡ region.now }
    ensures sure { NeedsNone deed.now → IsOk result.1 }
    ensures ends { NeedsNone deed.now → EndedAt deed.now pass crew.old.items crew.new.items }
    ensures turned { TakesTurn region.now pass (step_of deed.now) note.view crew.old.items crew.new.items result.0.view result.1 }
{
    let worker = mem::replace(&mut crew[pass], Worker::Away);
    let worker = worker.learned(region, note);
    let (worker, answer) = worker.run(alloc, region, deed);
    let (worker, note) = worker.noted(region);
    let away = mem::replace(&mut crew[pass], worker);
    let Worker::Away = away else { unreachable!() };
    (note, answer)
}

/// Lets a pass of the region at a position make its call. Before it the pass learns what the seat's pass has seen, and behind it
/// the seat's pass learns what the pass has seen.
pub fn act(
    alloc: Global,
    crew: &mut Vec<Worker>,
    server: &Server,
    seat: &mut Seat,
    at: u32,
    pass: usize,
    deed: &Deed<'_>,
) -> Result<Option<Said>, NoMemory>
    requires seated { IsSeated server.now seat.old.tokens }
    requires crew { IsCrewAt server.now at crew.old.items seat.old.tokens }
    requires there { pass < length crew.old.items }
    ensures acts { ActsAt server.now at pass (step_of deed.now) crew.old.items crew.new.items seat.old.tokens seat.new.tokens result }
    ensures seated { IsSeated server.now seat.new.tokens }
    ensures sure { NeedsNone deed.now → IsOk result }
    ensures ends { NeedsNone deed.now → EndedAt deed.now pass crew.old.items crew.new.items }
{
    let Some(region) = server.region(at) else {
        unreachable!()
    };
    let note = seat.note(server, at);
    let (note, answer) = turn(alloc, crew, region, pass, deed, note);
    seat.learn(server, at, note);
    answer
}

/// Lets each pass of a crew, by rising number, end what the deed ends.
fn sweep(
    alloc: Global,
    crew: &mut Vec<Worker>,
    server: &Server,
    seat: &mut Seat,
    at: u32,
    deed: &Deed<'_>,
)
    requires seated { IsSeated server.now seat.old.tokens }
    requires crew { IsCrewAt server.now at crew.old.items seat.old.tokens }
    requires sure { NeedsNone deed.now }
    ensures goes { GoesAt server.now at (each_pass (region_after_step (step_of deed.now)) 0 (length crew.old.items)) crew.old.items crew.new.items seat.old.tokens seat.new.tokens }
    ensures seated { IsSeated server.now seat.new.tokens }
    ensures ends { EndedBelow deed.now (length crew.old.items) crew.old.items crew.new.items }
{
    for pass in 0..crew.len() {
        let _answer = act(alloc, crew, server, seat, at, pass, deed);
    }
}

/// Ends what the passes of a crew do: the change first, then stints, then readings.
fn end_all(alloc: Global, crew: &mut Vec<Worker>, server: &Server, seat: &mut Seat, at: u32)
    requires seated { IsSeated server.now seat.old.tokens }
    requires crew { IsCrewAt server.now at crew.old.items seat.old.tokens }
    ensures goes { GoesAt server.now at closed_region crew.old.items crew.new.items seat.old.tokens seat.new.tokens }
    ensures seated { IsSeated server.now seat.new.tokens }
    ensures idle { AreIdle crew.new.items }
{
    sweep(alloc, crew, server, seat, at, &Deed::Finish);
    sweep(alloc, crew, server, seat, at, &Deed::Detach);
    sweep(alloc, crew, server, seat, at, &Deed::Done);
}

/// Gathers all passes of a crew, none of which does anything.
fn gather_all(crew: Vec<Worker>, server: &Server, seat: &mut Seat, at: u32)
    requires seated { IsSeated server.now seat.old.tokens }
    requires crew { IsCrewAt server.now at crew.items seat.old.tokens }
    requires idle { AreIdle crew.items }
    ensures gathered { GatheredAt server.now at 0 crew.items seat.old.tokens seat.new.tokens }
    ensures seated { IsSeated server.now seat.new.tokens }
{
    let Some(region) = server.region(at) else {
        unreachable!()
    };
    let mut crew = crew;
    while let Some(worker) = crew.pop() {
        seat.gather(server, at, worker.into_pass(region));
    }
    crew.destroy_empty();
}

/// Gathers passes that were not put to work.
pub fn gather_passes(passes: Vec<Pass>, server: &Server, seat: &mut Seat, at: u32)
    requires seated { IsSeated server.now seat.old.tokens }
    requires crew { IsCrewAt server.now at (idle_crew passes.items) seat.old.tokens }
    ensures gathered { GatheredAt server.now at 0 (idle_crew passes.items) seat.old.tokens seat.new.tokens }
    ensures seated { IsSeated server.now seat.new.tokens }
{
    let mut passes = passes;
    while let Some(pass) = passes.pop() {
        seat.gather(server, at, pass);
    }
}

/// Ends what the passes of a crew do, and gathers them.
pub fn close_crew(alloc: Global, crew: Vec<Worker>, server: &Server, seat: &mut Seat, at: u32)
    requires seated { IsSeated server.now seat.old.tokens }
    requires crew { IsCrewAt server.now at crew.items seat.old.tokens }
    ensures closed { ClosedAt server.now at crew.items seat.old.tokens seat.new.tokens }
    ensures seated { IsSeated server.now seat.new.tokens }
{
    let mut crew = crew;
    end_all(alloc, &mut crew, server, seat, at);
    gather_all(crew, server, seat, at);
}
