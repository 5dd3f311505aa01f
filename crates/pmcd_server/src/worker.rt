//! A worker: it serves the connections of one door on one seat.
ghost use Rattle.std.specs.Prelude.{◌≡◌, ◌≤◌, ◌<◌, ℕ, List as Sequence};
ghost use Rattle.fetch_engine.specs.Servers.{IsSeated};
ghost use Rattle.pmcd_server.specs.Turns.{Turn};
ghost use Rattle.pmcd_server.specs.Works.{Answers, Drew, Failure, GoesOn, HasDrawnAll, Serves, WorksOn};

use crate::places::{Drawer, Places};
use fetch_engine::Server;
use pcp_outside::{Door, Failed};
use pmcd_session::{SessionSeat, session};
use std::alloc::Global;

/// Serves a session over the connection that the door gives.
fn serve_one<P: Door>(
    alloc: Global,
    server: &Server,
    seat: &mut SessionSeat,
    door: &mut P,
) -> Result<(), Failed>
    requires seated { IsSeated server.now seat.old.tokens }
    ensures serves { (turns : Sequence Turn) × (failure : Failure)
        × Serves server.now P.Door 1 seat.old door.old turns failure seat.new door.new
        × Answers failure result }
    ensures seated { IsSeated server.now seat.new.tokens }
{
    let (mut input, mut out, mut time) = door.next()?;
    let end = session(alloc, server, seat, &mut input, &mut out, &mut time);
    door.ended(input, out, time, end)
}

/// Draws a place, and serves a session for it. Answers whether there was a place.
fn visit<P: Door>(
    alloc: Global,
    server: &Server,
    seat: &mut SessionSeat,
    door: &mut P,
    places: &Places,
    drawer: &mut Drawer,
    count: u32,
) -> Result<bool, Failed>
    requires seated { IsSeated server.now seat.old.tokens }
    requires here { drawer.old.word ≡ places.now }
    requires left { 0 < drawer.old.left }
    ensures works { (given : Sequence ℕ) × (beyond : Sequence ℕ) × (turns : Sequence Turn) × (failure : Failure)
        × WorksOn server.now P.Door count seat.old door.old given turns failure seat.new door.new
        × Drew count given beyond drawer.old drawer.new
        × GoesOn given beyond failure result }
    ensures seated { IsSeated server.now seat.new.tokens }
{
    if places.draw(drawer) >= u64::from(count) {
        return Ok(false);
    }
    serve_one(alloc, server, seat, door)?;
    Ok(true)
}

/// Serves until no place is left, or the door fails.
pub(crate) fn work<P: Door>(
    alloc: Global,
    server: &Server,
    seat: &mut SessionSeat,
    door: &mut P,
    places: &Places,
    drawer: &mut Drawer,
    count: u32,
) -> Result<(), Failed>
    requires seated { IsSeated server.now seat.old.tokens }
    requires here { drawer.old.word ≡ places.now }
    requires left { count ≤ drawer.old.left }
    ensures works { (given : Sequence ℕ) × (beyond : Sequence ℕ) × (turns : Sequence Turn) × (failure : Failure)
        × WorksOn server.now P.Door count seat.old door.old given turns failure seat.new door.new
        × Drew count given beyond drawer.old drawer.new
        × HasDrawnAll count given beyond failure
        × Answers failure result }
    ensures seated { IsSeated server.now seat.new.tokens }
{
    for _ in 0..count {
        if !visit(alloc, server, seat, door, places, drawer, count)? {
            return Ok(());
        }
    }
    Ok(())
}
