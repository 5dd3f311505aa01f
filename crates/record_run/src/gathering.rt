//! A seat ends the passes of a script.
ghost use Rattle.std.specs.Prelude.{◌≡◌, ◌<◌, ◌≤◌, All, length, slice_get, slice_set, Some};
ghost use Rattle.fetch_engine.specs.Servers.{IsRegionAt, IsSeated};
ghost use Rattle.region_rule.specs.Seats.{Token};
ghost use Rattle.record_run.specs.Gathered.{AreHere, AreUsedUp, HasGathered, HaveGathered};

use fetch_engine::{Seat, Server};
use region_words::Pass;
use std::alloc::Global;
use std::mem;

/// Ends passes of the region at a position.
fn gather_at(server: &Server, seat: &mut Seat, at: u32, passes: Vec<Pass>)
    requires seated { IsSeated server.now seat.old.tokens }
    requires there { at < length server.now }
    requires here { All (λ (pass : Token). IsRegionAt server.now at pass.region) passes.items }
    ensures gathers { (before : Token) × (after : Token) × (slice_get seat.old.tokens at ≡ Some before) × (seat.new.tokens ≡ slice_set seat.old.tokens at after) × HasGathered passes.items before after }
    ensures seated { IsSeated server.now seat.new.tokens }
{
    for pass in passes {
        seat.gather(server, at, pass);
    }
}

/// Ends all passes: a list for each region, in ascending cluster. An empty list is left of each.
pub(crate) fn gather_all(
    alloc: Global,
    server: &Server,
    seat: &mut Seat,
    passes: &mut Vec<Vec<Pass>>,
)
    requires seated { IsSeated server.now seat.old.tokens }
    requires lists { length passes.old.items ≡ length server.now }
    requires few { length server.now ≤ 64 }
    requires here { AreHere server.now passes.old.items }
    ensures gathers { HaveGathered passes.old.items seat.old.tokens seat.new.tokens }
    ensures used { AreUsedUp server.now passes.new.items }
    ensures seated { IsSeated server.now seat.new.tokens }
{
    for at in 0..passes.len() {
        let list = mem::replace(&mut passes[at], Vec::new(alloc));
        gather_at(server, seat, at as u32, list);
    }
}
