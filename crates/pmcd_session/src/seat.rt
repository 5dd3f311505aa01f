//! Sessions over a server's regions.
ghost use Rattle.std.specs.Prelude.{◌≡◌, MatchResult};
ghost use Rattle.fetch_engine.specs.Servers.{IsSeated};
ghost use Rattle.pmcd_session.specs.Agents.{LoadsRegions, ReadsRegions};
ghost use Rattle.pmcd_session.specs.Sessions.{Completes, CountsOn, IsCaused, OthersStand, Runs};
ghost use Rattle.pcp_outside.specs.Sides.{source_side, sink_side, clock_side};

use crate::contexts::Contexts;
use crate::conversing::converse;
use crate::standing::Standing;
use fetch_engine::{Seat, Server};
use pcp_base::NoMemory;
use pcp_outside::{Clock, SessionEnd, Sink, Source};
use std::alloc::Global;
use std::marker::Model;

/// A seat at a server, and the contexts of the session that is served on it. Contracts see the seat.
#[derive(Drop)]
pub struct SessionSeat {
    standing: Standing<Seat>,
}

impl Model for SessionSeat {
    ghost use Rattle.fetch_engine.specs.Servers.{Seated};

    ghost Value = { Seated };

    ghost view = { λ a. a.standing.agent };
}

impl SessionSeat {
    /// This seat with sixteen contexts.
    pub fn new(alloc: Global, seat: Seat) -> Result<SessionSeat, (Seat, NoMemory)>
        ensures { MatchResult result (λ made. made ≡ seat) (λ refused. refused.0 ≡ seat) }
    {
        match Contexts::new(alloc) {
            Ok(contexts) => {
                let standing = Standing {
                    is_met: false,
                    contexts,
                    agent: seat,
                };
                Ok(SessionSeat { standing })
            }
            Err(refused) => Err((seat, refused)),
        }
    }
}

/// Serves one client on a seat: greets it and replies to its PDUs until the input ends, something fails or the client
/// breaks off, at the latest at 2^40 bytes of input. It begins with a client that isn't known and with profiles that keep
/// every instance, whatever the seat served before. Each reply is written as soon as its request has come whole.
pub fn session<I: Source, O: Sink, C: Clock>(
    alloc: Global,
    server: &Server,
    seat: &mut SessionSeat,
    input: &mut I,
    out: &mut O,
    clock: &mut C,
) -> SessionEnd
    requires seated { IsSeated server.now seat.old.tokens }
    ensures runs { Runs (ReadsRegions server.now) LoadsRegions seat.old seat.new (source_side I.Source input.old input.new) (sink_side O.Sink out.old out.new) (clock_side C.Clock clock.old clock.new) result }
    ensures cause { IsCaused (source_side I.Source input.old input.new) (sink_side O.Sink out.old out.new) (clock_side C.Clock clock.old clock.new) result }
    ensures completes { Completes (source_side I.Source input.old input.new) (sink_side O.Sink out.old out.new) (clock_side C.Clock clock.old clock.new) result }
    ensures later { CountsOn (source_side I.Source input.old input.new) (sink_side O.Sink out.old out.new) (clock_side C.Clock clock.old clock.new) }
    ensures seated { IsSeated server.now seat.new.tokens }
    // An object of which a call has failed is the one that the end names.
    ensures still { OthersStand (source_side I.Source input.old input.new) (sink_side O.Sink out.old out.new) (clock_side C.Clock clock.old clock.new) result }
{
    converse(alloc, server, &mut seat.standing, input, out, clock)
}
