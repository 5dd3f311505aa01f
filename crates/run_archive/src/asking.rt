//! What a sample asks for.
ghost use Rattle.std.specs.Prelude.{◌≡◌, IfOk, List as Sequence};
ghost use Rattle.fetch_answers.specs.Readings.{RegionReading};
ghost use Rattle.fetch_engine.specs.Servers.{IsSeated};
ghost use Rattle.fetch_engine.specs.Visits.{AreLoaded, AreRead, names_in};
ghost use Rattle.script_runs.specs.Groups.{asked_for as asked_by, asking};

use crate::plans::Plans;
use fetch_engine::{Seat, Server};
use pcp_base::{List, NoMemory, Pmid, Stamp};
use std::alloc::Global;

/// The metrics that groups ask for at a moment, once those that are due have added what the names lead to that the regions show.
pub(crate) fn ask(
    alloc: Global,
    server: &Server,
    seat: &mut Seat,
    plans: &mut Plans<'_>,
    now: Stamp,
) -> Result<List<Pmid>, NoMemory>
    requires seated { IsSeated server.now seat.old.tokens }
    ensures seated { IsSeated server.now seat.new.tokens }
    ensures loads { AreLoaded seat.old.tokens seat.new.tokens }
    ensures asks { IfOk result (λ pmids. (names : Sequence RegionReading) × AreRead server.now seat.old.tokens names seat.new.tokens
        × (plans.new ≡ asking (names_in names) now plans.old) × (pmids ≡ asked_by now plans.new)) }
{
    server.read_names(alloc, seat)?;
    let Some(named) = seat.named() else {
        unreachable!()
    };
    plans.ask(alloc, &named.names, now)?;
    plans.asked_for(alloc, now)
}
