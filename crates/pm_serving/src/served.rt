//! The regions on which sessions are served.
ghost use Rattle.std.specs.Prelude.{◌≡◌, IfOk};
ghost use Rattle.pm_serving.specs.Serving.{opened_as};
ghost use Rattle.run_script.specs.Rules.{KeepsRules};
ghost use Rattle.run_passes.specs.Openings.{HaveRoom, IsOpened};

use fetch_engine::{Seat, Server};
use pcp_base::NoMemory;
use pmcd_session::SessionSeat;
use region_words::Pass;
use run_passes::open_script;
use run_script::Script;
use std::alloc::Global;

const SEATS: u32 = 4;

/// The server, the passes that the script names, in ascending cluster, and the seats on which sessions were served.
#[derive(Drop)]
pub struct Served {
    pub server: Server,
    pub passes: Vec<Vec<Pass>>,
    pub seats: Vec<SessionSeat>,
}

// Each seat with contexts for its sessions.
fn with_contexts(alloc: Global, seats: Vec<Seat>) -> Result<Vec<SessionSeat>, NoMemory>
    ensures { IfOk result (λ made. made.items ≡ seats.items) }
{
    let mut made = Vec::new(alloc);
    for seat in seats {
        match SessionSeat::new(alloc, seat) {
            Ok(seat) => made.push(seat)?,
            Err((_, refused)) => return Err(refused),
        }
    }
    Ok(made)
}

/// The regions of a script with four seats.
pub fn open(alloc: Global, script: &Script) -> Result<Served, NoMemory>
    requires rules { KeepsRules script.now }
    requires room { HaveRoom script.now.regions 4 }
    ensures { IfOk result (λ served. IsOpened script.now 4 (opened_as served)) }
{
    let opened = open_script(alloc, script, SEATS)?;
    let seats = with_contexts(alloc, opened.seats)?;
    Ok(Served {
        server: opened.server,
        passes: opened.passes,
        seats,
    })
}
