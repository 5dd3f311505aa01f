//! Opening the regions of a script.
ghost use Rattle.std.specs.Prelude.{◌≡◌, ◌≤◌, All, None, IfOk, map};
ghost use Rattle.std.specs.List.Sorted.{IsNonDecreasingBy};
ghost use Rattle.fetch_engine.specs.Servers.{IsSeated, Seated, server_fault};
ghost use Rattle.fetch_engine.specs.declared.server.Mounted.{Mounted as Row};
ghost use Rattle.run_script.specs.Rules.{KeepsRules};
ghost use Rattle.run_passes.specs.Makings.{lists_of};
ghost use Rattle.run_passes.specs.Openings.{HaveRoom, IsOpened};

mod dealing;
mod making;

use dealing::{Dealt, deal_all};
use fetch_engine::{Mounted, Seat, Server};
use making::make_regions;
use pcp_base::NoMemory;
use region_words::Pass;
use run_script::Script;
use std::alloc::Global;

/// The regions of a script: the server that they are read by, the passes that its steps name, and the seats.
#[derive(Drop)]
pub struct Opened {
    pub server: Server,
    pub passes: Vec<Vec<Pass>>,
    pub seats: Vec<Seat>,
}

/// The server of regions that it can't refuse and that stand in its order.
fn serve(mounted: Vec<Mounted>) -> Server
    requires faultless { server_fault mounted.items ≡ None }
    requires rise { IsNonDecreasingBy (λ (row : Row). row.cluster) mounted.items }
    ensures { result ≡ mounted.items }
{
    match Server::new(mounted) {
        Ok(server) => server,
        Err(_) => unreachable!(),
    }
}

/// The seats that have these passes.
fn take_seats(alloc: Global, server: &Server, hands: Vec<Vec<Pass>>) -> Result<Vec<Seat>, NoMemory>
    requires { All (IsSeated server.now) (lists_of hands.items) }
    ensures { IfOk result (λ seats. map (λ (seat : Seated). seat.tokens) seats.items ≡ lists_of hands.items) }
{
    let mut seats = Vec::with_capacity(alloc, hands.len())?;
    for hand in hands {
        match server.seat(alloc, hand) {
            Ok(seat) => seats.push(seat)?,
            Err(_) => return Err(NoMemory),
        }
    }
    Ok(seats)
}

/// Makes each region of a script on its image, with the passes that the script names and one more for each seat, which has the
/// last number. The lists of passes stand in ascending cluster.
pub fn open_script(alloc: Global, script: &Script, seats: u32) -> Result<Opened, NoMemory>
    requires rules { KeepsRules script.now }
    requires some { 1 ≤ seats }
    requires room { HaveRoom script.now.regions seats }
    ensures { IfOk result (λ opened. IsOpened script.now seats opened) }
{
    let made = make_regions(alloc, script, seats)?;
    let Dealt {
        mounted,
        passes,
        hands,
    } = deal_all(alloc, made, seats)?;
    let server = serve(mounted);
    let seats = take_seats(alloc, &server, hands)?;
    Ok(Opened {
        server,
        passes,
        seats,
    })
}
