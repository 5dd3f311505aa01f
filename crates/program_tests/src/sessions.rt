//! Two connections of a door in memory, one after another on one seat.
ghost use Rattle.std.specs.Prelude.{◌≡◌, ◌≤◌, ℕ, length, slice_get, IfOk, IfSome, Some};
ghost use Rattle.fetch_engine.specs.Servers.{IsSeated, Seated};
ghost use Rattle.run_script.specs.Rules.{KeepsRules};

use crate::shared::HITS;
use fetch_engine::{Seat, Server};
use pcp_base::{List, Stamp};
use pcp_memory::MemDoor;
use pcp_outside::SessionEnd;
use pmcd_server::{ServeFault, serve};
use pmcd_session::SessionSeat;
use run_passes::{Opened, open_script};
use run_script::{ReadScriptError, Script};
use std::alloc::{AllocError, Global};
use std::test::Fail;

// A client that the server knows fetches the metric.
const ASKED: &[u8] =
    b"\x00\x00\x00\x14\x00\x00\x70\x0c\x00\x00\x00\x00\x00\x00\x00\x01\x01\x02\x00\x00\x00\x00\x00\x20\
\x00\x00\x70\x03\x00\x00\x00\x00\x00\x00\x00\x00\x00\x00\x00\x00\x00\x00\x00\x00\x00\x00\x00\x01\
\x11\x80\x04\x02";

const GREETING: &[u8] = b"\x00\x00\x00\x10\x00\x00\x70\x00\x00\x00\x00\x00\x00\x00\x00\x00";

// The greeting, and the value at 100 s.
const TOLD: &[u8] =
    b"\x00\x00\x00\x10\x00\x00\x70\x00\x00\x00\x00\x00\x00\x00\x00\x00\x00\x00\x00\x2c\x00\x00\x70\x01\
\x00\x00\x00\x00\x00\x00\x00\x64\x00\x00\x00\x00\x00\x00\x00\x01\x11\x80\x04\x02\x00\x00\x00\x01\
\x00\x00\x00\x00\xff\xff\xff\xff\x00\x00\x00\x07";

// The regions of a script, with one seat.
#[derive(Drop)]
struct Opening {
    server: Server,
    seat: SessionSeat,
}

fn read_whole(alloc: Global, text: &[u8]) -> Result<Script, ReadScriptError>
    requires { length text.now ≤ 16777216 }
    ensures { IfOk result KeepsRules }
{
    let script = Script::read(alloc, text)?;
    Ok(script)
}

fn last_seat(server: &Server, seats: Vec<Seat>) -> Option<Seat>
    requires { (s : ℕ) (seat : Seated) → slice_get seats.items s ≡ Some seat → IsSeated server.now seat.tokens }
    ensures { IfSome result (λ seat. IsSeated server.now seat.tokens) }
{
    let mut seats = seats;
    seats.pop()
}

// Opens the regions of a text. None where it is no script.
fn open(alloc: Global, text: &[u8]) -> Option<Opening>
    ensures { IfSome result (λ opening. IsSeated opening.server opening.seat.tokens) }
{
    if text.len() > 16_777_216 {
        return None;
    }
    let Ok(script) = read_whole(alloc, text) else {
        return None;
    };
    let Ok(Opened { server, seats, .. }) = open_script(alloc, &script, 1) else {
        return None;
    };
    let seat = last_seat(&server, seats)?;
    let Ok(seat) = SessionSeat::new(alloc, seat) else {
        return None;
    };
    Some(Opening { server, seat })
}

// A door of two connections: one asks, at 100 s, and the other brings nothing.
fn two_connections(alloc: Global) -> Result<MemDoor, AllocError> {
    let mut moments = Vec::new(alloc);
    if let Some(moment) = Stamp::build(100, 0) {
        moments.push(moment)?;
    }
    let asks = (
        List::from_vec(ASKED.to_vec(alloc)?),
        List::from_vec(moments),
    );
    let mut connections = Vec::new(alloc);
    connections.push(asks)?;
    connections.push((List::empty(alloc), List::empty(alloc)))?;
    Ok(MemDoor::new(alloc, List::from_vec(connections), List::empty(alloc)))
}

#[test]
fn a_seat_serves_one_connection_after_another(rt: HostRuntime) -> Result<(), Fail> {
    let alloc = rt.alloc();
    let Some(Opening { server, seat }) = open(alloc, HITS) else {
        return Err(Fail::new("no seat"));
    };
    let mut seats = [seat];
    let mut doors = [two_connections(alloc)?];
    let both = serve(&rt, alloc, &server, &mut seats, &mut doors, 2);
    assert!(rt; matches!(both, Ok(2)));
    assert_eq!(rt; doors[0].written(0), Some(TOLD));
    assert_eq!(rt; doors[0].written(1), Some(GREETING));
    assert!(rt; matches!(doors[0].end_of(1), Some(SessionEnd::Closed)));
    let again = serve(&rt, alloc, &server, &mut seats, &mut doors, 1);
    assert!(rt; matches!(again, Err(ServeFault::Accept)));
    assert!(rt; doors[0].end_of(2).is_none());
    Ok(())
}
