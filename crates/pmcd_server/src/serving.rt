//! Connections are served by one worker a seat, beside each other.
ghost use Rattle.std.specs.Prelude.{◌≡◌, ◌<◌, ◌≤◌, ◌+◌, ◌*◌, length, sum_by, IsErrOf, OnOk};
ghost use Rattle.std.specs.List.{AllByRecursion};
ghost use Rattle.std.specs.Thread.{IsSend, IsSync};
ghost use Rattle.pmcd_server.specs.Crews.{AllSame, HasServed, HasWorked, HaveWorked, SomeRose};
ghost use Rattle.pmcd_server.specs.declared.fault.ServeFault.TheVariants.{Accept};
ghost use Rattle.pmcd_server.specs.Draws.{share};
ghost use Rattle.fetch_engine.specs.Servers.{IsSeated};

use crate::fault::ServeFault;
use crate::places::{Drawer, Places};
use crate::worker::work;
use fetch_engine::Server;
use pcp_outside::Door;
use pmcd_session::SessionSeat;
use std::alloc::Global;
use std::thread::{Threads, join_mut};

/// A worker on one seat, and the workers on the others, beside each other. Answers of both whether no door failed.
#[cycle(crew)]
fn beside<P: Door + Send, R: Threads + Sync>(
    rt: &R,
    alloc: Global,
    server: &Server,
    places: &Places,
    count: u32,
    own: &mut Drawer,
    seat: &mut SessionSeat,
    door: &mut P,
    drawer: &mut Drawer,
    seats: &mut [SessionSeat],
    doors: &mut [P],
) -> (bool, bool)
where
    P::In: Send,
    P::Out: Send,
    P::Time: Send,
    requires one { IsSeated server.now seat.old.tokens × (own.old.word ≡ places.now) × (count ≤ own.old.left) }
    requires seated { AllByRecursion (λ s. IsSeated server.now s.tokens) seats.old }
    requires others { (length seats.old ≡ length doors.old) × (drawer.old.word ≡ places.now) × (length seats.old * share ≤ drawer.old.left) }
    ensures one_works { HasWorked server.now P.Door count seat.old door.old own.old seat.new door.new own.new result.0 }
    ensures one_seated { IsSeated server.now seat.new.tokens }
    ensures works { HaveWorked server.now P.Door count seats.old doors.old drawer.old seats.new doors.new drawer.new result.1 }
    ensures seated { AllByRecursion (λ s. IsSeated server.now s.tokens) seats.new }
{
    join_mut(
        rt,
        &mut || -> bool
            requires one { IsSeated server.now seat.now.tokens × (own.now.word ≡ places.now) × (count ≤ own.now.left) }
            ensures works { HasWorked server.entry.now P.Door count seat.entry.now door.entry.now own.entry.now seat.exit.now door.exit.now own.exit.now result }
            ensures seated { IsSeated server.entry.now seat.exit.now.tokens }
        { work(alloc, server, seat, door, places, own, count).is_ok() },
        &mut || -> bool
            requires sync { IsSync R.row × IsSend P.row }
            requires seated { AllByRecursion (λ s. IsSeated server.now s.tokens) seats.now }
            requires others { (length seats.now ≡ length doors.now) × (drawer.now.word ≡ places.now) × (length seats.now * share ≤ drawer.now.left) }
            ensures works { HaveWorked server.entry.now P.Door count seats.entry.now doors.entry.now drawer.entry.now seats.exit.now doors.exit.now drawer.exit.now result }
            ensures seated { AllByRecursion (λ s. IsSeated server.entry.now s.tokens) seats.exit.now }
        { run(rt, alloc, server, places, count, drawer, seats, doors) },
    )
}

/// One worker for each seat, beside each other. Answers whether no door failed.
#[cycle(crew)]
fn run<P: Door + Send, R: Threads + Sync>(
    rt: &R,
    alloc: Global,
    server: &Server,
    places: &Places,
    count: u32,
    drawer: &mut Drawer,
    seats: &mut [SessionSeat],
    doors: &mut [P],
) -> bool
where
    P::In: Send,
    P::Out: Send,
    P::Time: Send,
    requires seated { AllByRecursion (λ s. IsSeated server.now s.tokens) seats.old }
    requires same { length seats.old ≡ length doors.old }
    requires here { drawer.old.word ≡ places.now }
    requires left { length seats.old * share ≤ drawer.old.left }
    ensures works { HaveWorked server.now P.Door count seats.old doors.old drawer.old seats.new doors.new drawer.new result }
    ensures seated { AllByRecursion (λ s. IsSeated server.now s.tokens) seats.new }
{
    let Some((seat, seats)) = seats.split_first_mut() else {
        return true;
    };
    let Some((door, doors)) = doors.split_first_mut() else {
        return true;
    };
    let mut own = places.hand_out(drawer);
    let answers = beside(
        rt, alloc, server, places, count, &mut own, seat, door, drawer, seats, doors,
    );
    places.take_back(drawer, own);
    let (one, others) = answers;
    one & others
}

/// Serves so many connections, by one worker for each seat over the door at its position, beside each other. Each worker
/// draws a place, takes a connection of its door, serves a session over it and hands it back, until no place is left or its
/// door has failed. `Accept` comes only where a door failed, and then the other workers have served on: all places were
/// drawn, unless every door failed.
pub fn serve<P: Door + Send, R: Threads + Sync>(
    rt: &R,
    alloc: Global,
    server: &Server,
    seats: &mut [SessionSeat],
    doors: &mut [P],
    count: u32,
) -> Result<u32, ServeFault>
where
    P::In: Send,
    P::Out: Send,
    P::Time: Send,
    requires seated { AllByRecursion (λ s. IsSeated server.now s.tokens) seats.old }
    requires same { length seats.old ≡ length doors.old }
    requires some { 0 < length seats.old }
    requires few { length seats.old ≤ 252 }
    ensures served { HasServed server.now P.Door count seats.old doors.old seats.new doors.new result }
    // Of doors that tell, as many connections were taken in all, and as many reports told.
    ensures connections { P.tells → OnOk result (sum_by (λ d. length (P.left d)) doors.old ≡ sum_by (λ d. length (P.left d)) doors.new + count) }
    ensures reports { P.tells → OnOk result (sum_by (λ d. length (P.reports d)) doors.new ≡ sum_by (λ d. length (P.reports d)) doors.old + count) }
    ensures accept { IsErrOf result Accept → SomeRose P.Door doors.old doors.new }
    // Where all were served no door failed.
    ensures quiet { OnOk result (AllSame P.Door doors.old doors.new) }
    ensures seated { AllByRecursion (λ s. IsSeated server.now s.tokens) seats.new }
{
    let (places, mut drawer) = Places::new(alloc)?;
    let is_well = run(rt, alloc, server, &places, count, &mut drawer, seats, doors);
    places.close(drawer);
    if !is_well {
        return Err(ServeFault::Accept);
    }
    Ok(count)
}
