//! Samples, one after another.
ghost use Rattle.std.specs.Prelude.{◌≡◌, ◌≢◌, ◌⊎◌, ◌<◌, ◌≤◌, ◌+◌, ◌∷◌, [], ℕ, length, List as Sequence, IfErr, IfOk, OnErr, OnOk};
ghost use Rattle.pcp_outside.specs.Causes.{Rose};
ghost use Rattle.fetch_engine.specs.Servers.{IsSeated};
ghost use Rattle.fetch_engine.specs.Visits.{AreLoaded};
ghost use Rattle.script_runs.specs.declared.ending.Ending.TheVariants.{ClockEnd as NoMoment, ClockFault as NoClock, DiskFault as Failing};
ghost use Rattle.logging_session.specs.Keeping.{IsFailed, IsWorking, held_in, lost_in};
ghost use Rattle.run_archive.specs.Samples.{SampleTaken};
ghost use Rattle.run_archive.specs.Sampling.{GoesOn, HasEnded, MayRefuse, MayStop, StopsSampling, StopsAt, TakesAt};

use crate::asking::ask;
use crate::logging::log_shown;
use crate::plans::Plans;
use crate::sampler::Sampler;
use crate::sure::make_sure;
use fetch_engine::{Seat, Server};
use pcp_base::Stamp;
use pcp_outside::{Clock, Disk, LOGGER, Turn};
use run_script::Script;
use script_runs::Ending;
use std::alloc::Global;
use std::mem;

/// The next moment of a clock, or how a run ends to which it gives none while so many samples are left.
fn next_moment<C: Clock>(clock: &mut C, left: u32) -> Result<Stamp, Ending>
    ensures given { C.tells → IfOk result (λ now. C.left clock.old ≡ now ∷ C.left clock.new) }
    ensures none { C.tells → OnErr result (C.left clock.new ≡ C.left clock.old) }
    ensures why { IfErr result (λ e. ((e ≡ NoMoment left) × HasEnded C.Clock clock.new) ⊎ ((e ≡ NoClock left) × Rose (C.faults clock.old) (C.faults clock.new))) }
    ensures later { C.faults clock.old ≤ C.faults clock.new }
    ensures quiet { OnOk result (C.faults clock.new ≡ C.faults clock.old) }
{
    match clock.now() {
        Ok(Some(now)) => Ok(now),
        Ok(None) => Err(Ending::ClockEnd { left }),
        Err(_) => Err(Ending::ClockFault { left }),
    }
}

/// Samples at a moment: groups that are due ask for what their names lead to now, and what the regions show of it is logged. Answers how many
/// metrics were asked for.
pub fn sample_at<'a, D: Disk>(
    alloc: Global,
    disk: &mut D,
    sampler: &mut Sampler<'a>,
    script: &'a Script,
    server: &Server,
    seat: &mut Seat,
    now: Stamp,
) -> Result<u64, Ending>
    requires seated { IsSeated server.now seat.old.tokens }
    requires working { IsWorking sampler.old.session }
    requires few { sampler.old.session.logged < 18446744073709551615 }
    ensures seated { IsSeated server.now seat.new.tokens }
    ensures loads { AreLoaded seat.old.tokens seat.new.tokens }
    ensures same { (sampler.new.session.label ≡ sampler.old.session.label) × (sampler.new.session.limit ≡ sampler.old.session.limit) }
    ensures count { sampler.new.session.logged ≤ sampler.old.session.logged + 1 }
    // At most this sample's result is held beside those that were; what isn't logged isn't. Only what was held may be lost.
    ensures held { OnOk result (held_in sampler.new.session.place ≤ held_in sampler.old.session.place + 1) }
    ensures unheld { OnErr result (held_in sampler.new.session.place ≤ held_in sampler.old.session.place) }
    ensures lost { lost_in sampler.new.session.place ≤ held_in sampler.old.session.place }
    // Where no metric is asked for nothing more is held.
    ensures idle { IfOk result (λ count. count ≡ 0 → held_in sampler.new.session.place ≤ held_in sampler.old.session.place) }
    ensures goes { IfOk result (TakesAt D.Disk script.now.config.groups server.now sampler.old sampler.new seat.old.tokens seat.new.tokens disk.old disk.new now) }
    ensures stops { IfErr result (StopsAt D.Disk script.now.config.groups server.now sampler.old sampler.new seat.old.tokens seat.new.tokens disk.old disk.new now) }
    ensures working { OnOk result (IsWorking sampler.new.session) }
    ensures unfailed { IfErr result (λ e. e ≢ Failing → IsFailed sampler.new.session → ⊥) }
    ensures cause { IfErr result (MayRefuse (D.faults disk.old) (D.faults disk.new)) }
    ensures later { D.faults disk.old ≤ D.faults disk.new }
    ensures quiet { OnOk result (D.faults disk.new ≡ D.faults disk.old) }
    ensures still { IfErr result (λ e. e ≢ Failing → D.faults disk.new ≡ D.faults disk.old) }
{
    let plans = mem::replace(&mut sampler.plans, None);
    let Ok(mut plans) = Plans::at_tick(alloc, &script.config, plans, now) else {
        return Err(Ending::NoMemory);
    };
    let Ok(pmids) = ask(alloc, server, seat, &mut plans, now) else {
        return Err(Ending::NoMemory);
    };
    log_shown(
        alloc,
        disk,
        &mut sampler.session,
        server,
        seat,
        pmids.as_slice(),
        now,
    )?;
    plans.passed(now);
    sampler.plans = Some(plans);
    Ok(pmids.len() as u64)
}

/// Takes a sample at the clock's next moment, logs it, and makes sure what it logged. `number` is its number from 0, and `left` how many are
/// left, this one among them.
pub fn sample<'a, D: Disk, C: Clock, T: Turn>(
    alloc: Global,
    disk: &mut D,
    clock: &mut C,
    turn: &T,
    sampler: &mut Sampler<'a>,
    script: &'a Script,
    server: &Server,
    seat: &mut Seat,
    number: u64,
    left: u32,
) -> Result<(), Ending>
    requires seated { IsSeated server.now seat.old.tokens }
    requires working { IsWorking sampler.old.session }
    requires few { sampler.old.session.logged < 18446744073709551615 }
    ensures seated { IsSeated server.now seat.new.tokens }
    ensures loads { AreLoaded seat.old.tokens seat.new.tokens }
    ensures same { (sampler.new.session.label ≡ sampler.old.session.label) × (sampler.new.session.limit ≡ sampler.old.session.limit) }
    ensures count { sampler.new.session.logged ≤ sampler.old.session.logged + 1 }
    // Where nothing was held nothing is.
    ensures held { held_in sampler.old.session.place ≡ 0 → held_in sampler.new.session.place ≡ 0 }
    ensures goes { OnOk result ((s : SampleTaken) × GoesOn C.Clock D.Disk script.now.config.groups server.now sampler.old sampler.new seat.old.tokens seat.new.tokens clock.old clock.new disk.old disk.new (s ∷ [])) }
    ensures stops { IfErr result (StopsSampling C.Clock D.Disk script.now.config.groups server.now sampler.old sampler.new seat.old.tokens seat.new.tokens clock.old clock.new disk.old disk.new [] left) }
    ensures working { OnOk result (IsWorking sampler.new.session) }
    ensures unfailed { IfErr result (λ e. e ≢ Failing → IsFailed sampler.new.session → ⊥) }
    ensures cause { IfErr result (MayStop C.Clock D.Disk disk.old disk.new clock.old clock.new) }
    ensures later { D.faults disk.old ≤ D.faults disk.new }
    ensures clock_later { C.faults clock.old ≤ C.faults clock.new }
    ensures quiet { OnOk result ((D.faults disk.new ≡ D.faults disk.old) × (C.faults clock.new ≡ C.faults clock.old)) }
{
    turn.turn(LOGGER, number);
    let now = next_moment(clock, left)?;
    let count = sample_at(alloc, disk, sampler, script, server, seat, now)?;
    if count == 0 {
        return Ok(());
    }
    make_sure(disk, &mut sampler.session)?;
    Ok(())
}

/// Takes so many samples, the first ones of `samples`, one after another: each is sure before the next one is waited for.
pub fn sample_all<'a, D: Disk, C: Clock, T: Turn>(
    alloc: Global,
    disk: &mut D,
    clock: &mut C,
    turn: &T,
    sampler: &mut Sampler<'a>,
    script: &'a Script,
    server: &Server,
    seat: &mut Seat,
    count: u32,
    samples: u32,
) -> Result<(), Ending>
    requires seated { IsSeated server.now seat.old.tokens }
    requires working { IsWorking sampler.old.session }
    requires none { sampler.old.session.logged ≡ 0 }
    requires first { count ≤ samples }
    ensures seated { IsSeated server.now seat.new.tokens }
    ensures loads { AreLoaded seat.old.tokens seat.new.tokens }
    ensures same { (sampler.new.session.label ≡ sampler.old.session.label) × (sampler.new.session.limit ≡ sampler.old.session.limit) }
    ensures count { sampler.new.session.logged ≤ count }
    // Where nothing was held nothing is.
    ensures held { held_in sampler.old.session.place ≡ 0 → held_in sampler.new.session.place ≡ 0 }
    ensures goes { OnOk result ((taken : Sequence SampleTaken) × (length taken ≡ count) × GoesOn C.Clock D.Disk script.now.config.groups server.now sampler.old sampler.new seat.old.tokens seat.new.tokens clock.old clock.new disk.old disk.new taken) }
    ensures stops { IfErr result (λ e. (taken : Sequence SampleTaken) × (left : ℕ) × (length taken + left ≡ samples) × (length taken < count)
        × StopsSampling C.Clock D.Disk script.now.config.groups server.now sampler.old sampler.new seat.old.tokens seat.new.tokens clock.old clock.new disk.old disk.new taken left e) }
    ensures working { OnOk result (IsWorking sampler.new.session) }
    ensures unfailed { IfErr result (λ e. e ≢ Failing → IsFailed sampler.new.session → ⊥) }
    ensures cause { IfErr result (MayStop C.Clock D.Disk disk.old disk.new clock.old clock.new) }
    ensures later { D.faults disk.old ≤ D.faults disk.new }
    ensures clock_later { C.faults clock.old ≤ C.faults clock.new }
    ensures quiet { OnOk result ((D.faults disk.new ≡ D.faults disk.old) × (C.faults clock.new ≡ C.faults clock.old)) }
{
    for number in 0..count {
        let left = samples - number;
        sample(
            alloc,
            disk,
            clock,
            turn,
            sampler,
            script,
            server,
            seat,
            number as u64,
            left,
        )?;
    }
    Ok(())
}
