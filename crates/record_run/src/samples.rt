//! The samples of a recording beside its writers.
ghost use Rattle.std.specs.Prelude.{◌≡◌, ◌≢◌, ◌+◌, ◌<◌, ◌≤◌, ℕ, [], None, IfErr, IfOk, OnOk, length, List as Sequence};
ghost use Rattle.std.specs.Thread.{IsSync};
ghost use Rattle.fetch_engine.specs.Servers.{IsSeated};
ghost use Rattle.fetch_engine.specs.Visits.{AreLoaded};
ghost use Rattle.run_script.specs.Rules.{KeepsRules};
ghost use Rattle.run_passes.specs.Crews.{ServesScript};
ghost use Rattle.script_runs.specs.declared.ending.Ending.TheVariants.{DiskFault as Failing};
ghost use Rattle.logging_session.specs.Keeping.{IsFailed, IsWorking, held_in};
ghost use Rattle.run_archive.specs.Samples.{SampleTaken};
ghost use Rattle.run_archive.specs.Sampling.{GoesOn, MayStop, StopsSampling};
ghost use Rattle.run_script.specs.Recording.{refused_line};
ghost use Rattle.run_passes.specs.Written.{AreReady, HaveWritten};

use fetch_engine::{Seat, Server};
use pcp_base::NoMemory;
use pcp_outside::{Clock, Disk, Turn};
use region_words::Pass;
use run_archive::{Sampler, sample_all};
use run_passes::run_writers;
use run_script::Script;
use script_runs::Ending;
use std::alloc::Global;
use std::mem;
use std::sync::Wait;
use std::thread::{Threads, join_mut};

/// Runs the writers. Where memory is refused their passes, which come back idle, are let go.
pub(crate) fn written<R: Threads + Wait + Sync, T: Turn + Sync>(
    rt: &R,
    alloc: Global,
    script: &Script,
    server: &Server,
    passes: Vec<Vec<Pass>>,
    turn: &T,
) -> Result<Vec<Vec<Pass>>, NoMemory>
    requires rules { KeepsRules script.now }
    requires record { refused_line script.now ≡ None }
    requires serves { ServesScript script.now 1 server.now }
    requires ready { AreReady script.now server.now passes.items }
    ensures { IfOk result (λ done. HaveWritten script.now server.now passes.items done.items) }
{
    match run_writers(rt, alloc, script, server, passes, turn) {
        Ok(done) => Ok(done),
        Err(_back) => Err(NoMemory),
    }
}

/// Runs the writers, and beside them takes all samples but the last. Answers what became of both.
pub(crate) fn beside<'a, R: Threads + Wait + Sync, D: Disk, C: Clock, T: Turn + Sync>(
    rt: &R,
    alloc: Global,
    script: &'a Script,
    server: &Server,
    seat: &mut Seat,
    passes: &mut Vec<Vec<Pass>>,
    disk: &mut D,
    clock: &mut C,
    turn: &T,
    sampler: &mut Sampler<'a>,
    samples: u32,
) -> (Result<Vec<Vec<Pass>>, NoMemory>, Result<(), Ending>)
    requires rules { KeepsRules script.now }
    requires record { refused_line script.now ≡ None }
    requires serves { ServesScript script.now 1 server.now }
    requires ready { AreReady script.now server.now passes.old.items }
    requires seated { IsSeated server.now seat.old.tokens }
    requires working { IsWorking sampler.old.session }
    requires none { sampler.old.session.logged ≡ 0 }
    requires unheld { held_in sampler.old.session.place ≡ 0 }
    requires some { 1 ≤ samples }
    ensures written { IfOk result.0 (λ done. HaveWritten script.now server.now passes.old.items done.items) }
    ensures taken { passes.new.items ≡ [] }
    ensures seated { IsSeated server.now seat.new.tokens }
    ensures loads { AreLoaded seat.old.tokens seat.new.tokens }
    ensures same { (sampler.new.session.label ≡ sampler.old.session.label) × (sampler.new.session.limit ≡ sampler.old.session.limit) }
    ensures count { sampler.new.session.logged + 1 ≤ samples }
    ensures goes { OnOk result.1 ((taken : Sequence SampleTaken) × (length taken + 1 ≡ samples) × GoesOn C.Clock D.Disk script.now.config.groups server.now sampler.old sampler.new seat.old.tokens seat.new.tokens clock.old clock.new disk.old disk.new taken) }
    ensures stops { IfErr result.1 (λ e. (taken : Sequence SampleTaken) × (left : ℕ) × (length taken + left ≡ samples) × (length taken + 1 < samples)
        × StopsSampling C.Clock D.Disk script.now.config.groups server.now sampler.old sampler.new seat.old.tokens seat.new.tokens clock.old clock.new disk.old disk.new taken left e) }
    ensures working { OnOk result.1 (IsWorking sampler.new.session) }
    ensures unfailed { IfErr result.1 (λ e. e ≢ Failing → IsFailed sampler.new.session → ⊥) }
    ensures unheld { held_in sampler.new.session.place ≡ 0 }
    ensures cause { IfErr result.1 (MayStop C.Clock D.Disk disk.old disk.new clock.old clock.new) }
    ensures later { D.faults disk.old ≤ D.faults disk.new }
    ensures clock_later { C.faults clock.old ≤ C.faults clock.new }
    ensures quiet { OnOk result.1 ((D.faults disk.new ≡ D.faults disk.old) × (C.faults clock.new ≡ C.faults clock.old)) }
{
    let count = samples - 1;
    join_mut(
        rt,
        &mut || -> Result<Vec<Vec<Pass>>, NoMemory>
            requires sync { IsSync R.row × IsSync T.row }
            requires rules { KeepsRules script.now }
            requires record { refused_line script.now ≡ None }
            requires serves { ServesScript script.now 1 server.now }
            requires ready { AreReady script.now server.now passes.now.items }
            ensures written { IfOk result (λ done. HaveWritten script.entry.now server.entry.now passes.entry.now.items done.items) }
            ensures taken { passes.exit.now.items ≡ [] }
        {
            let passes = mem::replace(passes, Vec::new(alloc));
            written(rt, alloc, script, server, passes, turn)
        },
        &mut || -> Result<(), Ending>
            requires seated { IsSeated server.now seat.now.tokens }
            requires working { IsWorking sampler.now.session }
            requires none { sampler.now.session.logged ≡ 0 }
            requires unheld { held_in sampler.now.session.place ≡ 0 }
            requires first { count ≤ samples }
            ensures seated { IsSeated server.entry.now seat.exit.now.tokens }
            ensures loads { AreLoaded seat.entry.now.tokens seat.exit.now.tokens }
            ensures same { (sampler.exit.now.session.label ≡ sampler.entry.now.session.label) × (sampler.exit.now.session.limit ≡ sampler.entry.now.session.limit) }
            ensures count { sampler.exit.now.session.logged ≤ count }
            ensures goes { OnOk result ((taken : Sequence SampleTaken) × (length taken ≡ count) × GoesOn C.Clock D.Disk script.entry.now.config.groups server.entry.now sampler.entry.now sampler.exit.now seat.entry.now.tokens seat.exit.now.tokens clock.entry.now clock.exit.now disk.entry.now disk.exit.now taken) }
            ensures stops { IfErr result (λ e. (taken : Sequence SampleTaken) × (left : ℕ) × (length taken + left ≡ samples) × (length taken < count)
                × StopsSampling C.Clock D.Disk script.entry.now.config.groups server.entry.now sampler.entry.now sampler.exit.now seat.entry.now.tokens seat.exit.now.tokens clock.entry.now clock.exit.now disk.entry.now disk.exit.now taken left e) }
            ensures working { OnOk result (IsWorking sampler.exit.now.session) }
            ensures unfailed { IfErr result (λ e. e ≢ Failing → IsFailed sampler.exit.now.session → ⊥) }
            ensures unheld { held_in sampler.exit.now.session.place ≡ 0 }
            ensures cause { IfErr result (MayStop C.Clock D.Disk disk.entry.now disk.exit.now clock.entry.now clock.exit.now) }
            ensures later { D.faults disk.entry.now ≤ D.faults disk.exit.now }
            ensures clock_later { C.faults clock.entry.now ≤ C.faults clock.exit.now }
            ensures quiet { OnOk result ((D.faults disk.exit.now ≡ D.faults disk.entry.now) × (C.faults clock.exit.now ≡ C.faults clock.entry.now)) }
        {
            sample_all(
                alloc, disk, clock, turn, sampler, script, server, seat, count, samples,
            )
        },
    )
}
