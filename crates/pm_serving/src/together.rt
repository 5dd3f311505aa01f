//! Sessions on the regions of a script, and its writers beside them.
ghost use Rattle.std.specs.Prelude.{◌≡◌, ◌+◌, ◌<◌, ◌≤◌, length, sum_by, IfOk, IsErrOf, None, OnOk};
ghost use Rattle.std.specs.List.{AllByRecursion};
ghost use Rattle.std.specs.Thread.{IsSend, IsSync};
ghost use Rattle.fetch_engine.specs.Servers.{IsSeated};
ghost use Rattle.pmcd_server.specs.Crews.{AllSame, HasServed, SomeRose};
ghost use Rattle.pmcd_server.specs.declared.fault.ServeFault.TheVariants.{Accept as DoorFailed};
ghost use Rattle.run_script.specs.Recording.{refused_line};
ghost use Rattle.run_script.specs.Rules.{KeepsRules};
ghost use Rattle.run_passes.specs.Crews.{ServesScript};
ghost use Rattle.run_passes.specs.Openings.{HaveRoom};
ghost use Rattle.run_passes.specs.Written.{AreReady, HaveWritten};
ghost use Rattle.pm_serving.specs.Serving.{HasAnswered, doors_side};

use crate::served::{Served, open};
use fetch_engine::Server;
use pcp_base::NoMemory;
use pcp_outside::{Door, Turn};
use pmcd_server::{ServeFault, serve};
use pmcd_session::SessionSeat;
use region_words::Pass;
use run_passes::run_writers;
use run_script::Script;
use std::alloc::Global;
use std::mem;
use std::sync::Wait;
use std::thread::{Threads, join_mut};

// Runs the writers of a script, and serves sessions beside them. The passes are those of the first answer.
fn beside<P: Door + Send, R: Threads + Wait + Sync, T: Turn + Sync>(
    rt: &R,
    alloc: Global,
    count: u32,
    script: &Script,
    server: &Server,
    passes: &mut Vec<Vec<Pass>>,
    seats: &mut [SessionSeat],
    doors: &mut [P],
    turn: &T,
) -> (Result<Vec<Vec<Pass>>, NoMemory>, Result<u32, ServeFault>)
where
    P::In: Send,
    P::Out: Send,
    P::Time: Send,
    requires rules { KeepsRules script.now }
    requires taken { refused_line script.now ≡ None }
    requires serves { ServesScript script.now 4 server.now }
    requires ready { AreReady script.now server.now passes.old.items }
    requires seated { AllByRecursion (λ s. IsSeated server.now s.tokens) seats.old }
    requires four { (length seats.old ≡ 4) × (length doors.old ≡ 4) }
    ensures written { IfOk result.0 (λ done. HaveWritten script.now server.now passes.old.items done.items) }
    ensures served { HasServed server.now P.Door count seats.old doors.old seats.new doors.new result.1 }
    ensures connections { P.tells → OnOk result.1 (sum_by (λ d. length (P.left d)) doors.old ≡ sum_by (λ d. length (P.left d)) doors.new + count) }
    ensures reports { P.tells → OnOk result.1 (sum_by (λ d. length (P.reports d)) doors.new ≡ sum_by (λ d. length (P.reports d)) doors.old + count) }
    ensures rose { IsErrOf result.1 DoorFailed → SomeRose P.Door doors.old doors.new }
    ensures quiet { OnOk result.1 (AllSame P.Door doors.old doors.new) }
{
    join_mut(
        rt,
        &mut || -> Result<Vec<Vec<Pass>>, NoMemory>
            requires sync { IsSync R.row × IsSync T.row }
            requires rules { KeepsRules script.now }
            requires taken { refused_line script.now ≡ None }
            requires serves { ServesScript script.now 4 server.now }
            requires ready { AreReady script.now server.now passes.now.items }
            ensures { IfOk result (λ done. HaveWritten script.entry.now server.entry.now passes.entry.now.items done.items) }
        {
            let passes = mem::replace(passes, Vec::new(alloc));
            match run_writers(rt, alloc, script, server, passes, turn) {
                Ok(done) => Ok(done),
                Err(_back) => Err(NoMemory),
            }
        },
        &mut || -> Result<u32, ServeFault>
            requires sync { IsSync R.row × IsSend P.row }
            requires seated { AllByRecursion (λ s. IsSeated server.now s.tokens) seats.now }
            requires four { (length seats.now ≡ 4) × (length doors.now ≡ 4) }
            ensures served { HasServed server.entry.now P.Door count seats.entry.now doors.entry.now seats.exit.now doors.exit.now result }
            ensures connections { P.tells → OnOk result (sum_by (λ d. length (P.left d)) doors.entry.now ≡ sum_by (λ d. length (P.left d)) doors.exit.now + count) }
            ensures reports { P.tells → OnOk result (sum_by (λ d. length (P.reports d)) doors.exit.now ≡ sum_by (λ d. length (P.reports d)) doors.entry.now + count) }
            ensures rose { IsErrOf result DoorFailed → SomeRose P.Door doors.entry.now doors.exit.now }
            ensures quiet { OnOk result (AllSame P.Door doors.entry.now doors.exit.now) }
        { serve(rt, alloc, server, seats, doors, count) },
    )
}

// Opens a script, serves sessions on its regions and runs its writers beside them. Where a writer is refused memory its passes are
// gone, and so are the regions.
pub(crate) fn serve_script<P: Door + Send, R: Threads + Wait + Sync, T: Turn + Sync>(
    rt: &R,
    alloc: Global,
    count: u32,
    script: &Script,
    doors: &mut [P],
    turn: &T,
    served: &mut Option<Served>,
) -> Result<u32, ServeFault>
where
    P::In: Send,
    P::Out: Send,
    P::Time: Send,
    requires rules { KeepsRules script.now }
    requires room { HaveRoom script.now.regions 4 }
    requires taken { refused_line script.now ≡ None }
    requires four { length doors.old ≡ 4 }
    requires fresh { served.old ≡ None }
    ensures { HasAnswered (doors_side P.Door doors.old doors.new) count script.now served.new result }
{
    let Served {
        server,
        mut passes,
        mut seats,
    } = open(alloc, script)?;
    let answers = beside(
        rt,
        alloc,
        count,
        script,
        &server,
        &mut passes,
        &mut seats,
        doors,
        turn,
    );
    let (written, answer) = answers;
    let passes = written?;
    if let Err(ServeFault::NoMemory) = answer {
        return answer;
    }
    *served = Some(Served {
        server,
        passes,
        seats,
    });
    answer
}
