//! The run of a script over any files, by the calls of the regions that were opened for it, on one thread.
ghost use Rattle.std.specs.Prelude.{◌≡◌, ◌≤◌, [], ◌∷◌, length, slice_get, Some, IfErr, IfOk, OnOk, ◌≢◌};
ghost use Rattle.archive_recovery.specs.declared.outcome.RecoverFault.{RecoverFault as Unrecovered};
ghost use Rattle.archive_recovery.specs.Halfway.{MayBeHalfway};
ghost use Rattle.fetch_engine.specs.Servers.{IsSeated, Seated};
ghost use Rattle.logging_session.specs.Keeping.{IsWorking, held_in};
ghost use Rattle.pcp_model.specs.Archive.{Readable};
ghost use Rattle.pcp_model.specs.Disk.{CrashImage, contents_of};
ghost use Rattle.pcp_outside.specs.Devices.{LeavesOnly};
ghost use Rattle.run_script.specs.Rules.{KeepsRules};
ghost use Rattle.run_passes.specs.Crews.{Follows, IsManned, ServesScript};
ghost use Rattle.run_passes.specs.Openings.{AreMade, IsOpened};
ghost use Rattle.script_runs.specs.Regions.{made_regions};
ghost use Rattle.script_runs.specs.declared.ending.Ending.TheVariants.{DiskFault as Failing};
ghost use Rattle.run_archive.specs.Endings.{LeavesCount, MayEnd};
ghost use Rattle.run_archive.specs.Outcomes.{IsUnrecovered, ended_by};
ghost use Rattle.record_run.specs.Replays.{IsBegun, IsReplay, ReplaysOver};

use crate::run::Run;
use crate::steps::run_lines;
use archive_recovery::{RecoverFault, recover};
use arrayvec::ArrayVec;
use fetch_engine::{Seat, Server};
use logging_session::Session;
use pcp_outside::Disk;
use region_words::Pass;
use run_archive::{Replayed, Sampler, finish, run_label};
use run_passes::{Opened, Running};
use run_script::Script;
use script_runs::Ending;
use std::alloc::Global;
use std::mem;

/// How a run ends whose files aren't recovered.
pub fn ending_of(fault: RecoverFault) -> Ending
    ensures { result ≡ ended_by fault }
{
    match fault {
        RecoverFault::Compressed { file } => Ending::Compressed { file },
        RecoverFault::NotArchive { file, at } => Ending::NotArchive { file, at },
        RecoverFault::DiskFault => Ending::DiskFault,
        RecoverFault::NoMemory => Ending::NoMemory,
    }
}

/// Begins the session of a run's archive over what recovery leaves of the files. An error is how the run ends. Where memory for the label is
/// refused the disk is untouched.
fn begin_session<D: Disk>(alloc: Global, disk: &mut D, volume: u64) -> Result<Session, Ending>
    requires limit { (1024 ≤ volume) × (volume ≤ 1073741824) }
    ensures fresh { IfOk result (λ s. (s.limit ≡ volume) × (s.logged ≡ 0) × IsWorking s × (held_in s.place ≡ 0)) }
    ensures begun { D.tells → IfOk result (IsBegun D.Disk disk.old disk.new) }
    ensures refused { IfErr result (λ e. (fault : Unrecovered) × (e ≡ ended_by fault)) }
    ensures unrecovered { D.tells → IfErr result (IsUnrecovered D.Disk disk.old disk.new) }
    ensures any_moment { D.tells → LeavesOnly D.moment D.left_since disk.old disk.new (MayBeHalfway (D.held disk.old)) }
    ensures unread { D.tells → (Readable (contents_of (D.held disk.old)) → ⊥) → LeavesOnly D.moment D.left_since disk.old disk.new (CrashImage (D.held disk.old)) }
    ensures cause { IfErr result (MayEnd (D.faults disk.old) (D.faults disk.new)) }
    ensures later { D.faults disk.old ≤ D.faults disk.new }
    ensures quiet { OnOk result (D.faults disk.new ≡ D.faults disk.old) }
{
    let Ok(label) = run_label(alloc) else {
        return Err(Ending::NoMemory);
    };
    match recover(alloc, disk) {
        Ok(archive) => Ok(Session::begin(archive, label, volume)),
        Err(fault) => Err(ending_of(fault)),
    }
}

/// Runs a script over what recovery left: its lines up to an end, then its passes are closed, and what was logged is flushed. Where results
/// are lost, since the disk failed before they were written, the run ended at the tick of the first of them.
fn replay_over<D: Disk>(
    alloc: Global,
    script: &Script,
    server: &Server,
    seat: &mut Seat,
    running: Running,
    disk: &mut D,
    session: Session,
) -> Replayed
    requires rules { KeepsRules script.now }
    requires serves { ServesScript script.now 1 server.now }
    requires manned { IsManned server.now running seat.old.tokens }
    requires working { IsWorking session }
    requires fresh { session.logged ≡ 0 }
    requires unheld { held_in session.place ≡ 0 }
    ensures runs { Follows script.now server.now running seat.old.tokens (made_regions script.now) → ReplaysOver D.Disk script.now server.now seat.new.tokens session disk.old disk.new result }
    ensures seated { IsSeated server.now seat.new.tokens }
    ensures cause { MayEnd (D.faults disk.old) (D.faults disk.new) result.ending }
    ensures later { D.faults disk.old ≤ D.faults disk.new }
    ensures quiet { result.ending ≢ Failing → D.faults disk.new ≡ D.faults disk.old }
{
    let sampler = Sampler {
        session,
        plans: None,
    };
    let mut run = Run {
        running,
        sampler,
        out: Vec::new(alloc),
        marks: ArrayVec::new(),
    };
    let ending = run_lines(alloc, disk, &mut run, script, server, seat);
    let Run {
        running,
        sampler,
        out,
        marks,
    } = run;
    running.close(alloc, server, seat);
    finish(disk, sampler.session, out, marks.as_slice(), ending)
}

/// Runs a script over any files, with the passes of its regions and the logger's seat.
fn replay_with<D: Disk>(
    alloc: Global,
    script: &Script,
    server: &Server,
    seat: &mut Seat,
    passes: Vec<Vec<Pass>>,
    disk: &mut D,
    volume: u64,
) -> Replayed
    requires rules { KeepsRules script.now }
    requires made { AreMade script.now server.now passes.items (seat.old ∷ []) }
    requires limit { (1024 ≤ volume) × (volume ≤ 1073741824) }
    ensures runs { IsReplay D.Disk script.now volume server.now seat.new.tokens disk.old disk.new result }
    ensures seated { IsSeated server.now seat.new.tokens }
    ensures unread { D.tells → (Readable (contents_of (D.held disk.old)) → ⊥) → LeavesOnly D.moment D.left_since disk.old disk.new (CrashImage (D.held disk.old)) }
    ensures cause { MayEnd (D.faults disk.old) (D.faults disk.new) result.ending }
    ensures later { D.faults disk.old ≤ D.faults disk.new }
    ensures quiet { LeavesCount (D.faults disk.old) (D.faults disk.new) result.ending }
{
    let running = match Running::begin(alloc, script, server, seat, passes) {
        Ok(running) => running,
        Err(_) => return Replayed::nothing(alloc, Ending::NoMemory),
    };
    match begin_session(alloc, disk, volume) {
        Ok(session) => replay_over(alloc, script, server, seat, running, disk, session),
        Err(ending) => {
            running.close(alloc, server, seat);
            Replayed::nothing(alloc, ending)
        }
    }
}

/// Runs a script over any files, by the calls of the regions that were opened for it: the files are recovered, its lines are run
/// in their order, and at the end, whatever ends the run, regions are closed, the seat gathers all passes, and what was logged is
/// flushed unless the disk failed. `volume` is the volume limit, 1,024 to 1,073,741,824 bytes.
pub fn replay_script<D: Disk>(
    alloc: Global,
    script: Script,
    opened: &mut Opened,
    disk: &mut D,
    volume: u64,
) -> Replayed
    requires rules { KeepsRules script }
    requires fresh { IsOpened script 1 opened.old }
    requires limit { (1024 ≤ volume) × (volume ≤ 1073741824) }
    // Over any disk the lines of the fold were run up to its end, by the regions that were handed in and nothing else, and what is written is
    // theirs. Over a disk that tells, the files went by the fold's events, as far as the opening and each flush tell: from each on, a crash leaves
    // all that it acknowledged; and at any moment, over a settled disk, all items of the start and some first ones of the run. Where the disk failed before
    // results were written that were held, the run ended at the tick of the first of these, though its regions went on.
    ensures runs { (seat : Seated) → slice_get opened.new.seats.items 0 ≡ Some seat → IsReplay D.Disk script volume opened.new.server seat.tokens disk.old disk.new result }
    ensures seated { (seat : Seated) → slice_get opened.new.seats.items 0 ≡ Some seat → IsSeated opened.new.server seat.tokens }
    ensures seats { length opened.new.seats.items ≡ 1 }
    // No list of passes is left.
    ensures passes { opened.new.passes.items ≡ [] }
    ensures server { opened.new.server ≡ opened.old.server }
    // Where the files can't be read nothing is written.
    ensures unread { D.tells → (Readable (contents_of (D.held disk.old)) → ⊥) → LeavesOnly D.moment D.left_since disk.old disk.new (CrashImage (D.held disk.old)) }
    ensures cause { MayEnd (D.faults disk.old) (D.faults disk.new) result.ending }
    ensures later { D.faults disk.old ≤ D.faults disk.new }
    // Unless it ends by a fault of the disk, or before its first line, no call of the disk has failed.
    ensures quiet { LeavesCount (D.faults disk.old) (D.faults disk.new) result.ending }
{
    let passes = mem::replace(&mut opened.passes, Vec::new(alloc));
    let seat = &mut opened.seats[0];
    replay_with(alloc, &script, &opened.server, seat, passes, disk, volume)
}
