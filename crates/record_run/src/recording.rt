//! The recording of a script over any files.
ghost use Rattle.std.specs.Prelude.{◌≡◌, ◌≢◌, ◌⊎◌, ◌≤◌, ◌∷◌, [], ℕ, None, Some, length, slice_get};
ghost use Rattle.fetch_engine.specs.Servers.{IsSeated, Seated};
ghost use Rattle.pcp_model.specs.Archive.{Readable};
ghost use Rattle.pcp_model.specs.Disk.{CrashImage, contents_of};
ghost use Rattle.pcp_outside.specs.Devices.{LeavesOnly};
ghost use Rattle.run_script.specs.Rules.{KeepsRules};
ghost use Rattle.run_passes.specs.Openings.{AreMade, IsOpened};
ghost use Rattle.script_runs.specs.Archives.{run_label as label_of_runs};
ghost use Rattle.script_runs.specs.declared.ending.Ending.TheVariants.{DiskFault as Failing, Done as AtEnd, NoMemory as Refused};
ghost use Rattle.logging_session.specs.Keeping.{IsFailed, IsWorking, held_in};
ghost use Rattle.run_script.specs.Recording.{refused_line};
ghost use Rattle.record_run.specs.Beside.{Beside, TellWriters};
ghost use Rattle.record_run.specs.Halting.{Halts, IsRecorded, RefusedBy};
ghost use Rattle.record_run.specs.Pictured.{AreImages};
ghost use Rattle.record_run.specs.Recordings.{IsRecording, MayEndRecording};

use crate::gathering::gather_all;
use crate::images::images_are;
use crate::replay::ending_of;
use crate::samples::{beside, written};
use archive_frame::Label;
use archive_recovery::{Archive, recover};
use fetch_engine::{Seat, Server};
use logging_session::Session;
use pcp_outside::{Clock, Disk, Turn};
use region_words::Pass;
use run_archive::{Replayed, Sampler, finish, run_label, sample};
use run_passes::Opened;
use run_script::Script;
use script_runs::Ending;
use std::alloc::Global;
use std::mem;
use std::sync::Wait;
use std::thread::Threads;

/// How a recording ends whose writers were refused memory, and which would end so: a disk that failed stands before it.
fn refused(ending: Ending) -> Ending
    ensures { RefusedBy ending result }
{
    match ending {
        Ending::DiskFault => Ending::DiskFault,
        _ => Ending::NoMemory,
    }
}

/// Runs the writers and takes the samples: how the recording ends, before what was logged is flushed.
fn run<'a, R: Threads + Wait + Sync, D: Disk, C: Clock, T: Turn + Sync>(
    rt: &R,
    alloc: Global,
    script: &'a Script,
    server: &Server,
    seat: &mut Seat,
    passes: &mut Vec<Vec<Pass>>,
    disk: &mut D,
    clock: &mut C,
    turn: &T,
    sampler: &mut Sampler<'a>,
    samples: u32,
) -> Ending
    requires rules { KeepsRules script.now }
    requires record { refused_line script.now ≡ None }
    requires made { AreMade script.now server.now passes.old.items (seat.old ∷ []) }
    requires images { AreImages script.now }
    requires working { IsWorking sampler.old.session }
    requires none { sampler.old.session.logged ≡ 0 }
    requires unheld { held_in sampler.old.session.place ≡ 0 }
    requires unstarted { sampler.old.plans ≡ None }
    requires some { 1 ≤ samples }
    ensures halts { Halts C.Clock D.Disk clock.old clock.new sampler.old.session sampler.new.session disk.old disk.new script.now samples server.now seat.old.tokens seat.new.tokens result }
    ensures same { (sampler.new.session.label ≡ sampler.old.session.label) × (sampler.new.session.limit ≡ sampler.old.session.limit) }
    ensures seated { IsSeated server.now seat.new.tokens }
    ensures writers { TellWriters script.now server.now seat.new.tokens passes.new.items result }
    ensures cause { MayEndRecording C.Clock D.Disk clock.old clock.new disk.old disk.new result }
    ensures unfailed { result ≢ Failing → IsFailed sampler.new.session → ⊥ }
    // Between samples nothing is held.
    ensures unheld { held_in sampler.new.session.place ≡ 0 }
    ensures later { D.faults disk.old ≤ D.faults disk.new }
    ensures clock_later { C.faults clock.old ≤ C.faults clock.new }
    ensures quiet { result ≡ AtEnd → (D.faults disk.new ≡ D.faults disk.old) × (C.faults clock.new ≡ C.faults clock.old) }
{
    let (written, early) = beside(
        rt, alloc, script, server, seat, passes, disk, clock, turn, sampler, samples,
    );
    let mut done = match written {
        Ok(done) => done,
        Err(_) => match early {
            Ok(()) => return Ending::NoMemory,
            Err(ending) => return refused(ending),
        },
    };
    gather_all(alloc, server, seat, &mut done);
    *passes = done;
    if let Err(ending) = early {
        return ending;
    }
    match sample(
        alloc,
        disk,
        clock,
        turn,
        sampler,
        script,
        server,
        seat,
        u64::from(samples - 1),
        1,
    ) {
        Ok(()) => Ending::Done,
        Err(ending) => ending,
    }
}

/// Records over the archive that recovery left and told: runs the writers with the samples beside them, and flushes.
fn record_over<R: Threads + Wait + Sync, D: Disk, C: Clock, T: Turn + Sync>(
    rt: &R,
    alloc: Global,
    script: &Script,
    server: &Server,
    seat: &mut Seat,
    passes: &mut Vec<Vec<Pass>>,
    disk: &mut D,
    clock: &mut C,
    turn: &T,
    archive: Archive,
    label: Label,
    samples: u32,
    volume: u64,
) -> Replayed
    requires rules { KeepsRules script.now }
    requires record { refused_line script.now ≡ None }
    requires made { AreMade script.now server.now passes.old.items (seat.old ∷ []) }
    requires images { AreImages script.now }
    requires label { label ≡ label_of_runs }
    requires limit { (1024 ≤ volume) × (volume ≤ 1073741824) }
    requires some { 1 ≤ samples }
    ensures seated { IsSeated server.now seat.new.tokens }
    ensures writers { TellWriters script.now server.now seat.new.tokens passes.new.items result.ending }
    ensures records { IsRecorded C.Clock D.Disk clock.old clock.new archive disk.old disk.new script.now volume samples server.now seat.old.tokens seat.new.tokens result result.ending }
    ensures cause { MayEndRecording C.Clock D.Disk clock.old clock.new disk.old disk.new result.ending }
    ensures later { D.faults disk.old ≤ D.faults disk.new }
    ensures clock_later { C.faults clock.old ≤ C.faults clock.new }
    ensures quiet { result.ending ≡ AtEnd → (D.faults disk.new ≡ D.faults disk.old) × (C.faults clock.new ≡ C.faults clock.old) }
{
    let session = Session::begin(archive, label, volume);
    let mut sampler = Sampler {
        session,
        plans: None,
    };
    let ending = run(
        rt,
        alloc,
        script,
        server,
        seat,
        passes,
        disk,
        clock,
        turn,
        &mut sampler,
        samples,
    );
    finish(disk, sampler.session, Vec::new(alloc), &[], ending)
}

/// Runs the writers where the files were refused: nothing is sampled or logged.
fn unrecorded<R: Threads + Wait + Sync, T: Turn + Sync>(
    rt: &R,
    alloc: Global,
    script: &Script,
    server: &Server,
    seat: &mut Seat,
    passes: &mut Vec<Vec<Pass>>,
    turn: &T,
    ending: Ending,
) -> Replayed
    requires rules { KeepsRules script.now }
    requires record { refused_line script.now ≡ None }
    requires made { AreMade script.now server.now passes.old.items (seat.old ∷ []) }
    requires images { AreImages script.now }
    ensures beside { ending ≢ AtEnd → Beside script.now server.now seat.old.tokens seat.new.tokens result.ending [] [] }
    ensures seated { IsSeated server.now seat.new.tokens }
    ensures writers { TellWriters script.now server.now seat.new.tokens passes.new.items result.ending }
    ensures output { result.output ≡ [] }
    ensures logged { result.logged ≡ 0 }
    ensures ending { (result.ending ≡ ending) ⊎ ((ending ≢ Failing) × (result.ending ≡ Refused)) }
{
    let own = mem::replace(passes, Vec::new(alloc));
    match written(rt, alloc, script, server, own, turn) {
        Ok(mut done) => {
            gather_all(alloc, server, seat, &mut done);
            *passes = done;
            Replayed::nothing(alloc, ending)
        }
        Err(_) => Replayed::nothing(alloc, refused(ending)),
    }
}

/// Records over any files, which are recovered first; where they are refused the writers run, and nothing is sampled.
fn record_with<R: Threads + Wait + Sync, D: Disk, C: Clock, T: Turn + Sync>(
    rt: &R,
    alloc: Global,
    script: &Script,
    server: &Server,
    seat: &mut Seat,
    passes: &mut Vec<Vec<Pass>>,
    disk: &mut D,
    clock: &mut C,
    turn: &T,
    samples: u32,
    volume: u64,
) -> Replayed
    requires rules { KeepsRules script.now }
    requires record { refused_line script.now ≡ None }
    requires made { AreMade script.now server.now passes.old.items (seat.old ∷ []) }
    requires images { AreImages script.now }
    requires limit { (1024 ≤ volume) × (volume ≤ 1073741824) }
    requires some { 1 ≤ samples }
    ensures records { IsRecording C.Clock D.Disk clock.old clock.new disk.old disk.new script.now volume samples server.now seat.old.tokens seat.new.tokens result }
    ensures seated { IsSeated server.now seat.new.tokens }
    ensures writers { TellWriters script.now server.now seat.new.tokens passes.new.items result.ending }
    ensures unread { D.tells → (Readable (contents_of (D.held disk.old)) → ⊥) → LeavesOnly D.moment D.left_since disk.old disk.new (CrashImage (D.held disk.old)) }
    ensures cause { MayEndRecording C.Clock D.Disk clock.old clock.new disk.old disk.new result.ending }
    ensures later { D.faults disk.old ≤ D.faults disk.new }
    ensures clock_later { C.faults clock.old ≤ C.faults clock.new }
    ensures quiet { result.ending ≡ AtEnd → (D.faults disk.new ≡ D.faults disk.old) × (C.faults clock.new ≡ C.faults clock.old) }
{
    // The label comes first: where memory for it is refused neither the disk nor the clock is touched.
    let Ok(label) = run_label(alloc) else {
        return unrecorded(
            rt,
            alloc,
            script,
            server,
            seat,
            passes,
            turn,
            Ending::NoMemory,
        );
    };
    match recover(alloc, disk) {
        Ok(archive) => record_over(
            rt, alloc, script, server, seat, passes, disk, clock, turn, archive, label, samples,
            volume,
        ),
        Err(fault) => {
            let ending = ending_of(fault);
            unrecorded(rt, alloc, script, server, seat, passes, turn, ending)
        }
    }
}

/// Records a script over any files, with its writers running beside each other on the regions that were opened for it: the files are
/// recovered; the writers run their lines by calls that wait, and beside them a sample is taken at each moment of the clock but the last;
/// then the seat gathers the writers' passes, and takes the last sample. What was logged is flushed unless the disk failed. `samples` is
/// at least 1: however the recording ends, no more moments are taken. `volume` is the volume limit, 1,024 to 1,073,741,824 bytes. Where the
/// files are refused the writers run all the same, and nothing is sampled.
pub fn record_script<R: Threads + Wait + Sync, D: Disk, C: Clock, T: Turn + Sync>(
    rt: &R,
    alloc: Global,
    script: Script,
    opened: &mut Opened,
    disk: &mut D,
    clock: &mut C,
    turn: &T,
    samples: u32,
    volume: u64,
) -> Replayed
    requires rules { KeepsRules script }
    requires record { refused_line script ≡ None }
    requires fresh { IsOpened script 1 opened.old }
    requires limit { (1024 ≤ volume) × (volume ≤ 1073741824) }
    requires some { 1 ≤ samples }
    // What was sampled and logged stands beside the writers' own entries, in the journals that the seat's passes have seen.
    ensures records { (first last : Seated) → slice_get opened.old.seats.items 0 ≡ Some first → slice_get opened.new.seats.items 0 ≡ Some last
        → IsRecording C.Clock D.Disk clock.old clock.new disk.old disk.new script volume samples opened.new.server first.tokens last.tokens result }
    ensures seats { length opened.new.seats.items ≡ 1 }
    ensures server { opened.new.server ≡ opened.old.server }
    ensures seated { (last : Seated) → slice_get opened.new.seats.items 0 ≡ Some last → IsSeated opened.new.server last.tokens }
    // The passes are used up, and what is left of them tells whether the writers ended: where it has a list for each region each pass made
    // the entries of all its own lines, however the recording ended; else memory was refused to the writers.
    ensures writers { (last : Seated) → slice_get opened.new.seats.items 0 ≡ Some last → TellWriters script opened.new.server last.tokens opened.new.passes.items result.ending }
    // Where the files can't be read nothing is written.
    ensures unread { D.tells → (Readable (contents_of (D.held disk.old)) → ⊥) → LeavesOnly D.moment D.left_since disk.old disk.new (CrashImage (D.held disk.old)) }
    ensures cause { MayEndRecording C.Clock D.Disk clock.old clock.new disk.old disk.new result.ending }
    ensures later { D.faults disk.old ≤ D.faults disk.new }
    ensures clock_later { C.faults clock.old ≤ C.faults clock.new }
    // Where it comes to its end no call of the disk or of the clock has failed.
    ensures quiet { result.ending ≡ AtEnd → (D.faults disk.new ≡ D.faults disk.old) × (C.faults clock.new ≡ C.faults clock.old) }
{
    images_are(&script);
    let seat = &mut opened.seats[0];
    record_with(
        rt,
        alloc,
        &script,
        &opened.server,
        seat,
        &mut opened.passes,
        disk,
        clock,
        turn,
        samples,
        volume,
    )
}
