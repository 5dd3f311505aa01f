//! What a sample shows, and logs.
ghost use Rattle.std.specs.Prelude.{◌≡◌, ◌≢◌, ◌<◌, ◌≤◌, ◌+◌, [], ℕ, length, List as Sequence, IfErr, IfOk, OnErr, OnOk, MatchResult};
ghost use Rattle.fetch_answers.specs.Readings.{RegionReading};
ghost use Rattle.fetch_engine.specs.Servers.{IsSeated};
ghost use Rattle.fetch_engine.specs.Visits.{AreLoaded, AreRead};
ghost use Rattle.script_runs.specs.declared.ending.Ending.TheVariants.{DiskFault as Failing};
ghost use Rattle.pcp_outside.specs.Causes.{Rose};
ghost use Rattle.logging_session.specs.Course.{WentBy};
ghost use Rattle.logging_session.specs.Keeping.{IsFailed, IsWorking, held_in, lost_in};
ghost use Rattle.script_runs.specs.Archives.{run_label};
ghost use Rattle.run_archive.specs.Kept.{KeepsRun, OverAny};
ghost use Rattle.run_archive.specs.Logging.{Hides, LogsOne, Shows, StopsOne};
ghost use Rattle.run_archive.specs.Sampling.{MayRefuse};

use crate::ending::ending_after;
use fetch_engine::{FetchFault, Fetched, Seat, Server};
use logging_session::Session;
use pcp_base::{PmResult, Pmid, Stamp};
use pcp_outside::Disk;
use profile_filter::Profile;
use script_runs::{Ending, LimitKind};
use std::alloc::Global;

/// What regions show of these metrics, every instance of them, or how the run ends without it.
fn show(
    alloc: Global,
    server: &Server,
    seat: &mut Seat,
    pmids: &[Pmid],
    now: Stamp,
) -> Result<Fetched, Ending>
    requires seated { IsSeated server.now seat.old.tokens }
    ensures seated { IsSeated server.now seat.new.tokens }
    ensures loads { AreLoaded seat.old.tokens seat.new.tokens }
    ensures shows { MatchResult result (λ fetched. Shows server.now seat.old.tokens pmids.now now seat.new.tokens fetched) (λ e. Hides seat.old.tokens pmids.now e seat.new.tokens) }
{
    match server.fetch(alloc, seat, &Profile::all(alloc), pmids, now) {
        Ok(fetched) => Ok(fetched),
        Err(FetchFault::TooMany { .. }) => Err(Ending::Limit {
            what: LimitKind::Sets,
            number: pmids.len() as u64,
        }),
        Err(FetchFault::NoMemory) => Err(Ending::NoMemory),
    }
}

/// Makes place for a result beside those that are held: where it has none they are written.
fn make_place<D: Disk>(disk: &mut D, session: &mut Session, answer: &PmResult) -> Result<(), Ending>
    requires working { IsWorking session.old }
    ensures same { (session.new.label ≡ session.old.label) × (session.new.limit ≡ session.old.limit) × (session.new.logged ≡ session.old.logged) }
    ensures working { OnOk result (IsWorking session.new) }
    ensures room { OnOk result (held_in session.new.place < 64) }
    ensures held { held_in session.new.place ≤ held_in session.old.place }
    ensures lost { lost_in session.new.place ≤ held_in session.old.place }
    ensures keeps { OnOk result (OverAny D.Disk session.old disk.old (λ left events start. KeepsRun D.Disk left events start session.new disk.new)) }
    ensures kinds { IfErr result (λ e. e ≡ Failing) }
    ensures failed { OnErr result (OverAny D.Disk session.old disk.old (λ left events start. WentBy D.Disk run_label session.old.limit left events [] start disk.new)) }
    ensures cause { OnErr result (Rose (D.faults disk.old) (D.faults disk.new)) }
    ensures later { D.faults disk.old ≤ D.faults disk.new }
    ensures quiet { OnOk result (D.faults disk.new ≡ D.faults disk.old) }
{
    if session.has_room(answer) {
        return Ok(());
    }
    match session.write(disk) {
        Ok(()) => Ok(()),
        Err(_) => Err(Ending::DiskFault),
    }
}

/// Logs what regions show of the metrics that a sample asks for, if it asks for any: it is judged, and held to be written with others. Where it
/// has no place beside those that are held they are written first.
pub(crate) fn log_shown<D: Disk>(
    alloc: Global,
    disk: &mut D,
    session: &mut Session,
    server: &Server,
    seat: &mut Seat,
    pmids: &[Pmid],
    now: Stamp,
) -> Result<(), Ending>
    requires seated { IsSeated server.now seat.old.tokens }
    requires working { IsWorking session.old }
    requires few { session.old.logged < 18446744073709551615 }
    ensures seated { IsSeated server.now seat.new.tokens }
    ensures loads { AreLoaded seat.old.tokens seat.new.tokens }
    ensures same { (session.new.label ≡ session.old.label) × (session.new.limit ≡ session.old.limit) }
    ensures count { session.new.logged ≤ session.old.logged + 1 }
    // At most this one is held beside those that were; what isn't logged isn't. Only what was held may be lost.
    ensures held { OnOk result (held_in session.new.place ≤ held_in session.old.place + 1) }
    ensures unheld { OnErr result (held_in session.new.place ≤ held_in session.old.place) }
    ensures lost { lost_in session.new.place ≤ held_in session.old.place }
    // Where no metric is asked for nothing is done to the archive.
    ensures idle { length pmids.now ≡ 0 → (session.new ≡ session.old) × (disk.new ≡ disk.old) }
    ensures logs { OnOk result (LogsOne D.Disk server.now seat.old.tokens pmids.now now session.old disk.old session.new disk.new seat.new.tokens) }
    ensures stops { IfErr result (StopsOne D.Disk server.now seat.old.tokens pmids.now now session.old disk.old session.new disk.new seat.new.tokens) }
    ensures working { OnOk result (IsWorking session.new) }
    ensures unfailed { IfErr result (λ e. e ≢ Failing → IsFailed session.new → ⊥) }
    ensures cause { IfErr result (MayRefuse (D.faults disk.old) (D.faults disk.new)) }
    ensures later { D.faults disk.old ≤ D.faults disk.new }
    ensures quiet { OnOk result (D.faults disk.new ≡ D.faults disk.old) }
    ensures still { IfErr result (λ e. e ≢ Failing → D.faults disk.new ≡ D.faults disk.old) }
{
    let fetched = show(alloc, server, seat, pmids, now)?;
    if pmids.is_empty() {
        return Ok(());
    }
    make_place(disk, session, &fetched.result)?;
    match session.log(alloc, disk, &fetched.result, &fetched.facts) {
        Ok(()) => Ok(()),
        Err(fault) => Err(ending_after(fault)),
    }
}
