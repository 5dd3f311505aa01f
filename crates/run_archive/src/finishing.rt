//! The end of a run, whatever ends it: what was logged is flushed unless the disk failed, and told.
ghost use Rattle.std.specs.Prelude.{◌≡◌, ◌≢◌, ◌⊎◌, ◌≤◌, ◌-◌, ◌++◌, [], ℕ, codes, length};
ghost use Rattle.pcp_model.specs.Disk.{IsSettled, contents_of};
ghost use Rattle.pcp_outside.specs.Causes.{Rose};
ghost use Rattle.logging_session.specs.Course.{WentBy};
ghost use Rattle.logging_session.specs.Events.{closing};
ghost use Rattle.logging_session.specs.Keeping.{AreWhole, Carried, IsFailed, held_in, lost_in};
ghost use Rattle.script_runs.specs.Archives.{run_label};
ghost use Rattle.script_runs.specs.declared.ending.Ending.TheVariants.{Done as AtEnd, DiskFault as Failing, NoMemory as Refused};
ghost use Rattle.text_lines.specs.Spelling.{one_number};
ghost use Rattle.run_archive.specs.Endings.{EndsAs, MayEnd, before_lost, told_behind};
ghost use Rattle.run_archive.specs.Kept.{KeepsRun, OverAny};

use crate::replayed::Replayed;
use logger_core::LogFault;
use logging_session::Session;
use pcp_base::List;
use pcp_outside::Disk;
use script_runs::{Ending, make_room, put_one};

/// Flushes what was logged, unless the run ends by a disk that failed: then nothing is done. Where the disk fails now the run ends by that,
/// whatever ended it before; else its ending stays.
fn flush_last<D: Disk>(disk: &mut D, session: &mut Session, ending: Ending) -> Ending
    requires unfailed { ending ≢ Failing → IsFailed session.old → ⊥ }
    ensures flushed { result ≢ Failing → OverAny D.Disk session.old disk.old (λ left events start. KeepsRun D.Disk left (closing events) start session.new disk.new × (held_in session.new.place ≡ 0) × IsSettled (D.held disk.new) × (AreWhole left → AreWhole (contents_of (D.held disk.new)))) }
    ensures fails { ending ≢ Failing → result ≡ Failing → OverAny D.Disk session.old disk.old (λ left events start. WentBy D.Disk run_label session.old.limit left events [] start disk.new) }
    ensures failed { ending ≡ Failing → (result ≡ ending) × (session.new ≡ session.old) × (disk.new ≡ disk.old) }
    // Where the disk fails now at most what was held is lost, and else nothing.
    ensures lost { ending ≢ Failing → lost_in session.new.place ≤ held_in session.old.place }
    ensures unlost { result ≢ Failing → lost_in session.new.place ≡ 0 }
    ensures ends { (result ≡ ending) ⊎ (result ≡ Failing) }
    ensures same { (session.new.limit ≡ session.old.limit) × (session.new.logged ≡ session.old.logged) }
    ensures cause { result ≡ Failing → (ending ≡ Failing) ⊎ Rose (D.faults disk.old) (D.faults disk.new) }
    ensures later { D.faults disk.old ≤ D.faults disk.new }
    ensures quiet { result ≢ Failing → D.faults disk.new ≡ D.faults disk.old }
{
    if let Ending::DiskFault = ending {
        return ending;
    }
    match session.close(disk) {
        Ok(()) => ending,
        Err(fault) => match fault {
            // Memory was refused when the archive was to be opened: nothing was logged.
            LogFault::Closed => ending,
            _ => Ending::DiskFault,
        },
    }
}

/// A run that came to its end tells how many results it logged: the line `logged N` is put behind what was written. Where memory
/// for it is refused nothing is put there, and the run ends by that. Any other ending stays, and nothing is told of it.
fn tell(out: &mut Vec<u8>, ending: Ending, logged: u64) -> Ending
    ensures others { ending ≢ AtEnd → (result ≡ ending) × (out.new.items ≡ out.old.items) }
    ensures told { ending ≡ AtEnd → ((result ≡ AtEnd) × (out.new.items ≡ out.old.items ++ one_number (codes "logged") logged)) ⊎ ((result ≡ Refused) × (out.new.items ≡ out.old.items)) }
{
    let Ending::Done = ending else {
        return ending;
    };
    match make_room(out) {
        Ok(()) => {
            put_one(out, b"logged", logged);
            ending
        }
        Err(_) => Ending::NoMemory,
    }
}

/// Takes away the lines from that of the first lost result on, where the last ones are lost, so many.
fn cut_lines(out: &mut Vec<u8>, marks: &[usize], lost: usize)
    requires within { lost ≤ length marks.now }
    ensures { out.new.items ≡ before_lost marks.now lost out.old.items }
{
    if let Some(mark) = marks.get(marks.len() - lost) {
        out.truncate(*mark);
    }
}

/// Ends a run: what was logged is flushed unless the disk failed, and where the run came to its end it tells how many results it logged. The
/// marks are where the lines of the last ticks begin that logged a result, those of all that are held among them: where the disk failed before
/// some were written the run ended at the tick of the first of them, and its lines are those before it.
pub fn finish<D: Disk>(
    disk: &mut D,
    session: Session,
    out: Vec<u8>,
    marks: &[usize],
    ending: Ending,
) -> Replayed
    requires unfailed { ending ≢ Failing → IsFailed session → ⊥ }
    requires marked { ending ≢ Failing → held_in session.place ≤ length marks.now }
    ensures flushed { result.ending ≢ Failing → OverAny D.Disk session disk.old (λ left events start. (now : Carried) × KeepsRun D.Disk left (closing events) start now disk.new × (now.limit ≡ session.limit) × (held_in now.place ≡ 0) × IsSettled (D.held disk.new) × (AreWhole left → AreWhole (contents_of (D.held disk.new)))) }
    // Where the disk fails now what was acknowledged before stays so.
    ensures fails { ending ≢ Failing → result.ending ≡ Failing → OverAny D.Disk session disk.old (λ left events start. WentBy D.Disk run_label session.limit left events [] start disk.new) }
    ensures failed { ending ≡ Failing → (result.ending ≡ Failing) × (disk.new ≡ disk.old) }
    ensures ends { EndsAs ending result.ending }
    // Results may be lost where the disk failed: they aren't counted, and their lines aren't written.
    ensures told { (lost : ℕ) × (lost ≤ length marks.now) × (lost ≤ session.logged) × (result.ending ≢ Failing → lost ≡ 0) × (result.logged ≡ session.logged - lost)
        × (result.output ≡ told_behind result.ending (before_lost marks.now lost out.items) (session.logged - lost)) }
    // Where it had failed before these are those that the session lost.
    ensures lost { ending ≡ Failing → lost_in session.place ≤ length marks.now → result.logged ≡ session.logged - lost_in session.place }
    ensures cause { (before : ℕ) → before ≤ D.faults disk.old → MayEnd before (D.faults disk.old) ending → MayEnd before (D.faults disk.new) result.ending }
    ensures rose { result.ending ≡ Failing → (ending ≡ Failing) ⊎ Rose (D.faults disk.old) (D.faults disk.new) }
    ensures later { D.faults disk.old ≤ D.faults disk.new }
    ensures quiet { result.ending ≢ Failing → D.faults disk.new ≡ D.faults disk.old }
{
    let (mut session, mut out) = (session, out);
    let ending = flush_last(disk, &mut session, ending);
    let lost = marks.len().min(session.lost() as usize);
    let logged = session.logged() - lost as u64;
    cut_lines(&mut out, marks, lost);
    let ending = tell(&mut out, ending, logged);
    Replayed {
        output: List::from_vec(out),
        ending,
        logged,
    }
}
