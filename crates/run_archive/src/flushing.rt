//! A line that flushes.
ghost use Rattle.std.specs.Prelude.{◌≡◌, ◌≢◌, ◌⊎◌, ◌≤◌, [], ℕ, List as Sequence, IfErr, OnErr, OnOk};
ghost use Rattle.pcp_model.specs.Disk.{Files as AllFiles};
ghost use Rattle.logging_session.specs.Course.{WentBy};
ghost use Rattle.logging_session.specs.Events.{Event, flushed_behind, items_by};
ghost use Rattle.logging_session.specs.Keeping.{IsFailed, IsWorking, held_in, lost_in};
ghost use Rattle.script_runs.specs.Archives.{run_label};
ghost use Rattle.script_runs.specs.declared.ending.Ending.TheVariants.{DiskFault as Failing, NoMemory as Refused};
ghost use Rattle.run_archive.specs.Endings.{MayEnd, flushed_line};
ghost use Rattle.run_archive.specs.Kept.{KeepsRun, OverAny};

use logging_session::Session;
use pcp_outside::Disk;
use script_runs::{Ending, make_room, put_one};

/// Runs a line that flushes: before the run's first result nothing is done or written. Where memory for its line is refused nothing is done.
pub fn flush_line<D: Disk>(
    disk: &mut D,
    session: &mut Session,
    out: &mut Vec<u8>,
) -> Result<(), Ending>
    requires working { IsWorking session.old }
    ensures same { (session.new.label ≡ session.old.label) × (session.new.limit ≡ session.old.limit) × (session.new.logged ≡ session.old.logged) }
    ensures working { OnOk result (IsWorking session.new) }
    // Nothing is held any more. Only what was held may be lost.
    ensures none { OnOk result (held_in session.new.place ≡ 0) }
    ensures unheld { OnErr result (held_in session.new.place ≤ held_in session.old.place) }
    ensures lost { lost_in session.new.place ≤ held_in session.old.place }
    ensures unfailed { IfErr result (λ e. e ≢ Failing → IsFailed session.new → ⊥) }
    ensures flushes { OnOk result (OverAny D.Disk session.old disk.old (λ left events start. KeepsRun D.Disk left (flushed_behind (items_by events) events) start session.new disk.new)) }
    ensures written { OnOk result (out.new.items ≡ flushed_line out.old.items session.old.logged) }
    ensures unwritten { OnErr result (out.new.items ≡ out.old.items) }
    ensures kinds { IfErr result (λ e. (e ≡ Failing) ⊎ ((e ≡ Refused) × (session.new ≡ session.old) × (disk.new ≡ disk.old))) }
    // Where the disk failed what was acknowledged before stays so.
    ensures failed { IfErr result (λ e. e ≡ Failing → OverAny D.Disk session.old disk.old (λ left events start. WentBy D.Disk run_label session.old.limit left events [] start disk.new)) }
    ensures cause { IfErr result (MayEnd (D.faults disk.old) (D.faults disk.new)) }
    ensures later { D.faults disk.old ≤ D.faults disk.new }
    ensures quiet { OnOk result (D.faults disk.new ≡ D.faults disk.old) }
    ensures still { IfErr result (λ e. e ≢ Failing → D.faults disk.new ≡ D.faults disk.old) }
{
    let logged = session.logged();
    if logged == 0 {
        return Ok(());
    }
    let Ok(()) = make_room(out) else {
        return Err(Ending::NoMemory);
    };
    match session.flush(disk) {
        Ok(()) => {
            put_one(out, b"flushed", logged);
            Ok(())
        }
        Err(_) => Err(Ending::DiskFault),
    }
}
