//! What a recording logged is made sure.
ghost use Rattle.std.specs.Prelude.{◌≡◌, ◌≤◌, [], IfErr, OnErr, OnOk};
ghost use Rattle.pcp_outside.specs.Causes.{Rose};
ghost use Rattle.logging_session.specs.Course.{WentBy};
ghost use Rattle.logging_session.specs.Events.{Event, behind};
ghost use Rattle.logging_session.specs.Keeping.{IsWorking, held_in};
ghost use Rattle.script_runs.specs.Archives.{run_label};
ghost use Rattle.script_runs.specs.declared.ending.Ending.TheVariants.{DiskFault as Failing};
ghost use Rattle.run_archive.specs.Kept.{KeepsRun, OverAny};

use logging_session::Session;
use pcp_outside::Disk;
use script_runs::Ending;

/// Makes all that was logged sure, and puts no entry behind the index. It is refused by a disk that failed alone, which ends the run: what
/// was acknowledged before stays so.
pub(crate) fn make_sure<D: Disk>(disk: &mut D, session: &mut Session) -> Result<(), Ending>
    requires working { IsWorking session.old }
    ensures same { (session.new.label ≡ session.old.label) × (session.new.limit ≡ session.old.limit) × (session.new.logged ≡ session.old.logged) }
    ensures working { OnOk result (IsWorking session.new) }
    // Nothing is held any more, whatever comes of it.
    ensures none { held_in session.new.place ≡ 0 }
    ensures syncs { OnOk result (OverAny D.Disk session.old disk.old (λ left events start. KeepsRun D.Disk left (behind events Event.synced) start session.new disk.new)) }
    ensures kinds { IfErr result (λ e. e ≡ Failing) }
    ensures failed { OnErr result (OverAny D.Disk session.old disk.old (λ left events start. WentBy D.Disk run_label session.old.limit left events [] start disk.new)) }
    ensures cause { OnErr result (Rose (D.faults disk.old) (D.faults disk.new)) }
    ensures later { D.faults disk.old ≤ D.faults disk.new }
    ensures quiet { OnOk result (D.faults disk.new ≡ D.faults disk.old) }
{
    match session.sync(disk) {
        Ok(()) => Ok(()),
        Err(_) => Err(Ending::DiskFault),
    }
}
