//! How a batch writes what it holds, and makes sure what was logged.
ghost use Rattle.std.specs.Prelude.{◌≡◌, ◌<◌, ◌≤◌, [], false, List as Sequence, Ok, IfErr, OnErr, OnOk};
ghost use Rattle.pcp_outside.specs.Causes.{Rose};
ghost use Rattle.pcp_outside.specs.Devices.{LeavesOnly};
ghost use Rattle.logger_core.specs.Going.{IsVolumeSure};
ghost use Rattle.logger_core.specs.Grouping.{Told, samples_of};
ghost use Rattle.logger_core.specs.Held.{counts_of};
ghost use Rattle.logger_core.specs.Holding.{IsHolding, written_back};
ghost use Rattle.logger_core.specs.Meant.{IsLogger, Meant, SurvivesOf};
ghost use Rattle.logger_core.specs.Runs.{SurvivesWith};
ghost use Rattle.logging_session.specs.Answers.{HasPassedBut, IsMadeSure};

use logger_core::{Batch, LogFault};
use pcp_outside::Disk;

/// Writes all that is held. Where the disk fails the error is how many of the results are lost; the first of them may stand.
pub(crate) fn write_held<D: Disk>(batch: &mut Batch, disk: &mut D) -> Result<(), u32>
    requires open_ { batch.old.kept.closed ≡ false }
    ensures done { D.tells → (m o : Meant) (pending : Sequence Told) → IsHolding m batch.old pending o (D.held disk.old) → OnOk result (IsHolding o batch.new [] o (D.held disk.new)) }
    ensures emptied { OnOk result (batch.new ≡ written_back batch.old) }
    ensures any_moment { D.tells → (m o : Meant) (pending : Sequence Told) → IsHolding m batch.old pending o (D.held disk.old) → LeavesOnly D.moment D.left_since disk.old disk.new (SurvivesWith m (samples_of pending)) }
    ensures passed { D.tells → (m o : Meant) (pending : Sequence Told) → IsHolding m batch.old pending o (D.held disk.old) → IfErr result (λ lost. HasPassedBut D.Disk m batch.old pending lost disk.old disk.new) }
    ensures idle { counts_of batch.old.runs ≡ 0 → (result ≡ Ok tt) × (batch.new ≡ batch.old) × (disk.new ≡ disk.old) }
    ensures lost { IfErr result (λ lost. (0 < lost) × (lost ≤ counts_of batch.old.runs) × Rose (D.faults disk.old) (D.faults disk.new)) }
    ensures later { D.faults disk.old ≤ D.faults disk.new }
    ensures quiet { OnOk result (D.faults disk.new ≡ D.faults disk.old) }
{
    let held = batch.held();
    match batch.write(disk) {
        Ok(()) => Ok(()),
        Err((written, _)) => Err(held - written),
    }
}

/// Makes all that was written sure, and where that is wanted puts an entry behind the index where one is due. Nothing is held.
fn make_written_sure<D: Disk>(
    batch: &mut Batch,
    disk: &mut D,
    puts_entry: bool,
) -> Result<(), LogFault>
    requires open_ { batch.old.kept.closed ≡ false }
    requires none { batch.old.runs ≡ [] }
    ensures done { D.tells → (m : Meant) → IsLogger m batch.old.kept (D.held disk.old) → OnOk result (IsMadeSure puts_entry m batch.old.kept batch.new.kept (D.held disk.new)) }
    ensures open_ { OnOk result ((batch.new.kept.limit ≡ batch.old.kept.limit) × (batch.new.kept.closed ≡ false)) }
    ensures none { (batch.new.runs ≡ []) × (batch.new.planned ≡ batch.new.kept.ends) }
    ensures any_moment { D.tells → (m : Meant) → IsLogger m batch.old.kept (D.held disk.old) → LeavesOnly D.moment D.left_since disk.old disk.new (SurvivesOf m) }
    ensures sure { D.tells → OnOk result (IsVolumeSure batch.new.kept.ends.volume (D.held disk.new)) }
    ensures rose { OnErr result (Rose (D.faults disk.old) (D.faults disk.new)) }
    ensures later { D.faults disk.old ≤ D.faults disk.new }
    ensures quiet { OnOk result (D.faults disk.new ≡ D.faults disk.old) }
{
    if puts_entry {
        return batch.flush(disk);
    }
    batch.sync(disk)
}

/// Writes all that is held, makes all that was logged sure, and where that is wanted puts an entry behind the index where one is due. Where the
/// disk fails the error is how many of the results are lost.
pub(crate) fn make_batch_sure<D: Disk>(
    batch: &mut Batch,
    disk: &mut D,
    puts_entry: bool,
) -> Result<(), u32>
    requires open_ { batch.old.kept.closed ≡ false }
    ensures done { D.tells → (m o : Meant) (pending : Sequence Told) → IsHolding m batch.old pending o (D.held disk.old) → OnOk result (IsMadeSure puts_entry o (written_back batch.old).kept batch.new.kept (D.held disk.new)) }
    ensures open_ { OnOk result ((batch.new.kept.limit ≡ batch.old.kept.limit) × (batch.new.kept.closed ≡ false) × (batch.new.runs ≡ []) × (batch.new.planned ≡ batch.new.kept.ends)) }
    ensures any_moment { D.tells → (m o : Meant) (pending : Sequence Told) → IsHolding m batch.old pending o (D.held disk.old) → LeavesOnly D.moment D.left_since disk.old disk.new (SurvivesWith m (samples_of pending)) }
    ensures passed { D.tells → (m o : Meant) (pending : Sequence Told) → IsHolding m batch.old pending o (D.held disk.old) → IfErr result (λ lost. HasPassedBut D.Disk m batch.old pending lost disk.old disk.new) }
    ensures sure { D.tells → OnOk result (IsVolumeSure batch.new.kept.ends.volume (D.held disk.new)) }
    ensures lost { IfErr result (λ lost. (lost ≤ counts_of batch.old.runs) × Rose (D.faults disk.old) (D.faults disk.new)) }
    ensures later { D.faults disk.old ≤ D.faults disk.new }
    ensures quiet { OnOk result (D.faults disk.new ≡ D.faults disk.old) }
{
    match write_held(batch, disk) {
        Ok(()) => match make_written_sure(batch, disk, puts_entry) {
            Ok(()) => Ok(()),
            Err(_) => Err(0),
        },
        Err(lost) => Err(lost),
    }
}
