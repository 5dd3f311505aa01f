//! The writes of one logged result: where it goes into the next volume that is opened first.
ghost use Rattle.std.specs.Prelude.{◌≡◌, ◌∷◌, [], ℕ, List as Sequence, IfOk};
ghost use Rattle.pcp_base.specs.declared.result.Item.TheVariants.{Sample};
ghost use Rattle.pcp_outside.specs.Causes.{HasCause};
ghost use Rattle.pcp_outside.specs.Devices.{LeavesOnly};
ghost use Rattle.archive_meta.specs.declared.facts.Facts.{Facts as Told};
ghost use Rattle.pcp_model.specs.declared.records.MetaRecord.{MetaRecord as Record};
ghost use Rattle.logger_core.specs.Going.{AreSmall};
ghost use Rattle.logger_core.specs.Meant.{Meant, IsAt};
ghost use Rattle.logger_core.specs.Runs.{SurvivesWith};
ghost use Rattle.logger_core.specs.Writing.{IsBounded, MayBeWritten, ItemWritten};

use crate::ends::Ends;
use crate::preparing::Made;
use crate::running::write_run;
use crate::switching::make_room;
use pcp_base::PmResult;
use pcp_model::Label;
use pcp_outside::{Disk, Failed};

/// Writes a result that may be logged.
pub(crate) fn write_item<D: Disk>(
    disk: &mut D,
    label: &Label,
    ends: &Ends,
    made: &Made,
    answer: &PmResult,
) -> Result<Ends, Failed>
    requires small { AreSmall ends.now }
    requires bounded { IsBounded ends.now made.now }
    ensures ok { D.tells → (m : Meant) (limit : ℕ) (facts : Told) (after : Sequence Record) → IsAt m ends.now (D.held disk.old) → m.contents.label ≡ label.now → MayBeWritten m ends.now limit answer.now facts after made.now
        → IfOk result (λ e. ItemWritten m ends.now e limit answer.now facts after (D.held disk.new)) }
    ensures any_moment { D.tells → (m : Meant) (limit : ℕ) (facts : Told) (after : Sequence Record) → IsAt m ends.now (D.held disk.old) → m.contents.label ≡ label.now → MayBeWritten m ends.now limit answer.now facts after made.now
        → LeavesOnly D.moment D.left_since disk.old disk.new (SurvivesWith m (Sample answer.now ∷ [])) }
    ensures small { IfOk result AreSmall }
    ensures cause { HasCause (D.faults disk.old) (D.faults disk.new) result }
{
    let start = make_room(disk, label, ends, made.crossing)?;
    write_run(
        disk,
        &start,
        made.records.as_slice(),
        made.item.as_slice(),
        1,
        answer.stamp,
    )
}
