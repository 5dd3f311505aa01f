//! The writes of the runs that are held, one run after another. No memory is taken.
ghost use Rattle.std.specs.Prelude.{◌≡◌, ◌<◌, ◌≤◌, ℕ, [], ◌∷◌, List as Sequence, IfOk, IfErr};
ghost use Rattle.pcp_model.specs.declared.records.MetaRecord.{MetaRecord as Record};
ghost use Rattle.pcp_outside.specs.Causes.{HasCause};
ghost use Rattle.pcp_outside.specs.Devices.{LeavesOnly};
ghost use Rattle.logger_core.specs.declared.ends.Ends.{Ends as Numbers};
ghost use Rattle.logger_core.specs.Going.{AreSmall, HoldsNoMore, OnlyGrows};
ghost use Rattle.logger_core.specs.Grouping.{AreAllEnough, AreWritten, BeginsRun, Told, samples_of};
ghost use Rattle.logger_core.specs.Held.{AreRuns, AreRunsBounded, IsRunBounded, IsRunOf, RunWritten, after_run, after_runs, counts_of, run_files};
ghost use Rattle.logger_core.specs.Meant.{Meant, IsAt};
ghost use Rattle.logger_core.specs.Passing.{HasPassedFirst};
ghost use Rattle.logger_core.specs.Runs.{SurvivesWith};

use crate::ends::Ends;
use crate::groups::Run;
use crate::running::write_run;
use crate::switching::make_room;
use pcp_model::Label;
use pcp_outside::{Disk, Failed};

/// Writes a run where it has its place.
fn write_one<D: Disk>(disk: &mut D, label: &Label, ends: &Ends, run: &Run) -> Result<Ends, Failed>
    requires small { AreSmall ends.now }
    requires bounded { IsRunBounded ends.now run.now }
    ensures ok { D.tells → (m : Meant) (limit : ℕ) (group : Sequence Told) (now : Sequence Record) (after : Numbers) → IsAt m ends.now (D.held disk.old) → m.contents.label ≡ label.now → IsRunOf m.contents.records ends.now limit run.now group now after → AreAllEnough group
        → IfOk result (λ e. RunWritten m ends.now e limit (run.now ∷ []) group now (D.held disk.new)) }
    ensures any_moment { D.tells → (m : Meant) (limit : ℕ) (group : Sequence Told) (now : Sequence Record) (after : Numbers) → IsAt m ends.now (D.held disk.old) → m.contents.label ≡ label.now → IsRunOf m.contents.records ends.now limit run.now group now after → AreAllEnough group
        → LeavesOnly D.moment D.left_since disk.old disk.new (SurvivesWith m (samples_of group)) }
    ensures exact { IfOk result (λ e. e ≡ after_run ends.now run.now) }
    ensures small { IfOk result AreSmall }
    ensures grows { D.tells → OnlyGrows (D.held disk.old) (D.held disk.new) }
    ensures most { D.tells → (m : Meant) (limit : ℕ) (group : Sequence Told) (now : Sequence Record) (after : Numbers) → IsAt m ends.now (D.held disk.old) → m.contents.label ≡ label.now → IsRunOf m.contents.records ends.now limit run.now group now after → AreAllEnough group
        → HoldsNoMore (run_files m.contents.label ends.now run.now m.files) (D.held disk.new) }
    ensures cause { HasCause (D.faults disk.old) (D.faults disk.new) result }
{
    let start = make_room(disk, label, ends, run.crossing)?;
    let (records, items) = (run.records.as_slice(), run.items.as_slice());
    write_run(disk, &start, records, items, run.count as u64, run.stamp)
}

/// Writes all runs. Where the disk fails, the error is how many results the runs hold that were written whole.
pub(crate) fn write_runs<D: Disk>(
    disk: &mut D,
    label: &Label,
    ends: &Ends,
    runs: &[Run],
) -> Result<Ends, u32>
    requires small { AreSmall ends.now }
    requires bounded { AreRunsBounded ends.now runs.now }
    requires few { counts_of runs.now < 4294967296 }
    ensures ok { D.tells → (m : Meant) (limit : ℕ) (group : Sequence Told) (now : Sequence Record) (after : Numbers) → IsAt m ends.now (D.held disk.old) → m.contents.label ≡ label.now → AreRuns m.contents.records ends.now limit runs.now group now after → AreAllEnough group
        → IfOk result (λ e. RunWritten m ends.now e limit runs.now group now (D.held disk.new)) }
    ensures any_moment { D.tells → (m : Meant) (limit : ℕ) (group : Sequence Told) (now : Sequence Record) (after : Numbers) → IsAt m ends.now (D.held disk.old) → m.contents.label ≡ label.now → AreRuns m.contents.records ends.now limit runs.now group now after → AreAllEnough group
        → LeavesOnly D.moment D.left_since disk.old disk.new (SurvivesWith m (samples_of group)) }
    ensures exact { IfOk result (λ e. e ≡ after_runs ends.now runs.now) }
    ensures small { IfOk result AreSmall }
    ensures written { D.tells → (m : Meant) (limit : ℕ) (group : Sequence Told) (now : Sequence Record) (after : Numbers) → IsAt m ends.now (D.held disk.old) → m.contents.label ≡ label.now → AreRuns m.contents.records ends.now limit runs.now group now after → AreAllEnough group
        → IfErr result (λ k. AreWritten m ends.now.volume limit group k (D.held disk.new)) }
    ensures passed { D.tells → (m : Meant) (limit : ℕ) (group : Sequence Told) (now : Sequence Record) (after : Numbers) → IsAt m ends.now (D.held disk.old) → m.contents.label ≡ label.now → AreRuns m.contents.records ends.now limit runs.now group now after → AreAllEnough group
        → IfErr result (λ k. HasPassedFirst D.Disk m ends.now.volume limit group k disk.old disk.new) }
    ensures begins { (records : Sequence Record) (limit : ℕ) (group : Sequence Told) (now : Sequence Record) (after : Numbers) → AreRuns records ends.now limit runs.now group now after → IfErr result (λ k. BeginsRun records ends.now limit group k) }
    ensures nothing { runs.now ≡ [] → disk.new ≡ disk.old }
    ensures few { IfErr result (λ k. k < counts_of runs.now) }
    ensures cause { HasCause (D.faults disk.old) (D.faults disk.new) result }
{
    let Some((first, rest)) = runs.split_first() else {
        return Ok(*ends);
    };
    match write_one(disk, label, ends, first) {
        Err(_) => Err(0),
        Ok(next) => match write_runs(disk, label, &next, rest) {
            Ok(last) => Ok(last),
            Err(k) => Err(first.count + k),
        },
    }
}
