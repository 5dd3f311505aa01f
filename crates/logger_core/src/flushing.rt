//! The writes of a flush: the volume is made sure, and then an entry put behind the index.
ghost use Rattle.std.specs.Prelude.{◌≡◌, IfOk};
ghost use Rattle.pcp_model.specs.Disk.{Files};
ghost use Rattle.pcp_outside.specs.Causes.{HasCause};
ghost use Rattle.pcp_outside.specs.Devices.{LeavesOnly};
ghost use Rattle.std.specs.Prelude.{[], ◌∷◌, option_to_list, Some};
ghost use Rattle.logger_core.specs.Going.{AreSmall, all_acknowledged, all_counted, IsVolumeSure, GrownTo, LeadsToEnds, LeadIfAny, HasRoom, HasRoomIfAny, FlushIsDone, AreHeld, HoldsNoMore, OnlyGrows};
ghost use Rattle.logger_core.specs.Meant.{Meant, IsAt, SurvivesOf, stood_in};
ghost use Rattle.logger_core.specs.Planning.{with_put, flushed_ends};
ghost use Rattle.logger_core.specs.Steps.{due_in, with_entry};

use crate::ends::Ends;
use crate::entries::due;
use crate::planning::{all_counted, with_put};
use pcp_model::Entry;
use pcp_outside::{Disk, Failed, FileId};
use temporal_index::entry_bytes;

/// Makes the volume sure that is written: every item is acknowledged.
pub(crate) fn sync_volume<D: Disk>(disk: &mut D, ends: &Ends) -> Result<Ends, Failed>
    requires { AreSmall ends.now }
    ensures ok { D.tells → (m : Meant) → IsAt m ends.now (D.held disk.old) → IfOk result (λ e. IsAt (all_acknowledged m) e (D.held disk.new)) }
    ensures sure { D.tells → IfOk result (λ e. IsVolumeSure e.volume (D.held disk.new)) }
    ensures any_moment { D.tells → (m : Meant) → IsAt m ends.now (D.held disk.old) → LeavesOnly D.moment D.left_since disk.old disk.new (SurvivesOf m) }
    ensures counted { IfOk result (λ e. e ≡ all_counted ends.now) }
    ensures grows { D.tells → OnlyGrows (D.held disk.old) (D.held disk.new) }
    ensures most { D.tells → (files : Files) → AreHeld files (D.held disk.old) → HoldsNoMore files (D.held disk.new) }
    ensures small { IfOk result AreSmall }
    ensures same { IfOk result (λ e. (e.volume ≡ ends.now.volume) × (e.greatest ≡ ends.now.greatest) × (e.meta ≡ ends.now.meta) × (e.length ≡ ends.now.length)) }
    ensures cause { HasCause (D.faults disk.old) (D.faults disk.new) result }
{
    disk.sync(FileId::Volume(ends.volume))?;
    Ok(all_counted(ends))
}

/// Puts an entry behind the index that leads up to the ends of Meta and of the volume, which are sure, with the greatest stamp.
fn put_entry<D: Disk>(disk: &mut D, ends: &Ends, entry: Entry) -> Result<Ends, Failed>
    requires small { AreSmall ends.now }
    requires room { HasRoom ends.now entry }
    ensures ok { D.tells → (m : Meant) → IsAt m ends.now (D.held disk.old) → LeadsToEnds m ends.now (D.held disk.old) entry → IfOk result (λ e. GrownTo m [] (entry ∷ []) [] (with_entry (Some entry) m.files) e (D.held disk.new)) }
    ensures sure { D.tells → IsVolumeSure ends.now.volume (D.held disk.old) → IfOk result (λ e. IsVolumeSure e.volume (D.held disk.new)) }
    ensures any_moment { D.tells → (m : Meant) → IsAt m ends.now (D.held disk.old) → LeadsToEnds m ends.now (D.held disk.old) entry → LeavesOnly D.moment D.left_since disk.old disk.new (SurvivesOf m) }
    ensures exact { IfOk result (λ e. e ≡ with_put (Some entry) ends.now) }
    ensures grows { D.tells → OnlyGrows (D.held disk.old) (D.held disk.new) }
    ensures most { D.tells → (files : Files) → AreHeld files (D.held disk.old) → HoldsNoMore (with_entry (Some entry) files) (D.held disk.new) }
    ensures small { IfOk result AreSmall }
    ensures same { IfOk result (λ e. (e.volume ≡ ends.now.volume) × (e.greatest ≡ ends.now.greatest) × (e.meta ≡ ends.now.meta) × (e.length ≡ ends.now.length)) }
    ensures cause { HasCause (D.faults disk.old) (D.faults disk.new) result }
{
    let bytes = entry_bytes(&entry);
    disk.append(FileId::Index, &bytes)?;
    Ok(with_put(ends, Some(entry)))
}

/// Puts an entry behind the index, if there is one.
pub(crate) fn add_entry<D: Disk>(
    disk: &mut D,
    ends: &Ends,
    entry: Option<Entry>,
) -> Result<Ends, Failed>
    requires small { AreSmall ends.now }
    requires room { HasRoomIfAny ends.now entry }
    ensures ok { D.tells → (m : Meant) → IsAt m ends.now (D.held disk.old) → LeadIfAny m ends.now (D.held disk.old) entry → IfOk result (λ e. GrownTo m [] (option_to_list entry) [] (with_entry entry m.files) e (D.held disk.new)) }
    ensures sure { D.tells → IsVolumeSure ends.now.volume (D.held disk.old) → IfOk result (λ e. IsVolumeSure e.volume (D.held disk.new)) }
    ensures any_moment { D.tells → (m : Meant) → IsAt m ends.now (D.held disk.old) → LeadIfAny m ends.now (D.held disk.old) entry → LeavesOnly D.moment D.left_since disk.old disk.new (SurvivesOf m) }
    ensures exact { IfOk result (λ e. e ≡ with_put entry ends.now) }
    ensures grows { D.tells → OnlyGrows (D.held disk.old) (D.held disk.new) }
    ensures most { D.tells → (files : Files) → AreHeld files (D.held disk.old) → HoldsNoMore (with_entry entry files) (D.held disk.new) }
    ensures small { IfOk result AreSmall }
    ensures same { IfOk result (λ e. (e.volume ≡ ends.now.volume) × (e.greatest ≡ ends.now.greatest) × (e.meta ≡ ends.now.meta) × (e.length ≡ ends.now.length)) }
    ensures cause { HasCause (D.faults disk.old) (D.faults disk.new) result }
{
    match entry {
        None => Ok(*ends),
        Some(entry) => put_entry(disk, ends, entry),
    }
}

/// Makes the volume sure, and puts the entry behind the index that is then due.
pub(crate) fn flush_files<D: Disk>(disk: &mut D, ends: &Ends) -> Result<Ends, Failed>
    requires { AreSmall ends.now }
    ensures ok { D.tells → (m : Meant) → IsAt m ends.now (D.held disk.old) → IfOk result (λ e. FlushIsDone m ends.now e (D.held disk.new)) }
    ensures any_moment { D.tells → (m : Meant) → IsAt m ends.now (D.held disk.old) → LeavesOnly D.moment D.left_since disk.old disk.new (SurvivesOf m) }
    ensures sure { D.tells → IfOk result (λ e. IsVolumeSure e.volume (D.held disk.new)) }
    ensures exact { IfOk result (λ e. e ≡ flushed_ends ends.now) }
    ensures grows { D.tells → OnlyGrows (D.held disk.old) (D.held disk.new) }
    ensures most { D.tells → (m : Meant) → IsAt m ends.now (D.held disk.old) → HoldsNoMore (with_entry (due_in m.files m.contents ends.now.volume m.greatest (stood_in m)) m.files) (D.held disk.new) }
    ensures small { IfOk result AreSmall }
    ensures same { IfOk result (λ e. (e.volume ≡ ends.now.volume) × (e.greatest ≡ ends.now.greatest) × (e.meta ≡ ends.now.meta) × (e.length ≡ ends.now.length)) }
    ensures cause { HasCause (D.faults disk.old) (D.faults disk.new) result }
{
    let synced = sync_volume(disk, ends)?;
    let entry = due(&synced);
    add_entry(disk, &synced, entry)
}
