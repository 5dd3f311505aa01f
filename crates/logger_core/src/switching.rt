//! The switch to the next volume: a flush, the next volume's label, made sure, and an entry that leads to it.
ghost use Rattle.std.specs.Prelude.{◌≡◌, ◌<◌, ◌+◌, [], length, true, false, IfOk};
ghost use Rattle.pcp_model.specs.Disk.{Files};
ghost use Rattle.pcp_outside.specs.Causes.{HasCause};
ghost use Rattle.pcp_outside.specs.Devices.{LeavesOnly};
ghost use Rattle.logger_core.specs.Going.{AreSmall, IsVolumeSure, GrownTo, AreHeld, HoldsNoMore, OnlyGrows};
ghost use Rattle.logger_core.specs.LogSteps.{base_files, crosses, with_new_volume};
ghost use Rattle.logger_core.specs.Meant.{Meant, IsAt, SurvivesOf, items_in, stood_in};
ghost use Rattle.logger_core.specs.Planning.{opened_ends, switched_ends, ready_ends};
ghost use Rattle.logger_core.specs.Runs.{IsReady};

use crate::ends::Ends;
use crate::entries::{LABEL, switch_entry};
use crate::flushing::{add_entry, flush_files};
use crate::planning::opened_ends;
use archive_frame::label_bytes;
use pcp_model::Label;
use pcp_outside::{Disk, Failed, FileId, append_synced};

/// Whether the volume holds a record, and would pass the limit with one of so many bytes more.
pub(crate) fn crosses(ends: &Ends, limit: u64, item: u64) -> bool
    requires small { AreSmall ends.now }
    requires few { item < 4294967296 }
    ensures { result ≡ crosses limit ends.now.length item }
{
    ends.length > LABEL && ends.length + item > limit
}

/// Gives the next volume its label, and makes it sure. All items of the others are acknowledged.
fn open_next<D: Disk>(disk: &mut D, label: &Label, ends: &Ends) -> Result<Ends, Failed>
    requires small { AreSmall ends.now }
    requires next { ends.now.volume + 1 < 2147483648 }
    ensures ok { D.tells → (m : Meant) → IsAt m ends.now (D.held disk.old) → IsVolumeSure ends.now.volume (D.held disk.old) → m.acknowledged ≡ length (items_in m) → m.contents.label ≡ label.now → IfOk result (λ e. GrownTo m [] [] [] (with_new_volume label.now (ends.now.volume + 1) m.files) e (D.held disk.new)) }
    ensures sure { D.tells → (m : Meant) → IsAt m ends.now (D.held disk.old) → IfOk result (λ e. IsVolumeSure e.volume (D.held disk.new)) }
    ensures any_moment { D.tells → (m : Meant) → IsAt m ends.now (D.held disk.old) → IsVolumeSure ends.now.volume (D.held disk.old) → m.acknowledged ≡ length (items_in m) → m.contents.label ≡ label.now → LeavesOnly D.moment D.left_since disk.old disk.new (SurvivesOf m) }
    ensures small { IfOk result AreSmall }
    ensures exact { IfOk result (λ e. e ≡ opened_ends ends.now) }
    ensures grows { D.tells → OnlyGrows (D.held disk.old) (D.held disk.new) }
    ensures most { D.tells → (files : Files) → AreHeld files (D.held disk.old) → HoldsNoMore (with_new_volume label.now (ends.now.volume + 1) files) (D.held disk.new) }
    ensures same { IfOk result (λ e. (e.volume ≡ ends.now.volume + 1) × (e.greatest ≡ ends.now.greatest) × (e.meta ≡ ends.now.meta) × (e.index ≡ ends.now.index) × (e.length ≡ 132)) }
    ensures cause { HasCause (D.faults disk.old) (D.faults disk.new) result }
{
    let next = ends.volume + 1;
    let bytes = label_bytes(label, next as i32);
    append_synced(disk, FileId::Volume(next), &bytes)?;
    Ok(opened_ends(ends))
}

/// Goes on in the next volume.
fn switch<D: Disk>(disk: &mut D, label: &Label, ends: &Ends) -> Result<Ends, Failed>
    requires small { AreSmall ends.now }
    requires next { ends.now.volume + 1 < 2147483648 }
    ensures ok { D.tells → (m : Meant) → IsAt m ends.now (D.held disk.old) → m.contents.label ≡ label.now → IfOk result (λ e. IsReady m ends.now e true (D.held disk.new)) }
    ensures any_moment { D.tells → (m : Meant) → IsAt m ends.now (D.held disk.old) → m.contents.label ≡ label.now → LeavesOnly D.moment D.left_since disk.old disk.new (SurvivesOf m) }
    ensures small { IfOk result AreSmall }
    ensures exact { IfOk result (λ e. e ≡ switched_ends ends.now) }
    ensures grows { D.tells → OnlyGrows (D.held disk.old) (D.held disk.new) }
    ensures most { D.tells → (m : Meant) → IsAt m ends.now (D.held disk.old) → m.contents.label ≡ label.now → HoldsNoMore (base_files true m.files m.contents ends.now.volume m.greatest (stood_in m)) (D.held disk.new) }
    ensures bounded { IfOk result (λ e. (e.length ≡ 132) × (e.meta ≡ ends.now.meta)) }
    ensures cause { HasCause (D.faults disk.old) (D.faults disk.new) result }
{
    let flushed = flush_files(disk, ends)?;
    let opened = open_next(disk, label, &flushed)?;
    let entry = switch_entry(&opened);
    add_entry(disk, &opened, entry)
}

/// Goes on in the next volume, where a record of so many bytes crosses the limit.
pub(crate) fn make_room<D: Disk>(
    disk: &mut D,
    label: &Label,
    ends: &Ends,
    crossing: bool,
) -> Result<Ends, Failed>
    requires small { AreSmall ends.now }
    requires next { crossing ≡ true → ends.now.volume + 1 < 2147483648 }
    ensures ok { D.tells → (m : Meant) → IsAt m ends.now (D.held disk.old) → m.contents.label ≡ label.now → IfOk result (λ e. IsReady m ends.now e crossing (D.held disk.new)) }
    ensures any_moment { D.tells → (m : Meant) → IsAt m ends.now (D.held disk.old) → m.contents.label ≡ label.now → LeavesOnly D.moment D.left_since disk.old disk.new (SurvivesOf m) }
    ensures small { IfOk result AreSmall }
    ensures exact { IfOk result (λ e. e ≡ ready_ends crossing ends.now) }
    ensures grows { D.tells → OnlyGrows (D.held disk.old) (D.held disk.new) }
    ensures most { D.tells → (m : Meant) → IsAt m ends.now (D.held disk.old) → m.contents.label ≡ label.now → HoldsNoMore (base_files crossing m.files m.contents ends.now.volume m.greatest (stood_in m)) (D.held disk.new) }
    ensures bounded { IfOk result (λ e. (crossing ≡ true → e.length ≡ 132) × (crossing ≡ false → e.length ≡ ends.now.length) × (e.meta ≡ ends.now.meta)) }
    ensures cause { HasCause (D.faults disk.old) (D.faults disk.new) result }
{
    if !crossing {
        return Ok(*ends);
    }
    switch(disk, label, ends)
}
