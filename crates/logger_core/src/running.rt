//! The writes of a run of items: all their metadata in one append and one sync, then all their records in one append.
ghost use Rattle.std.specs.Prelude.{◌≡◌, ◌≤◌, ◌+◌, ◌<◌, ℕ, [], length, List as Sequence, IfOk, OnOk};
ghost use Rattle.pcp_base.specs.declared.file.FileId.TheVariants.{Meta, Volume};
ghost use Rattle.pcp_base.specs.declared.result.Item.{Item as Logged};
ghost use Rattle.pcp_model.specs.declared.records.MetaRecord.{MetaRecord as Record};
ghost use Rattle.pcp_model.specs.Disk.{Files};
ghost use Rattle.pcp_model.specs.Frame.{frames};
ghost use Rattle.pcp_model.specs.Written.{with_added};
ghost use Rattle.pcp_outside.specs.Causes.{HasCause};
ghost use Rattle.pcp_outside.specs.Devices.{LeavesOnly};
ghost use Rattle.logger_core.specs.Going.{AreSmall, AreHeld, GrowsBy, GrownTo, HoldsNoMore, OnlyGrows};
ghost use Rattle.logger_core.specs.Laws.{AreRecordsToCome};
ghost use Rattle.logger_core.specs.LogSteps.{with_run};
ghost use Rattle.logger_core.specs.Meant.{Meant, Stands, IsAt, SurvivesOf};
ghost use Rattle.logger_core.specs.Planning.{ran_ends};
ghost use Rattle.logger_core.specs.Runs.{AreItemsToCome, IsRunToCome, IsLastStamp, SurvivesWith};

use crate::ends::Ends;
use crate::planning::ran_ends;
use pcp_base::Stamp;
use pcp_outside::{Disk, Failed, FileId, append_synced};

/// Puts records behind Meta, and makes them sure.
fn add_records<D: Disk>(disk: &mut D, number: u32, bytes: &[u8]) -> Result<(), Failed>
    ensures ok { D.tells → (m : Meant) → Stands m number (D.held disk.old) → (payloads : Sequence (Sequence ℕ)) (records : Sequence Record) → bytes.now ≡ frames payloads → AreRecordsToCome m.start m.contents payloads records
        → OnOk result (GrowsBy m records [] [] (with_added Meta bytes.now m.files) number (D.held disk.new)) }
    ensures any_moment { D.tells → (m : Meant) → Stands m number (D.held disk.old) → (payloads : Sequence (Sequence ℕ)) (records : Sequence Record) → bytes.now ≡ frames payloads → AreRecordsToCome m.start m.contents payloads records
        → LeavesOnly D.moment D.left_since disk.old disk.new (SurvivesOf m) }
    ensures grows { D.tells → OnlyGrows (D.held disk.old) (D.held disk.new) }
    ensures most { D.tells → (files : Files) → AreHeld files (D.held disk.old) → HoldsNoMore (with_added Meta bytes.now files) (D.held disk.new) }
    ensures cause { HasCause (D.faults disk.old) (D.faults disk.new) result }
{
    if bytes.is_empty() {
        return Ok(());
    }
    append_synced(disk, FileId::Meta, bytes)
}

/// Puts the records of items behind the volume that is written.
fn add_items<D: Disk>(disk: &mut D, number: u32, bytes: &[u8]) -> Result<(), Failed>
    requires { number < 2147483648 }
    ensures ok { D.tells → (m : Meant) → Stands m number (D.held disk.old) → (payloads : Sequence (Sequence ℕ)) (items : Sequence Logged) → bytes.now ≡ frames payloads → AreItemsToCome m payloads items
        → OnOk result (GrowsBy m [] [] items (with_added (Volume number) bytes.now m.files) number (D.held disk.new)) }
    ensures any_moment { D.tells → (m : Meant) → Stands m number (D.held disk.old) → (payloads : Sequence (Sequence ℕ)) (items : Sequence Logged) → bytes.now ≡ frames payloads → AreItemsToCome m payloads items
        → LeavesOnly D.moment D.left_since disk.old disk.new (SurvivesWith m items) }
    ensures grows { D.tells → OnlyGrows (D.held disk.old) (D.held disk.new) }
    ensures most { D.tells → (files : Files) → AreHeld files (D.held disk.old) → HoldsNoMore (with_added (Volume number) bytes.now files) (D.held disk.new) }
    ensures cause { HasCause (D.faults disk.old) (D.faults disk.new) result }
{
    disk.append(FileId::Volume(number), bytes)
}

/// Writes a run of items: `records` are the framed records of Meta that they need, `items` their own, `count` how many they are,
/// and `stamp` that of the last.
pub(crate) fn write_run<D: Disk>(
    disk: &mut D,
    ends: &Ends,
    records: &[u8],
    items: &[u8],
    count: u64,
    stamp: Stamp,
) -> Result<Ends, Failed>
    requires small { AreSmall ends.now }
    requires meta_room { ends.now.meta + length records.now < 9223372036854775808 }
    requires room { ends.now.length + length items.now < 9223372036854775808 }
    ensures ok { D.tells → (m : Meant) → IsAt m ends.now (D.held disk.old) → (rs : Sequence Record) (xs : Sequence Logged) → IsRunToCome m rs xs records.now items.now → IsLastStamp m rs xs stamp → length xs ≡ count
        → IfOk result (λ e. GrownTo m rs [] xs (with_run ends.now.volume records.now items.now m.files) e (D.held disk.new)) }
    ensures any_moment { D.tells → (m : Meant) → IsAt m ends.now (D.held disk.old) → (rs : Sequence Record) (xs : Sequence Logged) → IsRunToCome m rs xs records.now items.now
        → LeavesOnly D.moment D.left_since disk.old disk.new (SurvivesWith m xs) }
    ensures small { IfOk result AreSmall }
    ensures exact { IfOk result (λ e. e ≡ ran_ends (length records.now) (length items.now) count stamp ends.now) }
    ensures grows { D.tells → OnlyGrows (D.held disk.old) (D.held disk.new) }
    ensures most { D.tells → (m : Meant) → IsAt m ends.now (D.held disk.old) → (rs : Sequence Record) (xs : Sequence Logged) → IsRunToCome m rs xs records.now items.now
        → HoldsNoMore (with_run ends.now.volume records.now items.now m.files) (D.held disk.new) }
    ensures cause { HasCause (D.faults disk.old) (D.faults disk.new) result }
{
    add_records(disk, ends.volume, records)?;
    add_items(disk, ends.volume, items)?;
    Ok(ran_ends(ends, records.len(), items.len(), count, stamp))
}
