//! The archive that a session goes on with: what recovery left, or where it left no label a new one.
ghost use Rattle.std.specs.Prelude.{◌≡◌, ◌≤◌, false, [], None as Nothing, IfOk, IfErr, OnOk};
ghost use Rattle.pcp_model.specs.Disk.{IsEmpty, contents_of};
ghost use Rattle.pcp_outside.specs.Devices.{LeavesOnly};
ghost use Rattle.logger_core.specs.declared.fault.LogFault.TheVariants.{NoMemory as Refused};
ghost use Rattle.logger_core.specs.Created.{HasNoItem, IsCreated};
ghost use Rattle.logger_core.specs.Refusals.{CreateMayAnswer};
ghost use Rattle.logger_core.specs.Reopening.{IsLeft};
ghost use Rattle.logging_session.specs.Written.{starting};
ghost use Rattle.logging_session.specs.ComingBack.{ComesBackTo};
ghost use Rattle.logging_session.specs.Opening.{IsOpened, MayWantMemory};

use crate::label::label_at;
use archive_frame::Label;
use archive_recovery::Archive;
use logger_core::{LogFault, Logger};
use pcp_base::Stamp;
use pcp_outside::Disk;
use std::alloc::Global;

/// A new archive, which begins with its result.
fn create<D: Disk>(
    alloc: Global,
    disk: &mut D,
    label: &Label,
    stamp: Stamp,
    limit: u64,
) -> Result<Logger, LogFault>
    requires limit { (1024 ≤ limit) × (limit ≤ 1073741824) }
    ensures opened { D.tells → IsEmpty (contents_of (D.held disk.old)) → IfOk result (λ l. IsCreated (starting label.now stamp) limit l (D.held disk.new)) }
    ensures open_ { IfOk result (λ l. (l.closed ≡ false) × (l.limit ≡ limit)) }
    ensures any_moment { D.tells → IsEmpty (contents_of (D.held disk.old)) → LeavesOnly D.moment D.left_since disk.old disk.new HasNoItem }
    ensures fault { IfErr result (λ e. CreateMayAnswer (D.faults disk.old) (D.faults disk.new) e) }
    ensures untouched { IfErr result (λ e. e ≡ Refused → disk.new ≡ disk.old) }
    ensures later { D.faults disk.old ≤ D.faults disk.new }
    ensures quiet { OnOk result (D.faults disk.new ≡ D.faults disk.old) }
{
    let label = label_at(alloc, label, stamp)?;
    Logger::create(alloc, disk, &label, limit)
}

/// The logger of the archive that recovery left, or of a new one where it left no label.
pub(crate) fn open<D: Disk>(
    alloc: Global,
    disk: &mut D,
    archive: Archive,
    label: &Label,
    stamp: Stamp,
    limit: u64,
) -> Result<Logger, LogFault>
    requires limit { (1024 ≤ limit) × (limit ≤ 1073741824) }
    ensures opened { D.tells → IsLeft archive (D.held disk.old) → IfOk result (λ l. IsOpened (starting label.now stamp) (contents_of (D.held disk.old)) l (D.held disk.new)) }
    ensures open_ { IfOk result (λ l. (l.closed ≡ false) × (l.limit ≡ limit)) }
    ensures any_moment { D.tells → IsLeft archive (D.held disk.old) → LeavesOnly D.moment D.left_since disk.old disk.new (ComesBackTo [] 0 (contents_of (D.held disk.old))) }
    ensures fault { IfErr result (λ e. CreateMayAnswer (D.faults disk.old) (D.faults disk.new) e) }
    ensures cause { IfErr result (λ e. e ≡ Refused → MayWantMemory archive) }
    ensures labelled { (archive.label ≡ Nothing → ⊥) → disk.new ≡ disk.old }
    ensures untouched { IfErr result (λ e. e ≡ Refused → disk.new ≡ disk.old) }
    ensures later { D.faults disk.old ≤ D.faults disk.new }
    ensures quiet { OnOk result (D.faults disk.new ≡ D.faults disk.old) }
{
    if archive.label.is_none() {
        return create(alloc, disk, label, stamp, limit);
    }
    Logger::reopen(disk, archive, limit)
}
