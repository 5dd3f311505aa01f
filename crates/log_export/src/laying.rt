//! The files that are written, one after another: the index, the volumes by ascending number, and Meta last.
ghost use Rattle.std.specs.Prelude.{◌≡◌, ◌<◌, ◌≤◌, length, IfErr, IfOk, IfSome, OnOk};
ghost use Rattle.pcp_base.specs.declared.file.FileId.TheVariants.{Volume};
ghost use Rattle.pcp_model.specs.Disk.{Files, contents_of, nothing_held};
ghost use Rattle.pcp_outside.specs.Causes.{Rose};
ghost use Rattle.pcp_outside.specs.Devices.{Becomes, IsNumbered};
ghost use Rattle.archive_loading.specs.Looks.{Looks};
ghost use Rattle.archive_reader.specs.declared.fault.ReaderFault.TheVariants.{DiskFault as SourceFault};
ghost use Rattle.log_export.specs.declared.fault.ExportFault.TheVariants.{Source};
ghost use Rattle.log_export.specs.Copying.{AppendsOnly, IsBlamed};
ghost use Rattle.log_export.specs.Laying.{AgreeBelow, AgreeUpTo, Lays, LaysVolumes, LaysWhole, whole};
ghost use Rattle.log_export.specs.Planning.{AreCountable, FitsPlan, IsLowPlan, planned};

use crate::copying::lay;
use crate::fault::ExportFault;
use crate::planning::Plan;
use archive_reader::ReaderFault;
use archive_recovery::Last;
use pcp_outside::{Disk, FileId};

/// How many bytes a file of the source has.
fn length_in<A: Disk>(source: &mut A, file: FileId) -> Result<u64, ExportFault>
    requires numbered { IsNumbered file }
    requires countable { A.tells → length (contents_of (A.held source.old) file) < 18446744073709551615 }
    ensures length { A.tells → IfOk result (λ n. n ≡ length (contents_of (A.held source.old) file)) }
    ensures looks { Looks A.Disk source.old source.new }
    ensures cause { IfErr result (λ e. (e ≡ Source SourceFault) × Rose (A.faults source.old) (A.faults source.new)) }
    ensures quiet { OnOk result (A.faults source.new ≡ A.faults source.old) }
{
    match source.len(file) {
        Ok(length) => Ok(length),
        Err(_) => Err(ExportFault::Source(ReaderFault::DiskFault)),
    }
}

/// Writes a volume as the source has it, where it isn't empty.
fn lay_volume<A: Disk, D: Disk>(
    source: &mut A,
    disk: &mut D,
    number: u32,
    buffer: &mut [u8],
) -> Result<(), ExportFault>
    requires numbered { number < 4294967295 }
    requires room { 0 < length buffer.old }
    requires countable { A.tells → length (contents_of (A.held source.old) (Volume number)) < 18446744073709551615 }
    ensures room { length buffer.new ≡ length buffer.old }
    ensures laid { A.tells → D.tells → D.held disk.old (Volume number) ≡ nothing_held → OnOk result (Becomes (Volume number) (whole (contents_of (A.held source.old) (Volume number))) (D.held disk.old) (D.held disk.new)) }
    ensures any_moment { A.tells → D.tells → AppendsOnly D.Disk (Volume number) (contents_of (A.held source.old) (Volume number)) disk.old disk.new }
    ensures looks { Looks A.Disk source.old source.new }
    ensures later { D.faults disk.old ≤ D.faults disk.new }
    ensures cause { IfErr result (IsBlamed A.Disk source.old source.new D.Disk disk.old disk.new) }
    ensures source_quiet { OnOk result (A.faults source.new ≡ A.faults source.old) }
    ensures disk_quiet { OnOk result (D.faults disk.new ≡ D.faults disk.old) }
{
    let length = length_in(source, FileId::Volume(number))?;
    if length == 0 {
        return Ok(());
    }
    lay(
        source,
        disk,
        FileId::Volume(number),
        b"".as_slice(),
        0,
        length,
        buffer,
    )
}

/// Writes the volumes below a number as the source has them.
fn lay_below<A: Disk, D: Disk>(
    source: &mut A,
    disk: &mut D,
    count: u32,
    buffer: &mut [u8],
) -> Result<(), ExportFault>
    requires room { 0 < length buffer.old }
    requires countable { A.tells → AreCountable (contents_of (A.held source.old)) }
    ensures room { length buffer.new ≡ length buffer.old }
    ensures lays { A.tells → D.tells → (out : Files) → AgreeBelow count (contents_of (A.held source.old)) out → Lays D.Disk out count disk.old disk.new result }
    ensures looks { Looks A.Disk source.old source.new }
    ensures later { D.faults disk.old ≤ D.faults disk.new }
    ensures cause { IfErr result (IsBlamed A.Disk source.old source.new D.Disk disk.old disk.new) }
    ensures source_quiet { OnOk result (A.faults source.new ≡ A.faults source.old) }
    ensures disk_quiet { OnOk result (D.faults disk.new ≡ D.faults disk.old) }
{
    for number in 0..count {
        lay_volume(source, disk, number, buffer)?;
    }
    Ok(())
}

/// Writes the volumes up to the last one, and of that its whole records.
fn lay_up_to<A: Disk, D: Disk>(
    source: &mut A,
    disk: &mut D,
    last: Last,
    buffer: &mut [u8],
) -> Result<(), ExportFault>
    requires numbered { last.number < 4294967295 }
    requires room { 0 < length buffer.old }
    requires within { A.tells → IfSome last.end (λ end. end ≤ length (contents_of (A.held source.old) (Volume last.number))) }
    requires countable { A.tells → AreCountable (contents_of (A.held source.old)) }
    ensures room { length buffer.new ≡ length buffer.old }
    ensures lays { A.tells → D.tells → (out : Files) → AgreeUpTo last (contents_of (A.held source.old)) out → LaysVolumes D.Disk out disk.old disk.new result }
    ensures looks { Looks A.Disk source.old source.new }
    ensures later { D.faults disk.old ≤ D.faults disk.new }
    ensures cause { IfErr result (IsBlamed A.Disk source.old source.new D.Disk disk.old disk.new) }
    ensures source_quiet { OnOk result (A.faults source.new ≡ A.faults source.old) }
    ensures disk_quiet { OnOk result (D.faults disk.new ≡ D.faults disk.old) }
{
    lay_below(source, disk, last.number, buffer)?;
    match last.end {
        Some(end) => lay(
            source,
            disk,
            FileId::Volume(last.number),
            b"".as_slice(),
            0,
            end,
            buffer,
        ),
        None => Ok(()),
    }
}

/// Writes the volumes.
fn lay_volumes<A: Disk, D: Disk>(
    source: &mut A,
    disk: &mut D,
    plan: &Plan,
    buffer: &mut [u8],
) -> Result<(), ExportFault>
    requires low { IsLowPlan plan.now }
    requires room { 0 < length buffer.old }
    requires fits { A.tells → FitsPlan (contents_of (A.held source.old)) plan.now }
    ensures room { length buffer.new ≡ length buffer.old }
    ensures lays { A.tells → D.tells → LaysVolumes D.Disk (planned (contents_of (A.held source.old)) plan.now) disk.old disk.new result }
    ensures looks { Looks A.Disk source.old source.new }
    ensures later { D.faults disk.old ≤ D.faults disk.new }
    ensures cause { IfErr result (IsBlamed A.Disk source.old source.new D.Disk disk.old disk.new) }
    ensures source_quiet { OnOk result (A.faults source.new ≡ A.faults source.old) }
    ensures disk_quiet { OnOk result (D.faults disk.new ≡ D.faults disk.old) }
{
    if let Some(label) = &plan.given {
        return lay(
            source,
            disk,
            FileId::Volume(0),
            label.as_slice(),
            0,
            0,
            buffer,
        );
    }
    match plan.last {
        Some(last) => lay_up_to(source, disk, last, buffer),
        None => Ok(()),
    }
}

/// Writes an archive where nothing stands. All bytes of the other files are sure before the first of Meta is written.
pub(crate) fn lay_all<A: Disk, D: Disk>(
    source: &mut A,
    disk: &mut D,
    plan: &Plan,
    buffer: &mut [u8],
) -> Result<(), ExportFault>
    requires low { IsLowPlan plan.now }
    requires room { 0 < length buffer.old }
    requires fits { A.tells → FitsPlan (contents_of (A.held source.old)) plan.now }
    ensures lays { A.tells → D.tells → LaysWhole D.Disk (planned (contents_of (A.held source.old)) plan.now) disk.old disk.new result }
    ensures looks { Looks A.Disk source.old source.new }
    ensures later { D.faults disk.old ≤ D.faults disk.new }
    ensures cause { IfErr result (IsBlamed A.Disk source.old source.new D.Disk disk.old disk.new) }
    ensures source_quiet { OnOk result (A.faults source.new ≡ A.faults source.old) }
    ensures disk_quiet { OnOk result (D.faults disk.new ≡ D.faults disk.old) }
{
    lay(
        source,
        disk,
        FileId::Index,
        plan.index.as_slice(),
        0,
        0,
        buffer,
    )?;
    lay_volumes(source, disk, plan, buffer)?;
    lay(
        source,
        disk,
        FileId::Meta,
        b"".as_slice(),
        0,
        plan.meta,
        buffer,
    )
}
