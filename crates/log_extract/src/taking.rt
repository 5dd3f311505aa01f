//! The sets of a stamp, taken from both sources.
ghost use Rattle.std.specs.Prelude.{◌≡◌, [], List as Sequence, IfErr, IfOk, OnOk};
ghost use Rattle.pcp_base.specs.declared.result.PmResult.{PmResult as AResult};
ghost use Rattle.pcp_base.specs.declared.result.ValueSet.{ValueSet as Set};
ghost use Rattle.pcp_model.specs.Disk.{contents_of};
ghost use Rattle.archive_loading.specs.Looks.{Looks};
ghost use Rattle.archive_merge.specs.Merging.{with_sets};
ghost use Rattle.archive_merge.specs.Order.{NoneBefore, Rises};
ghost use Rattle.log_extract.specs.Cursors.{AreParted, IsReady, Leaves, TakesBoth, TakesStamp};
ghost use Rattle.log_extract.specs.Logging.{AreLeft, BlamesSources, IsOfSource, QuietBut};
ghost use Rattle.log_extract.specs.Sources.{IsBroken};
ghost use Rattle.log_extract.specs.declared.fault.ExtractFault.TheVariants.{Source as Unread};
ghost use Rattle.archive_check.specs.declared.fault.CheckFault.TheVariants.{Reader as Reading};

use crate::cursor::Cursor;
use crate::fault::ExtractFault;
use archive_check::CheckFault;
use archive_merge::StampSets;
use archive_reader::ReaderFault;
use pcp_base::{List, Stamp, ValueSet};
use pcp_outside::Disk;
use std::alloc::Global;

/// These sets, and behind them those of a source's results of a stamp. None of what is left of the source is stamped before it.
fn take_stamp<D: Disk>(
    alloc: Global,
    disk: &mut D,
    cursor: &mut Cursor,
    t: Stamp,
    sets: StampSets,
) -> Result<StampSets, ReaderFault>
    requires ready { IsReady D.Disk disk.old cursor.old }
    ensures same { cursor.new.reader ≡ cursor.old.reader }
    ensures grown { IfOk result (λ all. (more : Sequence Set) × (all ≡ with_sets sets more)) }
    ensures takes { D.tells → (results : Sequence AResult) → Leaves (contents_of (D.held disk.old)) cursor.old results → NoneBefore t results → Rises results
        → IfOk result (λ all. TakesStamp (contents_of (D.held disk.old)) t results sets all cursor.new) }
    ensures ready { OnOk result (IsReady D.Disk disk.new cursor.new) }
    ensures broken { IfErr result (IsBroken D.Disk disk.old disk.new) }
    ensures looks { Looks D.Disk disk.old disk.new }
    ensures quiet { OnOk result (D.faults disk.new ≡ D.faults disk.old) }
{
    let mut all = sets;
    for _ in 0..u64::MAX {
        if !cursor.is_due(t) {
            return Ok(all);
        }
        let more = cursor.advance(alloc, disk)?;
        all = all.with_all(more)?;
    }
    Err(ReaderFault::NoMemory)
}

/// Why an extract ends where the reading of a source breaks off.
fn source_fault(number: u32, fault: ReaderFault) -> ExtractFault
    ensures { result ≡ Unread number (Reading fault) }
{
    ExtractFault::Source {
        number,
        fault: CheckFault::Reader(fault),
    }
}

/// The sets that stand of a stamp, and how many of them, the first ones, are the first source's. None of what is left is stamped before it.
pub(crate) fn take_both<A: Disk, B: Disk>(
    alloc: Global,
    t: Stamp,
    first: &mut Cursor,
    first_disk: &mut A,
    second: &mut Cursor,
    second_disk: &mut B,
) -> Result<(List<ValueSet>, usize), ExtractFault>
    requires first_ready { IsReady A.Disk first_disk.old first.old }
    requires second_ready { IsReady B.Disk second_disk.old second.old }
    ensures first_same { first.new.reader ≡ first.old.reader }
    ensures second_same { second.new.reader ≡ second.old.reader }
    ensures parted { IfOk result (λ taken. AreParted taken.0 taken.1) }
    ensures takes { (xs ys : Sequence AResult) → AreLeft A.Disk B.Disk first_disk.old second_disk.old first.old second.old xs ys → NoneBefore t xs → NoneBefore t ys
        → IfOk result (λ taken. TakesBoth (contents_of (A.held first_disk.old)) (contents_of (B.held second_disk.old)) t xs ys taken.0 taken.1 first.new second.new) }
    ensures first_ready { OnOk result (IsReady A.Disk first_disk.new first.new) }
    ensures second_ready { OnOk result (IsReady B.Disk second_disk.new second.new) }
    ensures kinds { IfErr result IsOfSource }
    ensures broken { IfErr result (BlamesSources A.Disk B.Disk first_disk.old first_disk.new second_disk.old second_disk.new) }
    ensures first_looks { Looks A.Disk first_disk.old first_disk.new }
    ensures second_looks { Looks B.Disk second_disk.old second_disk.new }
    ensures first_quiet { OnOk result (A.faults first_disk.new ≡ A.faults first_disk.old) }
    ensures second_quiet { OnOk result (B.faults second_disk.new ≡ B.faults second_disk.old) }
    ensures others_quiet { IfErr result (QuietBut A.Disk B.Disk first_disk.old first_disk.new second_disk.old second_disk.new) }
{
    let ours = match take_stamp(alloc, first_disk, first, t, StampSets::empty(alloc)) {
        Ok(ours) => ours,
        Err(fault) => return Err(source_fault(1, fault)),
    };
    let count = ours.len();
    match take_stamp(alloc, second_disk, second, t, ours) {
        Ok(both) => Ok((both.into_list(), count)),
        Err(fault) => Err(source_fault(2, fault)),
    }
}
