//! A whole extract: both sources are checked, the output's files are recovered, the merge is logged, and what was logged is flushed.
ghost use Rattle.std.specs.Prelude.{◌≡◌, ◌≤◌, IfErr, IfOk, OnOk};
ghost use Rattle.archive_loading.specs.Looks.{Looks};
ghost use Rattle.log_extract.specs.Cursors.{OpensSource};
ghost use Rattle.log_extract.specs.Extracting.{Extracts, extract_side};
ghost use Rattle.log_extract.specs.Faults.{begin_fault, ended_by};
ghost use Rattle.log_extract.specs.Sources.{IsTurnedBack};

use crate::cursor::Cursor;
use crate::fault::ExtractFault;
use crate::merging::merge_all;
use archive_check::{CheckFault, check};
use archive_reader::ArchiveReader;
use logging_run::{Run, RunFault};
use pcp_outside::Disk;
use std::alloc::Global;

/// Why the output's files aren't recovered. A beginning turns no item away, so that no other fault comes.
fn begin_fault(fault: RunFault) -> RunFault
    ensures { result ≡ begin_fault fault }
{
    match fault {
        RunFault::Compressed { .. } | RunFault::NotArchive { .. } | RunFault::DiskFault => fault,
        _ => RunFault::NoMemory,
    }
}

/// What the merge came to, unless the output's disk failed.
fn ended_by(
    finished: Result<u64, RunFault>,
    merged: Result<(), ExtractFault>,
) -> Result<u64, ExtractFault>
    ensures { result ≡ ended_by finished merged }
{
    let count = match finished {
        Ok(count) => count,
        Err(fault) => return Err(ExtractFault::Archive(fault)),
    };
    match merged {
        Ok(()) => Ok(count),
        Err(fault) => Err(fault),
    }
}

/// A source that is passed as sound, at its first result.
fn open_source<D: Disk>(alloc: Global, disk: &mut D) -> Result<Cursor, CheckFault>
    ensures opens { D.tells → IfOk result (OpensSource D.Disk disk.old) }
    ensures back { IfErr result (IsTurnedBack D.Disk disk.old disk.new) }
    ensures looks { Looks D.Disk disk.old disk.new }
    ensures quiet { OnOk result (D.faults disk.new ≡ D.faults disk.old) }
{
    check(alloc, disk)?;
    let reader = ArchiveReader::load(alloc, disk)?;
    let cursor = Cursor::at_first(alloc, disk, reader)?;
    Ok(cursor)
}

/// Logs the merge of two archives into the files of a third, and answers how many items were logged. Both sources are checked first, the first one
/// and then the second, and left as they are; the output's files are recovered, and what is logged comes behind what they have. An item that can't be
/// described, or that the archive turns away, ends it. Whatever does, what was logged is flushed; an output whose disk fails then stands before
/// whatever else ended it. `volume` is the volume limit, 1,024 to 1,073,741,824 bytes.
pub fn extract_all<A: Disk, B: Disk, D: Disk>(
    alloc: Global,
    volume: u64,
    first: &mut A,
    second: &mut B,
    disk: &mut D,
) -> Result<u64, ExtractFault>
    requires limit { (1024 ≤ volume) × (volume ≤ 1073741824) }
    ensures { Extracts (extract_side A.Disk first.old first.new B.Disk second.old second.new D.Disk disk.old disk.new) volume result }
{
    let mut ours = match open_source(alloc, first) {
        Ok(ours) => ours,
        Err(fault) => return Err(ExtractFault::Source { number: 1, fault }),
    };
    let mut theirs = match open_source(alloc, second) {
        Ok(theirs) => theirs,
        Err(fault) => return Err(ExtractFault::Source { number: 2, fault }),
    };
    let mut run = match Run::begin(alloc, disk, volume) {
        Ok(run) => run,
        Err(fault) => return Err(ExtractFault::Archive(begin_fault(fault))),
    };
    let merged = merge_all(alloc, &mut ours, first, &mut theirs, second, &mut run, disk);
    ended_by(run.finish(disk), merged)
}
