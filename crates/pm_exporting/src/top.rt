//! `export`, the call that main makes for `export BASE2`.
ghost use Rattle.std.specs.Prelude.{◌≡◌, ◌≤◌, map, string_bytes, IfErr, IfOk};
ghost use Rattle.archive_loading.specs.Looks.{Looks};
ghost use Rattle.log_export.specs.Exporting.{MayLeave, export_side};
ghost use Rattle.pcp_outside.specs.Sides.{sink_side};
ghost use Rattle.pm_exporting.specs.Ends.{Cause, Ends, Orders, TellsCount, call_side, fault_refusal};
ghost use Rattle.pm_exporting.specs.Facts.{Facts};

use log_export::{ExportFault, export_all};
use pcp_outside::{Disk, Sink};
use pm_words::{Call, Command, Refusal, read_words, tell_end};
use std::alloc::Global;
use text_lines::one_number_line;

// That the words ask for an export.
fn read_asked(alloc: Global, words: &[String]) -> Result<(), Refusal>
    ensures orders { IfOk result (λ _. Orders (map string_bytes words.now)) }
    ensures refused { IfErr result (Cause (map string_bytes words.now)) }
{
    let command = read_words(alloc, Call::Export, words)?;
    // It is the call's one command.
    let Command::Export = command else {
        unreachable!()
    };
    Ok(())
}

// Why an archive isn't exported.
fn fault_refusal(fault: ExportFault) -> Refusal
    ensures { result ≡ fault_refusal fault }
{
    match fault {
        ExportFault::Stands { file } => Refusal::Stands { file },
        ExportFault::Source(fault) => Refusal::from(fault),
        ExportFault::DiskFault => Refusal::DiskFault,
    }
}

// Tells how many items were exported. Where memory for the line is refused nothing is told.
fn tell_count<O: Sink>(alloc: Global, out: &mut O, count: u64) -> u8
    ensures { TellsCount (sink_side O.Sink out.old out.new) count result }
{
    match one_number_line(alloc, b"exported", count) {
        Ok(line) => tell_end(alloc, out, false, Ok(line)),
        Err(_) => 9,
    }
}

// Exports as the words ask, and tells how it ended.
fn export_and_tell<A: Disk, O: Sink, D: Disk>(
    alloc: Global,
    words: &[String],
    source: &mut A,
    out: &mut O,
    disk: &mut D,
) -> u8
    ensures ends { Ends (call_side (map string_bytes words.now) (export_side A.Disk source.old source.new D.Disk disk.old disk.new)) (sink_side O.Sink out.old out.new) result }
    ensures any_moment { MayLeave (export_side A.Disk source.old source.new D.Disk disk.old disk.new) }
    ensures looks { Looks A.Disk source.old source.new }
{
    if let Err(refusal) = read_asked(alloc, words) {
        return tell_end(alloc, out, false, Err(refusal));
    }
    match export_all(alloc, source, disk) {
        Ok(count) => tell_count(alloc, out, count),
        Err(fault) => tell_end(alloc, out, false, Err(fault_refusal(fault))),
    }
}

/// Writes an archive again where nothing stands yet, as `export` asks, so that stock tools show it whole: `source` holds the archive, which is read as
/// `dump` reads it and is left as it is, and `disk` the place. What comes to stand is what recovery would leave of the source; its index begins with
/// the entry of the archive's start, and has no entry of a volume that was emptied. All of it is made sure, Meta last: a crash before the end leaves a
/// beginning of each file, and no byte of Meta before the others are whole. A source without a label leaves nothing. Writes `exported N`, the number
/// of its items. Answers the exit status; where it isn't 0, the last line of the output says why. 0: done. 1: the words don't ask for that. 4: the
/// output couldn't be written. 5: a disk failed. 6: the source is turned away: a file stands wrapped, or an offset fits no archive. 9: memory was
/// refused. 23: a file stands there, and nothing is touched. What is looked at first comes first: the words, the place, the source, which is read whole
/// before anything is written, then the writing, the output.
pub fn export<A: Disk, O: Sink, D: Disk>(
    alloc: Global,
    words: &[String],
    source: &mut A,
    out: &mut O,
    disk: &mut D,
) -> u8
    ensures facts { Facts (call_side (map string_bytes words.now) (export_side A.Disk source.old source.new D.Disk disk.old disk.new)) (sink_side O.Sink out.old out.new) result }
{
    export_and_tell(alloc, words, source, out, disk)
}
