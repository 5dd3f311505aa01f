//! `extract`, the call that main makes for `extract BASE1 BASE2 VOLUME` (pmlogextract(1)).
ghost use Rattle.std.specs.Prelude.{◌≡◌, ◌≤◌, map, string_bytes, Err, IfErr, IfOk};
ghost use Rattle.pcp_outside.specs.Sides.{sink_side};
ghost use Rattle.log_extract.specs.Extracting.{extract_side};
ghost use Rattle.pm_extracting.specs.Ends.{Cause, Ends, Orders, TellsCount, call_side};
ghost use Rattle.pm_extracting.specs.Facts.{Facts};
ghost use Rattle.pm_extracting.specs.Refusals.{fault_refusal, front_of};
ghost use Rattle.pm_words.specs.Streams.{IsSent};
ghost use Rattle.pm_words.specs.Telling.{TellsAll};

use crate::refusal::{fault_refusal, front_of};
use log_extract::{ExtractFault, extract_all};
use pcp_outside::{Disk, Sink};
use pm_words::{Call, Command, Refusal, read_words, send, tell_end};
use std::alloc::Global;
use text_lines::one_number_line;

// The volume limit that the words ask for.
fn prepare(alloc: Global, words: &[String]) -> Result<u64, Refusal>
    ensures orders { IfOk result (Orders (map string_bytes words.now)) }
    ensures fits { IfOk result (λ volume. (1024 ≤ volume) × (volume ≤ 1073741824)) }
    ensures refused { IfErr result (Cause (map string_bytes words.now)) }
{
    let command = read_words(alloc, Call::Extract, words)?;
    let Command::Extract(volume) = command else {
        unreachable!()
    };
    Ok(volume)
}

// Tells how many items were logged. Where memory for the line is refused nothing is told.
fn tell_count<O: Sink>(alloc: Global, out: &mut O, count: u64) -> u8
    ensures { TellsCount (sink_side O.Sink out.old out.new) count result }
{
    match one_number_line(alloc, b"extracted", count) {
        Ok(line) => tell_end(alloc, out, false, Ok(line)),
        Err(_) => 9,
    }
}

// Names the source that a refusal is about, where it is about one, and tells whether the sink has failed.
fn name_source<O: Sink>(out: &mut O, fault: &ExtractFault) -> bool
    ensures { IsSent (sink_side O.Sink out.old out.new) (front_of fault.now) result }
{
    match front_of(fault) {
        Some(line) => send(out, false, line),
        None => false,
    }
}

// Tells why an extract ended before all was merged.
fn tell_fault<O: Sink>(alloc: Global, out: &mut O, fault: ExtractFault) -> u8
    ensures { TellsAll (sink_side O.Sink out.old out.new) (front_of fault) (Err (fault_refusal fault)) result }
{
    let failed = name_source(out, &fault);
    tell_end(alloc, out, failed, Err(fault_refusal(fault)))
}

// Merges as the words ask, and tells how it ended.
fn extract_and_tell<A: Disk, B: Disk, O: Sink, D: Disk>(
    alloc: Global,
    words: &[String],
    first: &mut A,
    second: &mut B,
    out: &mut O,
    disk: &mut D,
) -> u8
    ensures { Ends (call_side (map string_bytes words.now) (extract_side A.Disk first.old first.new B.Disk second.old second.new D.Disk disk.old disk.new)) (sink_side O.Sink out.old out.new) result }
{
    let volume = match prepare(alloc, words) {
        Ok(volume) => volume,
        Err(refusal) => return tell_end(alloc, out, false, Err(refusal)),
    };
    match extract_all(alloc, volume, first, second, disk) {
        Ok(count) => tell_count(alloc, out, count),
        Err(fault) => tell_fault(alloc, out, fault),
    }
}

/// Logs the merge of two archives into the files of a third, as `extract VOLUME` asks: `first` and `second` hold the archives, which are checked and
/// left as they are, and `disk` the files, which are recovered; what is logged comes behind what they have. VOLUME is the volume limit in bytes.
/// Answers the exit status; where it isn't 0, the last line of the output says why. 0: the whole merge was logged. 1: the words don't ask for that.
/// 4: the output couldn't be written. 5: a disk failed. 6: an archive can't be read, or stands wrapped. 7: a record or a file would be too long. 9:
/// memory was refused. 10: a source isn't sound. 12: an item isn't later than all that the archive has. 13: the archive describes a metric
/// otherwise. 18: a source doesn't describe a metric of the next item with a name, or names no instance of it. 19: the sources name an instance of
/// the next item differently. A refusal of a source (5, 6 or 10) names it on a line before. What is looked at first comes first: the words, the first
/// source, the second, the recovery of the files, the merge and the archive item by item, the output; a disk that fails while what was logged is
/// flushed stands before whatever else ended it. Whatever ends it, what was logged is flushed.
pub fn extract<A: Disk, B: Disk, O: Sink, D: Disk>(
    alloc: Global,
    words: &[String],
    first: &mut A,
    second: &mut B,
    out: &mut O,
    disk: &mut D,
) -> u8
    ensures facts { Facts (call_side (map string_bytes words.now) (extract_side A.Disk first.old first.new B.Disk second.old second.new D.Disk disk.old disk.new)) (sink_side O.Sink out.old out.new) result }
{
    extract_and_tell(alloc, words, first, second, out, disk)
}
