//! `summary`, the call that main makes for `summary WORKERS SEC USEC SEC USEC` (pmlogsummary(1)).
ghost use Rattle.std.specs.Prelude.{map, string_bytes, IfErr, IfOk};
ghost use Rattle.archive_loading.specs.Looks.{Looks};
ghost use Rattle.pcp_outside.specs.Sides.{sink_side};
ghost use Rattle.pm_summing.specs.Ends.{CameTo, Cause, Ends, Orders, call_side};
ghost use Rattle.pm_summing.specs.Facts.{Facts};
ghost use Rattle.pm_words.specs.CommandLine.{FitsCommand};
ghost use Rattle.pm_words.specs.declared.words.Command.TheVariants.{Summary as Summing};

use archive_reader::ReaderFault;
use log_summary::summarize;
use pcp_base::Bytes;
use pcp_outside::{Disk, Sink, Turn};
use pm_words::{Call, Command, Refusal, SummaryWords, read_words, tell_end};
use std::alloc::Global;
use std::thread::Threads;

// How many workers are asked for, and the two stamps.
fn read_asked(alloc: Global, words: &[String]) -> Result<SummaryWords, Refusal>
    ensures orders { IfOk result (Orders (map string_bytes words.now)) }
    ensures fits { IfOk result (λ asked. FitsCommand (Summing asked)) }
    ensures refused { IfErr result (Cause (map string_bytes words.now)) }
{
    let command = read_words(alloc, Call::Summary, words)?;
    // It is the call's one command.
    let Command::Summary(asked) = command else {
        unreachable!()
    };
    Ok(asked)
}

// The summary of the files, as it is asked for.
fn sum_up<R: Threads + Sync, D: Disk, T: Turn + Sync>(
    rt: &R,
    alloc: Global,
    asked: &SummaryWords,
    disk: &mut D,
    turn: &T,
) -> Result<Bytes, ReaderFault>
    requires fits { FitsCommand (Summing asked.now) }
    ensures came { CameTo D.Disk disk.old disk.new asked.now.from asked.now.to result }
    ensures looks { Looks D.Disk disk.old disk.new }
{
    summarize(rt, alloc, asked.workers, asked.from, asked.to, disk, turn)
}

// Sums up what the words ask for, and tells how it ended.
fn sum_and_tell<R: Threads + Sync, O: Sink, D: Disk, T: Turn + Sync>(
    rt: &R,
    alloc: Global,
    words: &[String],
    out: &mut O,
    disk: &mut D,
    turn: &T,
) -> u8
    ensures ends { Ends (call_side (map string_bytes words.now) D.Disk disk.old disk.new) (sink_side O.Sink out.old out.new) result }
    ensures looks { Looks D.Disk disk.old disk.new }
{
    let asked = match read_asked(alloc, words) {
        Ok(asked) => asked,
        Err(refusal) => return tell_end(alloc, out, false, Err(refusal)),
    };
    match sum_up(rt, alloc, &asked, disk, turn) {
        Ok(text) => tell_end(alloc, out, false, Ok(text)),
        Err(fault) => tell_end(alloc, out, false, Err(Refusal::from(fault))),
    }
}

/// Writes what the numbers of an archive come to between two stamps, both included, as `summary WORKERS SEC USEC SEC USEC` asks: a line
/// for each metric's instance that has numbers, `NAME COUNT LEAST GREATEST SUM` or `NAME[INSTANCE] ..`. As many volumes at a time as there
/// are workers are summed beside each other; each worker calls `turn` with its number, from 0, and the volume's before it. The lines don't
/// depend on the number of workers. Answers the exit status; where it isn't 0, the last line of the output says why. 0: the lines are
/// written. 1: the words don't ask for that. 4: the output couldn't be written. 5: the disk failed. 6: the archive is turned away: a file
/// stands wrapped, or an offset fits no archive. 9: memory was refused. What is looked at first comes first: the words, whether a file stands
/// wrapped, the files, the output. The disk is left as it was, whatever the status.
pub fn summary<R: Threads + Sync, O: Sink, D: Disk, T: Turn + Sync>(
    rt: &R,
    alloc: Global,
    words: &[String],
    out: &mut O,
    disk: &mut D,
    turn: &T,
) -> u8
    ensures facts { Facts (call_side (map string_bytes words.now) D.Disk disk.old disk.new) (sink_side O.Sink out.old out.new) result }
{
    sum_and_tell(rt, alloc, words, out, disk, turn)
}
