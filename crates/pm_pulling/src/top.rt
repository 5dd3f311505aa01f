//! `pull`, the call that main makes for `pull PORT SAMPLES VOLUME NAME..` (pmlogger(1)).
ghost use Rattle.std.specs.Prelude.{◌≡◌, map, string_bytes, IfErr, IfOk};
ghost use Rattle.pcp_outside.specs.Sides.{sink_side, source_side};
ghost use Rattle.pm_pulling.specs.Ends.{Cause, Ends, Orders, TellsStop, call_side, logged_line};
ghost use Rattle.pm_pulling.specs.Facts.{Facts};
ghost use Rattle.pm_pulling.specs.Pulling.{pull_side};
ghost use Rattle.pm_pulling.specs.Stops.{stop_refusal};
ghost use Rattle.pm_words.specs.CommandLine.{FitsCommand};
ghost use Rattle.pm_words.specs.declared.words.Command.TheVariants.{Pull as Pulling};

use crate::pulling::pull_samples;
use crate::stop::{Stop, stop_refusal};
use pcp_base::Bytes;
use pcp_outside::{Disk, Sink, Source, Turn};
use pm_words::{Call, Command, PullWords, Refusal, read_words, tell_end};
use std::alloc::Global;
use text_lines::one_number_line;

// What the words ask for, and the line that tells that it is done: all memory that the end takes is taken here.
fn prepare(alloc: Global, words: &[String]) -> Result<(PullWords, Bytes), Refusal>
    ensures orders { IfOk result (λ x. Orders (map string_bytes words.now) x.0) }
    ensures line { IfOk result (λ x. x.1 ≡ logged_line x.0.samples) }
    ensures fits { IfOk result (λ x. FitsCommand (Pulling x.0)) }
    ensures refused { IfErr result (Cause (map string_bytes words.now)) }
{
    let command = read_words(alloc, Call::Pull, words)?;
    let Command::Pull(asked) = command else {
        unreachable!()
    };
    let line = one_number_line(alloc, b"logged", u64::from(asked.samples))?;
    Ok((asked, line))
}

// Tells why a run ended before all its samples were logged. Where a request couldn't be written there is no line.
fn tell_stop<O: Sink>(alloc: Global, out: &mut O, stop: Stop) -> u8
    ensures { TellsStop (sink_side O.Sink out.old out.new) (stop_refusal stop) result }
{
    match stop_refusal(stop) {
        Some(refusal) => tell_end(alloc, out, false, Err(refusal)),
        None => 4,
    }
}

// Pulls what the words ask for, and tells how it ended.
fn pull_and_tell<I: Source, L: Sink, O: Sink, D: Disk, T: Turn>(
    alloc: Global,
    words: &[String],
    reply: &mut I,
    request: &mut L,
    out: &mut O,
    disk: &mut D,
    turn: &T,
) -> u8
    ensures { Ends (call_side (map string_bytes words.now) (pull_side (source_side I.Source reply.old reply.new) (sink_side L.Sink request.old request.new) D.Disk disk.old disk.new)) (sink_side O.Sink out.old out.new) result }
{
    let (asked, line) = match prepare(alloc, words) {
        Ok(prepared) => prepared,
        Err(refusal) => return tell_end(alloc, out, false, Err(refusal)),
    };
    match pull_samples(alloc, &asked, reply, request, disk, turn) {
        Ok(()) => tell_end(alloc, out, false, Ok(line)),
        Err(stop) => tell_stop(alloc, out, stop),
    }
}

/// Logs what a peer replies, as `pull SAMPLES VOLUME NAME..` asks: the files of the archive are recovered, the peer is asked for SAMPLES samples of
/// the metrics of the names, and each is logged and made sure before the next one is asked for; `turn` is called with 0 and the sample's number, from
/// 0, before each. `reply` gives what the peer sends, and `request` takes what is sent to it. Answers the exit status; where it isn't 0, the last line
/// of the output says why. 0: SAMPLES samples were logged. 1: the words don't ask for that. 3: the source of the replies failed. 4: a request
/// couldn't be written, of which no line tells, or the output. 5: the disk failed. 6: the archive is turned away. 7: a record or a file would be too
/// long. 9: memory was refused. 12: a sample isn't later than all that the archive has. 13: the archive describes a metric otherwise. 16: a reply
/// doesn't fit; its number, from 0, and why. What is looked at first comes first: the words, the recovery of the disk, the replies and the archive as
/// they come, the output. Whatever ends it, what was logged is flushed. It waits for its source alone.
pub fn pull<I: Source, L: Sink, O: Sink, D: Disk, T: Turn>(
    alloc: Global,
    words: &[String],
    reply: &mut I,
    request: &mut L,
    out: &mut O,
    disk: &mut D,
    turn: &T,
) -> u8
    ensures facts { Facts (call_side (map string_bytes words.now) (pull_side (source_side I.Source reply.old reply.new) (sink_side L.Sink request.old request.new) D.Disk disk.old disk.new)) (sink_side O.Sink out.old out.new) result }
{
    pull_and_tell(alloc, words, reply, request, out, disk, turn)
}
