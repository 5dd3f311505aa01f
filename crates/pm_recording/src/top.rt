//! `run_record`, the call that main makes for `record SAMPLES VOLUME` (pmlogger(1)).
ghost use Rattle.std.specs.Prelude.{◌≡◌, map, string_bytes, IfOk, MatchResult, None};
ghost use Rattle.pcp_outside.specs.Sides.{sink_side, source_side};
ghost use Rattle.pm_recording.specs.Ends.{CameTo, Cause, IsOrder};
ghost use Rattle.pm_recording.specs.Facts.{Facts};
ghost use Rattle.pm_recording.specs.Recording.{call_side, run_side};
ghost use Rattle.pm_words.specs.CommandLine.{FitsCommand};
ghost use Rattle.pm_words.specs.declared.words.Command.TheVariants.{Record};
ghost use Rattle.run_script.specs.Recording.{refused_line};
ghost use Rattle.run_script.specs.Rules.{KeepsRules};

use crate::running::record_on;
use crate::scripts::read_script;
use pcp_base::Bytes;
use pcp_outside::{Clock, Disk, Sink, Source, Turn};
use pm_words::{Call, Command, RecordWords, Refusal, ask, of_ending, tell_end};
use run_passes::Opened;
use run_script::Script;
use std::alloc::Global;
use std::sync::Wait;
use std::thread::Threads;

// What is asked for, and the script of the input.
fn prepare<I: Source>(
    alloc: Global,
    words: &[String],
    input: &mut I,
) -> Result<(RecordWords, Script), Refusal>
    ensures order { MatchResult result (λ x. IsOrder (map string_bytes words.now) (source_side I.Source input.old input.new) x.0 x.1) (Cause (map string_bytes words.now) (source_side I.Source input.old input.new)) }
    ensures fits { IfOk result (λ x. FitsCommand (Record x.0)) }
    ensures rules { IfOk result (λ x. KeepsRules x.1) }
    ensures beside { IfOk result (λ x. refused_line x.1 ≡ None) }
{
    let (command, bytes) = ask(alloc, Call::Record, words, input)?;
    let Command::Record(asked) = command else {
        unreachable!()
    };
    let script = read_script(alloc, bytes.as_slice())?;
    Ok((asked, script))
}

// Records what the words and the input ask for, and tells the line to write. A run that is refused has no other line.
fn run<I: Source, D: Disk, C: Clock, T: Turn + Sync, R: Threads + Wait + Sync>(
    rt: &R,
    alloc: Global,
    words: &[String],
    input: &mut I,
    disk: &mut D,
    clock: &mut C,
    turn: &T,
    opened: &mut Option<Opened>,
) -> Result<Bytes, Refusal>
    requires fresh { opened.old ≡ None }
    ensures { CameTo (call_side (map string_bytes words.now) (source_side I.Source input.old input.new) (run_side C.Clock D.Disk clock.old clock.new disk.old disk.new opened.new)) result }
{
    let (asked, script) = prepare(alloc, words, input)?;
    let recorded = record_on(rt, alloc, asked, script, disk, clock, turn, opened)?;
    match of_ending(recorded.ending) {
        None => Ok(recorded.output),
        Some(refusal) => Err(refusal),
    }
}

/// Records the script that the input holds as `record SAMPLES VOLUME` asks: its writers run beside each other, a sample is taken at
/// each of SAMPLES moments of the clock, the last one behind the writers, and what is sampled is logged into the archive. Answers the
/// exit status; where it isn't 0, the last line of the output says why. 0: all was recorded. 1: the words don't ask for a recording. 2:
/// the input is no script, or its passes can't act beside each other. 3, 4, 5: the source, the sink or the disk failed. 6: the archive
/// is turned away. 7: the input is above 16 MiB or has a 65th region, a sample asks for too many metrics, or a record or a file would be
/// too long. 8: the clock had no further moment. 9: memory was refused, before the run, to it, or to the line of a refusal. 12: a sample
/// isn't later than all that the archive has. 13: the archive describes a metric otherwise. 20: the clock failed. What is looked at first
/// comes first: the words, the input, the recovery of the disk, the run, the output. Where the files or a sample are refused the writers
/// run to their ends all the same. `opened` is `None` before; wherever the run began it has the regions on which it recorded, whose
/// passes are gone: a list of none for each region where the writers ended, and no list where memory was refused to them. It waits for its source and for its writers alone.
pub fn run_record<I: Source, O: Sink, D: Disk, C: Clock, T: Turn + Sync, R: Threads + Wait + Sync>(
    rt: &R,
    alloc: Global,
    words: &[String],
    input: &mut I,
    out: &mut O,
    disk: &mut D,
    clock: &mut C,
    turn: &T,
    opened: &mut Option<Opened>,
) -> u8
    requires fresh { opened.old ≡ None }
    ensures facts { Facts (call_side (map string_bytes words.now) (source_side I.Source input.old input.new) (run_side C.Clock D.Disk clock.old clock.new disk.old disk.new opened.new)) (sink_side O.Sink out.old out.new) result }
{
    let ran = run(rt, alloc, words, input, disk, clock, turn, opened);
    tell_end(alloc, out, false, ran)
}
