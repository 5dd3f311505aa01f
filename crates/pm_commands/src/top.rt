//! `offline`, the call that main makes for each command that has no call of its own.
ghost use Rattle.std.specs.Prelude.{◌≡◌, ◌≤◌, length, map, string_bytes, false, None};
ghost use Rattle.pcp_outside.specs.Sides.{source_side, sink_side};
ghost use Rattle.pm_words.specs.declared.words.Call.TheVariants as calls;
ghost use Rattle.pm_words.specs.Asking.{IsInputless};
ghost use Rattle.pm_words.specs.CommandLine.{FitsCommand, call_of};
ghost use Rattle.pm_words.specs.Inputs.{input_limit};
ghost use Rattle.pm_words.specs.Serving.{MeetsSending};
ghost use Rattle.pm_commands.specs.Facts.{Facts, sides};
ghost use Rattle.pm_commands.specs.Meanings.{meaning, writes_archive};
ghost use Rattle.pm_commands.specs.Running.{Runs};

use pcp_base::Bytes;
use pcp_outside::{Disk, Sink, Source};
use pm_runs::{make, once, recover, replay, retire};
use pm_tasks::{at, check, dump, info, mmv_dump, mmv_lift, mmv_make, range, value, watch};
use pm_words::{Call, Command, Refusal, ask, tell_end};
use run_passes::Opened;
use std::alloc::Global;

/// Whether a command writes an archive, as its meaning says.
pub fn writes_archive(command: &Command) -> bool
    ensures { result ≡ writes_archive command.now }
{
    matches!(
        command,
        Command::Once(_)
            | Command::Replay(_)
            | Command::Make(_)
            | Command::Retire(_)
            | Command::Recover
            | Command::Record(_)
            | Command::Pull(_)
            | Command::Extract(_)
            | Command::Export
    )
}

// Does what a command asks for with its input. What it writes before it is done goes to the sink unless that has failed.
fn serve<O: Sink, D: Disk>(
    alloc: Global,
    command: &Command,
    input: &[u8],
    out: &mut O,
    failed: &mut bool,
    disk: &mut D,
    opened: &mut Option<Opened>,
) -> Result<Bytes, Refusal>
    requires here { call_of command.now ≡ calls.Offline }
    requires fits { FitsCommand command.now }
    requires within { length input.now ≤ input_limit }
    requires fresh { failed.old ≡ false }
    requires closed { opened.old ≡ None }
    ensures meets { MeetsSending (sink_side O.Sink out.old out.new) failed.new (meaning command.now) input.now D.Disk disk.old disk.new opened.new result }
{
    match command {
        Command::Once(asked) => once(alloc, asked, input, disk, opened),
        Command::Replay(volume) => replay(alloc, *volume, input, out, failed, disk, opened),
        Command::Make(asked) => make(alloc, asked, disk, opened),
        Command::Retire(below) => retire(alloc, *below, disk),
        Command::MmvMake => mmv_make(alloc, input),
        Command::MmvDump => mmv_dump(alloc, input),
        Command::MmvLift => mmv_lift(alloc, input),
        Command::Dump => dump(alloc, out, failed, disk),
        Command::Info => info(alloc, disk),
        Command::Check => check(alloc, disk),
        Command::Recover => recover(alloc, disk),
        Command::At(t) => at(alloc, *t, disk),
        Command::Range(from, to) => range(alloc, *from, *to, disk),
        Command::Value(asked) => value(alloc, asked, disk),
        Command::Watch(from, to) => watch(alloc, out, failed, *from, *to, input, disk),
        // They are other calls'.
        Command::Record(_)
        | Command::Serve(_)
        | Command::Pull(_)
        | Command::Extract(_)
        | Command::Summary(_)
        | Command::Export => { unreachable!() }
    }
}

// Runs the command that the words are.
fn run<I: Source, O: Sink, D: Disk>(
    alloc: Global,
    words: &[String],
    input: &mut I,
    out: &mut O,
    failed: &mut bool,
    disk: &mut D,
    opened: &mut Option<Opened>,
) -> Result<Bytes, Refusal>
    requires fresh { failed.old ≡ false }
    requires closed { opened.old ≡ None }
    ensures runs { Runs (map string_bytes words.now) (source_side I.Source input.old input.new) D.Disk disk.old disk.new opened.new (sink_side O.Sink out.old out.new) failed.new result }
    ensures unasked { IsInputless calls.Offline (map string_bytes words.now) → input.new ≡ input.old }
{
    let (command, bytes) = ask(alloc, Call::Offline, words, input)?;
    serve(alloc, &command, bytes.as_slice(), out, failed, disk, opened)
}

/// Runs the command that the words are, and answers the exit status; where it isn't 0, the last line of the output says
/// why it ended. 0: done. 1: the words are no command. 2: the input is no image, no layout text, no script or no text of rules, or the condition
/// of a script's line failed in the run. 3, 4, 5: the source, the sink or the disk failed. 6: the archive is turned away. 7: the
/// input is above 16 MiB, a script has too many regions, there are too many rules, a tick asks for too many metrics, or a record or a file would be too long.
/// 9: memory was refused: the files stand as they did, or as recovery or some first lines of the run left them, or the archive as
/// it was opened. 10: the archive was read, and isn't sound. 11: nothing is there at the moment that was asked for. 12: a result
/// isn't later than all that the archive has. 13: the archive describes a metric otherwise. 14: the number of `retire` is
/// above the archive's current volume, or the archive has no label: no volume was emptied, and the files are as recovery leaves them. What is looked at first comes first: the words, the input, the recovery of the
/// disk, the run, the output. `opened` is `None` before; a command that runs a script leaves there the regions on which it ran.
pub fn offline<I: Source, O: Sink, D: Disk>(
    alloc: Global,
    words: &[String],
    input: &mut I,
    out: &mut O,
    disk: &mut D,
    opened: &mut Option<Opened>,
) -> u8
    requires { opened.old ≡ None }
    ensures facts { Facts (sides (map string_bytes words.now) I.Source input.old input.new O.Sink out.old out.new D.Disk disk.old disk.new opened.new) result }
{
    let mut failed = false;
    let ran = run(alloc, words, input, out, &mut failed, disk, opened);
    tell_end(alloc, out, failed, ran)
}
