//! `run_serve`, the call that main makes for `serve PORT COUNT`, with the doors at PORT (pmcd(1)).
ghost use Rattle.std.specs.Prelude.{◌≡◌, length, map, string_bytes, IfOk, MatchResult, None, Ok};
ghost use Rattle.pcp_outside.specs.Sides.{source_side, sink_side};
ghost use Rattle.pm_serving.specs.Ends.{CameTo, Orders, Refused, served_line, sides};
ghost use Rattle.pm_serving.specs.Facts.{Facts};
ghost use Rattle.pm_serving.specs.Serving.{doors_side};
ghost use Rattle.run_script.specs.Recording.{refused_line};
ghost use Rattle.run_script.specs.Rules.{KeepsRules};
ghost use Rattle.run_passes.specs.Openings.{HaveRoom};

use crate::scripts::read_script;
use crate::served::Served;
use crate::together::serve_script;
use pcp_base::{Bytes, NoMemory};
use pcp_outside::{Door, Sink, Source, Turn};
use pm_words::{Call, Command, Refusal, ask, tell_end};
use pmcd_server::ServeFault;
use run_script::Script;
use std::alloc::Global;
use std::sync::Wait;
use std::thread::Threads;
use text_lines::one_number_line;

// How many sessions are asked for, and the script of the input.
fn prepare<I: Source>(
    alloc: Global,
    words: &[String],
    input: &mut I,
) -> Result<(u32, Script), Refusal>
    ensures orders { MatchResult result (λ x. Orders (map string_bytes words.now) (source_side I.Source input.old input.new) x.0 (Ok x.1)) (Refused (map string_bytes words.now) (source_side I.Source input.old input.new)) }
    ensures rules { IfOk result (λ x. KeepsRules x.1) }
    ensures room { IfOk result (λ x. HaveRoom x.1.regions 4) }
    ensures beside { IfOk result (λ x. refused_line x.1 ≡ None) }
{
    let (command, bytes) = ask(alloc, Call::Serve, words, input)?;
    // It is the call's one command.
    let Command::Serve(count) = command else {
        unreachable!();
    };
    let script = read_script(alloc, bytes.as_slice())?;
    Ok((count, script))
}

// The line of a call that served so many sessions.
fn served_line(alloc: Global, count: u32) -> Result<Bytes, NoMemory>
    ensures { IfOk result (λ line. line ≡ served_line count) }
{
    one_number_line(alloc, b"served", u64::from(count))
}

// Does what the words ask for, and tells the line to write. All memory of the call itself but the writers' is taken before the first
// session.
fn run<I: Source, P: Door + Send, R: Threads + Wait + Sync, T: Turn + Sync>(
    rt: &R,
    alloc: Global,
    words: &[String],
    input: &mut I,
    doors: &mut [P],
    turn: &T,
    served: &mut Option<Served>,
) -> Result<Bytes, Refusal>
where
    P::In: Send,
    P::Out: Send,
    P::Time: Send,
    requires four { length doors.old ≡ 4 }
    requires fresh { served.old ≡ None }
    ensures { CameTo (map string_bytes words.now) (source_side I.Source input.old input.new) (doors_side P.Door doors.old doors.new) served.new result }
{
    let (count, script) = prepare(alloc, words, input)?;
    let line = served_line(alloc, count)?;
    match serve_script(rt, alloc, count, &script, doors, turn, served) {
        Ok(_) => Ok(line),
        Err(ServeFault::Accept) => Err(Refusal::Accept),
        Err(ServeFault::NoMemory) => Err(Refusal::NoMemory),
    }
}

/// Serves the clients that `serve COUNT` asks for, through four doors on four seats, over the regions of the script that the input
/// holds, and answers the exit status; where it isn't 0, the last line of the output says why. 0: COUNT sessions were served. 1: the
/// words don't ask for sessions. 2: the input is no script, a region has more than 252 passes, or its passes can't act beside each
/// other. 3, 4: the source or the sink failed. 7: the input is above 16 MiB, or has a 65th region. 9: memory was refused, before the
/// first session or to a writer. 21: a door failed; the other workers served on. The writers of the script run beside the sessions:
/// each pass number is one, which runs the steps of its passes in order; the call ends when all have ended. After 0, 4 and 21 `served`
/// has the regions on which it served, and their passes.
pub fn run_serve<I: Source, O: Sink, P: Door + Send, R: Threads + Wait + Sync, T: Turn + Sync>(
    rt: &R,
    alloc: Global,
    words: &[String],
    input: &mut I,
    out: &mut O,
    doors: &mut [P],
    turn: &T,
    served: &mut Option<Served>,
) -> u8
where
    P::In: Send,
    P::Out: Send,
    P::Time: Send,
    requires four { length doors.old ≡ 4 }
    requires fresh { served.old ≡ None }
    ensures facts { Facts (sides (map string_bytes words.now) (source_side I.Source input.old input.new) (sink_side O.Sink out.old out.new) (doors_side P.Door doors.old doors.new) served.new) result }
{
    let ran = run(rt, alloc, words, input, doors, turn, served);
    tell_end(alloc, out, false, ran)
}
