//! What a call gets of its words and of its source: the command that it is asked for, and that command's whole input, or why there is
//! none.
ghost use Rattle.std.specs.Prelude.{◌≡◌, ◌≤◌, IfErr, IfOk, false, true, length, map, string_bytes};
ghost use Rattle.pcp_outside.specs.Sides.{source_side};
ghost use Rattle.pm_words.specs.Asking.{AsksFor, Before, Got, IsInputless};
ghost use Rattle.pm_words.specs.CommandLine.{FitsCommand, call_of, takes_input};
ghost use Rattle.pm_words.specs.Inputs.{input_limit};
ghost use Rattle.pm_words.specs.Reading.{UnreadCause};

use crate::inputs::read_input;
use crate::refusal::Refusal;
use crate::words::{Call, Command, read_words};
use pcp_base::{Bytes, List};
use pcp_outside::Source;
use std::alloc::Global;

// What a command gets of the source: all of it, or nothing.
fn get_input<I: Source>(alloc: Global, command: &Command, input: &mut I) -> Result<Bytes, Refusal>
    ensures got { IfOk result (Got (takes_input command.now) (source_side I.Source input.old input.new)) }
    ensures within { IfOk result (λ bytes. length bytes ≤ input_limit) }
    ensures reads { IfErr result (λ stop. takes_input command.now ≡ true) }
    ensures cause { IfErr result (UnreadCause (source_side I.Source input.old input.new)) }
    ensures unasked { takes_input command.now ≡ false → input.new ≡ input.old }
{
    if command.takes_input() {
        read_input(alloc, input)
    } else {
        Ok(List::empty(alloc))
    }
}

/// The command that the words ask a call for, and its input, which is empty for a command that takes none. The words are looked at first.
pub fn ask<I: Source>(
    alloc: Global,
    call: Call,
    words: &[String],
    input: &mut I,
) -> Result<(Command, Bytes), Refusal>
    ensures asks { IfOk result (λ x. AsksFor call (map string_bytes words.now) (source_side I.Source input.old input.new) x.0 x.1) }
    ensures fits { IfOk result (λ x. FitsCommand x.0) }
    ensures call { IfOk result (λ x. call_of x.0 ≡ call) }
    ensures within { IfOk result (λ x. length x.1 ≤ input_limit) }
    ensures refused { IfErr result (Before call (map string_bytes words.now) (source_side I.Source input.old input.new)) }
    // A command without input leaves the source alone.
    ensures unasked { IsInputless call (map string_bytes words.now) → input.new ≡ input.old }
{
    let command = read_words(alloc, call, words)?;
    let bytes = get_input(alloc, &command, input)?;
    Ok((command, bytes))
}
