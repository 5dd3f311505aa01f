//! The whole input, read to its end before anything is made of it.
ghost use Rattle.std.specs.Prelude.{IfOk, IfErr};
ghost use Rattle.pm_words.specs.Reading.{WasRead, UnreadCause};
ghost use Rattle.pcp_outside.specs.Sides.{source_side};

use crate::refusal::Refusal;
use pcp_base::Bytes;
use pcp_outside::{ReadFault, Source, read_to_limit};
use std::alloc::Global;

const INPUT_LIMIT: usize = 16_777_216;

/// All of the input, of 16 MiB at most. Above that one byte behind the limit is taken, and no further one.
pub fn read_input<I: Source>(alloc: Global, input: &mut I) -> Result<Bytes, Refusal>
    ensures read { IfOk result (WasRead (source_side I.Source input.old input.new)) }
    ensures cause { IfErr result (UnreadCause (source_side I.Source input.old input.new)) }
{
    match read_to_limit(alloc, input, INPUT_LIMIT) {
        Ok(bytes) => Ok(bytes),
        Err(ReadFault::NoMemory) => Err(Refusal::NoMemory),
        Err(ReadFault::Failed) => Err(Refusal::ReadFault),
        Err(ReadFault::TooMuch) => Err(Refusal::InputLimit),
    }
}
