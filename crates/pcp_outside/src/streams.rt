//! The traits `Source` and `Sink`, and reading to a limit and writing whole pieces over them.
ghost use Rattle.std.specs.Prelude.{◌≡◌, ◌≤◌, ◌<◌, ℕ, length, List as Sequence, IfOk, OnOk, IsErrOf};
ghost use Rattle.pcp_outside.specs.Causes.{Rose, HasCause};
ghost use Rattle.pcp_outside.specs.Streams.{Takes, Puts, PutsAll, ReadsTo};

use crate::failed::Failed;
use pcp_base::{Bytes, List, NoMemory};
use std::alloc::{AllocError, Global};
use std::error::Error;
use std::fmt;

/// Where bytes come from.
pub trait Source {
    /// Whether the object tells its content; one over the system doesn't.
    ghost tells: { Type 0 };

    /// The bytes left.
    ghost left: { Self → Sequence ℕ };

    /// How many of its calls have failed; the number never falls.
    ghost faults: { Self → ℕ };

    /// Takes the next bytes into the front of the buffer and answers how many. None for a buffer that isn't
    /// empty is the end. What stands behind them in the buffer, or in all of it after a failure, isn't said.
    fn take(&mut self, buffer: &mut [u8]) -> Result<usize, Failed>
        ensures within { IfOk result (λ n. n ≤ length buffer.old) }
        ensures bytes { tells → Takes (left self.old) (left self.new) buffer.new result }
        ensures quiet { OnOk result (faults self.new ≡ faults self.old) }
        ensures cause { HasCause (faults self.old) (faults self.new) result };
}

/// Where bytes go to.
pub trait Sink {
    /// Whether the object tells its content; one over the system doesn't.
    ghost tells: { Type 0 };

    /// The bytes written.
    ghost written: { Self → Sequence ℕ };

    /// How many of its calls have failed; the number never falls.
    ghost faults: { Self → ℕ };

    /// Writes a front of the bytes, at least one of a piece that isn't empty, and answers how many.
    fn put(&mut self, bytes: &[u8]) -> Result<usize, Failed>
        ensures within { IfOk result (λ n. n ≤ length bytes.now) }
        ensures progress { IfOk result (λ n. 0 < length bytes.now → 0 < n) }
        ensures bytes { tells → Puts (written self.old) (written self.new) bytes.now result }
        ensures quiet { OnOk result (faults self.new ≡ faults self.old) }
        ensures cause { HasCause (faults self.old) (faults self.new) result };
}

/// Writes all the bytes. Where the sink fails, some front of them is written.
pub fn write_all<O: Sink>(out: &mut O, bytes: &[u8]) -> Result<(), Failed>
    ensures bytes { O.tells → PutsAll (O.written out.old) (O.written out.new) bytes.now result }
    ensures quiet { OnOk result (O.faults out.new ≡ O.faults out.old) }
    ensures cause { HasCause (O.faults out.old) (O.faults out.new) result }
{
    let mut done = 0;
    while done < bytes.len() {
        done += out.put(&bytes[done..])?;
    }
    Ok(())
}

/// Why a source isn't read to its end.
#[derive(Clone, Copy, Debug)]
pub enum ReadFault {
    NoMemory,
    Failed,
    /// It holds more bytes than the limit.
    TooMuch,
}

impl fmt::Display for ReadFault {
    fn fmt<W: fmt::Write>(&self, f: &mut fmt::Formatter<W>) -> fmt::Result {
        f.write_str(match self {
            ReadFault::NoMemory => "out of memory",
            ReadFault::Failed => "the source failed",
            ReadFault::TooMuch => "the source holds more than the limit",
        })
    }
}

impl Error for ReadFault {}

impl From<AllocError> for ReadFault {
    ghost use Rattle.pcp_outside.specs.declared.streams.ReadFault.TheVariants.{NoMemory as OutOfMemory};

    ghost from_gives = { λ _ e. e ≡ OutOfMemory };

    fn from(_error: AllocError) -> ReadFault {
        ReadFault::NoMemory
    }
}

impl From<Failed> for ReadFault {
    ghost use Rattle.pcp_outside.specs.declared.streams.ReadFault.TheVariants.{Failed as SourceFailed};

    ghost from_gives = { λ _ e. e ≡ SourceFailed };

    fn from(_error: Failed) -> ReadFault {
        ReadFault::Failed
    }
}

/// Reads a source to its end where it holds at most `limit` bytes. A longer one is refused after the first
/// byte above the limit; no further byte is asked for.
pub fn read_to_limit<I: Source>(
    alloc: Global,
    input: &mut I,
    limit: usize,
) -> Result<Bytes, ReadFault>
    ensures bytes { I.tells → ReadsTo limit (I.left input.old) (I.left input.new) result }
    ensures within { IfOk result (λ bytes. length bytes ≤ limit) }
    ensures later { I.faults input.old ≤ I.faults input.new }
    ensures cause { IsErrOf result ReadFault.Failed → Rose (I.faults input.old) (I.faults input.new) }
    ensures quiet { OnOk result (I.faults input.new ≡ I.faults input.old) }
{
    let mut bytes = Vec::new(alloc);
    let mut buffer = [0u8; 4096];
    while bytes.len() <= limit {
        let room = (limit - bytes.len()).min(4095) + 1;
        let count = input.take(&mut buffer[..room])?;
        if count == 0 {
            return Ok(List::from_vec(bytes));
        }
        bytes.extend_from_slice(&buffer[..count])?;
    }
    Err(ReadFault::TooMuch)
}
