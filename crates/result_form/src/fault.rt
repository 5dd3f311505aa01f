//! Why bytes are no payload.
ghost use Rattle.std.specs.Prelude.{◌≡◌};
ghost use Rattle.result_form.specs.declared.fault.FormFault.TheVariants.{NoMemory as Refused};

use pcp_base::NoMemory;
use std::alloc::AllocError;
use std::error::Error;
use std::fmt;

/// Why bytes are no payload of a result; `at` is the payload's byte where the field begins.
///
/// First come the faults of the words in their order, then those of the pairs whose values stand in blocks,
/// in their order, and last what stands behind the payload's end.
#[derive(Clone, Copy, Debug)]
pub enum FormFault {
    /// The payload ends inside this word.
    Short { at: u64 },
    /// Seconds of 2^31 or more, or microseconds of 1,000,000 or more.
    Stamp { at: u64 },
    /// A negative number of sets.
    Count { at: u64 },
    /// A storage mode other than 0, in place, and 1, in blocks.
    Mode { at: u64 },
    /// An offset whose first word doesn't lie between the end of the last set and the end of the payload.
    Offset { at: u64 },
    /// A block whose length is below 4, or that leaves the payload with its padding.
    Block { at: u64 },
    /// The payload goes on behind the sets and all blocks.
    Trailing { at: u64 },
    /// Memory was refused.
    NoMemory,
}

impl fmt::Display for FormFault {
    fn fmt<W: fmt::Write>(&self, f: &mut fmt::Formatter<W>) -> fmt::Result {
        f.write_str(match self {
            FormFault::Short { .. } => "the payload ends inside a word",
            FormFault::Stamp { .. } => "a word of the time stamp is out of range",
            FormFault::Count { .. } => "the number of sets is negative",
            FormFault::Mode { .. } => "a storage mode is neither 0 nor 1",
            FormFault::Offset { .. } => "a place leads to no block",
            FormFault::Block { .. } => "a block leaves the payload",
            FormFault::Trailing { .. } => "the payload goes on behind its end",
            FormFault::NoMemory => "out of memory",
        })
    }
}

impl Error for FormFault {}

impl From<NoMemory> for FormFault {
    ghost from_gives = { λ _ e. e ≡ Refused };

    fn from(_error: NoMemory) -> FormFault {
        FormFault::NoMemory
    }
}

impl From<AllocError> for FormFault {
    ghost from_gives = { λ _ e. e ≡ Refused };

    fn from(_error: AllocError) -> FormFault {
        FormFault::NoMemory
    }
}
