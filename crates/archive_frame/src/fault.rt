//! Why bytes are no label, or no framed record.
ghost use Rattle.std.specs.Prelude.{◌≡◌};
ghost use Rattle.archive_frame.specs.declared.fault.FrameFault.TheVariants.{NoMemory as Refused};

use pcp_base::NoMemory;
use std::error::Error;
use std::fmt;

/// Why bytes are no framed record at an offset, or no label.
///
/// Of a step's faults the first comes in this order: fewer than 4 bytes there, `Size`, fewer bytes than the length
/// word says, `Lengths`. Their `at` is the offset that was handed in.
#[derive(Clone, Copy, Debug)]
pub enum FrameFault {
    /// Fewer bytes are there than a length word has or says.
    Torn { at: u64 },
    /// A length word below 12 or above 16,777,216.
    Size { at: u64, found: u64 },
    /// The length words in front of the payload and behind it differ.
    Lengths { at: u64, head: u64, tail: u64 },
    /// The first byte that fits no label.
    Label { at: u64 },
    /// Memory was refused.
    NoMemory,
}

impl fmt::Display for FrameFault {
    fn fmt<W: fmt::Write>(&self, f: &mut fmt::Formatter<W>) -> fmt::Result {
        f.write_str(match self {
            FrameFault::Torn { .. } => "a framed record is torn",
            FrameFault::Size { .. } => "a framed record has a length out of range",
            FrameFault::Lengths { .. } => "a framed record has two lengths",
            FrameFault::Label { .. } => "the label is wrong",
            FrameFault::NoMemory => "out of memory",
        })
    }
}

impl Error for FrameFault {}

impl From<NoMemory> for FrameFault {
    ghost from_gives = { λ _ e. e ≡ Refused };

    fn from(_error: NoMemory) -> FrameFault {
        FrameFault::NoMemory
    }
}
