//! Why bytes are no index.
ghost use Rattle.std.specs.Prelude.{◌≡◌};
ghost use Rattle.temporal_index.specs.declared.fault.IndexFault.TheVariants.{NoMemory as Refused};

use pcp_base::NoMemory;
use std::error::Error;
use std::fmt;

/// Why bytes are no entries of an index.
#[derive(Clone, Copy, Debug)]
pub enum IndexFault {
    /// The first entry that has a stamp out of range, a volume or offset of 2^31 or more, or fewer than 20 bytes.
    /// `at` counts from the first entry, not from the label in front of it.
    Entry { at: u64 },
    /// Memory was refused.
    NoMemory,
}

impl fmt::Display for IndexFault {
    fn fmt<W: fmt::Write>(&self, f: &mut fmt::Formatter<W>) -> fmt::Result {
        f.write_str(match self {
            IndexFault::Entry { .. } => "an entry of the index is wrong",
            IndexFault::NoMemory => "out of memory",
        })
    }
}

impl Error for IndexFault {}

impl From<NoMemory> for IndexFault {
    ghost from_gives = { λ _ e. e ≡ Refused };

    fn from(_error: NoMemory) -> IndexFault {
        IndexFault::NoMemory
    }
}
