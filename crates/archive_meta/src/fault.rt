//! Why bytes are no records of Meta (LOGARCHIVE(5)).
ghost use Rattle.std.specs.Prelude.{◌≡◌};
ghost use Rattle.archive_meta.specs.declared.fault.MetaFault.TheVariants.{NoMemory as Refused};

use pcp_base::NoMemory;
use std::error::Error;
use std::fmt;

/// Why bytes are no records of Meta.
#[derive(Clone, Copy, Debug)]
pub enum MetaFault {
    /// The first bytes that are no record: its frame isn't whole, its payload is refused, or it is a second description
    /// of a metric that differs from the first. Its first byte is counted from the start of the bytes handed in.
    Record { at: u64 },
    /// Memory was refused.
    NoMemory,
}

impl fmt::Display for MetaFault {
    fn fmt<W: fmt::Write>(&self, f: &mut fmt::Formatter<W>) -> fmt::Result {
        f.write_str(match self {
            MetaFault::Record { .. } => "a record of Meta is wrong",
            MetaFault::NoMemory => "out of memory",
        })
    }
}

impl Error for MetaFault {}

impl From<NoMemory> for MetaFault {
    ghost from_gives = { λ _ e. e ≡ Refused };

    fn from(_error: NoMemory) -> MetaFault {
        MetaFault::NoMemory
    }
}
