//! Why a logger's call was refused.
ghost use Rattle.std.specs.Prelude.{◌≡◌};
ghost use Rattle.logger_core.specs.declared.fault.LogFault.TheVariants.{NoMemory as Refused};

use pcp_base::{FileId, NoMemory, Pmid, Stamp};
use std::error::Error;
use std::fmt;

/// Why a logger's call was refused. They are looked at in this order.
#[derive(Clone, Copy, Debug)]
pub enum LogFault {
    /// An earlier call of this logger answered `DiskFault`.
    Closed,
    /// The volume that is written, which has this number, would be retired. It comes from `Logger::retire` alone.
    Live { volume: u32 },
    /// The framed record, or else a record of Meta that is missing for it, would be longer than 16,777,216 bytes.
    Large { bytes: u64 },
    /// The result isn't stamped after every item, every instance domain and every entry of the index; this is the greatest stamp.
    /// What was retired counts.
    NotLater { last: Stamp },
    /// A metric is described otherwise than before, or its name isn't the first one kept.
    Changed { pmid: Pmid },
    /// Meta or the index would pass 2,147,483,647 bytes, and would have so many; or a volume would be opened whose number is
    /// 10,000 or above, and `bytes` is 10,000.
    Full { file: FileId, bytes: u64 },
    /// Memory was refused.
    NoMemory,
    /// The disk failed. The logger is closed: what it left is to be recovered.
    DiskFault,
}

impl fmt::Display for LogFault {
    fn fmt<W: fmt::Write>(&self, f: &mut fmt::Formatter<W>) -> fmt::Result {
        f.write_str(match self {
            LogFault::Closed => "an earlier call failed",
            LogFault::Live { .. } => "the volume is the one that is written",
            LogFault::Large { .. } => "a record would be too long",
            LogFault::NotLater { .. } => "the result isn't stamped after all that stands",
            LogFault::Changed { .. } => "a metric is described otherwise than before",
            LogFault::Full { .. } => "a file would be too long, or a volume's number too large",
            LogFault::NoMemory => "out of memory",
            LogFault::DiskFault => "the disk failed",
        })
    }
}

impl Error for LogFault {}

impl From<NoMemory> for LogFault {
    ghost from_gives = { λ _ e. e ≡ Refused };

    fn from(_error: NoMemory) -> LogFault {
        LogFault::NoMemory
    }
}
