//! Why a call of a run is refused.
ghost use Rattle.std.specs.Prelude.{◌≡◌};
ghost use Rattle.logging_run.specs.declared.fault.RunFault.TheVariants.{NoMemory as Refused};
ghost use Rattle.logging_run.specs.Recovering.{fault_of};
ghost use Rattle.logging_run.specs.Refusals.{refusal_of};

use archive_recovery::RecoverFault;
use logger_core::LogFault;
use pcp_base::{FileId, NoMemory, Pmid, Stamp};
use std::error::Error;
use std::fmt;

/// Why a call of a run is refused. `Compressed` and `NotArchive` come from its beginning alone, and `Large`, `NotLater`, `Changed` and `Full` of
/// a result that the archive turns away.
#[derive(Clone, Copy, Debug)]
pub enum RunFault {
    /// The file stands under its name with `.xz` or `.gz` added.
    Compressed { file: FileId },
    /// The first offset that fits no archive.
    NotArchive { file: FileId, at: u64 },
    /// The framed record, or else a record of Meta that is missing for it, would be longer than 16,777,216 bytes.
    Large { bytes: u64 },
    /// The result isn't stamped after every item, every instance domain and every entry of the index; this is the greatest stamp.
    NotLater { last: Stamp },
    /// A metric is described otherwise than before, or its name isn't the first one kept.
    Changed { pmid: Pmid },
    /// Meta or the index would pass 2,147,483,647 bytes, and would have so many; or a volume would be opened whose number is 10,000 or above,
    /// and `bytes` is 10,000.
    Full { file: FileId, bytes: u64 },
    /// Memory was refused.
    NoMemory,
    /// The disk failed: nothing more is done, and what it left is to be recovered.
    DiskFault,
}

impl fmt::Display for RunFault {
    fn fmt<W: fmt::Write>(&self, f: &mut fmt::Formatter<W>) -> fmt::Result {
        f.write_str(match self {
            RunFault::Compressed { .. } => "a file is compressed",
            RunFault::NotArchive { .. } => "a file is no archive",
            RunFault::Large { .. } => "a record would be too long",
            RunFault::NotLater { .. } => "the result isn't stamped after all that stands",
            RunFault::Changed { .. } => "a metric is described otherwise than before",
            RunFault::Full { .. } => "a file would be too long, or a volume's number too large",
            RunFault::NoMemory => "out of memory",
            RunFault::DiskFault => "the disk failed",
        })
    }
}

impl Error for RunFault {}

impl From<NoMemory> for RunFault {
    ghost from_gives = { λ _ e. e ≡ Refused };

    fn from(_error: NoMemory) -> RunFault {
        RunFault::NoMemory
    }
}

/// Why a run is refused whose files aren't recovered.
pub(crate) fn unrecovered(fault: RecoverFault) -> RunFault
    ensures { result ≡ fault_of fault }
{
    match fault {
        RecoverFault::Compressed { file } => RunFault::Compressed { file },
        RecoverFault::NotArchive { file, at } => RunFault::NotArchive { file, at },
        RecoverFault::DiskFault => RunFault::DiskFault,
        RecoverFault::NoMemory => RunFault::NoMemory,
    }
}

/// Why a result isn't logged that a session refuses, which is not closed.
pub(crate) fn refusal(fault: LogFault) -> RunFault
    ensures { result ≡ refusal_of fault }
{
    match fault {
        LogFault::Large { bytes } => RunFault::Large { bytes },
        LogFault::NotLater { last } => RunFault::NotLater { last },
        LogFault::Changed { pmid } => RunFault::Changed { pmid },
        LogFault::Full { file, bytes } => RunFault::Full { file, bytes },
        LogFault::NoMemory => RunFault::NoMemory,
        LogFault::Closed | LogFault::Live { .. } | LogFault::DiskFault => RunFault::DiskFault,
    }
}
