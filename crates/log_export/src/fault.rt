//! Why an archive isn't exported.
ghost use Rattle.std.specs.Prelude.{◌≡◌};
ghost use Rattle.archive_reader.specs.declared.fault.ReaderFault.TheVariants as reads;
ghost use Rattle.log_export.specs.declared.fault.ExportFault.TheVariants.{DiskFault, Source};

use archive_reader::ReaderFault;
use pcp_base::NoMemory;
use pcp_outside::{Failed, FileId};
use std::error::Error;
use std::fmt;

/// Why an archive isn't exported.
#[derive(Clone, Copy, Debug)]
pub enum ExportFault {
    /// The file stands where the archive is to come to stand, under its name or under that with `.xz` or `.gz` added.
    Stands { file: FileId },
    /// The source isn't read, or memory is refused: nothing is written then. Or the source's disk failed, where something may have been written.
    Source(ReaderFault),
    /// The disk that is written failed.
    DiskFault,
}

impl fmt::Display for ExportFault {
    fn fmt<W: fmt::Write>(&self, f: &mut fmt::Formatter<W>) -> fmt::Result {
        f.write_str(match self {
            ExportFault::Stands { .. } => "a file stands there",
            ExportFault::Source(..) => "the source isn't read",
            ExportFault::DiskFault => "the disk failed",
        })
    }
}

impl Error for ExportFault {}

impl From<Failed> for ExportFault {
    ghost from_gives = { λ _ e. e ≡ DiskFault };

    fn from(_error: Failed) -> ExportFault {
        ExportFault::DiskFault
    }
}

impl From<ReaderFault> for ExportFault {
    ghost from_gives = { λ fault e. e ≡ Source fault };

    fn from(fault: ReaderFault) -> ExportFault {
        ExportFault::Source(fault)
    }
}

impl From<NoMemory> for ExportFault {
    ghost from_gives = { λ _ e. e ≡ Source reads.NoMemory };

    fn from(_error: NoMemory) -> ExportFault {
        ExportFault::Source(ReaderFault::NoMemory)
    }
}
