//! The faults of reading an archive.
ghost use Rattle.std.specs.Prelude.{◌≡◌};
ghost use Rattle.archive_reader.specs.declared.fault.ReaderFault.TheVariants.{NoMemory as Refused};
ghost use Rattle.archive_reader.specs.Lacks.{of_lack};

use archive_loading::Lack;
use pcp_base::NoMemory;
use pcp_outside::FileId;
use std::error::Error;
use std::fmt;

/// Why an archive isn't read.
#[derive(Clone, Copy, Debug)]
pub enum ReaderFault {
    /// The file stands under its name with `.xz` or `.gz` added.
    Compressed { file: FileId },
    /// The first offset that fits no archive: of a label its first byte that doesn't fit, of a record the record's first byte,
    /// of an entry that leads outside its volume's records the offset that it says.
    NotArchive { file: FileId, at: u64 },
    /// The disk failed.
    DiskFault,
    /// Memory was refused.
    NoMemory,
}

impl fmt::Display for ReaderFault {
    fn fmt<W: fmt::Write>(&self, f: &mut fmt::Formatter<W>) -> fmt::Result {
        f.write_str(match self {
            ReaderFault::Compressed { .. } => "a file is compressed",
            ReaderFault::NotArchive { .. } => "a file is no archive",
            ReaderFault::DiskFault => "the disk failed",
            ReaderFault::NoMemory => "out of memory",
        })
    }
}

impl Error for ReaderFault {}

impl From<NoMemory> for ReaderFault {
    ghost from_gives = { λ _ e. e ≡ Refused };

    fn from(_error: NoMemory) -> ReaderFault {
        ReaderFault::NoMemory
    }
}

impl From<Lack> for ReaderFault {
    ghost from_gives = { λ lack e. e ≡ of_lack lack };

    fn from(error: Lack) -> ReaderFault {
        match error {
            Lack::Disk => ReaderFault::DiskFault,
            Lack::Memory => ReaderFault::NoMemory,
        }
    }
}
