//! Why an archive isn't passed as sound.
ghost use Rattle.std.specs.Prelude.{◌≡◌};
ghost use Rattle.archive_reader.specs.Lacks.{of_lack};
ghost use Rattle.archive_check.specs.declared.fault.CheckFault.TheVariants.{Reader as Unread};

use archive_loading::Lack;
use archive_reader::ReaderFault;
use pcp_base::{FileId, Stamp};
use std::error::Error;
use std::fmt;

/// Why an archive isn't passed as sound: the first breach, in this order, or that it can't be read.
#[derive(Clone, Copy, Debug)]
pub enum CheckFault {
    /// An item is stamped before the one before it.
    Items {
        first: Stamp,
        second: Stamp,
    },
    /// The entry at this position, counted from 0, says an offset of a file that is no record boundary. `below` is the greatest boundary
    /// below it, or 0 within the label; `above` the least one above it, or the offset itself. Both are 0 of an entry whose volume is above
    /// each that isn't empty.
    Boundary {
        entry: u64,
        file: FileId,
        below: u64,
        above: u64,
    },
    /// The entry at this position is stamped before a record that stands before its offsets: this is the first such record's stamp.
    Late {
        entry: u64,
        stamp: Stamp,
    },
    /// The archive can't be read.
    Reader(ReaderFault),
}

impl fmt::Display for CheckFault {
    fn fmt<W: fmt::Write>(&self, f: &mut fmt::Formatter<W>) -> fmt::Result {
        f.write_str(match self {
            CheckFault::Items { .. } => "an item is stamped before the one before it",
            CheckFault::Boundary { .. } => "an entry of the index points to no record boundary",
            CheckFault::Late { .. } =>
                "an entry of the index is stamped before a record in front of it",
            CheckFault::Reader(..) => "the archive can't be read",
        })
    }
}

impl Error for CheckFault {}

impl From<ReaderFault> for CheckFault {
    ghost from_gives = { λ fault e. e ≡ Unread fault };

    fn from(error: ReaderFault) -> CheckFault {
        CheckFault::Reader(error)
    }
}

impl From<Lack> for CheckFault {
    ghost from_gives = { λ lack e. e ≡ Unread (of_lack lack) };

    fn from(error: Lack) -> CheckFault {
        match error {
            Lack::Disk => CheckFault::Reader(ReaderFault::DiskFault),
            Lack::Memory => CheckFault::Reader(ReaderFault::NoMemory),
        }
    }
}
