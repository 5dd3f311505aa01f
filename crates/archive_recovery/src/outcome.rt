//! What recovery tells, and why it is refused.
ghost use Rattle.std.specs.Prelude.{◌≡◌};
ghost use Rattle.archive_recovery.specs.declared.outcome.RecoverFault.TheVariants.{NoMemory as Refused, DiskFault as Failing};
ghost use Rattle.archive_recovery.specs.Lacks.{of_lack};

use archive_loading::Lack;
use archive_meta::MetaState;
use pcp_base::{NoMemory, Stamp};
use pcp_model::Label;
use pcp_outside::{Failed, FileId};
use std::error::Error;
use std::fmt;
use temporal_index::Index;

/// An archive as recovery leaves it.
#[derive(Drop)]
pub struct Archive {
    /// Its label; `None` of an empty disk, and of a creation that was stopped, of which nothing is left.
    pub label: Option<Label>,
    /// The whole records behind Meta's label, in their order.
    pub meta: MetaState,
    /// How many bytes Meta has, its label with them.
    pub meta_length: u64,
    /// The entries behind the index's label, in their order.
    pub index: Index,
    /// The number of the last volume that isn't empty, or 0.
    pub volume: u32,
    /// How many bytes that volume has, its label with them.
    pub length: u64,
    /// How many items the volumes have.
    pub items: u64,
    /// The latest stamp of an item, of a domain's record or of an entry of the index. An entry that a crash took isn't counted.
    pub last: Option<Stamp>,
}

/// Why an archive isn't recovered.
#[derive(Clone, Copy, Debug)]
pub enum RecoverFault {
    /// The file stands under its name with `.xz` or `.gz` added.
    Compressed { file: FileId },
    /// The first offset that fits no archive: of a label its first byte that doesn't fit, of a record or of an entry its first
    /// byte; Meta's or a volume's length where it ends within its label but mustn't.
    NotArchive { file: FileId, at: u64 },
    /// The disk failed.
    DiskFault,
    /// Memory was refused.
    NoMemory,
}

impl fmt::Display for RecoverFault {
    fn fmt<W: fmt::Write>(&self, f: &mut fmt::Formatter<W>) -> fmt::Result {
        f.write_str(match self {
            RecoverFault::Compressed { .. } => "a file is compressed",
            RecoverFault::NotArchive { .. } => "a file is no archive",
            RecoverFault::DiskFault => "the disk failed",
            RecoverFault::NoMemory => "out of memory",
        })
    }
}

impl Error for RecoverFault {}

impl From<NoMemory> for RecoverFault {
    ghost from_gives = { λ _ e. e ≡ Refused };

    fn from(_error: NoMemory) -> RecoverFault {
        RecoverFault::NoMemory
    }
}

impl From<Failed> for RecoverFault {
    ghost from_gives = { λ _ e. e ≡ Failing };

    fn from(_error: Failed) -> RecoverFault {
        RecoverFault::DiskFault
    }
}

impl From<Lack> for RecoverFault {
    ghost from_gives = { λ lack e. e ≡ of_lack lack };

    fn from(error: Lack) -> RecoverFault {
        match error {
            Lack::Disk => RecoverFault::DiskFault,
            Lack::Memory => RecoverFault::NoMemory,
        }
    }
}
