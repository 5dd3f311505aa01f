//! Why an extract ends before all is logged.
ghost use Rattle.std.specs.Prelude.{◌≡◌};

use archive_check::CheckFault;
use archive_merge::MergeFault;
use logging_run::RunFault;
use std::error::Error;
use std::fmt;

/// Why an extract ends before all is logged. Faults of a source come first, but for those of its disk and want of memory, which may come at any
/// place; then those of the output's files, and then item by item those of the merge and those of the archive.
#[derive(Clone, Copy, Debug)]
pub enum ExtractFault {
    /// The source with this number, 1 or 2, isn't passed as a sound archive, or can't be read on.
    Source { number: u32, fault: CheckFault },
    /// An item of the merge can't be described.
    Merge(MergeFault),
    /// The output's files aren't recovered, the archive turns an item away, or the output's disk failed.
    Archive(RunFault),
}

impl fmt::Display for ExtractFault {
    fn fmt<W: fmt::Write>(&self, f: &mut fmt::Formatter<W>) -> fmt::Result {
        f.write_str(match self {
            ExtractFault::Source { .. } => "a source isn't passed",
            ExtractFault::Merge(..) => "an item can't be described",
            ExtractFault::Archive(..) => "an item can't be logged",
        })
    }
}

impl Error for ExtractFault {}

impl From<MergeFault> for ExtractFault {
    ghost use Rattle.log_extract.specs.declared.fault.ExtractFault.TheVariants.{Merge as Unmerged};

    ghost from_gives = { λ fault e. e ≡ Unmerged fault };

    fn from(fault: MergeFault) -> ExtractFault {
        ExtractFault::Merge(fault)
    }
}

impl From<RunFault> for ExtractFault {
    ghost use Rattle.log_extract.specs.declared.fault.ExtractFault.TheVariants.{Archive as Unlogged};

    ghost from_gives = { λ fault e. e ≡ Unlogged fault };

    fn from(fault: RunFault) -> ExtractFault {
        ExtractFault::Archive(fault)
    }
}
