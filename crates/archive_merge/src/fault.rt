//! Why the sets of a stamp can't be described.
ghost use Rattle.std.specs.Prelude.{◌≡◌};
ghost use Rattle.archive_merge.specs.declared.fault.MergeFault.TheVariants.{NoMemory as Refused};

use pcp_base::{NoMemory, Pmid};
use std::error::Error;
use std::fmt;

/// Why the sets of a stamp can't be described. What a source lacks comes before a clash.
#[derive(Clone, Copy, Debug)]
pub enum MergeFault {
    /// A metric with values has no description with a name in its source, which is 1 or 2, or an instance of it has no name there.
    Lacks { source: u32, pmid: Pmid },
    /// A metric of the second source shows an instance to whose number the first gives another name.
    Clashes { pmid: Pmid },
    /// Memory was refused.
    NoMemory,
}

impl fmt::Display for MergeFault {
    fn fmt<W: fmt::Write>(&self, f: &mut fmt::Formatter<W>) -> fmt::Result {
        f.write_str(match self {
            MergeFault::Lacks { .. } => "a source lacks a description or a name",
            MergeFault::Clashes { .. } => "the sources name an instance differently",
            MergeFault::NoMemory => "out of memory",
        })
    }
}

impl Error for MergeFault {}

impl From<NoMemory> for MergeFault {
    ghost from_gives = { λ _ e. e ≡ Refused };

    fn from(_error: NoMemory) -> MergeFault {
        MergeFault::NoMemory
    }
}
