//! What a reader may lack.
ghost use Rattle.std.specs.Prelude.{◌≡◌};
ghost use Rattle.archive_loading.specs.declared.lack.Lack.TheVariants.{Disk as Failing, Memory as Refused};

use pcp_base::NoMemory;
use pcp_outside::Failed;
use std::error::Error;
use std::fmt;

/// What a call lacked, apart from anything that the files say.
#[derive(Clone, Copy, Debug)]
pub enum Lack {
    /// The disk failed.
    Disk,
    /// Memory was refused.
    Memory,
}

impl fmt::Display for Lack {
    fn fmt<W: fmt::Write>(&self, f: &mut fmt::Formatter<W>) -> fmt::Result {
        f.write_str(match self {
            Lack::Disk => "the disk failed",
            Lack::Memory => "out of memory",
        })
    }
}

impl Error for Lack {}

impl From<NoMemory> for Lack {
    ghost from_gives = { λ _ e. e ≡ Refused };

    fn from(_error: NoMemory) -> Lack {
        Lack::Memory
    }
}

impl From<Failed> for Lack {
    ghost from_gives = { λ _ e. e ≡ Failing };

    fn from(_error: Failed) -> Lack {
        Lack::Disk
    }
}
