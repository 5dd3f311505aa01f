//! Why not all places were served.
ghost use Rattle.std.specs.Prelude.{◌≡◌};
ghost use Rattle.pmcd_server.specs.declared.fault.ServeFault.TheVariants.{NoMemory as Refused};

use pcp_base::NoMemory;
use std::error::Error;
use std::fmt;

/// Why not all places were served.
#[derive(Clone, Copy, Debug)]
pub enum ServeFault {
    /// A door failed.
    Accept,
    /// Memory was refused before the first place was drawn.
    NoMemory,
}

impl fmt::Display for ServeFault {
    fn fmt<W: fmt::Write>(&self, f: &mut fmt::Formatter<W>) -> fmt::Result {
        f.write_str(match self {
            ServeFault::Accept => "a door failed",
            ServeFault::NoMemory => "no memory",
        })
    }
}

impl Error for ServeFault {}

impl From<NoMemory> for ServeFault {
    ghost from_gives = { λ _ e. e ≡ Refused };

    fn from(_error: NoMemory) -> ServeFault {
        ServeFault::NoMemory
    }
}
