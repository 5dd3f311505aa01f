//! Why no PDUs are given.
ghost use Rattle.std.specs.Prelude.{◌≡◌};
ghost use Rattle.pdu_stream.specs.declared.fault.StreamFault.TheVariants.{NoMemory as Refused};

use pcp_base::NoMemory;
use std::error::Error;
use std::fmt;

/// Why a stream gives no PDUs.
#[derive(Clone, Copy, Debug)]
pub enum StreamFault {
    /// A length word below 12 or above 65,536, behind the PDUs that were given.
    BadLength { found: u32 },
    /// Memory was refused before, so that bytes of the stream are lost.
    Lost,
    /// Memory was refused; every later call answers `Lost`.
    NoMemory,
}

impl fmt::Display for StreamFault {
    fn fmt<W: fmt::Write>(&self, f: &mut fmt::Formatter<W>) -> fmt::Result {
        f.write_str(match self {
            StreamFault::BadLength { .. } => "a PDU has a length out of range",
            StreamFault::Lost => "bytes of the stream are lost",
            StreamFault::NoMemory => "out of memory",
        })
    }
}

impl Error for StreamFault {}

impl From<NoMemory> for StreamFault {
    ghost from_gives = { λ _ e. e ≡ Refused };

    fn from(_error: NoMemory) -> StreamFault {
        StreamFault::NoMemory
    }
}
