//! Why bytes are no PDU.
ghost use Rattle.std.specs.Prelude.{◌≡◌};
ghost use Rattle.pdu_codec.specs.declared.fault.PduFault.TheVariants.{NoMemory as Refused};

use pcp_base::NoMemory;
use std::alloc::AllocError;
use thiserror::Error;

/// Why bytes are no PDU; the first that holds is told.
#[derive(Clone, Copy, Debug, Error)]
pub enum PduFault {
    /// The length word isn't the number of bytes, or below 12; 0 for fewer than 4 bytes.
    #[error("the length word is {found}")]
    Length { found: u64 },
    /// No PDU has this type.
    #[error("no PDU has the type {found}")]
    Unknown { found: u64 },
    /// The first byte that no PDU of this type has, or the end of the bytes where they are too few.
    #[error("no PDU goes on so at byte {at}")]
    Body { at: u64 },
    /// Memory was refused.
    #[error("out of memory")]
    NoMemory,
}

impl From<NoMemory> for PduFault {
    ghost from_gives = { λ _ e. e ≡ Refused };

    fn from(_error: NoMemory) -> PduFault {
        PduFault::NoMemory
    }
}

impl From<AllocError> for PduFault {
    ghost from_gives = { λ _ e. e ≡ Refused };

    fn from(_error: AllocError) -> PduFault {
        PduFault::NoMemory
    }
}
