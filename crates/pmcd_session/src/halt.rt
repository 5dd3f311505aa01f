//! Why a PDU isn't served.
ghost use Rattle.std.specs.Prelude.{◌≡◌};
ghost use Rattle.pmcd_session.specs.declared.halt.Halt.TheVariants.{NoMemory as Refused};

use pcp_base::NoMemory;

/// Why a PDU isn't served.
#[derive(Clone, Copy)]
pub enum Halt {
    /// The clock has no moment for a fetch.
    ClockEnd,
    /// The clock failed.
    ClockFault,
    /// Memory was refused.
    NoMemory,
}

impl From<NoMemory> for Halt {
    ghost from_gives = { λ _ e. e ≡ Refused };

    fn from(_error: NoMemory) -> Halt {
        Halt::NoMemory
    }
}
