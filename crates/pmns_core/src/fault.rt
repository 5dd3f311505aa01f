//! Why pairs are not added to a name space.

ghost use Rattle.std.specs.Prelude.{◌≡◌};
ghost use Rattle.pmns_core.specs.declared.fault.NamesFault.TheVariants.{NoMemory as Refused};

use pcp_base::{NoMemory, Text};
use std::alloc::{AllocError, AllocFailed};
use std::fmt;
use thiserror::Error;

/// Why pairs were not added: `name` is that of the first pair that doesn't fit.
#[derive(Drop, Error)]
pub enum NamesFault {
    /// The name is there already.
    #[error("a name is there already")]
    Duplicate { name: Text },
    /// The name continues one that is there, or one that is there continues it.
    #[error("a name continues another")]
    LeafAndNode { name: Text },
    /// Memory was refused.
    #[error("out of memory")]
    NoMemory,
}

impl fmt::Debug for NamesFault {
    fn fmt<W: fmt::Write>(&self, f: &mut fmt::Formatter<W>) -> fmt::Result {
        match self {
            NamesFault::Duplicate { .. } => f.write_str("Duplicate"),
            NamesFault::LeafAndNode { .. } => f.write_str("LeafAndNode"),
            NamesFault::NoMemory => f.write_str("NoMemory"),
        }
    }
}

impl From<NoMemory> for NamesFault {
    ghost from_gives = { λ _ e. e ≡ Refused };

    fn from(_error: NoMemory) -> NamesFault {
        NamesFault::NoMemory
    }
}

impl From<AllocError> for NamesFault {
    ghost from_gives = { λ _ e. e ≡ Refused };

    fn from(_error: AllocError) -> NamesFault {
        NamesFault::NoMemory
    }
}

impl<T: Drop> From<AllocFailed<T>> for NamesFault {
    ghost from_gives = { λ _ e. e ≡ Refused };

    fn from(_error: AllocFailed<T>) -> NamesFault {
        NamesFault::NoMemory
    }
}
