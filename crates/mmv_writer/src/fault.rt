//! Why a row is refused, or an image not made.
ghost use Rattle.std.specs.Prelude.{◌≡◌};
ghost use Rattle.mmv_writer.specs.declared.fault.BuildFault.TheVariants.{NoMemory as Refused};

use pcp_base::NoMemory;
use std::alloc::AllocError;
use thiserror::Error;

/// Why a row isn't taken or an image isn't made. The first reason in this order is told, and the builder is as it was.
#[derive(Clone, Copy, Debug, Error)]
pub enum BuildFault {
    /// A name breaks the rule for names, is empty or too long for the version (above 63 bytes in version 1, 255 in
    /// version 2), or a text is above 255 bytes.
    #[error("a name that breaks the rule, or a text above 255 bytes")]
    Name,
    /// The row is there: a serial, a number or a name of a domain, an item or a name, or the value of an instance.
    #[error("the row is there already")]
    Duplicate,
    /// No instance domain has this serial.
    #[error("no instance domain has the serial {serial}")]
    Unknown { serial: u32 },
    /// A serial of 0 or above 1023, a negative instance number, a version other than 1 and 2, or a cluster above 4095.
    #[error("a serial, an instance number, a version or a cluster out of range")]
    Serial,
    /// An item above 1023, or a value without a metric, without an instance of its domain, or of another kind.
    #[error("an item out of range, or a value that fits no metric")]
    Item,
    /// The image needs so many words, more than 65,536 (2^64 - 1 where they are more than that).
    #[error("{words} words are more than an image has")]
    TooLarge { words: u64 },
    /// Memory was refused.
    #[error("out of memory")]
    NoMemory,
}

impl From<NoMemory> for BuildFault {
    ghost from_gives = { λ _ e. e ≡ Refused };

    fn from(_error: NoMemory) -> BuildFault {
        BuildFault::NoMemory
    }
}

impl From<AllocError> for BuildFault {
    ghost from_gives = { λ _ e. e ≡ Refused };

    fn from(_error: AllocError) -> BuildFault {
        BuildFault::NoMemory
    }
}
