//! What the calls of a pass answer where they refuse, and what a reading comes to.

use std::alloc::AllocError;
use thiserror::Error;

/// Why a region was not made.
#[derive(Clone, Copy, Debug, Error)]
pub enum OpenFault {
    /// The image has `need` words, more than the region's `capacity`.
    #[error("the image has {need} words, and the region room for {capacity}")]
    TooLarge { need: u64, capacity: u64 },
    /// There was no memory left.
    #[error("out of memory")]
    NoMemory,
}

impl From<AllocError> for OpenFault {
    ghost use Rattle.std.specs.Prelude.{◌≡◌};
    ghost use Rattle.region_rule.specs.declared.fault.OpenFault.TheVariants.{NoMemory};

    ghost from_gives = { λ _ fault. fault ≡ NoMemory };

    fn from(_error: AllocError) -> OpenFault {
        OpenFault::NoMemory
    }
}

/// There was no memory left. What the call took by value comes back with it where it says so.
#[derive(Clone, Copy, Debug, Error)]
#[error("out of memory")]
pub struct NoMemory;

/// An attach came while a pass was changing the layout: `gate` is the gate's word before it, 2^63 or more.
#[derive(Clone, Copy, Debug, Error)]
#[error("a pass is changing the layout, the gate is {gate}")]
pub struct Changing {
    pub gate: u64,
}

/// A reading that is of one layout: both numbers were this generation.
#[derive(Clone, Copy)]
pub struct Stable {
    pub generation: u64,
}

/// A reading that was crossed by a change: generation 2 was `first`, and generation 1 after it `last`, which differs.
#[derive(Clone, Copy, Debug, Error)]
#[error("a change from generation {first} to {last} crossed the reading")]
pub struct Again {
    pub first: u64,
    pub last: u64,
}

/// Why no change began.
#[derive(Clone, Copy, Debug, Error)]
pub enum ChangeFault {
    /// The image has `need` words, more than the region's `capacity`.
    #[error("the image has {need} words, and the region room for {capacity}")]
    TooLarge { need: u64, capacity: u64 },
    /// The gate was `gate` and not 0: a pass is inside, bounced or changing.
    #[error("the gate is {gate}")]
    Busy { gate: u64 },
    /// Generation 1 is 2^64 - 1, above which there is none.
    #[error("no generation is above {generation}")]
    Spent { generation: u64 },
}

/// Why a read of all words gave none.
#[derive(Clone, Copy, Debug, Error)]
pub enum ReadFault {
    /// A change crossed the reading: generation 2 was `first`, and generation 1 after it `last`.
    #[error("a change from generation {first} to {last} crossed the reading")]
    Again { first: u64, last: u64 },
    /// There was no memory left.
    #[error("out of memory")]
    NoMemory,
}

impl From<AllocError> for ReadFault {
    ghost use Rattle.std.specs.Prelude.{◌≡◌};
    ghost use Rattle.region_rule.specs.declared.fault.ReadFault.TheVariants.{NoMemory};

    ghost from_gives = { λ _ fault. fault ≡ NoMemory };

    fn from(_error: AllocError) -> ReadFault {
        ReadFault::NoMemory
    }
}

/// Why a read of chosen words gave none.
#[derive(Clone, Copy, Debug, Error)]
pub enum ValueFault {
    /// Generation 2 was `found`, and not the known one.
    #[error("the generation is {found}")]
    Newer { found: u64 },
    /// A change crossed the reading: generation 2 was `first`, and generation 1 after it `last`.
    #[error("a change from generation {first} to {last} crossed the reading")]
    Again { first: u64, last: u64 },
}
