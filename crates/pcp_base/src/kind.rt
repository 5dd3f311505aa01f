//! The type and the semantics of a metric's values, and their codes (pmLookupDesc(3), mmv(5)).

ghost use Rattle.std.specs.Prelude.{◌≡◌};
ghost use Rattle.pcp_base.specs.Codes.{kind_of_code, code_of_kind, semantics_of_code, code_of_semantics};

use crate::duplicate::Duplicate;
use crate::memory::NoMemory;
use std::alloc::Global;

/// The type of a metric's values (pmLookupDesc(3); `Elapsed` is of mmv(5) alone).
#[derive(Clone, Copy)]
pub enum Kind {
    I32,
    U32,
    I64,
    U64,
    Float,
    Double,
    Text,
    Elapsed,
}

impl Kind {
    /// The kind of a type code; `None` exactly for a code other than 0 to 6 and 9.
    pub fn of_code(code: u32) -> Option<Kind>
        ensures { result ≡ kind_of_code code }
    {
        match code {
            0 => Some(Kind::I32),
            1 => Some(Kind::U32),
            2 => Some(Kind::I64),
            3 => Some(Kind::U64),
            4 => Some(Kind::Float),
            5 => Some(Kind::Double),
            6 => Some(Kind::Text),
            9 => Some(Kind::Elapsed),
            _ => None,
        }
    }

    /// Its type code: 0 to 6, or 9 (mmv(5)).
    pub fn code(self) -> u32
        ensures { result ≡ code_of_kind self }
    {
        match self {
            Kind::I32 => 0,
            Kind::U32 => 1,
            Kind::I64 => 2,
            Kind::U64 => 3,
            Kind::Float => 4,
            Kind::Double => 5,
            Kind::Text => 6,
            Kind::Elapsed => 9,
        }
    }
}

impl Duplicate for Kind {
    fn copy(&self, _alloc: Global) -> Result<Self, NoMemory> {
        Ok(*self)
    }
}

/// How a metric's values are meant (pmLookupDesc(3)).
#[derive(Clone, Copy)]
pub enum Semantics {
    Counter,
    Instant,
    Discrete,
}

impl Semantics {
    /// The semantics of a code; `None` exactly for a code other than 1, 3 and 4.
    pub fn of_code(code: u32) -> Option<Semantics>
        ensures { result ≡ semantics_of_code code }
    {
        match code {
            1 => Some(Semantics::Counter),
            3 => Some(Semantics::Instant),
            4 => Some(Semantics::Discrete),
            _ => None,
        }
    }

    /// Its code: 1, 3 or 4 (pmLookupDesc(3)).
    pub fn code(self) -> u32
        ensures { result ≡ code_of_semantics self }
    {
        match self {
            Semantics::Counter => 1,
            Semantics::Instant => 3,
            Semantics::Discrete => 4,
        }
    }
}

impl Duplicate for Semantics {
    fn copy(&self, _alloc: Global) -> Result<Self, NoMemory> {
        Ok(*self)
    }
}
