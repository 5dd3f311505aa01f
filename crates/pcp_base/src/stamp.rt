//! Moments, to the microsecond.

ghost use Rattle.std.specs.Prelude.{◌≡◌, ◌≤◌, ◌<◌, ◌⊎◌, MatchOption};
ghost use Rattle.pcp_base.specs.Time.{IsMoment, microseconds};

use crate::duplicate::Duplicate;
use crate::memory::NoMemory;
use std::alloc::Global;
use std::marker::Model;

/// A moment: seconds since 1970 below 2^31, and microseconds below 1,000,000. Stamps compare in time.
#[derive(Clone, Copy, Debug, PartialEq, Eq, PartialOrd, Ord)]
pub struct Stamp {
    sec: u32,
    usec: u32,
}

impl Model for Stamp {
    ghost use Rattle.pcp_base.specs.Time.{Moment, IsMoment};

    ghost Value = { Moment };

    ghost view = { λ a. record { sec = a.sec; usec = a.usec } };

    ghost invariant = { λ a. IsMoment record { sec = a.sec; usec = a.usec } };

    ghost inverse = { λ t. record { sec = t.sec; usec = t.usec } };
}

impl Stamp {
    /// The stamp of these numbers; `None` exactly where `sec` is 2^31 or more or `usec` is 1,000,000 or more.
    pub fn build(sec: u32, usec: u32) -> Option<Stamp>
        ensures { MatchOption result ((2147483648 ≤ sec) ⊎ (1000000 ≤ usec)) (λ t. IsMoment t × (t ≡ record { sec = sec; usec = usec })) }
    {
        if sec >= 1 << 31 || usec >= 1_000_000 {
            return None;
        }
        Some(Stamp { sec, usec })
    }

    /// Whole seconds since the start of 1970 in UTC, below 2^31.
    pub fn sec(self) -> u32
        ensures value { result ≡ self.sec }
        ensures range { IsMoment self }
    {
        self.sec
    }

    /// Microseconds behind that second, below 1,000,000.
    pub fn usec(self) -> u32
        ensures value { result ≡ self.usec }
        ensures range { IsMoment self }
    {
        self.usec
    }

    /// Microseconds since the start of 1970 in UTC, below 2^31 seconds.
    pub fn microseconds(self) -> u64
        ensures value { result ≡ microseconds self }
        ensures range { result < 2147483648000000 }
    {
        u64::from(self.sec) * 1_000_000 + u64::from(self.usec)
    }
}

impl Duplicate for Stamp {
    fn copy(&self, _alloc: Global) -> Result<Self, NoMemory> {
        Ok(*self)
    }
}
