//! The system's clock, and a second's pause between the samples of a recording; the clock tells no moments.
ghost use Rattle.std.specs.Prelude.{◌≡◌, [], OnOk};
ghost use Rattle.pcp_outside.specs.Causes.{HasCause};

use pcp_base::Stamp;
use pcp_outside::{Clock, Failed, LOGGER, Turn};
use std::time::Duration;
use std::{thread, time};

/// The system's clock. It tells no moments left, and never comes to their end.
#[derive(Drop)]
pub struct SystemClock<'a, R: time::Clock> {
    system: &'a R,
    faults: u64,
}

impl<'a, R: time::Clock> SystemClock<'a, R> {
    pub fn new(system: &'a R) -> Self
        ensures { ⟦<SystemClock<'a, R> as Clock>⟧.faults result ≡ 0 }
    {
        SystemClock { system, faults: 0 }
    }

    // The time since 1970 to the microsecond, where a stamp holds it.
    fn read(&self) -> Option<Stamp> {
        let since = self.system.since_1970().ok()?;
        let seconds = u32::try_from(since.as_secs()).ok()?;
        Stamp::build(seconds, since.subsec_micros())
    }
}

impl<'a, R: time::Clock> Clock for SystemClock<'a, R> {
    ghost tells = { ⊥ };

    ghost left = { λ _. [] };

    ghost faults = { λ c. c.faults };

    /// A clock that can't be read, or that shows a time before 1970 or of 2^31 seconds and more, is a fault.
    fn now(&mut self) -> Result<Option<Stamp>, Failed> {
        match self.read() {
            Some(stamp) => Ok(Some(stamp)),
            None => {
                self.faults = self.faults.saturating_add(1);
                Err(Failed)
            }
        }
    }
}

/// Turns by the system's clock: one second passes before each sample but the first, and writers never wait.
#[derive(Drop)]
pub struct Pace<'a, R: time::Clock> {
    system: &'a R,
}

impl<'a, R: time::Clock> Pace<'a, R> {
    pub fn new(system: &'a R) -> Self {
        Pace { system }
    }
}

impl<'a, R: time::Clock> Turn for Pace<'a, R> {
    fn turn(&self, who: u32, step: u64) {
        if who == LOGGER && step > 0 {
            thread::sleep(self.system, Duration::from_secs(1));
        }
    }
}
