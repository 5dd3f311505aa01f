//! A clock over a list of stamps, of which listed calls fail.
ghost use Rattle.std.specs.Prelude.{◌≡◌, ◌+◌, OnOk, is_err};
ghost use Rattle.pcp_outside.specs.Causes.{HasCause, shown_count};
ghost use Rattle.pcp_outside.specs.Clocks.{GivesMoment};
ghost use Rattle.pcp_memory.specs.Memory.{ClockState, is_listed};

use crate::memory_streams::is_among;
use pcp_base::{List, Stamp};
use pcp_outside::{Clock, Failed};
use std::marker::Model;

/// A clock over a list of moments.
#[derive(Drop)]
pub struct ListClock {
    moments: List<Stamp>,
    at: usize,
    fails: List<u64>,
    asked: u64,
    faults: u64,
}

impl Model for ListClock {
    ghost use Rattle.std.specs.Prelude.{◌≤◌, length, drop};
    ghost use Rattle.pcp_memory.specs.Memory.{ClockState};

    ghost Value = { ClockState };

    ghost view = { λ c. record { left = drop c.at c.moments; fails = c.fails; asked = c.asked; faults = c.faults } };

    ghost invariant = { λ c. c.at ≤ length c.moments };
}

impl ListClock {
    /// A clock of these moments whose calls with the listed numbers, counted from 1, fail and take none.
    pub fn new(moments: List<Stamp>, fails: List<u64>) -> Self
        ensures { result ≡ record { left = moments; fails = fails; asked = 0; faults = 0 } }
    {
        ListClock {
            moments,
            at: 0,
            fails,
            asked: 0,
            faults: 0,
        }
    }
}

impl Clock for ListClock {
    ghost tells = { Unit {0} };

    ghost left = { λ c. c.left };

    ghost faults = { λ c. c.faults };

    fn now(&mut self) -> Result<Option<Stamp>, Failed>
        ensures moments { GivesMoment self.old.left self.new.left result }
        ensures asked { self.new.asked ≡ shown_count (self.old.asked + 1) }
        ensures listed { is_err result ≡ is_listed self.old.fails self.new.asked }
        ensures kept { self.new.fails ≡ self.old.fails }
        ensures quiet { OnOk result (self.new.faults ≡ self.old.faults) }
        ensures cause { HasCause self.old.faults self.new.faults result }
    {
        self.asked = self.asked.saturating_add(1);
        if is_among(&self.fails, self.asked) {
            self.faults = self.faults.saturating_add(1);
            return Err(Failed);
        }
        if self.at == self.moments.len() {
            return Ok(None);
        }
        let moment = self.moments.as_slice()[self.at];
        self.at += 1;
        Ok(Some(moment))
    }
}
