//! When each group of a configuration is due.

ghost use Rattle.std.specs.Prelude.{◌≡◌, ◌<◌, ◌↔◌, map, length, slice_get, IfSome, IfOk, IsTrue};
ghost use Rattle.log_schedule.specs.Instants.{Due, EachPasses, Follows, Passes, timetable_from};

use crate::config::{Config, Group};
use crate::instants::{first_from, stamp_of};
use pcp_base::{NoMemory, Stamp};
use std::alloc::Global;
use std::marker::Model;

/// A group's start, its interval in milliseconds and the next instant that it waits for.
#[derive(Clone, Copy)]
struct Plan {
    start: Stamp,
    interval: Option<u64>,
    next: Option<Stamp>,
}

impl Model for Plan {
    ghost use Rattle.log_schedule.specs.Instants.{Timetable};

    ghost Value = { Timetable };

    ghost view = { λ a. record { start = a.start; interval = a.interval; next = a.next } };

    ghost inverse = { λ t. record { start = t.start; interval = t.interval; next = t.next } };
}

impl Plan {
    // The plan of a group that is first due now.
    fn start(group: &Group, now: Stamp) -> Plan
        ensures { result ≡ timetable_from now group.now }
    {
        Plan {
            start: now,
            interval: group.interval,
            next: Some(now),
        }
    }

    // Whether the next instant is not after now.
    fn is_due(&self, now: Stamp) -> bool
        ensures { IsTrue result ↔ Due self.now now }
    {
        match self.next {
            Some(next) => next.microseconds() <= now.microseconds(),
            None => false,
        }
    }

    // The plan once now has passed.
    fn pass(&self, now: Stamp) -> Plan
        ensures { Passes now self.now result }
    {
        Plan {
            start: self.start,
            interval: self.interval,
            next: self.next_after(now),
        }
    }
}

impl Plan {
    // The least instant after now that is not before the one waited for.
    fn next_after(&self, now: Stamp) -> Option<Stamp>
        ensures { Follows self.now now self.now.next result }
    {
        let before = self.next?;
        let from = (now.microseconds() + 1).max(before.microseconds());
        let found = first_from(self.start.microseconds(), self.interval.unwrap_or(0), from)?;
        Some(stamp_of(found))
    }
}

/// When the groups of a configuration are due (pmlogger(1)). A group of interval d that was started at s is
/// due at s + k * d, and a `once` group at s alone, up to the last moment that a stamp tells.
#[derive(Drop)]
pub struct Groups {
    plans: Vec<Plan>,
}

impl Model for Groups {
    ghost use Rattle.std.specs.Prelude.{List};
    ghost use Rattle.log_schedule.specs.Instants.{Timetable};

    ghost Value = { List Timetable };

    ghost view = { λ a. a.plans.items };
}

impl Groups {
    /// Each group of the configuration, first due now.
    pub fn start(alloc: Global, config: &Config, now: Stamp) -> Result<Groups, NoMemory>
        ensures { IfOk result (λ groups. groups ≡ map (timetable_from now) config.now.groups) }
    {
        let mut plans = Vec::new(alloc);
        for group in config.groups.as_slice() {
            plans.push(Plan::start(group, now))?;
        }
        Ok(Groups { plans })
    }

    /// How many groups there are.
    pub fn len(&self) -> usize
        ensures { result ≡ length self.now }
    {
        self.plans.len()
    }

    /// Whether the next instant of a group is not after now.
    pub fn is_due(&self, group: u32, now: Stamp) -> bool
        requires { group < length self.now }
        ensures { IfSome (slice_get self.now group) (λ t. IsTrue result ↔ Due t now) }
    {
        self.plans[group as usize].is_due(now)
    }

    /// The next instant of a group; `None` where no more comes.
    pub fn next(&self, group: u32) -> Option<Stamp>
        requires { group < length self.now }
        ensures { IfSome (slice_get self.now group) (λ t. result ≡ t.next) }
    {
        self.plans[group as usize].next
    }

    /// Moves each group on to its least instant that is after now and not before the one that it had, in
    /// constant time for each group however far the clock went. A group without a next instant keeps none.
    pub fn passed(&mut self, now: Stamp)
        ensures { EachPasses now self.old self.new }
    {
        pass_all(&mut self.plans, now);
    }
}

// Moves each plan on by itself.
fn pass_all(plans: &mut [Plan], now: Stamp)
    ensures { EachPasses now plans.old plans.new }
{
    for plan in plans.iter_mut() {
        *plan = plan.pass(now);
    }
}
