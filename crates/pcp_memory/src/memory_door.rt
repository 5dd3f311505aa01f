//! A door over connections in memory, of which listed calls fail, and which keeps what was told of each.
ghost use Rattle.std.specs.Prelude.{◌≡◌, ◌∷◌, ◌++◌, ◌+◌, [], true, Option, Some, option_map, slice_get, IfOk, IfSome, IsErr, OnOk, OnErr};
ghost use Rattle.pcp_outside.specs.Causes.{HasCause, shown_count};
ghost use Rattle.pcp_outside.specs.Doors.{GivesConnection, IsFresh};
ghost use Rattle.pcp_memory.specs.Memory.{DoorState, is_listed};

use crate::memory_clock::ListClock;
use crate::memory_streams::{MemSink, MemSource, is_among};
use pcp_base::{Bytes, Duplicate, List, Stamp};
use pcp_outside::{Door, Failed, SessionEnd};
use std::alloc::Global;
use std::marker::Model;

// What is kept of a connection that ended: its three objects, and the end.
#[derive(Drop)]
struct Ended {
    input: MemSource,
    out: MemSink,
    time: ListClock,
    end: SessionEnd,
}

impl Model for Ended {
    ghost use Rattle.pcp_outside.specs.Doors.{Report};

    ghost Value = { Report };

    ghost view = { λ e. record { bytes_left = e.input.left; moments_left = e.time.left; written = e.out.written; source_faults = e.input.faults; sink_faults = e.out.faults; clock_faults = e.time.faults; session_end = e.end } };
}

/// A door over connections in memory. It keeps what each wrote and how it ended.
#[derive(Drop)]
pub struct MemDoor {
    alloc: Global,
    connections: List<(Bytes, List<Stamp>)>,
    at: usize,
    fails: List<u64>,
    asked: u64,
    ended: List<Ended>,
    faults: u64,
}

impl Model for MemDoor {
    ghost use Rattle.std.specs.Prelude.{◌≤◌, length, take, drop};
    ghost use Rattle.pcp_memory.specs.Memory.{DoorState};

    ghost Value = { DoorState };

    ghost view = { λ d. record { left = drop d.at d.connections; given = take d.at d.connections; reports = d.ended; fails = d.fails; asked = d.asked; faults = d.faults } };

    ghost invariant = { λ d. d.at ≤ length d.connections };
}

impl MemDoor {
    /// A door of these connections, each the bytes that come over it and the moments of its clock. Its calls of `next`
    /// with the listed numbers, counted from 1, fail and give none; so does a call that gets no memory.
    pub fn new(alloc: Global, connections: List<(Bytes, List<Stamp>)>, fails: List<u64>) -> Self
        ensures { result ≡ record { left = connections; given = []; reports = []; fails = fails; asked = 0; faults = 0 } }
    {
        MemDoor {
            alloc,
            connections,
            at: 0,
            fails,
            asked: 0,
            ended: List::empty(alloc),
            faults: 0,
        }
    }

    /// The bytes that were written over a connection that ended; `None` exactly past the last.
    pub fn written(&self, at: usize) -> Option<&[u8]>
        ensures { option_map (λ bytes. bytes.now) result ≡ option_map (λ report. report.written) (slice_get self.now.reports at) }
    {
        Some(self.ended.get(at)?.out.bytes())
    }

    /// How a connection ended; `None` exactly past the last.
    pub fn end_of(&self, at: usize) -> Option<SessionEnd>
        ensures { result ≡ option_map (λ report. report.session_end) (slice_get self.now.reports at) }
    {
        Some(self.ended.get(at)?.end)
    }
}

impl Door for MemDoor {
    type In = MemSource;

    type Out = MemSink;

    type Time = ListClock;

    ghost tells = { Unit {0} };

    ghost left = { λ d. d.left };

    ghost given = { λ d. d.given };

    ghost reports = { λ d. d.reports };

    ghost faults = { λ d. d.faults };

    ghost told = { λ _. (tt, tt, tt) };

    fn next(&mut self) -> Result<(MemSource, MemSink, ListClock), Failed>
        ensures connection { IfOk result (λ ends. GivesConnection (ends.0.left, ends.2.left) self.old.left self.new.left self.old.given self.new.given) }
        ensures fresh { IfOk result (λ ends. IsFresh ends.0.faults ends.1.faults ends.2.faults ends.1.written) }
        ensures sure { IfOk result (λ ends. (ends.0.fails ≡ []) × (ends.1.fails ≡ []) × (ends.2.fails ≡ [])) }
        ensures left { OnErr result (self.new.left ≡ self.old.left) }
        ensures given { OnErr result (self.new.given ≡ self.old.given) }
        ensures reports { self.new.reports ≡ self.old.reports }
        ensures asked { self.new.asked ≡ shown_count (self.old.asked + 1) }
        ensures listed { is_listed self.old.fails self.new.asked ≡ true → IsErr result }
        ensures kept { self.new.fails ≡ self.old.fails }
        ensures quiet { OnOk result (self.new.faults ≡ self.old.faults) }
        ensures cause { HasCause self.old.faults self.new.faults result }
    {
        self.asked = self.asked.saturating_add(1);
        if self.at < self.connections.len() && !is_among(&self.fails, self.asked) {
            if let Some(ends) = opened(self.alloc, &self.connections.as_slice()[self.at]) {
                self.at += 1;
                return Ok(ends);
            }
        }
        self.faults = self.faults.saturating_add(1);
        Err(Failed)
    }

    fn ended(
        &mut self,
        input: MemSource,
        out: MemSink,
        time: ListClock,
        end: SessionEnd,
    ) -> Result<(), Failed>
        ensures done { OnOk result (self.new ≡ record self.old { reports = self.old.reports ++ record { bytes_left = input.left; moments_left = time.left; written = out.written; source_faults = input.faults; sink_faults = out.faults; clock_faults = time.faults; session_end = end } ∷ [] }) }
        ensures refused { OnErr result (self.new ≡ record self.old { faults = shown_count (self.old.faults + 1) }) }
        ensures cause { HasCause self.old.faults self.new.faults result }
    {
        let told = Ended {
            input,
            out,
            time,
            end,
        };
        if self.ended.push(told).is_err() {
            self.faults = self.faults.saturating_add(1);
            return Err(Failed);
        }
        Ok(())
    }
}

// The three objects of a connection; `None` for want of memory.
fn opened(
    alloc: Global,
    connection: &(Bytes, List<Stamp>),
) -> Option<(MemSource, MemSink, ListClock)>
    ensures connection { IfSome result (λ ends. (ends.0.left, ends.2.left) ≡ connection.now) }
    ensures fresh { IfSome result (λ ends. IsFresh ends.0.faults ends.1.faults ends.2.faults ends.1.written) }
    ensures sure { IfSome result (λ ends. (ends.0.fails ≡ []) × (ends.1.fails ≡ []) × (ends.2.fails ≡ [])) }
{
    let input = MemSource::new(connection.0.copy(alloc).ok()?, List::empty(alloc));
    let out = MemSink::new(alloc, List::empty(alloc));
    let time = ListClock::new(connection.1.copy(alloc).ok()?, List::empty(alloc));
    Some((input, out, time))
}
