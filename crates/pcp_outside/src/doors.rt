//! The trait `Door`, through which connections come in, and how a session over one ends.
ghost use Rattle.std.specs.Prelude.{◌≡◌, ◌∷◌, ◌++◌, [], ℕ, List as Sequence, IfOk, OnOk, OnErr};
ghost use Rattle.pcp_outside.specs.Causes.{HasCause};
ghost use Rattle.pcp_outside.specs.Doors.{GivesConnection, IsFresh};

use crate::clocks::Clock;
use crate::failed::Failed;
use crate::streams::{Sink, Source};

/// How a session over a connection ended.
#[derive(Clone, Copy)]
pub enum SessionEnd {
    /// The input ended between two PDUs.
    Closed,
    /// The input ended this many bytes into a PDU.
    Torn { bytes: u64 },
    /// A length word is below 12 or above 65,536.
    BadLength { found: u64 },
    ReadFault,
    WriteFault,
    ClockFault,
    /// The clock had no moment for a fetch.
    ClockEnd,
    /// 2^40 bytes were taken, the most that one session takes.
    Spent,
    NoMemory,
}

/// Where connections come in. Each is a source, a sink, and a clock for its session.
pub trait Door {
    ghost use Rattle.pcp_outside.specs.Doors.{Connection, Report};

    type In: Source;

    type Out: Sink;

    type Time: Clock;

    /// Whether the object tells its connections; one over the system doesn't.
    ghost tells: { Type 0 };

    /// The connections left.
    ghost left: { Self → Sequence Connection };

    /// The connections given.
    ghost given: { Self → Sequence Connection };

    /// What was told of the connections that ended.
    ghost reports: { Self → Sequence Report };

    /// How many of its calls have failed; the number never falls.
    ghost faults: { Self → ℕ };

    /// The first connection left; to ask past the last one is a fault.
    fn next(&mut self) -> Result<(Self::In, Self::Out, Self::Time), Failed>
        ensures connection { tells → IfOk result (λ ends. GivesConnection (Self.In.left ends.0, Self.Time.left ends.2) (left self.old) (left self.new) (given self.old) (given self.new)) }
        ensures left { tells → OnErr result (left self.new ≡ left self.old) }
        ensures given { tells → OnErr result (given self.new ≡ given self.old) }
        ensures reports { tells → reports self.new ≡ reports self.old }
        ensures fresh { IfOk result (λ ends. IsFresh (Self.In.faults ends.0) (Self.Out.faults ends.1) (Self.Time.faults ends.2) (Self.Out.written ends.1)) }
        ensures quiet { OnOk result (faults self.new ≡ faults self.old) }
        ensures cause { HasCause (faults self.old) (faults self.new) result };

    /// Takes back the three objects of a connection that ended, and adds a report of it; where it fails, none.
    fn ended(
        &mut self,
        input: Self::In,
        out: Self::Out,
        time: Self::Time,
        end: SessionEnd,
    ) -> Result<(), Failed>
        ensures reports { tells → OnOk result (reports self.new ≡ reports self.old ++ record { bytes_left = Self.In.left input; moments_left = Self.Time.left time; written = Self.Out.written out; source_faults = Self.In.faults input; sink_faults = Self.Out.faults out; clock_faults = Self.Time.faults time; session_end = end } ∷ []) }
        ensures unreported { tells → OnErr result (reports self.new ≡ reports self.old) }
        ensures left { tells → left self.new ≡ left self.old }
        ensures given { tells → given self.new ≡ given self.old }
        ensures quiet { OnOk result (faults self.new ≡ faults self.old) }
        ensures cause { HasCause (faults self.old) (faults self.new) result };

    /// Where a door tells its connections, so do the objects that it gives.
    ghost told: { tells → Self.In.tells × Self.Out.tells × Self.Time.tells };
}
