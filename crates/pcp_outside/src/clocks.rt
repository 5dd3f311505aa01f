//! The traits `Clock` and `Turn`, and turns that never wait.
ghost use Rattle.std.specs.Prelude.{◌≡◌, ℕ, List as Sequence, OnOk};
ghost use Rattle.pcp_outside.specs.Causes.{HasCause};
ghost use Rattle.pcp_outside.specs.Clocks.{GivesMoment};

use crate::failed::Failed;
use pcp_base::Stamp;

/// Where moments come from.
pub trait Clock {
    ghost use Rattle.pcp_base.specs.Time.{Moment};

    /// Whether the object tells its moments; one over the system doesn't.
    ghost tells: { Type 0 };

    /// The moments left.
    ghost left: { Self → Sequence Moment };

    /// How many of its calls have failed; the number never falls.
    ghost faults: { Self → ℕ };

    /// The next moment, and `None` at their end, which is no fault.
    fn now(&mut self) -> Result<Option<Stamp>, Failed>
        ensures moments { tells → GivesMoment (left self.old) (left self.new) result }
        ensures quiet { OnOk result (faults self.new ≡ faults self.old) }
        ensures cause { HasCause (faults self.old) (faults self.new) result };
}

/// The number by which the logger is known where turns are taken; a writer is known by its pass number, which is below it.
pub const LOGGER: u32 = 256;

/// Who may go on, where writers and the logger run beside each other. A turn changes nothing that they see.
pub trait Turn {
    /// Called by each writer before each of its steps, with its pass number and the step's number from 0, and by the
    /// logger before each sample, with `LOGGER` and the sample's number from 0. It may return late.
    fn turn(&self, who: u32, step: u64);
}

/// Turns without a wait.
#[derive(Clone, Copy)]
pub struct Free;

impl Turn for Free {
    fn turn(&self, _who: u32, _step: u64) {}
}
