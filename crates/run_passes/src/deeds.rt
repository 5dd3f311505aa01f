//! What a line lets a pass do, by the calls of its region.
ghost use Rattle.std.specs.Prelude.{◌≡◌};
ghost use Rattle.script_runs.specs.PassSteps.{attaches, detaches, loads, reads, ends};
ghost use Rattle.run_passes.specs.Works.{IsHere, Works, ended_doing};
ghost use Rattle.run_passes.specs.Workers.{doing_of};

use crate::deed::Deed;
use crate::kept::KeptStint;
use crate::said::Said;
use crate::worker::Worker;
use region_words::Region;

/// Enters, and leaves again where it was bounced.
pub fn attach(worker: Worker, region: &Region) -> (Worker, Option<Said>)
    requires here { IsHere region.now worker }
    ensures { Works region.now attaches worker result.0 result.1 }
{
    match worker {
        Worker::Idle(pass) => match region.attach(pass) {
            Ok(stint) => (Worker::Inside(KeptStint::new(stint)), Some(Said::Attached)),
            Err((pass, fault)) => (Worker::Idle(pass), Some(Said::Bounced { gate: fault.gate })),
        },
        other => (other, None),
    }
}

pub fn detach(worker: Worker, region: &Region) -> (Worker, Option<Said>)
    requires here { IsHere region.now worker }
    ensures works { Works region.now detaches worker result.0 result.1 }
    ensures ends { doing_of result.0 ≡ ended_doing Deed.Detach (doing_of worker) }
{
    match worker {
        Worker::Inside(stint) => (Worker::Idle(stint.detach(region)), Some(Said::Nothing)),
        other => (other, None),
    }
}

/// Begins a reading.
pub fn load(worker: Worker, region: &Region) -> (Worker, Option<Said>)
    requires here { IsHere region.now worker }
    ensures { Works region.now loads worker result.0 result.1 }
{
    match worker {
        Worker::Idle(pass) => (
            Worker::Reading(region.start_read(pass)),
            Some(Said::Nothing),
        ),
        other => (other, None),
    }
}

/// Loads a word, where the region has it.
pub fn word(worker: Worker, region: &Region, index: u32) -> (Worker, Option<Said>)
    requires here { IsHere region.now worker }
    ensures { Works region.now (λ r k doing. reads r k index doing) worker result.0 result.1 }
{
    match worker {
        Worker::Reading(mut reading) => {
            if index >= region.capacity() {
                return (Worker::Reading(reading), None);
            }
            let value = reading.word(region, index);
            (Worker::Reading(reading), Some(Said::Word { value }))
        }
        other => (other, None),
    }
}

/// Ends a reading.
pub fn done(worker: Worker, region: &Region) -> (Worker, Option<Said>)
    requires here { IsHere region.now worker }
    ensures works { Works region.now ends worker result.0 result.1 }
    ensures ends { doing_of result.0 ≡ ended_doing Deed.Done (doing_of worker) }
{
    match worker {
        Worker::Reading(reading) => {
            let (pass, answer) = reading.end(region);
            let said = match answer {
                Ok(stable) => Said::Stable {
                    generation: stable.generation,
                },
                Err(again) => Said::Again {
                    first: again.first,
                    last: again.last,
                },
            };
            (Worker::Idle(pass), Some(said))
        }
        other => (other, None),
    }
}
