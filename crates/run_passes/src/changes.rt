//! Changes of the layout by a pass of a script.
ghost use Rattle.std.specs.Prelude.{◌≡◌, MatchResult};
ghost use Rattle.script_runs.specs.PassSteps.{begins, steps_on, finishes};
ghost use Rattle.run_passes.specs.Works.{IsHere, Works, Rests, fault_said, ended_doing};
ghost use Rattle.run_passes.specs.Workers.{doing_of};

use crate::deed::Deed;
use crate::said::Said;
use crate::worker::Worker;
use mmv_layout::Image;
use pcp_base::NoMemory;
use region_words::{ChangeFault, Region};
use std::alloc::Global;

/// Why no change began.
fn fault_said(fault: ChangeFault) -> Said
    ensures { result ≡ fault_said fault }
{
    match fault {
        ChangeFault::TooLarge { need, capacity } => Said::TooLarge { need, capacity },
        ChangeFault::Busy { gate } => Said::Busy { gate },
        ChangeFault::Spent { generation } => Said::Spent { generation },
    }
}

/// Begins a change to an image, of which it makes a copy.
pub fn begin(
    worker: Worker,
    alloc: Global,
    region: &Region,
    image: &Image,
    moment: u64,
) -> (Worker, Result<Option<Said>, NoMemory>)
    requires here { IsHere region.now worker }
    ensures { MatchResult
        result.1
        (λ said. Works region.now (λ r k doing. begins r k image.now moment doing) worker result.0 said)
        (λ _. Rests region.now worker result.0) }
{
    let Worker::Idle(pass) = worker else {
        return (worker, Ok(None));
    };
    let Ok(copy) = image.copy(alloc) else {
        return (Worker::Idle(pass), Err(NoMemory));
    };
    match region.begin_change(pass, copy, moment) {
        Ok(change) => {
            let generation = change.generation();
            (
                Worker::Changing(change),
                Ok(Some(Said::Begun { generation })),
            )
        }
        Err((pass, _copy, fault)) => (Worker::Idle(pass), Ok(Some(fault_said(fault)))),
    }
}

/// Stores the next word of the image, if one is left.
pub fn step(worker: Worker, region: &Region) -> (Worker, Option<Said>)
    requires here { IsHere region.now worker }
    ensures { Works region.now steps_on worker result.0 result.1 }
{
    match worker {
        Worker::Changing(mut change) => {
            let _left = change.step(region);
            (Worker::Changing(change), Some(Said::Nothing))
        }
        other => (other, None),
    }
}

/// Stores the words that are left, the second generation and the gate.
pub fn finish(worker: Worker, region: &Region) -> (Worker, Option<Said>)
    requires here { IsHere region.now worker }
    ensures works { Works region.now finishes worker result.0 result.1 }
    ensures ends { doing_of result.0 ≡ ended_doing Deed.Finish (doing_of worker) }
{
    match worker {
        Worker::Changing(change) => (Worker::Idle(change.finish(region)), Some(Said::Nothing)),
        other => (other, None),
    }
}
