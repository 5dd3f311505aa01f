//! What is kept beside a window's values, so that what is told of them takes no walk over them.
ghost use Rattle.std.specs.Prelude.{◌≡◌, ◌+◌, ◌<◌, ◌≤◌, ◌∷◌, [], ◌++◌, ℕ, length, drop, IfOk};
ghost use Rattle.std.specs.List.{AllByRecursion};
ghost use Rattle.std.specs.VecDeque.{deque_capacity};
ghost use Rattle.rule_watch.specs.Aggregates.{aggregate_of};
ghost use Rattle.rule_watch.specs.Windows.{IsValue};
ghost use Rattle.rule_watch.specs.Running.{HasRoom, IsRunning, kind_of};

use crate::aggregate::Aggregate;
use crate::queue::{enter, first_of, last_of, leave};
use pcp_base::NoMemory;
use std::alloc::Global;
use std::collections::VecDeque;

/// The queue of least values; that of the values with their signs turned, for the greatest; the sum; or nothing.
#[derive(Drop)]
pub enum Running {
    Least(VecDeque<i128>),
    Greatest(VecDeque<i128>),
    Total(i128),
    Rise,
}

fn room_for(alloc: Global, size: usize) -> Result<VecDeque<i128>, NoMemory>
    ensures { IfOk result (λ queue. (queue.items ≡ []) × (size ≤ deque_capacity queue)) }
{
    Ok(VecDeque::with_capacity(alloc, size)?)
}

/// What is kept beside no values, with room for so many.
pub fn no_values(alloc: Global, aggregate: Aggregate, size: usize) -> Result<Running, NoMemory>
    ensures kind { IfOk result (λ made. kind_of made ≡ aggregate) }
    ensures room { IfOk result (HasRoom size) }
    ensures running { IfOk result (IsRunning []) }
{
    match aggregate {
        Aggregate::Min => Ok(Running::Least(room_for(alloc, size)?)),
        Aggregate::Max => Ok(Running::Greatest(room_for(alloc, size)?)),
        Aggregate::Sum => Ok(Running::Total(0)),
        Aggregate::Rise => Ok(Running::Rise),
    }
}

/// What is kept beside the values without their oldest.
pub fn forget(running: &mut Running, values: &VecDeque<i128>)
    requires some { 0 < length values.now.items }
    requires few { length values.now.items ≤ 1000 }
    requires small { AllByRecursion IsValue values.now.items }
    requires running { IsRunning values.now.items running.old }
    ensures kind { kind_of running.new ≡ kind_of running.old }
    ensures room { (size : ℕ) → HasRoom size running.old → HasRoom size running.new }
    ensures running { IsRunning (drop 1 values.now.items) running.new }
{
    let oldest = first_of(values);
    match running {
        Running::Least(queue) => leave(queue, oldest),
        Running::Greatest(queue) => leave(queue, -oldest),
        Running::Total(sum) => *sum -= oldest,
        Running::Rise => {}
    }
}

/// What is kept beside the values with a newer one, for which there is room.
pub fn keep(running: &mut Running, values: &VecDeque<i128>, number: i128)
    requires few { length values.now.items < 1000 }
    requires small { AllByRecursion IsValue values.now.items }
    requires value { IsValue number }
    requires running { IsRunning values.now.items running.old }
    requires room { HasRoom (length values.now.items + 1) running.old }
    ensures kind { kind_of running.new ≡ kind_of running.old }
    ensures room { (size : ℕ) → HasRoom size running.old → HasRoom size running.new }
    ensures running { IsRunning (values.now.items ++ number ∷ []) running.new }
{
    match running {
        Running::Least(queue) => enter(queue, number),
        Running::Greatest(queue) => enter(queue, -number),
        Running::Total(sum) => *sum += number,
        Running::Rise => {}
    }
}

/// What is told of the values.
pub fn told(running: &Running, values: &VecDeque<i128>) -> i128
    requires small { AllByRecursion IsValue values.now.items }
    requires running { IsRunning values.now.items running.now }
    ensures { result ≡ aggregate_of (kind_of running.now) values.now.items }
{
    match running {
        Running::Least(queue) => first_of(queue),
        Running::Greatest(queue) => -first_of(queue),
        Running::Total(sum) => *sum,
        Running::Rise => last_of(values) - first_of(values),
    }
}
