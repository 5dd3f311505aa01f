//! The last values of a stream.
ghost use Rattle.std.specs.Prelude.{◌≡◌, ◌==◌, ◌-◌, ◌<◌, ◌≤◌, ◌∷◌, [], ◌++◌, length, IfOk};
ghost use Rattle.rule_watch.specs.Aggregates.{aggregate_of};
ghost use Rattle.rule_watch.specs.Running.{IsWindow, kind_of};
ghost use Rattle.rule_watch.specs.Windows.{IsValue, last};

use crate::aggregate::Aggregate;
use crate::running::{Running, forget, keep, no_values, told};
use pcp_base::NoMemory;
use std::alloc::Global;
use std::collections::VecDeque;
use std::marker::Model;

/// The last values of a stream, at most so many, and what is kept beside them. Its memory is taken when it is made, and
/// what a push costs does not grow with them, taken together.
#[derive(Drop)]
pub struct Window {
    size: u32,
    values: VecDeque<i128>,
    running: Running,
}

impl Model for Window {
    ghost use Rattle.rule_watch.specs.Windows.{Recent};
    ghost use Rattle.rule_watch.specs.Running.{IsWindow, kind_of};

    ghost Value = { Recent };

    ghost view = { λ a. record { aggregate = kind_of a.running; size = a.size; values = a.values.items } };

    ghost invariant = { λ a. IsWindow a.size a.values a.running };
}

// Lets the oldest value go where there are as many as there may be.
fn make_room(size: usize, values: &mut VecDeque<i128>, running: &mut Running)
    requires { IsWindow size values.old running.old }
    ensures values { values.new.items ≡ last (size - 1) values.old.items }
    ensures room { length values.new.items < size }
    ensures window { IsWindow size values.new running.new }
    ensures kind { kind_of running.new ≡ kind_of running.old }
{
    if values.len() < size {
        return;
    }
    forget(running, values);
    values.pop_front();
}

// One more value; the oldest goes where there are as many as there may be.
fn push_value(size: usize, values: &mut VecDeque<i128>, running: &mut Running, number: i128)
    requires window { IsWindow size values.old running.old }
    requires value { IsValue number }
    ensures values { values.new.items ≡ last size (values.old.items ++ number ∷ []) }
    ensures window { IsWindow size values.new running.new }
    ensures kind { kind_of running.new ≡ kind_of running.old }
{
    make_room(size, values, running);
    keep(running, values, number);
    values.push_back_reserved(number);
}

impl Window {
    /// The window of a stream without a value.
    pub fn new(alloc: Global, aggregate: Aggregate, size: u32) -> Result<Window, NoMemory>
        requires some { 0 < size }
        requires few { size ≤ 1000 }
        ensures { IfOk result (λ window. window ≡ record { aggregate = aggregate; size = size; values = [] }) }
    {
        let values = VecDeque::with_capacity(alloc, size as usize)?;
        let running = no_values(alloc, aggregate, size as usize)?;
        Ok(Window {
            size,
            values,
            running,
        })
    }

    /// Takes the stream's next value.
    pub fn push(&mut self, number: i128)
        requires { IsValue number }
        ensures { self.new ≡ record self.old { values = last self.old.size (self.old.values ++ number ∷ []) } }
    {
        push_value(
            self.size as usize,
            &mut self.values,
            &mut self.running,
            number,
        );
    }

    /// Whether it has as many values as it may have.
    pub fn is_full(&self) -> bool
        ensures { result ≡ (length self.now.values == self.now.size) }
    {
        self.values.len() == self.size as usize
    }

    /// What is told of its values.
    pub fn told(&self) -> i128
        ensures { result ≡ aggregate_of self.now.aggregate self.now.values }
    {
        told(&self.running, &self.values)
    }
}
