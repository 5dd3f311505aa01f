//! The steps of a generated script, one behind another, each with the number of its line.
ghost use Rattle.std.specs.Prelude.{◌≡◌, ◌≤◌, ◌<◌, [], ◌∷◌, length, IfOk, OnOk};
ghost use Rattle.run_script.specs.Generated.{next, attach_lines, detach_lines, change_lines, change_at, three_adds, flush_lines, tick_at, tick_steps, with_line_numbers, all_ticks, all_steps, with_steps};

use crate::draws::{add_of, draw, next};
use crate::script::Line;
use pcp_base::{List, NoMemory, Stamp};
use std::alloc::Global;

// The line of the first step.
const FIRST: u32 = 252;

// Adds a step.
#[tactic(auto, unfolding(crate::specs::Generated::with_line_numbers))]
fn add_step(steps: &mut List<(u32, Line)>, step: Line) -> Result<(), NoMemory>
    requires { length steps.now ≤ 4000000 }
    ensures { OnOk result (steps.new ≡ with_steps steps.old (step ∷ [])) }
{
    let number = FIRST + steps.len() as u32;
    steps.push((number, step))?;
    Ok(())
}

// Attaches all passes of a region.
#[tactic(auto, using(crate::proofs::Numbered::with_both, crate::proofs::Numbered::longer))]
fn attach_all(steps: &mut List<(u32, Line)>, region: u32) -> Result<(), NoMemory>
    requires { length steps.now ≤ 3999990 }
    ensures { OnOk result (steps.new ≡ with_steps steps.old (attach_lines region)) }
{
    add_step(steps, Line::Attach { region, pass: 0 })?;
    add_step(steps, Line::Attach { region, pass: 1 })?;
    add_step(steps, Line::Attach { region, pass: 2 })?;
    add_step(steps, Line::Attach { region, pass: 3 })?;
    Ok(())
}

// Detaches all passes of a region.
#[tactic(auto, using(crate::proofs::Numbered::with_both, crate::proofs::Numbered::longer))]
fn detach_all(steps: &mut List<(u32, Line)>, region: u32) -> Result<(), NoMemory>
    requires { length steps.now ≤ 3999990 }
    ensures { OnOk result (steps.new ≡ with_steps steps.old (detach_lines region)) }
{
    add_step(steps, Line::Detach { region, pass: 0 })?;
    add_step(steps, Line::Detach { region, pass: 1 })?;
    add_step(steps, Line::Detach { region, pass: 2 })?;
    add_step(steps, Line::Detach { region, pass: 3 })?;
    Ok(())
}

// Gives the first region another layout.
#[tactic(auto, using(crate::proofs::Numbered::with_both, crate::proofs::Numbered::longer))]
fn change(steps: &mut List<(u32, Line)>, image: u32) -> Result<(), NoMemory>
    requires { length steps.now ≤ 3999900 }
    ensures { OnOk result (steps.new ≡ with_steps steps.old (change_lines image)) }
{
    detach_all(steps, 0)?;
    add_step(
        steps,
        Line::Begin {
            region: 0,
            pass: 0,
            image,
            moment: 0,
        },
    )?;
    add_step(steps, Line::Finish { region: 0, pass: 0 })?;
    attach_all(steps, 0)
}

// The change before a tick, if there is one.
#[tactic(auto, using(crate::proofs::Numbered::with_none))]
fn change_at(steps: &mut List<(u32, Line)>, tick: u32) -> Result<(), NoMemory>
    requires { length steps.now ≤ 3999900 }
    ensures { OnOk result (steps.new ≡ with_steps steps.old (change_at tick)) }
{
    if tick % 256 != 0 {
        return Ok(());
    }
    let image = if tick / 256 % 2 == 1 { 3 } else { 0 };
    change(steps, image)
}

// The adds of three draws; gives the generator's number behind them.
#[tactic(auto, using(crate::proofs::Numbered::with_both, crate::proofs::Numbered::longer))]
fn add_draws(steps: &mut List<(u32, Line)>, number: u64) -> Result<u64, NoMemory>
    requires { length steps.now ≤ 3999990 }
    ensures value { IfOk result (λ behind. behind ≡ next (next (next number))) }
    ensures steps { OnOk result (steps.new ≡ with_steps steps.old (three_adds number)) }
{
    let first = next(number);
    add_step(steps, add_of(draw(first)))?;
    let second = next(first);
    add_step(steps, add_of(draw(second)))?;
    let third = next(second);
    add_step(steps, add_of(draw(third)))?;
    Ok(third)
}

// A tick, and behind each tenth a flush.
#[tactic(auto, using(crate::proofs::Numbered::with_both, crate::proofs::Numbered::longer))]
fn add_tick(steps: &mut List<(u32, Line)>, tick: u32) -> Result<(), NoMemory>
    requires room { length steps.now ≤ 3999990 }
    requires range { tick < 2147483648 }
    ensures { OnOk result (steps.new ≡ with_steps steps.old (tick_at tick ∷ flush_lines tick)) }
{
    let Some(stamp) = Stamp::build(tick, 0) else {
        unreachable!()
    };
    add_step(steps, Line::Tick { stamp })?;
    if tick % 10 == 0 {
        add_step(steps, Line::Flush)?;
    }
    Ok(())
}

// The steps of a tick; gives the generator's number behind its draws.
#[tactic(auto, using(crate::proofs::Numbered::with_both, crate::proofs::Numbered::longer, crate::proofs::Numbered::few_change), unfolding(crate::specs::Generated::tick_steps))]
fn tick_steps(steps: &mut List<(u32, Line)>, number: u64, tick: u32) -> Result<u64, NoMemory>
    requires room { length steps.now ≤ 3999000 }
    requires range { tick < 2147483648 }
    ensures value { IfOk result (λ behind. behind ≡ next (next (next number))) }
    ensures steps { OnOk result (steps.new ≡ with_steps steps.old (tick_steps number tick)) }
{
    change_at(steps, tick)?;
    let behind = add_draws(steps, number)?;
    add_tick(steps, tick)?;
    Ok(behind)
}

// The steps of all ticks.
fn add_ticks(steps: &mut List<(u32, Line)>, first: u64, ticks: u32) -> Result<(), NoMemory>
    requires room { length steps.now ≤ 100 }
    requires range { ticks ≤ 100000 }
    ensures steps { OnOk result (steps.new ≡ with_steps steps.old (all_ticks first ticks)) }
    ensures few { OnOk result (length steps.new ≤ 2000000) }
{
    let mut number = first;
    let mut tick = 0;
    while tick < ticks {
        number = tick_steps(steps, number, tick + 1)?;
        tick += 1;
    }
    Ok(())
}

/// The steps of so many ticks.
#[tactic(auto, using(crate::proofs::Numbered::with_both, crate::proofs::Numbered::longer), unfolding(crate::specs::Generated::all_steps))]
pub fn all_steps(alloc: Global, number: u64, ticks: u32) -> Result<List<(u32, Line)>, NoMemory>
    requires { ticks ≤ 100000 }
    ensures { IfOk result (λ steps. steps ≡ with_line_numbers 252 (all_steps number ticks)) }
{
    let mut steps = List::empty(alloc);
    attach_all(&mut steps, 0)?;
    attach_all(&mut steps, 1)?;
    attach_all(&mut steps, 2)?;
    add_ticks(&mut steps, number, ticks)?;
    detach_all(&mut steps, 0)?;
    detach_all(&mut steps, 1)?;
    detach_all(&mut steps, 2)?;
    Ok(steps)
}
