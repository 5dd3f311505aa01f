//! What the steps of a script say: the regions, passes and images that they name.
ghost use Rattle.std.specs.Prelude.{◌≡◌, ◌<◌, ◌≤◌, length, bytes_eq, OnOk, IfSome};
ghost use Rattle.std.specs.List.{position};
ghost use Rattle.run_script.specs.Faults.{Takes};
ghost use Rattle.run_script.specs.Names.{IsKept, Stays};
ghost use Rattle.run_script.specs.Steps.{pass_of, is_later, ticks, step_of, last_behind, with_line, with_step};
ghost use Rattle.run_script.specs.StepLines.{step_line};

use crate::fault::LineStop;
use crate::lines::{Place, StepLine};
use crate::named;
use crate::names::place_of;
use crate::said::Said;
use crate::script::{Line, RegionRow};
use crate::step_line::read_step_line;
use pcp_base::{Stamp, Text};
use std::alloc::Global;
use std::collections::BTreeMap;

// The position of the region with a FILE.
fn region_of(regions: &[RegionRow], file: &Text) -> Option<usize>
    ensures value { result ≡ position (λ row. bytes_eq row.file file.now) regions.now }
    ensures bound { IfSome result (λ at. at < length regions.now) }
{
    regions
        .iter()
        .position(|row| row.file.as_slice() == file.as_slice())
}

// The position of the region with a FILE, and the pass, where the region has it.
fn pass_of(regions: &[RegionRow], place: &Place) -> Option<(u32, u32)>
    requires { length regions.now ≤ 64 }
    ensures { result ≡ pass_of regions.now place.now }
{
    let at = region_of(regions, &place.file)?;
    let row = regions.get(at)?;
    if place.pass >= row.passes as u128 {
        return None;
    }
    Some((at as u32, place.pass as u32))
}

// Whether a stamp is after the last tick's, if there was one.
fn is_later(last: Option<Stamp>, stamp: Stamp) -> bool
    ensures { result ≡ is_later last stamp }
{
    match last {
        None => true,
        Some(last) => last.microseconds() < stamp.microseconds(),
    }
}

fn ticks(last: Option<Stamp>, stamp: Stamp) -> Option<Line>
    ensures { result ≡ ticks last stamp }
{
    if is_later(last, stamp) {
        Some(Line::Tick { stamp })
    } else {
        None
    }
}

// A step whose region, pass and image are there.
#[tactic(auto, unfolding(crate::specs::Steps::step_of))]
fn step_of(said: &Said, names: &BTreeMap<Vec<u8>, u32>, number: u32, step: StepLine) -> Option<Line>
    requires { IsKept names.now said.now number }
    ensures { result ≡ step_of said.now step }
{
    let regions = said.regions.as_slice();
    match step {
        StepLine::Attach(place) => named::attaches(pass_of(regions, &place)),
        StepLine::Detach(place) => named::detaches(pass_of(regions, &place)),
        StepLine::Swap { place, slot, given } => {
            named::swaps(pass_of(regions, &place), slot, given)
        }
        StepLine::Add {
            place,
            slot,
            number,
        } => named::adds(pass_of(regions, &place), slot, number),
        StepLine::Begin {
            place,
            image,
            moment,
        } => named::begins(pass_of(regions, &place), place_of(names, &image), moment),
        StepLine::Step(place) => named::steps_on(pass_of(regions, &place)),
        StepLine::Finish(place) => named::finishes(pass_of(regions, &place)),
        StepLine::Load(place) => named::loads(pass_of(regions, &place)),
        StepLine::Word { place, index } => named::reads(pass_of(regions, &place), index),
        StepLine::Done(place) => named::ends(pass_of(regions, &place)),
        StepLine::Tick(stamp) => ticks(said.last, stamp),
        StepLine::Flush => Some(Line::Flush),
    }
}

// The last tick's stamp behind a step.
fn last_behind(last: Option<Stamp>, line: &Line) -> Option<Stamp>
    ensures { result ≡ last_behind last line.now }
{
    match line {
        Line::Tick { stamp } => Some(*stamp),
        _ => last,
    }
}

// Adds a step, if there is one.
#[tactic(auto, using(crate::proofs::NamePositions::stays))]
fn add_line(said: &mut Said, number: u32, line: Option<Line>) -> Result<(), LineStop>
    ensures step { Takes (with_line number said.old line) said.new result }
    ensures kept { OnOk result (Stays said.old said.new) }
{
    let Some(line) = line else {
        return Err(LineStop::condition());
    };
    let last = last_behind(said.last, &line);
    said.steps.push((number, line))?;
    said.last = last;
    Ok(())
}

/// Adds the step of a line, which is without its line feed.
#[tactic(auto, unfolding(crate::specs::Steps::with_step))]
pub fn take_step(
    alloc: Global,
    said: &mut Said,
    names: &BTreeMap<Vec<u8>, u32>,
    number: u32,
    bytes: &[u8],
) -> Result<(), LineStop>
    requires { IsKept names.now said.now number }
    ensures step { Takes (with_step number said.old (step_line bytes.now)) said.new result }
    ensures kept { OnOk result (Stays said.old said.new) }
{
    let Some(step) = read_step_line(alloc, bytes)? else {
        return Err(LineStop::grammar());
    };
    let line = step_of(said, names, number, step);
    add_line(said, number, line)
}
