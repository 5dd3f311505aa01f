//! A step from the bytes of its line.
ghost use Rattle.std.specs.Prelude.{◌≡◌, IfOk};
ghost use Rattle.text_lines.specs.Words.{Read};
ghost use Rattle.run_script.specs.StepLines.{place_line, swap_line, add_line, begin_line, word_line, tick_line, flush_line, store_line, other_line, step_line};

use crate::line_words::{take_place, take_slot, take_value};
use crate::lines::{Place, StepLine};
use pcp_base::{NoMemory, Stamp};
use std::alloc::Global;
use text_lines::{Rest, TakeFault, split_word, take_name, whole_number};

// A line that names a pass alone.
#[tactic(auto, unfolding(crate::specs::StepLines::place_line))]
fn place_line(alloc: Global, bytes: &[u8]) -> Result<Place, TakeFault>
    ensures { Read (place_line bytes.now) result }
{
    let mut rest = Rest::new(bytes);
    let place = take_place(alloc, &mut rest)?;
    rest.end()?;
    Ok(place)
}

#[tactic(auto, unfolding(crate::specs::StepLines::swap_line))]
fn swap_line(alloc: Global, bytes: &[u8]) -> Result<StepLine, TakeFault>
    ensures { Read (swap_line bytes.now) result }
{
    let mut rest = Rest::new(bytes);
    let place = take_place(alloc, &mut rest)?;
    let slot = take_slot(&mut rest)?;
    let given = take_value(alloc, rest.bytes())?;
    Ok(StepLine::Swap { place, slot, given })
}

#[tactic(auto, unfolding(crate::specs::StepLines::add_line))]
fn add_line(alloc: Global, bytes: &[u8]) -> Result<StepLine, TakeFault>
    ensures { Read (add_line bytes.now) result }
{
    let mut rest = Rest::new(bytes);
    let place = take_place(alloc, &mut rest)?;
    let slot = take_slot(&mut rest)?;
    rest.space()?;
    let number = whole_number(rest.bytes()).ok_or(TakeFault::NoLine)?;
    Ok(StepLine::Add {
        place,
        slot,
        number,
    })
}

#[tactic(auto, unfolding(crate::specs::StepLines::begin_line))]
fn begin_line(alloc: Global, bytes: &[u8]) -> Result<StepLine, TakeFault>
    ensures { Read (begin_line bytes.now) result }
{
    let mut rest = Rest::new(bytes);
    let place = take_place(alloc, &mut rest)?;
    let image = take_name(alloc, &mut rest)?;
    let moment = rest.number64()?;
    rest.end()?;
    Ok(StepLine::Begin {
        place,
        image,
        moment,
    })
}

#[tactic(auto, unfolding(crate::specs::StepLines::word_line))]
fn word_line(alloc: Global, bytes: &[u8]) -> Result<StepLine, TakeFault>
    ensures { Read (word_line bytes.now) result }
{
    let mut rest = Rest::new(bytes);
    let place = take_place(alloc, &mut rest)?;
    let index = rest.number32()?;
    rest.end()?;
    Ok(StepLine::Word { place, index })
}

#[tactic(auto, unfolding(crate::specs::StepLines::tick_line))]
fn tick_line(bytes: &[u8]) -> Result<StepLine, TakeFault>
    ensures { Read (tick_line bytes.now) result }
{
    let mut rest = Rest::new(bytes);
    let sec = rest.number32()?;
    let usec = rest.number32()?;
    let Some(stamp) = Stamp::build(sec, usec) else {
        return Err(TakeFault::NoLine);
    };
    rest.end()?;
    Ok(StepLine::Tick(stamp))
}

#[tactic(auto, unfolding(crate::specs::StepLines::flush_line))]
fn flush_line(bytes: &[u8]) -> Result<StepLine, TakeFault>
    ensures { Read (flush_line bytes.now) result }
{
    let rest = Rest::new(bytes);
    rest.end()?;
    Ok(StepLine::Flush)
}

// Lines of passes that are attached or change a region.
#[tactic(auto, unfolding(crate::specs::StepLines::store_line))]
fn store_line(alloc: Global, word: &[u8], left: &[u8]) -> Result<StepLine, TakeFault>
    ensures { Read (store_line word.now left.now) result }
{
    if word == b"attach".as_slice() {
        let place = place_line(alloc, left)?;
        return Ok(StepLine::Attach(place));
    }
    if word == b"detach".as_slice() {
        let place = place_line(alloc, left)?;
        return Ok(StepLine::Detach(place));
    }
    if word == b"swap".as_slice() {
        return swap_line(alloc, left);
    }
    if word == b"add".as_slice() {
        return add_line(alloc, left);
    }
    if word == b"begin".as_slice() {
        return begin_line(alloc, left);
    }
    if word == b"step".as_slice() {
        let place = place_line(alloc, left)?;
        return Ok(StepLine::Step(place));
    }
    if word == b"finish".as_slice() {
        let place = place_line(alloc, left)?;
        return Ok(StepLine::Finish(place));
    }
    Err(TakeFault::NoLine)
}

// Lines of passes that read, and of the logger.
#[tactic(auto, unfolding(crate::specs::StepLines::other_line))]
fn other_line(alloc: Global, word: &[u8], left: &[u8]) -> Result<StepLine, TakeFault>
    ensures { Read (other_line word.now left.now) result }
{
    if word == b"load".as_slice() {
        let place = place_line(alloc, left)?;
        return Ok(StepLine::Load(place));
    }
    if word == b"word".as_slice() {
        return word_line(alloc, left);
    }
    if word == b"done".as_slice() {
        let place = place_line(alloc, left)?;
        return Ok(StepLine::Done(place));
    }
    if word == b"tick".as_slice() {
        return tick_line(left);
    }
    if word == b"flush".as_slice() {
        return flush_line(left);
    }
    store_line(alloc, word, left)
}

#[tactic(auto, unfolding(crate::specs::StepLines::step_line))]
fn step_line(alloc: Global, bytes: &[u8]) -> Result<StepLine, TakeFault>
    ensures { Read (step_line bytes.now) result }
{
    let (word, left) = split_word(bytes);
    other_line(alloc, word, left)
}

/// The step of a line, which is without its line feed; `None` exactly where no step has these bytes.
pub fn read_step_line(alloc: Global, line: &[u8]) -> Result<Option<StepLine>, NoMemory>
    ensures { IfOk result (λ found. found ≡ step_line line.now) }
{
    match step_line(alloc, line) {
        Ok(found) => Ok(Some(found)),
        Err(TakeFault::NoLine) => Ok(None),
        Err(TakeFault::NoMemory) => Err(NoMemory),
    }
}
