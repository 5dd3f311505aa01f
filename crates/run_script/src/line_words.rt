//! The parts of a script's lines: names, numbers that a rule bounds, slots, and what is swapped into one.
ghost use Rattle.std.specs.Prelude.{◌≡◌, IfOk};
ghost use Rattle.text_lines.specs.Numbers.{number_of};
ghost use Rattle.text_lines.specs.Words.{Read, Taken, take_as, optional};
ghost use Rattle.run_script.specs.LineWords.{instance_of, take_place, take_slot, quoted_value, number_value, take_value};

use crate::lines::{Given, Place, Slot};
use std::alloc::Global;
use text_lines::{Rest, TakeFault, read_number, starts_quoted, take_name, whole_number};

/// A number of at most 20 digits, behind one space.
#[tactic(auto, unfolding(text_lines::specs::Words::take_as))]
pub fn take_count(rest: &mut Rest) -> Result<u128, TakeFault>
    ensures { Taken (take_as number_of rest.old) result rest.new }
{
    let word = rest.word()?;
    let number = read_number(word).ok_or(TakeFault::NoLine)?;
    Ok(number)
}

// The number of an instance, which isn't negative.
#[tactic(auto, unfolding(crate::specs::LineWords::instance_of))]
fn instance_of(word: &[u8]) -> Option<i32>
    ensures { result ≡ instance_of word.now }
{
    let number = read_number(word)?;
    if number >= 1 << 31 {
        return None;
    }
    Some(number as i32)
}

// The number of an instance, or `-` for none, behind one space.
#[tactic(auto, unfolding(text_lines::specs::Words::take_as, text_lines::specs::Words::optional))]
fn take_instance(rest: &mut Rest) -> Result<Option<i32>, TakeFault>
    ensures { Taken (take_as (optional instance_of) rest.old) result rest.new }
{
    let word = rest.word()?;
    if word == b"-".as_slice() {
        return Ok(None);
    }
    let number = instance_of(word).ok_or(TakeFault::NoLine)?;
    Ok(Some(number))
}

/// A region's FILE and the number of a pass.
#[tactic(auto, unfolding(crate::specs::LineWords::take_place))]
pub fn take_place(alloc: Global, rest: &mut Rest) -> Result<Place, TakeFault>
    ensures { Taken (take_place rest.old) result rest.new }
{
    let file = take_name(alloc, rest)?;
    let pass = take_count(rest)?;
    Ok(Place { file, pass })
}

/// An item, and an instance or `-`.
#[tactic(auto, unfolding(crate::specs::LineWords::take_slot))]
pub fn take_slot(rest: &mut Rest) -> Result<Slot, TakeFault>
    ensures { Taken (take_slot rest.old) result rest.new }
{
    let item = rest.number32()?;
    let instance = take_instance(rest)?;
    Ok(Slot { item, instance })
}

#[tactic(auto, unfolding(crate::specs::LineWords::quoted_value))]
fn quoted_value(alloc: Global, bytes: &[u8]) -> Result<Given, TakeFault>
    ensures { Read (quoted_value bytes.now) result }
{
    let mut rest = Rest::new(bytes);
    let text = rest.text_in_quotes(alloc)?;
    rest.end()?;
    Ok(Given::Choice(text))
}

#[tactic(auto, unfolding(crate::specs::LineWords::number_value))]
fn number_value(bytes: &[u8]) -> Result<Given, TakeFault>
    ensures { Read (number_value bytes.now) result }
{
    let number = whole_number(bytes).ok_or(TakeFault::NoLine)?;
    Ok(Given::Number(number))
}

/// The last part of a line, behind one space: a quoted text or a whole number.
#[tactic(auto, unfolding(crate::specs::LineWords::take_value))]
pub fn take_value(alloc: Global, bytes: &[u8]) -> Result<Given, TakeFault>
    ensures { Read (take_value bytes.now) result }
{
    let mut rest = Rest::new(bytes);
    rest.space()?;
    if starts_quoted(rest.bytes()) {
        return quoted_value(alloc, rest.bytes());
    }
    number_value(rest.bytes())
}
