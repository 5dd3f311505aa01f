//! The words of a metric's line, and what they mean.
ghost use Rattle.std.specs.Prelude.{◌≡◌, IfOk};
ghost use Rattle.text_lines.specs.Numbers.{hex_number};
ghost use Rattle.text_lines.specs.Words.{Taken, take_as};
ghost use Rattle.text_lines.specs.LayoutWords.{kind_of, other_kind_of, semantics_of};

use crate::numbers::hex_number;
use crate::rest::{Rest, TakeFault};
use pcp_base::{Kind, Semantics, Units};

// The kind of a word.
#[tactic(auto, unfolding(crate::specs::LayoutWords::kind_of))]
fn kind_of(word: &[u8]) -> Option<Kind>
    ensures { result ≡ kind_of word.now }
{
    if word == b"i32".as_slice() {
        return Some(Kind::I32);
    }
    if word == b"u32".as_slice() {
        return Some(Kind::U32);
    }
    if word == b"i64".as_slice() {
        return Some(Kind::I64);
    }
    if word == b"u64".as_slice() {
        return Some(Kind::U64);
    }
    other_kind_of(word)
}

// The word of a kind that isn't a whole number's.
#[tactic(auto, unfolding(crate::specs::LayoutWords::other_kind_of))]
fn other_kind_of(word: &[u8]) -> Option<Kind>
    ensures { result ≡ other_kind_of word.now }
{
    if word == b"float".as_slice() {
        return Some(Kind::Float);
    }
    if word == b"double".as_slice() {
        return Some(Kind::Double);
    }
    if word == b"string".as_slice() {
        return Some(Kind::Text);
    }
    if word == b"elapsed".as_slice() {
        return Some(Kind::Elapsed);
    }
    None
}

// The semantics of a word.
#[tactic(auto, unfolding(crate::specs::LayoutWords::semantics_of))]
fn semantics_of(word: &[u8]) -> Option<Semantics>
    ensures { result ≡ semantics_of word.now }
{
    if word == b"counter".as_slice() {
        return Some(Semantics::Counter);
    }
    if word == b"instant".as_slice() {
        return Some(Semantics::Instant);
    }
    if word == b"discrete".as_slice() {
        return Some(Semantics::Discrete);
    }
    None
}

/// A kind's word, behind one space.
#[tactic(auto, unfolding(crate::specs::Words::take_as))]
pub fn take_kind(rest: &mut Rest) -> Result<Kind, TakeFault>
    ensures { Taken (take_as kind_of rest.old) result rest.new }
{
    let word = rest.word()?;
    let kind = kind_of(word).ok_or(TakeFault::NoLine)?;
    Ok(kind)
}

/// The word of semantics, behind one space.
#[tactic(auto, unfolding(crate::specs::Words::take_as))]
pub fn take_semantics(rest: &mut Rest) -> Result<Semantics, TakeFault>
    ensures { Taken (take_as semantics_of rest.old) result rest.new }
{
    let word = rest.word()?;
    let semantics = semantics_of(word).ok_or(TakeFault::NoLine)?;
    Ok(semantics)
}

/// Units in 8 hexadecimal digits, behind one space.
#[tactic(auto, unfolding(crate::specs::Words::take_as))]
pub fn take_units(rest: &mut Rest) -> Result<Units, TakeFault>
    ensures { Taken (take_as (hex_number 8) rest.old) result rest.new }
{
    let word = rest.word()?;
    let number = hex_number(8, word).ok_or(TakeFault::NoLine)?;
    Ok(Units::of_word(number as u32))
}
