//! Names: words that aren't quoted, without a zero byte.
ghost use Rattle.std.specs.Prelude.{◌≡◌, IfOk};
ghost use Rattle.text_lines.specs.Words.{Read, Taken, name_of, take_as};

use crate::quoted::starts_quoted;
use crate::rest::{Rest, TakeFault};
use pcp_base::{Text, TextError};
use std::alloc::Global;

// The name that a word is.
#[tactic(auto, using(crate::proofs::NoZeros::no_zero, crate::proofs::NoZeros::has_zero), unfolding(crate::specs::Words::name_of))]
fn name_of(alloc: Global, word: &[u8]) -> Result<Text, TakeFault>
    ensures { Read (name_of word.now) result }
{
    if word.is_empty() {
        return Err(TakeFault::NoLine);
    }
    if starts_quoted(word) {
        return Err(TakeFault::NoLine);
    }
    match Text::build(alloc, word) {
        Ok(name) => Ok(name),
        Err(TextError::Zero(_)) => Err(TakeFault::NoLine),
        Err(TextError::NoMemory) => Err(TakeFault::NoMemory),
    }
}

/// Takes a name, behind one space: a word of at least one byte that doesn't begin with a quotation mark and has no zero
/// byte. `NoLine` comes where none stands there, `NoMemory` where its copy finds no room.
#[tactic(auto, unfolding(crate::specs::Words::take_as))]
pub fn take_name(alloc: Global, rest: &mut Rest) -> Result<Text, TakeFault>
    ensures { Taken (take_as name_of rest.old) result rest.new }
{
    let word = rest.word()?;
    let name = name_of(alloc, word)?;
    Ok(name)
}
