//! PORT, which stands behind the first word of `serve` and `pull`, is the program's, and isn't handed on.
ghost use Rattle.std.specs.Prelude.{◌≡◌, ◌⊎◌, map, string_bytes};
ghost use Rattle.pcp_shell.specs.Ports.{port_of};

use crate::bad_words::first_bad_of;
use pcp_outside::Sink;
use pm_words::{Call, Refusal};
use std::alloc::{AllocError, Global};
use text_lines::read_number;

// PORT, from 1 to 65,535.
pub(crate) fn port_of(words: &[String]) -> Option<u16>
    ensures { result ≡ port_of (map string_bytes words.now) }
{
    let [_, word, ..] = words else {
        return None;
    };
    match read_number(word.as_bytes()) {
        Some(port) if 1 <= port && port <= 65_535 => Some(port as u16),
        _ => None,
    }
}

// The words without PORT, as the command's call takes them.
pub(crate) fn without_port(alloc: Global, words: &[String]) -> Result<Vec<String>, AllocError> {
    let mut rest = Vec::new(alloc);
    for (at, word) in words.iter().enumerate() {
        if at != 1 {
            rest.push(word.to_string(alloc)?)?;
        }
    }
    Ok(rest)
}

/// Which word is the first bad one that a call with PORT is given, where the word behind these isn't UTF-8. PORT isn't counted.
pub fn first_bad_behind_port(
    alloc: Global,
    call: Call,
    words: &[String],
) -> Result<usize, AllocError> {
    if port_of(words).is_none() {
        return Ok(1);
    }
    let rest = without_port(alloc, words)?;
    first_bad_of(alloc, call, &rest)
}

// Tells `usage 1`, since PORT is no port, and answers the status.
pub(crate) fn no_port(alloc: Global, out: &mut impl Sink) -> u8
    ensures { (result ≡ 1) ⊎ (result ≡ 9) }
{
    let refusal = Refusal::Usage { at: 1 };
    match refusal.tell(alloc, out) {
        Ok(()) => 1,
        Err(_) => 9,
    }
}
