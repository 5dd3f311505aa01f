//! Which word of a command line is the first bad one, where a word isn't UTF-8.
ghost use Rattle.std.specs.Prelude.{◌≡◌, ℕ, IfOk, Ok as Fits, Err as Bad, length, map, string_bytes};
ghost use Rattle.pm_words.specs.CommandLine.{asked_by};
ghost use Rattle.pm_words.specs.declared.words.Command.{Command as Asked};

use pm_words::{Call, Refusal, read_words};
use std::alloc::{AllocError, Global};

/// Which word is the first bad one that a call is given, where the word behind these isn't UTF-8.
pub fn first_bad_of(alloc: Global, call: Call, words: &[String]) -> Result<usize, AllocError>
    ensures bad { (at : ℕ) → asked_by call (map string_bytes words.now) ≡ Bad at → IfOk result (λ index. index ≡ at) }
    ensures behind { (asked : Asked) → asked_by call (map string_bytes words.now) ≡ Fits asked → IfOk result (λ index. index ≡ length words.now) }
{
    match read_words(alloc, call, words) {
        Ok(_) => Ok(words.len()),
        Err(Refusal::Usage { at }) => Ok(at),
        Err(_) => Err(AllocError),
    }
}
