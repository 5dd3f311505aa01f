//! The names of metrics that a peer is asked for.
ghost use Rattle.std.specs.Prelude.{All, ◌≡◌, ◌<◌, ◌≤◌, IfOk, IfSome, length, map, not, position, string_bytes};
ghost use Rattle.std.specs.List.{prefix_len};
ghost use Rattle.pcp_base.specs.Texts.{IsText};
ghost use Rattle.pm_words.specs.CommandLine.{AreAskedNames, Gives, is_asked_name, names_then};

use crate::words::BadWord;
use pcp_base::{List, NoMemory, Text, is_name};
use std::alloc::Global;

const MOST_NAMES: usize = 64;

const LONGEST_NAME: usize = 400;

fn is_asked_name(word: &[u8]) -> bool
    ensures { result ≡ is_asked_name word.now }
{
    word.len() <= LONGEST_NAME && is_name(word)
}

// The first word that is none.
fn first_other(words: &[String]) -> Option<usize>
    ensures value { result ≡ position (λ word. not (is_asked_name (string_bytes word))) words.now }
    ensures within { IfSome result (λ at. at < length words.now) }
{
    words
        .iter()
        .position(|word| !is_asked_name(word.as_bytes()))
}

// How many of the words in front are names.
fn names_in_front(words: &[String]) -> usize
    ensures front { result ≡ prefix_len is_asked_name (map string_bytes words.now) }
    ensures within { result ≤ length words.now }
{
    first_other(words).unwrap_or(words.len())
}

// The words, from one to 64, each a name.
pub(crate) fn names_at(words: &[String], at: usize) -> Result<&[String], BadWord>
    requires { at ≤ 3 }
    ensures words { Gives (λ names. map string_bytes names.now) result (names_then at (map string_bytes words.now)) }
    ensures names { IfOk result (λ names. AreAskedNames (map string_bytes names.now)) }
    ensures clean { IfOk result (λ names. All (λ name. IsText (string_bytes name)) names.now) }
{
    let front = names_in_front(words);
    if front < 1 || MOST_NAMES < front || front < words.len() {
        return Err(BadWord {
            at: at + front.min(MOST_NAMES),
        });
    }
    Ok(words)
}

// Names as texts.
pub(crate) fn texts_of(alloc: Global, names: &[String]) -> Result<List<Text>, NoMemory>
    requires { All (λ name. IsText (string_bytes name)) names.now }
    ensures { IfOk result (λ texts. texts ≡ map string_bytes names.now) }
{
    let mut texts = Vec::with_capacity(alloc, names.len())?;
    for name in names {
        texts.push(Text::clean_copy(alloc, name.as_bytes())?)?;
    }
    Ok(List::from_vec(texts))
}
