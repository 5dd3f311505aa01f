//! BASE1 and BASE2, which stand behind the first word of `extract`, are the program's: the archives that are merged. So is BASE2 behind `export`: where an
//! archive comes to stand. They aren't handed on.
ghost use Rattle.std.specs.Prelude.{◌≡◌, ◌⊎◌, IfOk, IfSome, map, option_map, string_bytes};
ghost use Rattle.pcp_shell.specs.Sources.{sources_of, target_of};

use crate::bad_words::first_bad_of;
use pcp_system::FileDisk;
use pm_words::Call;
use std::alloc::{AllocError, Global};
use std::fs::{File, Files};

/// The bases of the two sources, where both are there.
pub fn sources_of(words: &[String]) -> Option<(&String, &String)>
    ensures { option_map (λ x. (string_bytes x.0.now, string_bytes x.1.now)) result ≡ sources_of (map string_bytes words.now) }
{
    match words {
        [_, first, second, ..] => Some((first, second)),
        _ => None,
    }
}

/// The words without the two bases, as the command's call takes them.
pub fn without_sources(alloc: Global, words: &[String]) -> Result<Vec<String>, AllocError> {
    let mut rest = Vec::new(alloc);
    for (at, word) in words.iter().enumerate() {
        if at != 1 && at != 2 {
            rest.push(word.to_string(alloc)?)?;
        }
    }
    Ok(rest)
}

/// Which word is the first bad one that `extract` is given, where the word behind these isn't UTF-8: that word, where it is a base; else the
/// bases aren't counted.
pub fn first_bad_behind_sources(alloc: Global, words: &[String]) -> Result<usize, AllocError> {
    if sources_of(words).is_none() {
        return Ok(words.len());
    }
    let rest = without_sources(alloc, words)?;
    first_bad_of(alloc, Call::Extract, &rest)
}

/// Which of the two sources is the archive itself, as its base is counted behind BASE: it is where the two have a file in common.
pub fn source_of_itself<'a, R: Files<File = File>>(
    disk: &FileDisk<'a, R>,
    first: &FileDisk<'a, R>,
    second: &FileDisk<'a, R>,
) -> Result<Option<usize>, AllocError>
    ensures { IfOk result (λ source. IfSome source (λ at. (at ≡ 1) ⊎ (at ≡ 2))) }
{
    if disk.shares_file(first)? {
        return Ok(Some(1));
    }
    if disk.shares_file(second)? {
        return Ok(Some(2));
    }
    Ok(None)
}

/// The base of the archive that an export writes, where it is there.
pub fn target_of(words: &[String]) -> Option<&String>
    ensures { option_map (λ target. string_bytes target.now) result ≡ target_of (map string_bytes words.now) }
{
    match words {
        [_, target, ..] => Some(target),
        _ => None,
    }
}

/// The words without that base, as the command's call takes them.
pub fn without_target(alloc: Global, words: &[String]) -> Result<Vec<String>, AllocError> {
    let mut rest = Vec::new(alloc);
    for (at, word) in words.iter().enumerate() {
        if at != 1 {
            rest.push(word.to_string(alloc)?)?;
        }
    }
    Ok(rest)
}

/// Which word is the first bad one that `export` is given, where the word behind these isn't UTF-8: that word, where it is the base; else the base isn't
/// counted.
pub fn first_bad_behind_target(alloc: Global, words: &[String]) -> Result<usize, AllocError> {
    if target_of(words).is_none() {
        return Ok(words.len());
    }
    let rest = without_target(alloc, words)?;
    first_bad_of(alloc, Call::Export, &rest)
}
