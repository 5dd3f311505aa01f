//! The input of a case.
use case_book::{Kept, Line};
use pcp_base::NoMemory;
use std::alloc::Global;

// Writes bytes over those from an offset on. False where they reach behind the end.
fn overwrite(input: &mut [u8], offset: usize, bytes: &[u8]) -> bool {
    let mut at = offset;
    for byte in bytes {
        let Some(old) = input.get_mut(at) else {
            return false;
        };
        *old = *byte;
        at = at.saturating_add(1);
    }
    !bytes.is_empty()
}

// `set OFFSET HEX`
fn set(alloc: Global, input: &mut [u8], rest: &str) -> Result<bool, NoMemory> {
    let line = Line::of(rest);
    let Ok(offset) = line.word.parse::<usize>() else {
        return Ok(false);
    };
    match case_book::read_hex(alloc, line.rest)? {
        Some(bytes) => Ok(overwrite(input, offset, &bytes)),
        None => Ok(false),
    }
}

// `cut N`: the input is its first N bytes.
fn cut(input: &mut Vec<u8>, rest: &str) -> bool {
    match rest.parse::<usize>() {
        Ok(length) if length < input.len() => {
            input.truncate(length);
            true
        }
        _ => false,
    }
}

fn add(input: &mut Vec<u8>, bytes: Option<Vec<u8>>) -> Result<bool, NoMemory> {
    match bytes {
        Some(more) => {
            input.extend_from_slice(&more)?;
            Ok(true)
        }
        None => Ok(false),
    }
}

/// `input LITERAL`, `more LITERAL` behind it, `line TEXT` behind it, `set OFFSET HEX` and `cut N`.
pub fn prepare_input(
    alloc: Global,
    kept: &Kept,
    input: &mut Vec<u8>,
    line: Line<'_>,
) -> Result<bool, NoMemory> {
    match line.word {
        "input" => {
            input.clear();
            add(input, kept.read(alloc, line.rest)?)
        }
        "more" => add(input, kept.read(alloc, line.rest)?),
        "line" => {
            let known = add(input, case_book::read_text(alloc, line.rest)?)?;
            input.push(b'\n')?;
            Ok(known)
        }
        "set" => set(alloc, input, line.rest),
        _ => Ok(cut(input, line.rest)),
    }
}
