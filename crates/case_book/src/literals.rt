//! Literals of bytes: hexadecimal words with repetitions, and text with escapes.
use pcp_base::NoMemory;
use std::alloc::Global;

// The value of a hexadecimal digit.
fn digit_of(byte: u8) -> Option<u8> {
    match byte {
        b'0'..=b'9' => Some(byte.wrapping_sub(b'0')),
        b'a'..=b'f' => Some(byte.wrapping_sub(b'a').wrapping_add(10)),
        _ => None,
    }
}

fn byte_of(high: u8, low: u8) -> Option<u8> {
    let high = digit_of(high)?;
    let low = digit_of(low)?;
    Some(high.wrapping_mul(16).wrapping_add(low))
}

// What stands before the next byte of a text or digit of a run.
#[derive(Clone, Copy)]
enum Before {
    Nothing,
    Backslash,
    Hexadecimal,
    High(u8),
}

// Adds the byte of a second digit, and tells what stands before the next. `None` where they are no digits.
fn add_digit(bytes: &mut Vec<u8>, before: Before, digit: u8) -> Result<Option<Before>, NoMemory> {
    let Before::High(high) = before else {
        return Ok(Some(Before::High(digit)));
    };
    match byte_of(high, digit) {
        Some(byte) => {
            bytes.push(byte)?;
            Ok(Some(Before::Nothing))
        }
        None => Ok(None),
    }
}

// The bytes of one run of digits; a single 0 is a zero byte.
fn read_digits(alloc: Global, digits: &str) -> Result<Option<Vec<u8>>, NoMemory> {
    let mut bytes = Vec::new(alloc);
    if digits == "0" {
        bytes.push(0)?;
        return Ok(Some(bytes));
    }
    let mut before = Before::Nothing;
    for digit in digits.as_bytes() {
        match add_digit(&mut bytes, before, *digit)? {
            Some(next) => before = next,
            None => return Ok(None),
        }
    }
    match before {
        Before::Nothing => Ok(Some(bytes)),
        _ => Ok(None),
    }
}

// Adds bytes so many times.
fn repeat(bytes: &mut Vec<u8>, unit: &[u8], count: u32) -> Result<(), NoMemory> {
    if let [byte] = unit {
        bytes.resize(bytes.len().saturating_add(count as usize), *byte)?;
        return Ok(());
    }
    for _ in 0..count {
        bytes.extend_from_slice(unit)?;
    }
    Ok(())
}

// Adds the bytes of one word, as `6d6d`, `0*60` or `6d6d*3`. False where it is none.
fn add_word(alloc: Global, bytes: &mut Vec<u8>, word: &str) -> Result<bool, NoMemory> {
    let (digits, count) = word.split_once('*').unwrap_or((word, "1"));
    let Ok(count) = count.parse::<u32>() else {
        return Ok(false);
    };
    let Some(unit) = read_digits(alloc, digits)? else {
        return Ok(false);
    };
    repeat(bytes, &unit, count)?;
    Ok(true)
}

/// The bytes of hexadecimal words between spaces: `6d6d` is two bytes, `0*60` is 60 zero bytes and `6d6d*3` is six
/// bytes. `None` where a word is none of these.
pub fn read_hex(alloc: Global, text: &str) -> Result<Option<Vec<u8>>, NoMemory> {
    let mut bytes = Vec::new(alloc);
    for word in text.split_whitespace() {
        if !add_word(alloc, &mut bytes, word)? {
            return Ok(None);
        }
    }
    Ok(Some(bytes))
}

// Adds a byte that an escape doesn't hold back, and tells what stands before the next. `None` where an escape is none.
fn add_byte(bytes: &mut Vec<u8>, before: Before, byte: u8) -> Result<Option<Before>, NoMemory> {
    let meant = match (before, byte) {
        (Before::Nothing, b'\\') => return Ok(Some(Before::Backslash)),
        (Before::Backslash, b'x') => return Ok(Some(Before::Hexadecimal)),
        (Before::Hexadecimal, high) => return Ok(Some(Before::High(high))),
        (Before::Nothing, plain) => plain,
        (Before::Backslash, b'n') => b'\n',
        (Before::Backslash, b'\\') => b'\\',
        (Before::Backslash, _) => return Ok(None),
        (Before::High(high), low) => match byte_of(high, low) {
            Some(found) => found,
            None => return Ok(None),
        },
    };
    bytes.push(meant)?;
    Ok(Some(Before::Nothing))
}

/// The bytes of text in which `\n` is a line feed, `\\` a backslash and `\xHH` any byte. `None` where a backslash
/// begins something else.
pub fn read_text(alloc: Global, text: &str) -> Result<Option<Vec<u8>>, NoMemory> {
    let mut bytes = Vec::new(alloc);
    let mut before = Before::Nothing;
    for byte in text.as_bytes() {
        match add_byte(&mut bytes, before, *byte)? {
            Some(next) => before = next,
            None => return Ok(None),
        }
    }
    match before {
        Before::Nothing => Ok(Some(bytes)),
        _ => Ok(None),
    }
}

fn write_byte(out: &mut String, byte: u8) -> Result<(), NoMemory> {
    match byte {
        b'\n' => out.push_str("\\n")?,
        b'\\' => out.push_str("\\\\")?,
        32..=126 => out.push(char::from(byte))?,
        _ => write!(out, "\\x{byte:02x}")?,
    }
    Ok(())
}

/// Writes bytes as such a text.
pub fn write_text(out: &mut String, bytes: &[u8]) -> Result<(), NoMemory> {
    for byte in bytes {
        write_byte(out, *byte)?;
    }
    Ok(())
}
