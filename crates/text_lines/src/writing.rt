//! The parts of a line in their one spelling, each behind its space.
ghost use Rattle.std.specs.Prelude.{◌≡◌, ◌++◌, ◌∷◌, [], ◌<◌, ◌≤◌, IfOk, OnOk};
ghost use Rattle.text_lines.specs.Spelling.{hex_glyph, hex_text, escape, escapes, quoted_text, number_part, int_part, text_part, hex_part, optional_number_part, optional_int_part, help_part, one_number};

use crate::quoted::is_plain;
use itoa::Buffer;
use pcp_base::{Bytes, NoMemory, Text};
use std::alloc::Global;

/// The lower case hexadecimal digit of a number.
fn hex_glyph(digit: u8) -> u8
    requires { digit < 16 }
    ensures { result ≡ hex_glyph digit }
{
    if digit < 10 {
        return b'0' + digit;
    }
    b'a' - 10 + digit
}

/// So many hexadecimal digits of a number, the last ones.
#[tactic(auto, unfolding(crate::specs::Spelling::hex_text))]
pub fn put_hex(out: &mut Vec<u8>, count: u32, number: u64) -> Result<(), NoMemory>
    ensures { OnOk result (out.new.items ≡ out.old.items ++ hex_text count number) }
{
    if count == 0 {
        return Ok(());
    }
    put_hex(out, count - 1, number / 16)?;
    out.push(hex_glyph((number % 16) as u8))?;
    Ok(())
}

// A byte of a quoted text.
fn put_escape(out: &mut Vec<u8>, byte: u8) -> Result<(), NoMemory>
    ensures { OnOk result (out.new.items ≡ out.old.items ++ escape byte) }
{
    if byte == b'"' || byte == b'\\' {
        out.extend_from_slice(&[b'\\', byte])?;
        return Ok(());
    }
    if is_plain(byte) {
        out.push(byte)?;
        return Ok(());
    }
    out.extend_from_slice(&[b'\\', b'x', hex_glyph(byte / 16), hex_glyph(byte % 16)])?;
    Ok(())
}

/// The bytes of a text as they stand between quotes.
pub fn put_escapes(out: &mut Vec<u8>, text: &[u8]) -> Result<(), NoMemory>
    ensures { OnOk result (out.new.items ≡ out.old.items ++ escapes text.now) }
{
    for byte in text {
        put_escape(out, *byte)?;
    }
    Ok(())
}

/// A quoted text.
#[tactic(auto, unfolding(crate::specs::Spelling::text_part, crate::specs::Spelling::quoted_text))]
pub fn put_text(out: &mut Vec<u8>, text: &Text) -> Result<(), NoMemory>
    ensures { OnOk result (out.new.items ≡ out.old.items ++ text_part text.now) }
{
    out.extend_from_slice(b" \"")?;
    put_escapes(out, text.as_slice())?;
    out.push(b'"')?;
    Ok(())
}

/// A number in decimal.
#[tactic(auto, unfolding(crate::specs::Spelling::number_part))]
pub fn put_number(out: &mut Vec<u8>, number: u64) -> Result<(), NoMemory>
    ensures { OnOk result (out.new.items ≡ out.old.items ++ number_part number) }
{
    let mut buffer = Buffer::new();
    out.push(b' ')?;
    out.extend_from_slice(buffer.format(number).as_bytes())?;
    Ok(())
}

/// A whole number in decimal, with its sign.
#[tactic(auto, unfolding(crate::specs::Spelling::int_part))]
pub fn put_whole(out: &mut Vec<u8>, number: i128) -> Result<(), NoMemory>
    ensures { OnOk result (out.new.items ≡ out.old.items ++ int_part number) }
{
    let mut buffer = Buffer::new();
    out.push(b' ')?;
    out.extend_from_slice(buffer.format(number).as_bytes())?;
    Ok(())
}

/// The same of 32 bits.
pub fn put_int(out: &mut Vec<u8>, number: i32) -> Result<(), NoMemory>
    ensures { OnOk result (out.new.items ≡ out.old.items ++ int_part number) }
{
    put_whole(out, number as i128)
}

/// A number in so many hexadecimal digits.
#[tactic(auto, unfolding(crate::specs::Spelling::hex_part))]
pub fn put_hex_part(out: &mut Vec<u8>, count: u32, number: u64) -> Result<(), NoMemory>
    ensures { OnOk result (out.new.items ≡ out.old.items ++ hex_part count number) }
{
    out.push(b' ')?;
    put_hex(out, count, number)?;
    Ok(())
}

/// A number, or `-`.
pub fn put_optional_number(out: &mut Vec<u8>, number: Option<u32>) -> Result<(), NoMemory>
    ensures { OnOk result (out.new.items ≡ out.old.items ++ optional_number_part number) }
{
    match number {
        Some(number) => put_number(out, number as u64)?,
        None => out.extend_from_slice(b" -")?,
    }
    Ok(())
}

/// A signed number, or `-`.
pub fn put_optional_int(out: &mut Vec<u8>, number: Option<i32>) -> Result<(), NoMemory>
    ensures { OnOk result (out.new.items ≡ out.old.items ++ optional_int_part number) }
{
    match number {
        Some(number) => put_int(out, number)?,
        None => out.extend_from_slice(b" -")?,
    }
    Ok(())
}

/// A quoted text, or `-`.
pub fn put_help(out: &mut Vec<u8>, help: &Option<Text>) -> Result<(), NoMemory>
    ensures { OnOk result (out.new.items ≡ out.old.items ++ help_part help.now) }
{
    match help {
        Some(text) => put_text(out, text)?,
        None => out.extend_from_slice(b" -")?,
    }
    Ok(())
}

/// A line of a name and a number.
pub fn put_one_number(out: &mut Vec<u8>, name: &[u8], number: u64) -> Result<(), NoMemory>
    ensures { OnOk result (out.new.items ≡ out.old.items ++ one_number name.now number) }
{
    out.extend_from_slice(name)?;
    put_number(out, number)?;
    out.push(b'\n')?;
    Ok(())
}

/// The line of a name and a number.
pub fn one_number_line(alloc: Global, name: &[u8], number: u64) -> Result<Bytes, NoMemory>
    ensures { IfOk result (λ line. line ≡ one_number name.now number) }
{
    let mut line = Vec::new(alloc);
    put_one_number(&mut line, name, number)?;
    Ok(Bytes::from_vec(line))
}
