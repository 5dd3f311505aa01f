//! A value by the type code of its metric's description, if it has one.
ghost use Rattle.std.specs.Prelude.{◌≡◌, ◌++◌, Some, None, decimal, OnOk, MatchOption};
ghost use Rattle.std.specs.Fmt.{signed_decimal};
ghost use Rattle.std.specs.Int.{w32, to_be_bytes};
ghost use Rattle.pm_print.specs.Values.{hex_bytes, raw_text, before_zero, quoted_or, number_in, signed_or, number_or, word_text, block_text};
ghost use Rattle.std.specs.List.{list_all};
ghost use Rattle.text_lines.specs.Spelling.{escapes, quoted_text};
ghost use Rattle.text_lines.specs.Words.{is_plain};

use byteorder::{BigEndian, ByteOrder};
use itoa::Buffer;
use memchr::memchr;
use pcp_base::{NoMemory, be64};
use text_lines::{put_escapes, put_hex};

/// A number in decimal.
pub fn put_decimal(out: &mut Vec<u8>, number: u64) -> Result<(), NoMemory>
    ensures { OnOk result (out.new.items ≡ out.old.items ++ decimal number) }
{
    let mut buffer = Buffer::new();
    out.extend_from_slice(buffer.format(number).as_bytes())?;
    Ok(())
}

/// A signed number in decimal.
pub fn put_signed(out: &mut Vec<u8>, number: i64) -> Result<(), NoMemory>
    ensures { OnOk result (out.new.items ≡ out.old.items ++ signed_decimal number) }
{
    let mut buffer = Buffer::new();
    out.extend_from_slice(buffer.format(number).as_bytes())?;
    Ok(())
}

// Whether a byte stands for itself between quotes.
fn is_plain(byte: u8) -> bool
    ensures { result ≡ is_plain byte }
{
    matches!(byte, b' '..=b'~') && byte != b'"' && byte != b'\\'
}

// Whether each byte does.
fn are_plain(text: &[u8]) -> bool
    ensures { result ≡ list_all is_plain text.now }
{
    for byte in text {
        if !is_plain(*byte) {
            return false;
        }
    }
    true
}

/// The bytes of a text as they stand between quotes, all at once where each stands for itself.
pub fn put_spelled(out: &mut Vec<u8>, text: &[u8]) -> Result<(), NoMemory>
    ensures { OnOk result (out.new.items ≡ out.old.items ++ escapes text.now) }
{
    if !are_plain(text) {
        return put_escapes(out, text);
    }
    out.extend_from_slice(text)?;
    Ok(())
}

fn put_hex_bytes(out: &mut Vec<u8>, bytes: &[u8]) -> Result<(), NoMemory>
    ensures { OnOk result (out.new.items ≡ out.old.items ++ hex_bytes bytes.now) }
{
    for byte in bytes {
        put_hex(out, 2, *byte as u64)?;
    }
    Ok(())
}

// Bytes as they stand, in hexadecimal.
#[tactic(auto, unfolding(crate::specs::Values::raw_text))]
fn put_raw(out: &mut Vec<u8>, bytes: &[u8]) -> Result<(), NoMemory>
    ensures { OnOk result (out.new.items ≡ out.old.items ++ raw_text bytes.now) }
{
    out.extend_from_slice(b"0x")?;
    put_hex_bytes(out, bytes)?;
    Ok(())
}

// A text in quotes.
#[tactic(auto, unfolding(text_lines::specs::Spelling::quoted_text))]
fn put_quoted(out: &mut Vec<u8>, text: &[u8]) -> Result<(), NoMemory>
    ensures { OnOk result (out.new.items ≡ out.old.items ++ quoted_text text.now) }
{
    out.push(b'"')?;
    put_spelled(out, text)?;
    out.push(b'"')?;
    Ok(())
}

// What stands before the zero byte that ends a text.
fn text_in(bytes: &[u8]) -> Option<&[u8]>
    ensures { MatchOption result (before_zero bytes.now ≡ None) (λ text. before_zero bytes.now ≡ Some text.now) }
{
    match memchr(0, bytes) {
        Some(at) => {
            if at + 1 == bytes.len() {
                Some(&bytes[..at])
            } else {
                None
            }
        }
        None => None,
    }
}

// A text up to the zero byte that ends it, or else the bytes.
fn put_ended(out: &mut Vec<u8>, bytes: &[u8]) -> Result<(), NoMemory>
    ensures { OnOk result (out.new.items ≡ out.old.items ++ quoted_or (before_zero bytes.now) bytes.now) }
{
    match text_in(bytes) {
        Some(text) => put_quoted(out, text),
        None => put_raw(out, bytes),
    }
}

// The bytes of a word.
fn put_raw_word(out: &mut Vec<u8>, word: u32) -> Result<(), NoMemory>
    ensures { OnOk result (out.new.items ≡ out.old.items ++ raw_text (to_be_bytes w32 word)) }
{
    let mut bytes = [0; 4];
    BigEndian::write_u32(&mut bytes, word);
    put_raw(out, &bytes)
}

/// A value of 32 bits in its set.
#[tactic(auto, unfolding(crate::specs::Values::word_text))]
pub fn put_word(out: &mut Vec<u8>, code: Option<u32>, word: u32) -> Result<(), NoMemory>
    ensures { OnOk result (out.new.items ≡ out.old.items ++ word_text code word) }
{
    match code {
        Some(0) => put_signed(out, word.cast_signed() as i64),
        Some(1) => put_decimal(out, word as u64),
        _ => put_raw_word(out, word),
    }
}

// A number of 64 bits, if the bytes are one.
fn number_in(bytes: &[u8]) -> Option<u64>
    ensures { result ≡ number_in bytes.now }
{
    if bytes.len() == 8 {
        be64(bytes, 0)
    } else {
        None
    }
}

// A signed number of 64 bits, or else the bytes.
fn put_signed_block(out: &mut Vec<u8>, bytes: &[u8]) -> Result<(), NoMemory>
    ensures { OnOk result (out.new.items ≡ out.old.items ++ signed_or (number_in bytes.now) bytes.now) }
{
    match number_in(bytes) {
        Some(number) => put_signed(out, number.cast_signed()),
        None => put_raw(out, bytes),
    }
}

// A number of 64 bits, or else the bytes.
fn put_number_block(out: &mut Vec<u8>, bytes: &[u8]) -> Result<(), NoMemory>
    ensures { OnOk result (out.new.items ≡ out.old.items ++ number_or (number_in bytes.now) bytes.now) }
{
    match number_in(bytes) {
        Some(number) => put_decimal(out, number),
        None => put_raw(out, bytes),
    }
}

/// A value in a block.
#[tactic(auto, unfolding(crate::specs::Values::block_text))]
pub fn put_block(out: &mut Vec<u8>, code: Option<u32>, bytes: &[u8]) -> Result<(), NoMemory>
    ensures { OnOk result (out.new.items ≡ out.old.items ++ block_text code bytes.now) }
{
    match code {
        Some(2) => put_signed_block(out, bytes),
        Some(3) => put_number_block(out, bytes),
        Some(6) => put_ended(out, bytes),
        _ => put_raw(out, bytes),
    }
}
