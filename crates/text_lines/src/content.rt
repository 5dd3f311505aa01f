//! What written content means for a metric's kind.
ghost use Rattle.std.specs.Prelude.{◌≡◌, ◌≤◌, ◌<◌, ◌*◌, IfOk};
ghost use Rattle.text_lines.specs.Contents.{number_in_range, number_as, text_as, raw_as, content_of, signed_number, written_number, written_of};

use crate::layout_line::Written;
use mmv_layout::Content;
use pcp_base::{Duplicate, Kind, NoMemory, Text};
use std::alloc::Global;

// The value field of a number from `-low` to `high`: its 64 bits of two's complement.
fn number_in_range(low: u64, high: u64, number: i128) -> Option<Content>
    ensures { result ≡ number_in_range low high number }
{
    if number < 0 {
        let past = (-1 - number) as u128;
        if past >= low as u128 {
            return None;
        }
        return Some(Content::Number(u64::MAX - past as u64));
    }
    let magnitude = number as u128;
    if magnitude > high as u128 {
        return None;
    }
    Some(Content::Number(magnitude as u64))
}

fn number_as(kind: Kind, number: i128) -> Option<Content>
    ensures { result ≡ number_as kind number }
{
    match kind {
        Kind::I32 => number_in_range(2_147_483_648, 2_147_483_647, number),
        Kind::U32 => number_in_range(0, 4_294_967_295, number),
        Kind::I64 => number_in_range(9_223_372_036_854_775_808, 9_223_372_036_854_775_807, number),
        Kind::U64 => number_in_range(0, 18_446_744_073_709_551_615, number),
        Kind::Float => None,
        Kind::Double => None,
        Kind::Text => None,
        Kind::Elapsed => None,
    }
}

fn text_as(kind: Kind, text: Text) -> Option<Content>
    ensures { result ≡ text_as kind text }
{
    match kind {
        Kind::Text => Some(Content::Choice(text)),
        _ => None,
    }
}

fn raw_as(kind: Kind, value: u64, extra: u64) -> Option<Content>
    ensures { result ≡ raw_as kind value extra }
{
    match kind {
        Kind::Float => Some(Content::Raw(value, extra)),
        Kind::Double => Some(Content::Raw(value, extra)),
        Kind::Elapsed => Some(Content::Raw(value, extra)),
        _ => None,
    }
}

/// The content that a value of this kind has by what is written of it: a number in the kind's range as the 64 bits of
/// the value field, a text, or the two fields of the other kinds. `None` exactly where it isn't of the kind or in its
/// range.
pub fn content_of(kind: Kind, written: Written) -> Option<Content>
    ensures { result ≡ content_of kind written }
{
    match written {
        Written::Number(number) => number_as(kind, number),
        Written::Quoted(text) => text_as(kind, text),
        Written::Raw(value, extra) => raw_as(kind, value, extra),
    }
}

// A number of two's complement, by half of how many there are.
fn signed_number(half: u64, number: u64) -> Written
    requires { number < 2 * half }
    ensures { result ≡ signed_number half number }
{
    if number < half {
        return Written::Number(number as i128);
    }
    Written::Number(number as i128 - 2 * half as i128)
}

fn written_number(kind: Kind, number: u64) -> Written
    ensures { result ≡ written_number kind number }
{
    match kind {
        Kind::I32 => signed_number(2_147_483_648, number % 4_294_967_296),
        Kind::U32 => Written::Number((number % 4_294_967_296) as i128),
        Kind::I64 => signed_number(9_223_372_036_854_775_808, number),
        _ => Written::Number(number as i128),
    }
}

/// What is written of a value of this kind: `i32` and `u32` by the low 32 bits of the value field, `i64` and `u64` by
/// all 64, a text, or the two fields of the other kinds. A number of another kind is written as a `u64`.
pub fn written_of(alloc: Global, kind: Kind, content: &Content) -> Result<Written, NoMemory>
    ensures { IfOk result (λ written. written ≡ written_of kind content.now) }
{
    match content {
        Content::Number(number) => Ok(written_number(kind, *number)),
        Content::Choice(text) => {
            let copy = text.copy(alloc)?;
            Ok(Written::Quoted(copy))
        }
        Content::Raw(value, extra) => Ok(Written::Raw(*value, *extra)),
    }
}
