//! Quoted texts of a line.
ghost use Rattle.std.specs.Prelude.{◌≡◌, ◌<◌, ◌≢◌, length, IfSome, MatchOption, Some, None};
ghost use Rattle.text_lines.specs.Words.{starts_quoted, is_plain, hex_byte, escaped_byte, text_byte};

use crate::numbers::{hex_digit, is_low_hex};

/// Whether the bytes begin with a quote.
pub fn starts_quoted(bytes: &[u8]) -> bool
    ensures { result ≡ starts_quoted bytes.now }
{
    let [first, ..] = bytes else {
        return false;
    };
    *first == b'"'
}

/// Whether a byte stands for itself in a quoted text.
pub fn is_plain(byte: u8) -> bool
    ensures { result ≡ is_plain byte }
{
    matches!(byte, b' '..=b'~') && byte != b'"' && byte != b'\\'
}

// The byte of two hexadecimal digits of lower case, other than 00, and the bytes behind them.
fn hex_byte(bytes: &[u8]) -> Option<(u8, &[u8])>
    ensures value { MatchOption result (hex_byte bytes.now ≡ None) (λ r. hex_byte bytes.now ≡ Some (r.0, r.1.now)) }
    ensures range { IfSome result (λ r. 0 < r.0) }
{
    let [high, low, rest @ ..] = bytes else {
        return None;
    };
    if !is_low_hex(*high) || !is_low_hex(*low) {
        return None;
    }
    if *high == b'0' && *low == b'0' {
        return None;
    }
    Some((16 * hex_digit(*high) + hex_digit(*low), rest))
}

// The byte that stands behind a backslash, and the bytes behind it.
fn escaped_byte(bytes: &[u8]) -> Option<(u8, &[u8])>
    ensures value { MatchOption result (escaped_byte bytes.now ≡ None) (λ r. escaped_byte bytes.now ≡ Some (r.0, r.1.now)) }
    ensures range { IfSome result (λ r. 0 < r.0) }
{
    let [first, rest @ ..] = bytes else {
        return None;
    };
    if *first == b'"' || *first == b'\\' {
        return Some((*first, rest));
    }
    if *first == b'x' {
        return hex_byte(rest);
    }
    None
}

/// The first byte of what is left of a quoted text, and the bytes behind its spelling.
#[tactic(auto, unfolding(crate::specs::Words::text_byte))]
pub fn text_byte(bytes: &[u8]) -> Option<(u8, &[u8])>
    ensures value { MatchOption result (text_byte bytes.now ≡ None) (λ r. text_byte bytes.now ≡ Some (r.0, r.1.now)) }
    ensures range { IfSome result (λ r. 0 < r.0) }
{
    let [first, rest @ ..] = bytes else {
        return None;
    };
    if *first == b'\\' {
        return escaped_byte(rest);
    }
    if is_plain(*first) {
        return Some((*first, rest));
    }
    None
}
