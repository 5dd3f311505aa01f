//! The lines of a text, one by one.
ghost use Rattle.std.specs.Prelude.{MatchOption};
ghost use Rattle.text_lines.specs.Lines.{IsUnended, IsSplit};

use memchr::memchr;

/// The first line without its line feed, and the bytes behind it; `None` where there is no line feed.
pub fn split_line(bytes: &[u8]) -> Option<(&[u8], &[u8])>
    ensures { MatchOption result (IsUnended bytes.now) (λ parts. IsSplit bytes.now parts.0.now parts.1.now) }
{
    let Some(at) = memchr(b'\n', bytes) else {
        return None;
    };
    let (line, rest) = bytes.split_at(at);
    match rest {
        [_, rest @ ..] => Some((line, rest)),
        [] => None,
    }
}
