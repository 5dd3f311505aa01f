//! Which number a value is, by its metric's type code (pmLookupDesc(3)).
ghost use Rattle.std.specs.Prelude.{◌≡◌, IfSome};
ghost use Rattle.log_summary.specs.Numbers.{IsLong, word_number, number_in, block_number};

use pcp_base::be64;

/// The number that a value of 32 bits in its set is.
pub fn word_number(code: Option<u32>, word: u32) -> Option<i128>
    ensures value { result ≡ word_number code word }
    ensures range { IfSome result IsLong }
{
    match code {
        Some(0) => Some(word.cast_signed() as i128),
        Some(1) => Some(word as i128),
        _ => None,
    }
}

// The big-endian number of 64 bits, if the bytes are one.
fn number_in(bytes: &[u8]) -> Option<u64>
    ensures { result ≡ number_in bytes.now }
{
    if bytes.len() == 8 {
        be64(bytes, 0)
    } else {
        None
    }
}

/// The number that a value in a block is.
pub fn block_number(code: Option<u32>, bytes: &[u8]) -> Option<i128>
    ensures value { result ≡ block_number code bytes.now }
    ensures range { IfSome result IsLong }
{
    let number = number_in(bytes)?;
    match code {
        Some(2) => Some(number.cast_signed() as i128),
        Some(3) => Some(number as i128),
        _ => None,
    }
}
