//! Numbers as words of a line.
ghost use Rattle.std.specs.Prelude.{◌≡◌, ◌≤◌, ◌<◌, length, true, IfSome, ◌^◌, Option, Some, None, if◌then◌else◌};
ghost use Rattle.std.specs.List.{list_all};
ghost use Rattle.text_lines.specs.Numbers.{is_digit, number_of, digits_number, number32, number64, whole_number, int_of, int32, is_low_hex, is_hex, hex_digit, hex_number};

fn is_decimal_digit(byte: u8) -> bool
    ensures { result ≡ is_digit byte }
{
    matches!(byte, b'0'..=b'9')
}

// The number that digits spell, if all are digits.
fn read_digits(digits: &[u8]) -> Option<u128>
    requires { length digits.now ≤ 20 }
    ensures value { result ≡ digits_number digits.now }
    ensures range { IfSome result (λ n. n < 10 ^ 20) }
{
    let mut number = 0;
    for digit in digits {
        if !is_decimal_digit(*digit) {
            return None;
        }
        number = 10 * number + u128::from(*digit - b'0');
    }
    Some(number)
}

/// The number that a word spells: `0`, or a digit from 1 to 9 and further digits, of at most 20.
pub fn read_number(word: &[u8]) -> Option<u128>
    ensures value { result ≡ number_of word.now }
    ensures range { IfSome result (λ n. n < 10 ^ 20) }
{
    let [first, rest @ ..] = word else {
        return None;
    };
    if *first == b'0' {
        return if rest.is_empty() { Some(0) } else { None };
    }
    if word.len() > 20 {
        return None;
    }
    read_digits(word)
}

/// The number of a word, below 2^32.
#[tactic(auto, unfolding(crate::specs::Numbers::number32))]
pub fn number32(word: &[u8]) -> Option<u32>
    ensures { result ≡ number32 word.now }
{
    let number = read_number(word)?;
    if number >= 1 << 32 {
        return None;
    }
    Some(number as u32)
}

/// The number of a word, below 2^64.
#[tactic(auto, unfolding(crate::specs::Numbers::number64))]
pub fn number64(word: &[u8]) -> Option<u64>
    ensures { result ≡ number64 word.now }
{
    let number = read_number(word)?;
    if number >= 1 << 64 {
        return None;
    }
    Some(number as u64)
}

/// The whole number of a word, before whose digits a `-` may stand; `-0` is 0.
#[tactic(auto, unfolding(crate::specs::Numbers::whole_number))]
pub fn whole_number(word: &[u8]) -> Option<i128>
    ensures { result ≡ whole_number word.now }
{
    let [first, rest @ ..] = word else {
        return None;
    };
    if *first == b'-' {
        let magnitude = read_number(rest)?;
        return Some(-(magnitude as i128));
    }
    let number = read_number(word)?;
    Some(number as i128)
}

// A whole number, if 32 bits hold it.
fn int_of(number: i128) -> Option<i32>
    ensures { result ≡ int_of number }
{
    if number >= 2147483648 {
        return None;
    }
    if number <= -2147483649 {
        return None;
    }
    Some(number as i32)
}

/// The whole number of a word, of 32 bits and its sign.
#[tactic(auto, unfolding(crate::specs::Numbers::int32))]
pub fn int32(word: &[u8]) -> Option<i32>
    ensures { result ≡ int32 word.now }
{
    let number = whole_number(word)?;
    int_of(number)
}

/// Whether the byte is a hexadecimal digit of lower case.
pub fn is_low_hex(byte: u8) -> bool
    ensures { result ≡ is_low_hex byte }
{
    is_decimal_digit(byte) || matches!(byte, b'a'..=b'f')
}

fn is_hex(byte: u8) -> bool
    ensures { result ≡ is_hex byte }
{
    is_low_hex(byte) || matches!(byte, b'A'..=b'F')
}

/// The value of a hexadecimal digit.
pub fn hex_digit(byte: u8) -> u8
    requires { is_hex byte ≡ true }
    ensures value { result ≡ hex_digit byte }
    ensures range { result < 16 }
{
    match byte {
        b'0'..=b'9' => byte - b'0',
        b'A'..=b'F' => byte - b'A' + 10,
        _ => byte - b'a' + 10,
    }
}

/// The number of a word of exactly so many hexadecimal digits.
#[tactic(auto, unfolding(crate::specs::Numbers::hex_number))]
pub fn hex_number(count: usize, word: &[u8]) -> Option<u64>
    requires { count ≤ 16 }
    ensures value { result ≡ hex_number count word.now }
    ensures range { IfSome result (λ n. n < 16 ^ count) }
{
    if word.len() != count {
        return None;
    }
    let mut number: u64 = 0;
    for digit in word {
        if !is_hex(*digit) {
            return None;
        }
        number = 16 * number + hex_digit(*digit) as u64;
    }
    Some(number)
}
