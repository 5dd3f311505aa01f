//! What a single byte may be in a configuration.

ghost use Rattle.std.specs.Prelude.{◌≡◌};
ghost use Rattle.pcp_base.specs.Names.{is_letter as letter_lem, is_name_byte as name_byte_lem};
ghost use Rattle.log_schedule.specs.Configuration.{is_between as between_lem, is_blank as blank_lem, is_digit as digit_lem};

/// Whether the byte is a space or a line feed.
pub fn is_blank(byte: u8) -> bool
    ensures { result ≡ blank_lem byte }
{
    byte == b' ' || byte == b'\n'
}

/// Whether the byte may stand between names.
pub fn is_between(byte: u8) -> bool
    ensures { result ≡ between_lem byte }
{
    is_blank(byte) || byte == b','
}

/// Whether a component of a name may begin with the byte.
pub fn is_letter(byte: u8) -> bool
    ensures { result ≡ letter_lem byte }
{
    (byte >= b'A' && byte <= b'Z') || (byte >= b'a' && byte <= b'z')
}

/// Whether the byte is a decimal digit.
pub fn is_digit(byte: u8) -> bool
    ensures { result ≡ digit_lem byte }
{
    byte >= b'0' && byte <= b'9'
}

/// Whether a component of a name may go on with the byte.
pub fn is_name_byte(byte: u8) -> bool
    ensures { result ≡ name_byte_lem byte }
{
    is_letter(byte) || is_digit(byte) || byte == b'_'
}
