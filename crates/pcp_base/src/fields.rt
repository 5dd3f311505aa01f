//! Readers of words of 4 and 8 bytes at an offset: archives and PDUs are big-endian, images little-endian.

ghost use Rattle.std.specs.Prelude.{◌≡◌};
ghost use Rattle.std.specs.Int.{w32, w64};
ghost use Rattle.pcp_base.specs.Fields.{be_field, le_field};

use byteorder::{BigEndian, ByteOrder, LittleEndian};

/// The big-endian word of 4 bytes at the offset `at`; `None` exactly where it doesn't lie in the bytes.
#[tactic(auto, using(crate::proofs::Orders::big_four))]
pub fn be32(bytes: &[u8], at: usize) -> Option<u32>
    ensures { result ≡ be_field w32 at bytes.now }
{
    if bytes.len() < 4 || bytes.len() - 4 < at {
        return None;
    }
    Some(BigEndian::read_u32(&bytes[at..at + 4]))
}

/// The big-endian word of 8 bytes at the offset `at`; `None` exactly where it doesn't lie in the bytes.
#[tactic(auto, using(crate::proofs::Orders::big_eight))]
pub fn be64(bytes: &[u8], at: usize) -> Option<u64>
    ensures { result ≡ be_field w64 at bytes.now }
{
    if bytes.len() < 8 || bytes.len() - 8 < at {
        return None;
    }
    Some(BigEndian::read_u64(&bytes[at..at + 8]))
}

/// The little-endian word of 4 bytes at the offset `at`; `None` exactly where it doesn't lie in the bytes.
#[tactic(auto, using(crate::proofs::Orders::little_four))]
pub fn le32(bytes: &[u8], at: usize) -> Option<u32>
    ensures { result ≡ le_field w32 at bytes.now }
{
    if bytes.len() < 4 || bytes.len() - 4 < at {
        return None;
    }
    Some(LittleEndian::read_u32(&bytes[at..at + 4]))
}

/// The little-endian word of 8 bytes at the offset `at`; `None` exactly where it doesn't lie in the bytes.
#[tactic(auto, using(crate::proofs::Orders::little_eight))]
pub fn le64(bytes: &[u8], at: usize) -> Option<u64>
    ensures { result ≡ le_field w64 at bytes.now }
{
    if bytes.len() < 8 || bytes.len() - 8 < at {
        return None;
    }
    Some(LittleEndian::read_u64(&bytes[at..at + 8]))
}
