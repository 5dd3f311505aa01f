//! The fields of records: words of 4 bytes.
ghost use Rattle.std.specs.Prelude.{◌≡◌, ◌+◌, ◌++◌, length, OnOk};
ghost use Rattle.pcp_model.specs.Words.{word, signed_word};

use byteorder::{BigEndian, ByteOrder};
use pcp_base::NoMemory;

/// Adds a word of 4 bytes, big-endian.
#[tactic(auto, unfolding(crate::specs::Words::word))]
pub fn put_word(out: &mut Vec<u8>, number: u32) -> Result<(), NoMemory>
    ensures bytes { OnOk result (out.new.items ≡ out.old.items ++ word number) }
    ensures grows { OnOk result (length out.new.items ≡ length out.old.items + 4) }
{
    let mut word = [0; 4];
    BigEndian::write_u32(&mut word, number);
    out.extend_from_slice(&word)?;
    Ok(())
}

/// Adds a signed word of 4 bytes, in two's complement.
#[tactic(auto, unfolding(crate::specs::Words::signed_word))]
pub fn put_signed(out: &mut Vec<u8>, number: i32) -> Result<(), NoMemory>
    ensures bytes { OnOk result (out.new.items ≡ out.old.items ++ signed_word number) }
    ensures grows { OnOk result (length out.new.items ≡ length out.old.items + 4) }
{
    let mut word = [0; 4];
    BigEndian::write_i32(&mut word, number);
    out.extend_from_slice(&word)?;
    Ok(())
}
