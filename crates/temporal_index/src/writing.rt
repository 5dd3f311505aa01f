//! The one spelling of an entry.
ghost use Rattle.std.specs.Prelude.{◌≡◌, ◌+◌, ◌<◌, ◌≤◌, List, ◌++◌, length, take, drop, OnOk};
ghost use Rattle.pcp_model.specs.Words.{word};
ghost use Rattle.pcp_model.specs.Records.{entry as spelled, FitsEntry};

use byteorder::{BigEndian, ByteOrder};
use pcp_base::NoMemory;
use pcp_model::Entry;

/// The number of bytes in an entry.
pub const ENTRY: usize = 20;

/// Writes a word of 4 bytes, big-endian, over those from an offset on.
#[tactic(auto, unfolding(pcp_model::specs::Words::word))]
fn put_word(out: &mut [u8; ENTRY], at: usize, number: u32)
    requires { at + 4 ≤ 20 }
    ensures { out.new ≡ take at out.old ++ (word number ++ drop (at + 4) out.old) }
{
    let mut word = [0; 4];
    BigEndian::write_u32(&mut word, number);
    out[at..at + 4].copy_from_slice(&word);
}

/// The bytes of an entry. They are read again as this entry where its volume and both offsets are below 2^31.
pub fn entry_bytes(entry: &Entry) -> [u8; ENTRY]
    ensures bytes { result ≡ spelled entry.now }
    // What was written is read again: each number is in its range.
    ensures range { entry.now.volume < 2147483648 → entry.now.meta < 2147483648 → entry.now.offset < 2147483648 → FitsEntry entry.now }
{
    let mut out = [0; ENTRY];
    put_word(&mut out, 0, entry.stamp.sec());
    put_word(&mut out, 4, entry.stamp.usec());
    put_word(&mut out, 8, entry.volume);
    put_word(&mut out, 12, entry.meta);
    put_word(&mut out, 16, entry.offset);
    out
}

/// Puts an entry behind what the buffer holds. Its volume and both offsets are below 2^31.
pub fn put_entry(out: &mut Vec<u8>, entry: &Entry) -> Result<(), NoMemory>
    requires volume { entry.now.volume < 2147483648 }
    requires meta { entry.now.meta < 2147483648 }
    requires offset { entry.now.offset < 2147483648 }
    ensures bytes { OnOk result (out.new.items ≡ out.old.items ++ spelled entry.now) }
    ensures length { OnOk result (length out.new.items ≡ length out.old.items + 20) }
    // What was written is read again: each number is in its range.
    ensures range { OnOk result (FitsEntry entry.now) }
{
    let bytes = entry_bytes(entry);
    out.extend_from_slice(&bytes)?;
    Ok(())
}
