//! The one spelling of a label.
ghost use Rattle.std.specs.Prelude.{◌≡◌, ◌+◌, ◌≤◌, ◌≤ℤ◌, negsuc, length};
ghost use Rattle.pcp_base.specs.Time.{IsMoment};
ghost use Rattle.pcp_model.specs.Words.{word};
ghost use Rattle.pcp_model.specs.Labels.{label as spelled};
ghost use Rattle.archive_frame.specs.Labels.{LabelInRange};
ghost use Rattle.archive_frame.specs.Overwritten.{over};

use byteorder::{BigEndian, ByteOrder};
use pcp_model::Label;

/// The number of bytes in a label.
pub const LABEL: usize = 132;

/// Writes bytes over those from an offset on.
fn put(out: &mut [u8; LABEL], at: usize, bytes: &[u8])
    requires { at + length bytes.now ≤ 132 }
    ensures { out.new ≡ over out.old at bytes.now }
{
    out[at..at + bytes.len()].copy_from_slice(bytes);
}

/// Writes a word of 4 bytes, big-endian, over those from an offset on.
fn put_word(out: &mut [u8; LABEL], at: usize, number: u32)
    requires { at + 4 ≤ 132 }
    ensures { out.new ≡ over out.old at (word number) }
{
    let mut word = [0; 4];
    BigEndian::write_u32(&mut word, number);
    put(out, at, &word);
}

/// The label of the file with this number: -1 Meta, -2 the index, else the volume's.
pub fn label_bytes(label: &Label, volume: i32) -> [u8; LABEL]
    requires { negsuc 1 ≤ℤ volume }
    ensures bytes { result ≡ spelled label.now volume }
    ensures moment { IsMoment label.now.start }
    // What was written is read again: each number fits its word, and the texts their fields.
    ensures range { LabelInRange label.now volume }
{
    let mut out = [0; LABEL];
    put_word(&mut out, 0, 132);
    put_word(&mut out, 4, 0x5005_2602);
    put_word(&mut out, 8, label.pid());
    put_word(&mut out, 12, label.start().sec());
    put_word(&mut out, 16, label.start().usec());
    put_word(&mut out, 20, volume.cast_unsigned());
    put(&mut out, 24, label.host().as_slice());
    put(&mut out, 88, label.zone().as_slice());
    put_word(&mut out, 128, 132);
    out
}
