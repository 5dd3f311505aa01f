//! An image as its layout text and as its bytes.
ghost use Rattle.std.specs.Prelude.{◌≡◌, ◌++◌, IfOk, OnOk};
ghost use Rattle.std.specs.Int.{w64, to_le_bytes};
ghost use Rattle.pm_print.specs.Bytes.{bytes_of};
ghost use Rattle.pm_print.specs.Dumps.{dump_of};

use byteorder::{ByteOrder, LittleEndian};
use mmv_layout::Image;
use pcp_base::{Bytes, List, NoMemory};
use std::alloc::{AllocError, Global};
use text_lines::layout_text;

/// The layout text of an image: all strings, each domain with its instances, the metrics, then the values, in the
/// order of their sections. `i32` and `u32` values are written by the low 32 bits of their value field.
#[tactic(auto, unfolding(crate::specs::Dumps::dump_of))]
pub fn image_text(alloc: Global, image: &Image) -> Result<Bytes, NoMemory>
    ensures { IfOk result (λ text. text ≡ dump_of image.now) }
{
    let layout = image.layout(alloc)?;
    let text = layout_text(alloc, &layout)?;
    Ok(text)
}

// Adds the bytes of a word, the low byte first.
fn put_word(bytes: &mut Vec<u8>, word: u64) -> Result<(), AllocError>
    ensures { OnOk result (bytes.new.items ≡ bytes.old.items ++ to_le_bytes w64 word) }
{
    let mut eight = [0; 8];
    LittleEndian::write_u64(&mut eight, word);
    bytes.extend_from_slice(&eight)
}

// The bytes of words, the low byte of each first.
#[tactic(auto, unfolding(crate::specs::Bytes::bytes_of))]
fn bytes_of(alloc: Global, words: &[u64]) -> Result<Vec<u8>, AllocError>
    ensures { IfOk result (λ bytes. bytes.items ≡ bytes_of words.now) }
{
    let mut bytes = Vec::new(alloc);
    for word in words {
        put_word(&mut bytes, *word)?;
    }
    Ok(bytes)
}

/// The bytes of an image, the low byte of each word first.
pub fn image_bytes(alloc: Global, image: &Image) -> Result<Bytes, NoMemory>
    ensures { IfOk result (λ bytes. bytes ≡ bytes_of image.now) }
{
    let bytes = bytes_of(alloc, image.words())?;
    Ok(List::from_vec(bytes))
}
