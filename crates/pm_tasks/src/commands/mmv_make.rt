//! The command `mmv-make`: a layout text becomes an image.
ghost use Rattle.pm_tasks.specs.Conversions.{Converts};
ghost use Rattle.pm_tasks.specs.commands.mmv_make.{refuses, makes};

use mmv_writer::{ReadTextError, read_text};
use pcp_base::Bytes;
use pm_print::image_bytes;
use pm_words::Refusal;
use std::alloc::Global;

/// The image of a layout text, as bytes.
pub fn mmv_make(alloc: Global, input: &[u8]) -> Result<Bytes, Refusal>
    ensures converts { Converts refuses makes input.now result }
{
    match read_text(alloc, input) {
        Ok(image) => {
            let bytes = image_bytes(alloc, &image)?;
            Ok(bytes)
        }
        Err(ReadTextError::Fault(fault)) => Err(Refusal::Line(fault)),
        Err(ReadTextError::NoMemory) => Err(Refusal::NoMemory),
    }
}
