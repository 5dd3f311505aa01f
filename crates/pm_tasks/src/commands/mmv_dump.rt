//! The command `mmv-dump`: an image becomes its layout text.
ghost use Rattle.pm_tasks.specs.Conversions.{Converts};
ghost use Rattle.pm_tasks.specs.commands.mmv_dump.{refuses, makes};

use mmv_layout::{Image, ImageFault};
use pcp_base::Bytes;
use pm_print::image_text;
use pm_words::Refusal;
use std::alloc::Global;

/// The layout text of an image.
pub fn mmv_dump(alloc: Global, input: &[u8]) -> Result<Bytes, Refusal>
    ensures converts { Converts refuses makes input.now result }
{
    match Image::from_bytes(alloc, input) {
        Ok(image) => {
            let text = image_text(alloc, &image)?;
            Ok(text)
        }
        Err(ImageFault::NoMemory) => Err(Refusal::NoMemory),
        Err(fault) => Err(Refusal::Image(fault)),
    }
}
