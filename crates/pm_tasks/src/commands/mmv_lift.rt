//! The command `mmv-lift`: an image becomes one of version 2.
ghost use Rattle.std.specs.Prelude.{◌≡◌, ◌⊎◌, Err};
ghost use Rattle.mmv_layout.specs.Faults.{image_of};
ghost use Rattle.pm_tasks.specs.Conversions.{Converts};
ghost use Rattle.pm_tasks.specs.commands.mmv_lift.{lifted_of, refuses, makes};

use mmv_layout::{Image, ImageFault};
use mmv_writer::lift;
use pcp_base::Bytes;
use pm_print::image_bytes;
use pm_words::Refusal;
use std::alloc::Global;

// The image of version 2 that says what the image of an input says.
fn lift_input(alloc: Global, input: &[u8]) -> Result<Image, ImageFault>
    ensures { (result ≡ Err ImageFault.NoMemory) ⊎ (result ≡ lifted_of (image_of input.now)) }
{
    let image = Image::from_bytes(alloc, input)?;
    lift(alloc, &image)
}

/// The image of version 2 that says what an image says, as bytes.
pub fn mmv_lift(alloc: Global, input: &[u8]) -> Result<Bytes, Refusal>
    ensures converts { Converts refuses makes input.now result }
{
    match lift_input(alloc, input) {
        Ok(image) => {
            let bytes = image_bytes(alloc, &image)?;
            Ok(bytes)
        }
        Err(ImageFault::NoMemory) => Err(Refusal::NoMemory),
        Err(fault) => Err(Refusal::Image(fault)),
    }
}
