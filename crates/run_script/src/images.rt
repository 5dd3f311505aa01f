//! The lines of an image in a script's head.
ghost use Rattle.std.specs.Prelude.{◌≡◌, ◌<◌, length, OnOk};
ghost use Rattle.text_lines.specs.LayoutLines.{line_of};
ghost use Rattle.mmv_writer.specs.Spelling.{image_words};
ghost use Rattle.mmv_writer.specs.Reading.{with_head};
ghost use Rattle.run_script.specs.Names.{Tells, Keeps};
ghost use Rattle.run_script.specs.Reading.{Goes, in_image, with_image, with_image_line};

use crate::fault::LineStop;
use crate::names::keep;
use crate::said::{Said, Stage};
use mmv_writer::{Builder, LineError, take_head, take_line};
use pcp_base::Text;
use std::alloc::Global;
use std::collections::BTreeMap;

/// The first line of an image, which is without its line feed.
pub fn take_first_line(
    alloc: Global,
    said: &Said,
    name: Text,
    line: &[u8],
) -> Result<Stage, LineStop>
    ensures { Goes (in_image name said.now (with_head (line_of line.now))) said.now result }
{
    let builder = take_head(alloc, line)?;
    Ok(Stage::Image(name, builder))
}

// Adds a whole image.
#[tactic(auto, using(crate::proofs::NamePositions::image_kept), unfolding(crate::specs::Reading::with_image))]
fn add_image(
    alloc: Global,
    said: &mut Said,
    names: &mut BTreeMap<Vec<u8>, u32>,
    name: Text,
    builder: Builder,
) -> Result<Stage, LineStop>
    requires { length said.now.images < 4294967296 }
    ensures step { Goes (with_image name said.old (image_words builder)) said.new result }
    ensures kept { OnOk result (Keeps names.old said.old names.new said.new) }
{
    let image = match builder.finish(alloc) {
        Ok(image) => image,
        Err((_, fault)) => return Err(LineStop::from(LineError::from(fault))),
    };
    keep(alloc, names, &name, said.images.len() as u32)?;
    said.images.push((name, image))?;
    Ok(Stage::Head)
}

/// A line among those of an image, which is without its line feed.
#[tactic(auto, using(crate::proofs::NamePositions::stays), unfolding(crate::specs::Reading::with_image_line))]
pub fn take_image_line(
    alloc: Global,
    said: &mut Said,
    names: &mut BTreeMap<Vec<u8>, u32>,
    name: Text,
    builder: Builder,
    line: &[u8],
) -> Result<Stage, LineStop>
    requires { length said.now.images < 4294967296 }
    ensures step { Goes (with_image_line name builder said.old line.now) said.new result }
    ensures kept { OnOk result (Keeps names.old said.old names.new said.new) }
{
    if line == b"end".as_slice() {
        return add_image(alloc, said, names, name, builder);
    }
    let mut builder = builder;
    take_line(alloc, &mut builder, line)?;
    Ok(Stage::Image(name, builder))
}
