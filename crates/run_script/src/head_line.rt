//! A line of a script's head.
ghost use Rattle.std.specs.Prelude.{◌≡◌, IfOk};
ghost use Rattle.text_lines.specs.Words.{Read};
ghost use Rattle.run_script.specs.HeadLines.{image_line, region_line, start_line, head_line};

use crate::line_words::take_count;
use crate::lines::HeadLine;
use pcp_base::NoMemory;
use std::alloc::Global;
use text_lines::{Rest, TakeFault, split_word, take_name};

#[tactic(auto, unfolding(crate::specs::HeadLines::image_line))]
fn image_line(alloc: Global, bytes: &[u8]) -> Result<HeadLine, TakeFault>
    ensures { Read (image_line bytes.now) result }
{
    let mut rest = Rest::new(bytes);
    let name = take_name(alloc, &mut rest)?;
    rest.end()?;
    Ok(HeadLine::Image(name))
}

#[tactic(auto, unfolding(crate::specs::HeadLines::region_line))]
fn region_line(alloc: Global, bytes: &[u8]) -> Result<HeadLine, TakeFault>
    ensures { Read (region_line bytes.now) result }
{
    let mut rest = Rest::new(bytes);
    let file = take_name(alloc, &mut rest)?;
    let image = take_name(alloc, &mut rest)?;
    let capacity = take_count(&mut rest)?;
    let passes = take_count(&mut rest)?;
    rest.end()?;
    Ok(HeadLine::Region {
        file,
        image,
        capacity,
        passes,
    })
}

#[tactic(auto, unfolding(crate::specs::HeadLines::start_line))]
fn start_line(bytes: &[u8]) -> Result<HeadLine, TakeFault>
    ensures { Read (start_line bytes.now) result }
{
    let rest = Rest::new(bytes);
    rest.end()?;
    Ok(HeadLine::Start)
}

#[tactic(auto, unfolding(crate::specs::HeadLines::head_line))]
fn head_line(alloc: Global, bytes: &[u8]) -> Result<HeadLine, TakeFault>
    ensures { Read (head_line bytes.now) result }
{
    let (word, left) = split_word(bytes);
    if word == b"image".as_slice() {
        return image_line(alloc, left);
    }
    if word == b"region".as_slice() {
        return region_line(alloc, left);
    }
    if word == b"log".as_slice() {
        return Ok(HeadLine::Log);
    }
    if word == b"start".as_slice() {
        return start_line(left);
    }
    Err(TakeFault::NoLine)
}

/// The line of a script's head, which is without its line feed; `None` exactly where no such line has these bytes. What
/// stands behind the word `log` isn't looked at.
pub fn read_head_line(alloc: Global, line: &[u8]) -> Result<Option<HeadLine>, NoMemory>
    ensures { IfOk result (λ found. found ≡ head_line line.now) }
{
    match head_line(alloc, line) {
        Ok(found) => Ok(Some(found)),
        Err(TakeFault::NoLine) => Ok(None),
        Err(TakeFault::NoMemory) => Err(NoMemory),
    }
}
