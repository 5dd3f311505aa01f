//! A whole layout text as an image, and its lines one by one.
ghost use Rattle.text_lines.specs.LayoutLines.{line_of};
ghost use Rattle.text_lines.specs.Lines.{lines_of};
ghost use Rattle.mmv_writer.specs.Reading.{kind_in, with_written, with_line, with_said, with_head, words_within_limit, text_image, Takes, MakesBuilder, Answers, Adds};

use crate::builder::Builder;
use crate::fault::BuildFault;
use crate::line_fault::{LineError, LineFault, ReadTextError, TextFault};
use mmv_layout::{Image, ValueRow};
use std::alloc::Global;
use text_lines::{Line, Written, content_of, read_line, split_line};

// Adds a value of the metric with this item.
fn take_value(
    builder: &mut Builder,
    item: u32,
    instance: Option<i32>,
    written: Written,
) -> Result<(), LineError>
    ensures { Takes (with_written builder.old item instance written (kind_in builder.old.metrics item)) builder.old builder.new result }
{
    let Some(kind) = builder.kind_of(item) else {
        return Err(LineError::Fault(LineFault::Build(BuildFault::Item)));
    };
    let Some(content) = content_of(kind, written) else {
        return Err(LineError::Fault(LineFault::Grammar));
    };
    builder.value(ValueRow {
        item,
        instance,
        content,
    })?;
    Ok(())
}

/// Adds what a line of layout text says; a header's line isn't taken. After a refusal nothing is changed.
#[tactic(auto, unfolding(crate::specs::Reading::with_line))]
pub fn add_line(alloc: Global, builder: &mut Builder, line: Line) -> Result<(), LineError>
    ensures { Takes (with_line builder.old line) builder.old builder.new result }
{
    match line {
        Line::Mmv { .. } => return Err(LineError::Fault(LineFault::Grammar)),
        Line::String(text) => builder.text(text)?,
        Line::Indom {
            serial,
            short,
            long,
        } => builder.indom(alloc, serial, short, long)?,
        Line::Instance { serial, id, name } => builder.instance(alloc, serial, id, name)?,
        Line::Metric(row) => builder.metric(alloc, row)?,
        Line::Value {
            item,
            instance,
            content,
        } => take_value(builder, item, instance, content)?,
    }
    Ok(())
}

/// Adds the row of a line of layout text, which is without its line feed. After a refusal nothing is changed.
#[tactic(auto, unfolding(crate::specs::Reading::with_said))]
pub fn take_line(alloc: Global, builder: &mut Builder, line: &[u8]) -> Result<(), LineError>
    ensures { Takes (with_said builder.old (line_of line.now)) builder.old builder.new result }
{
    let Some(line) = read_line(alloc, line)? else {
        return Err(LineError::Fault(LineFault::Grammar));
    };
    add_line(alloc, builder, line)
}

/// The builder of a text's first line, its header, which is without its line feed.
#[tactic(auto, unfolding(crate::specs::Reading::with_head))]
pub fn take_head(alloc: Global, line: &[u8]) -> Result<Builder, LineError>
    ensures { MakesBuilder (with_head (line_of line.now)) result }
{
    match read_line(alloc, line)? {
        Some(
            Line::Mmv {
                version,
                generation,
                flags,
                pid,
                cluster,
            },
        ) => {
            let builder = Builder::new(alloc, version, generation, flags, pid, cluster)?;
            Ok(builder)
        }
        _ => Err(LineError::Fault(LineFault::Grammar)),
    }
}

// Adds lines, of which the first is line 2, and gives the number of the line after the last.
fn take_lines(alloc: Global, builder: &mut Builder, bytes: &[u8]) -> Result<u64, ReadTextError>
    ensures { Adds (lines_of bytes.now) 2 builder.old builder.new result }
{
    let mut rest = bytes;
    let mut number = 2;
    while !rest.is_empty() {
        let Some((line, behind)) = split_line(rest) else {
            return Err(LineError::Fault(LineFault::Grammar).on(number));
        };
        if let Err(error) = take_line(alloc, builder, line) {
            return Err(error.on(number));
        }
        rest = behind;
        number += 1;
    }
    Ok(number)
}

// The image of a builder, of which the last line stood before this one.
#[tactic(auto, unfolding(crate::specs::Reading::words_within_limit))]
fn image_of(alloc: Global, builder: Builder, after: u64) -> Result<Image, ReadTextError>
    ensures { Answers (words_within_limit builder after) result }
{
    match builder.finish(alloc) {
        Ok(image) => Ok(image),
        Err((_, fault)) => Err(LineError::from(fault).on(after)),
    }
}

/// Reads a whole layout text into the image that its rows have in their one spelling, or tells the first fault in the
/// order of the lines.
#[tactic(auto, unfolding(crate::specs::Reading::text_image, crate::specs::Reading::text_draft, crate::specs::Reading::draft_of, crate::specs::Reading::full_line_of))]
pub fn read_text(alloc: Global, bytes: &[u8]) -> Result<Image, ReadTextError>
    ensures { Answers (text_image bytes.now) result }
{
    let Some((line, rest)) = split_line(bytes) else {
        return Err(LineError::Fault(LineFault::Grammar).on(1));
    };
    let mut builder = match take_head(alloc, line) {
        Ok(builder) => builder,
        Err(error) => return Err(error.on(1)),
    };
    let after = take_lines(alloc, &mut builder, rest)?;
    image_of(alloc, builder, after)
}
