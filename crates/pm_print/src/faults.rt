//! The line of each fault of an image or of a text.
ghost use Rattle.std.specs.Prelude.{◌≡◌, IfOk, string_bytes};
ghost use Rattle.pm_print.specs.FaultLines.{image_line, fault_words, text_line};

use mmv_layout::ImageFault;
use mmv_writer::{BuildFault, LineFault};
use pcp_base::{Bytes, List, NoMemory};
use std::alloc::{AllocError, Global};

#[tactic(auto, unfolding(crate::specs::FaultLines::image_line))]
fn image_line(alloc: Global, fault: &ImageFault) -> Result<String, AllocError>
    ensures { IfOk result (λ line. string_bytes line ≡ image_line fault.now) }
{
    match fault {
        ImageFault::Short { have } => format!(in alloc; "input image Short {have}\n"),
        ImageFault::TooLarge { words } => format!(in alloc; "input image TooLarge {words}\n"),
        ImageFault::Magic => format!(in alloc; "input image Magic\n"),
        ImageFault::Version { found } => format!(in alloc; "input image Version {found}\n"),
        ImageFault::Generations { g1, g2 } => {
            format!(in alloc; "input image Generations {g1} {g2}\n")
        }
        ImageFault::Section { kind } => format!(in alloc; "input image Section {kind}\n"),
        ImageFault::Offset { at } => format!(in alloc; "input image Offset {at}\n"),
        ImageFault::Name { at } => format!(in alloc; "input image Name {at}\n"),
        ImageFault::Kind { at } => format!(in alloc; "input image Kind {at}\n"),
        ImageFault::Reference { at } => format!(in alloc; "input image Reference {at}\n"),
        ImageFault::Duplicate { at } => format!(in alloc; "input image Duplicate {at}\n"),
        ImageFault::Serial { at } => format!(in alloc; "input image Serial {at}\n"),
        ImageFault::NoMemory => Ok(String::new(alloc)),
    }
}

/// The line of an image's fault, `input image FAULT` with the fault's fields.
pub fn image_fault_text(alloc: Global, fault: &ImageFault) -> Result<Bytes, NoMemory>
    ensures { IfOk result (λ line. line ≡ image_line fault.now) }
{
    let line = image_line(alloc, fault)?;
    Ok(List::from_vec(line.into_bytes()))
}

#[tactic(auto, unfolding(crate::specs::FaultLines::fault_words))]
fn fault_words(alloc: Global, fault: &LineFault) -> Result<String, AllocError>
    ensures { IfOk result (λ words. string_bytes words ≡ fault_words fault.now) }
{
    match fault {
        LineFault::Grammar => format!(in alloc; "Grammar\n"),
        LineFault::Condition => format!(in alloc; "Condition\n"),
        LineFault::Build(BuildFault::Name) => format!(in alloc; "Name\n"),
        LineFault::Build(BuildFault::Duplicate) => format!(in alloc; "Duplicate\n"),
        LineFault::Build(BuildFault::Unknown { serial }) => format!(in alloc; "Unknown {serial}\n"),
        LineFault::Build(BuildFault::Serial) => format!(in alloc; "Serial\n"),
        LineFault::Build(BuildFault::Item) => format!(in alloc; "Item\n"),
        LineFault::Build(BuildFault::TooLarge { words }) => format!(in alloc; "TooLarge {words}\n"),
        LineFault::Build(BuildFault::NoMemory) => Ok(String::new(alloc)),
    }
}

/// The line of the fault of a layout text's line, `input line LINE FAULT` with the fault's fields; of a fault of the
/// builder the inner fault is told.
#[tactic(auto, unfolding(crate::specs::FaultLines::text_line))]
pub fn line_fault_text(alloc: Global, line: u64, fault: &LineFault) -> Result<Bytes, NoMemory>
    ensures { IfOk result (λ text. text ≡ text_line line fault.now) }
{
    let words = fault_words(alloc, fault)?;
    let words = words.as_str();
    let text = format!(in alloc; "input line {line} {words}")?;
    Ok(List::from_vec(text.into_bytes()))
}
