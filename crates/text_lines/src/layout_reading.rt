//! Each line from the bytes behind its first word.
ghost use Rattle.std.specs.Prelude.{◌≡◌, IfOk};
ghost use Rattle.text_lines.specs.Words.{Read};
ghost use Rattle.text_lines.specs.LayoutLines.{mmv_line, string_line, indom_line, instance_line, metric_line, number_content, raw_content, quoted_content, words_content, last_content, value_line, line_of};

use crate::layout_line::{Line, Written};
use crate::layout_words::{take_kind, take_semantics, take_units};
use crate::names::take_name;
use crate::numbers::{hex_number, whole_number};
use crate::quoted::starts_quoted;
use crate::rest::{Rest, TakeFault, split_word};
use mmv_layout::MetricRow;
use pcp_base::NoMemory;
use std::alloc::Global;

#[tactic(auto, unfolding(crate::specs::LayoutLines::mmv_line))]
fn mmv_line(bytes: &[u8]) -> Result<Line, TakeFault>
    ensures { Read (mmv_line bytes.now) result }
{
    let mut rest = Rest::new(bytes);
    let version = rest.number32()?;
    let generation = rest.number64()?;
    let flags = rest.number32()?;
    let pid = rest.number32()?;
    let cluster = rest.number32()?;
    rest.end()?;
    Ok(Line::Mmv {
        version,
        generation,
        flags,
        pid,
        cluster,
    })
}

#[tactic(auto, unfolding(crate::specs::LayoutLines::string_line))]
fn string_line(alloc: Global, bytes: &[u8]) -> Result<Line, TakeFault>
    ensures { Read (string_line bytes.now) result }
{
    let mut rest = Rest::new(bytes);
    let text = rest.text(alloc)?;
    rest.end()?;
    Ok(Line::String(text))
}

#[tactic(auto, unfolding(crate::specs::LayoutLines::indom_line))]
fn indom_line(alloc: Global, bytes: &[u8]) -> Result<Line, TakeFault>
    ensures { Read (indom_line bytes.now) result }
{
    let mut rest = Rest::new(bytes);
    let serial = rest.number32()?;
    let short = rest.help(alloc)?;
    let long = rest.help(alloc)?;
    rest.end()?;
    Ok(Line::Indom {
        serial,
        short,
        long,
    })
}

#[tactic(auto, unfolding(crate::specs::LayoutLines::instance_line))]
fn instance_line(alloc: Global, bytes: &[u8]) -> Result<Line, TakeFault>
    ensures { Read (instance_line bytes.now) result }
{
    let mut rest = Rest::new(bytes);
    let serial = rest.number32()?;
    let id = rest.int32()?;
    let name = rest.text(alloc)?;
    rest.end()?;
    Ok(Line::Instance { serial, id, name })
}

#[tactic(auto, unfolding(crate::specs::LayoutLines::metric_line))]
fn metric_line(alloc: Global, bytes: &[u8]) -> Result<Line, TakeFault>
    ensures { Read (metric_line bytes.now) result }
{
    let mut rest = Rest::new(bytes);
    let name = take_name(alloc, &mut rest)?;
    let item = rest.number32()?;
    let kind = take_kind(&mut rest)?;
    let semantics = take_semantics(&mut rest)?;
    let units = take_units(&mut rest)?;
    let serial = rest.optional_number()?;
    let short = rest.help(alloc)?;
    let long = rest.help(alloc)?;
    rest.end()?;
    Ok(Line::Metric(MetricRow {
        name,
        item,
        kind,
        semantics,
        units,
        serial,
        short,
        long,
    }))
}

#[tactic(auto, unfolding(crate::specs::LayoutLines::number_content))]
fn number_content(word: &[u8]) -> Result<Written, TakeFault>
    ensures { Read (number_content word.now) result }
{
    let number = whole_number(word).ok_or(TakeFault::NoLine)?;
    Ok(Written::Number(number))
}

#[tactic(auto, unfolding(crate::specs::LayoutLines::raw_content))]
fn raw_content(word: &[u8], left: &[u8]) -> Result<Written, TakeFault>
    ensures { Read (raw_content word.now left.now) result }
{
    let mut rest = Rest::new(left);
    let value = hex_number(16, word).ok_or(TakeFault::NoLine)?;
    let extra = rest.wide_hex()?;
    rest.end()?;
    Ok(Written::Raw(value, extra))
}

#[tactic(auto, unfolding(crate::specs::LayoutLines::quoted_content))]
fn quoted_content(alloc: Global, bytes: &[u8]) -> Result<Written, TakeFault>
    ensures { Read (quoted_content bytes.now) result }
{
    let mut rest = Rest::new(bytes);
    let text = rest.text_in_quotes(alloc)?;
    rest.end()?;
    Ok(Written::Quoted(text))
}

#[tactic(auto, unfolding(crate::specs::LayoutLines::words_content))]
fn words_content(bytes: &[u8]) -> Result<Written, TakeFault>
    ensures { Read (words_content bytes.now) result }
{
    let (word, left) = split_word(bytes);
    if left.is_empty() {
        return number_content(word);
    }
    raw_content(word, left)
}

#[tactic(auto, unfolding(crate::specs::LayoutLines::last_content))]
fn last_content(alloc: Global, bytes: &[u8]) -> Result<Written, TakeFault>
    ensures { Read (last_content bytes.now) result }
{
    let mut rest = Rest::new(bytes);
    rest.space()?;
    if starts_quoted(rest.bytes()) {
        return quoted_content(alloc, rest.bytes());
    }
    words_content(rest.bytes())
}

#[tactic(auto, unfolding(crate::specs::LayoutLines::value_line))]
fn value_line(alloc: Global, bytes: &[u8]) -> Result<Line, TakeFault>
    ensures { Read (value_line bytes.now) result }
{
    let mut rest = Rest::new(bytes);
    let item = rest.number32()?;
    let instance = rest.optional_int()?;
    let content = last_content(alloc, rest.bytes())?;
    Ok(Line::Value {
        item,
        instance,
        content,
    })
}

#[tactic(auto, unfolding(crate::specs::LayoutLines::line_of))]
fn line_of(alloc: Global, bytes: &[u8]) -> Result<Line, TakeFault>
    ensures { Read (line_of bytes.now) result }
{
    let (word, left) = split_word(bytes);
    if word == b"mmv".as_slice() {
        return mmv_line(left);
    }
    if word == b"string".as_slice() {
        return string_line(alloc, left);
    }
    if word == b"indom".as_slice() {
        return indom_line(alloc, left);
    }
    if word == b"instance".as_slice() {
        return instance_line(alloc, left);
    }
    if word == b"metric".as_slice() {
        return metric_line(alloc, left);
    }
    if word == b"value".as_slice() {
        return value_line(alloc, left);
    }
    Err(TakeFault::NoLine)
}

/// The line of these bytes, which are without their line feed; `None` exactly where no line has them.
pub fn read_line(alloc: Global, line: &[u8]) -> Result<Option<Line>, NoMemory>
    ensures { IfOk result (λ found. found ≡ line_of line.now) }
{
    match line_of(alloc, line) {
        Ok(found) => Ok(Some(found)),
        Err(TakeFault::NoLine) => Ok(None),
        Err(TakeFault::NoMemory) => Err(NoMemory),
    }
}
