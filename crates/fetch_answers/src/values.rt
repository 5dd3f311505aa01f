//! The values of a metric as a set shows them (pmFetch(3)).
ghost use Rattle.std.specs.Prelude.{◌≡◌, ◌++◌, flat_map, IfOk, OnOk};
ghost use Rattle.fetch_answers.specs.Bounds.{FitsContent};
ghost use Rattle.fetch_answers.specs.Numbers.{content_at, contents_at};
ghost use Rattle.fetch_answers.specs.Values.{block_of, bytes_of, blocks_of, shown_block, shown_word, body_of_values, word_of, words_of};

use crate::index::RowNumbers;
use byteorder::{BigEndian, ByteOrder};
use mmv_layout::{
    Content, STRING_SIZE, extra_in_value, metric_of, text_at, type_in_metric, value_at,
    value_in_value,
};
use pcp_base::{Block, Body, Bytes, Kind, List, NoMemory};
use profile_filter::Choice;
use std::alloc::Global;

/// The content of the value in a row, by the type of its metric.
#[tactic(auto, using(crate::proofs::Bounds::fits_at), unfolding(mmv_layout::specs::Rows::content_of))]
fn content_at(alloc: Global, words: &[u64], number: u32) -> Result<Content, NoMemory>
    ensures value { IfOk result (λ content. content ≡ content_at words.now number) }
    ensures fits { IfOk result FitsContent }
{
    let value = value_at(words, number);
    let code = type_in_metric(words, metric_of(words, value) as u128);
    let (number, extra) = (value_in_value(words, value), extra_in_value(words, value));
    if code <= 3 {
        return Ok(Content::Number(number));
    }
    if code != 6 {
        return Ok(Content::Raw(number, extra));
    }
    let text = text_at(alloc, words, extra as u128, STRING_SIZE as u32)?;
    Ok(Content::Choice(text))
}

/// The low 32 bits of a number.
fn word_of(content: &Content) -> u32
    ensures { result ≡ word_of content.now }
{
    match content {
        Content::Number(number) => (*number % 4_294_967_296) as u32,
        Content::Choice(_) | Content::Raw(_, _) => 0,
    }
}

/// A number's 8 bytes, the highest first, or a text and a zero byte.
fn bytes_of(alloc: Global, content: &Content) -> Result<Bytes, NoMemory>
    ensures { IfOk result (λ bytes. bytes ≡ bytes_of content.now) }
{
    match content {
        Content::Number(number) => {
            let mut bytes = [0; 8];
            BigEndian::write_u64(&mut bytes, *number);
            Ok(List::from_vec(bytes.to_vec(alloc)?))
        }
        Content::Choice(text) => {
            let mut bytes = text.as_slice().to_vec(alloc)?;
            bytes.push(0)?;
            Ok(List::from_vec(bytes))
        }
        Content::Raw(_, _) => Ok(List::empty(alloc)),
    }
}

/// The block of a value.
#[tactic(auto, using(crate::proofs::Blocks::short_bytes))]
fn block_of(alloc: Global, code: u8, content: &Content) -> Result<Block, NoMemory>
    requires { FitsContent content.now }
    ensures { IfOk result (λ block. block ≡ block_of code content.now) }
{
    let bytes = bytes_of(alloc, content)?;
    // A text of an image and its zero byte are at most 257 bytes, and a block holds 16,777,211.
    let Some(block) = Block::build(code, bytes) else {
        unreachable!()
    };
    Ok(block)
}

/// Adds the word of the value in a row, if the profile keeps it.
fn push_word(
    alloc: Global,
    pairs: &mut List<(i32, u32)>,
    choice: &Choice<'_>,
    instance: i32,
    words: &[u64],
    number: u32,
) -> Result<(), NoMemory>
    ensures { OnOk result (pairs.new ≡ pairs.old ++ shown_word choice.now.settings choice.now.indom (instance, content_at words.now number)) }
{
    if !choice.keeps(instance) {
        return Ok(());
    }
    let content = content_at(alloc, words, number)?;
    pairs.push((instance, word_of(&content)))
}

/// Adds the block of the value in a row, if the profile keeps it.
fn push_block(
    alloc: Global,
    pairs: &mut List<(i32, Block)>,
    choice: &Choice<'_>,
    code: u8,
    instance: i32,
    words: &[u64],
    number: u32,
) -> Result<(), NoMemory>
    ensures { OnOk result (pairs.new ≡ pairs.old ++ shown_block choice.now.settings choice.now.indom code (instance, content_at words.now number)) }
{
    if !choice.keeps(instance) {
        return Ok(());
    }
    let content = content_at(alloc, words, number)?;
    let block = block_of(alloc, code, &content)?;
    pairs.push((instance, block))
}

/// The words of the values that the profile keeps.
fn shown_words(
    alloc: Global,
    choice: &Choice<'_>,
    words: &[u64],
    numbers: &RowNumbers,
) -> Result<List<(i32, u32)>, NoMemory>
    ensures { IfOk result (λ pairs. pairs ≡ flat_map (shown_word choice.now.settings choice.now.indom) (contents_at words.now numbers.now.entries)) }
{
    let mut pairs = List::empty(alloc);
    for (instance, number) in numbers {
        push_word(alloc, &mut pairs, choice, *instance, words, *number)?;
    }
    Ok(pairs)
}

/// The blocks of the values that the profile keeps.
fn shown_blocks(
    alloc: Global,
    choice: &Choice<'_>,
    code: u8,
    words: &[u64],
    numbers: &RowNumbers,
) -> Result<List<(i32, Block)>, NoMemory>
    ensures { IfOk result (λ pairs. pairs ≡ flat_map (shown_block choice.now.settings choice.now.indom code) (contents_at words.now numbers.now.entries)) }
{
    let mut pairs = List::empty(alloc);
    for (instance, number) in numbers {
        push_block(alloc, &mut pairs, choice, code, *instance, words, *number)?;
    }
    Ok(pairs)
}

fn words_of(
    alloc: Global,
    choice: &Choice<'_>,
    words: &[u64],
    numbers: &RowNumbers,
) -> Result<Body, NoMemory>
    ensures { IfOk result (λ body. body ≡ words_of choice.now.settings choice.now.indom (contents_at words.now numbers.now.entries)) }
{
    let pairs = shown_words(alloc, choice, words, numbers)?;
    if pairs.is_empty() {
        return Ok(Body::Status(0));
    }
    Ok(Body::InPlace(pairs))
}

fn blocks_of(
    alloc: Global,
    choice: &Choice<'_>,
    code: u8,
    words: &[u64],
    numbers: &RowNumbers,
) -> Result<Body, NoMemory>
    ensures { IfOk result (λ body. body ≡ blocks_of choice.now.settings choice.now.indom code (contents_at words.now numbers.now.entries)) }
{
    let pairs = shown_blocks(alloc, choice, code, words, numbers)?;
    if pairs.is_empty() {
        return Ok(Body::Status(0));
    }
    Ok(Body::Blocks(pairs))
}

/// The set's body of a metric's kind, with the values in these rows of an image.
pub fn body_of_values(
    alloc: Global,
    kind: Kind,
    choice: &Choice<'_>,
    words: &[u64],
    numbers: &RowNumbers,
) -> Result<Body, NoMemory>
    ensures { IfOk result (λ body. body ≡ body_of_values kind choice.now.settings choice.now.indom (contents_at words.now numbers.now.entries)) }
{
    match kind {
        Kind::I32 | Kind::U32 => words_of(alloc, choice, words, numbers),
        Kind::I64 => blocks_of(alloc, choice, 2, words, numbers),
        Kind::U64 => blocks_of(alloc, choice, 3, words, numbers),
        Kind::Text => blocks_of(alloc, choice, 6, words, numbers),
        Kind::Float | Kind::Double | Kind::Elapsed => Ok(Body::Status(-12362)),
    }
}
