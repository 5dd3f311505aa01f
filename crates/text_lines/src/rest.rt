//! What is left of a line, from which its parts are taken.
ghost use Rattle.std.specs.Prelude.{◌≡◌, ◌≤◌, length, drop, MatchResult, Some, IfOk};
ghost use Rattle.text_lines.specs.Numbers.{number32, number64, int32, hex_number};
ghost use Rattle.pcp_base.specs.Texts.{IsText};
ghost use Rattle.text_lines.specs.Words.{Taken, Read, text_within, text_in_quotes, take_text, starts_missing, take_help, IsStopped, take_space, word_length, first_word, behind_word, take_word, take_as, optional, whole_line};

use crate::numbers;
use crate::quoted::{starts_quoted, text_byte};
use pcp_base::{Bytes, NoMemory, Text};
use std::alloc::{AllocError, Global};
use std::error::Error;
use std::fmt;
use std::marker::Model;

/// Why nothing was taken: the bytes are no line, or memory was refused.
#[derive(Clone, Copy, Debug)]
pub enum TakeFault {
    NoLine,
    NoMemory,
}

impl fmt::Display for TakeFault {
    fn fmt<W: fmt::Write>(&self, f: &mut fmt::Formatter<W>) -> fmt::Result {
        f.write_str(match self {
            TakeFault::NoLine => "no line",
            TakeFault::NoMemory => "out of memory",
        })
    }
}

impl Error for TakeFault {}

impl From<NoMemory> for TakeFault {
    ghost use Rattle.text_lines.specs.declared.rest.TakeFault.TheVariants.{NoMemory as Refused};

    ghost from_gives = { λ _ e. e ≡ Refused };

    fn from(_error: NoMemory) -> TakeFault {
        TakeFault::NoMemory
    }
}

impl From<AllocError> for TakeFault {
    ghost use Rattle.text_lines.specs.declared.rest.TakeFault.TheVariants.{NoMemory as Refused};

    ghost from_gives = { λ _ e. e ≡ Refused };

    fn from(_error: AllocError) -> TakeFault {
        TakeFault::NoMemory
    }
}

/// The bytes of a line that are left.
#[derive(Drop)]
pub struct Rest<'a> {
    bytes: &'a [u8],
}

impl<'a> Model for Rest<'a> {
    ghost use Rattle.std.specs.Prelude.{List, ℕ};

    ghost Value = { List ℕ };

    ghost view = { λ a. a.bytes.now };
}

// How many bytes stand before the first space.
fn word_length(bytes: &[u8]) -> usize
    ensures value { result ≡ word_length bytes.now }
    ensures range { result ≤ length bytes.now }
{
    let mut count = 0;
    for byte in bytes {
        if *byte == b' ' {
            return count;
        }
        count += 1;
    }
    count
}

// The bytes behind the first.
fn behind_first(bytes: &[u8]) -> &[u8]
    ensures { result.now ≡ drop 1 bytes.now }
{
    match bytes {
        [_, rest @ ..] => rest,
        [] => bytes,
    }
}

/// The bytes before the first space, and the others.
#[tactic(auto, unfolding(crate::specs::Words::first_word, crate::specs::Words::behind_word))]
pub fn split_word(bytes: &[u8]) -> (&[u8], &[u8])
    ensures word { result.0.now ≡ first_word bytes.now }
    ensures behind { result.1.now ≡ behind_word bytes.now }
{
    bytes.split_at(word_length(bytes))
}

impl<'a> Rest<'a> {
    /// All of a line behind its first word.
    pub fn new(bytes: &'a [u8]) -> Rest<'a>
        ensures { result ≡ bytes.now }
    {
        Rest { bytes }
    }

    /// The bytes that are left.
    pub fn bytes(&self) -> &'a [u8]
        ensures { result.now ≡ self.now }
    {
        self.bytes
    }

    /// One space.
    pub fn space(&mut self) -> Result<(), TakeFault>
        ensures { Taken (take_space self.old) result self.new }
    {
        let [first, rest @ ..] = self.bytes else {
            return Err(TakeFault::NoLine);
        };
        if *first != b' ' {
            return Err(TakeFault::NoLine);
        }
        self.bytes = rest;
        Ok(())
    }

    /// The bytes up to the next space, behind one space.
    #[tactic(auto, unfolding(crate::specs::Words::take_word))]
    pub fn word(&mut self) -> Result<&'a [u8], TakeFault>
        ensures { MatchResult result (λ word. take_word self.old ≡ Some (word.now, self.new)) (IsStopped (take_word self.old)) }
    {
        self.space()?;
        let (word, rest) = split_word(self.bytes);
        self.bytes = rest;
        Ok(word)
    }

    /// A number of 32 bits.
    #[tactic(auto, unfolding(crate::specs::Words::take_as))]
    pub fn number32(&mut self) -> Result<u32, TakeFault>
        ensures { Taken (take_as number32 self.old) result self.new }
    {
        let word = self.word()?;
        let number = numbers::number32(word).ok_or(TakeFault::NoLine)?;
        Ok(number)
    }

    /// A number of 64 bits.
    #[tactic(auto, unfolding(crate::specs::Words::take_as))]
    pub fn number64(&mut self) -> Result<u64, TakeFault>
        ensures { Taken (take_as number64 self.old) result self.new }
    {
        let word = self.word()?;
        let number = numbers::number64(word).ok_or(TakeFault::NoLine)?;
        Ok(number)
    }

    /// A signed number of 32 bits.
    #[tactic(auto, unfolding(crate::specs::Words::take_as))]
    pub fn int32(&mut self) -> Result<i32, TakeFault>
        ensures { Taken (take_as int32 self.old) result self.new }
    {
        let word = self.word()?;
        let number = numbers::int32(word).ok_or(TakeFault::NoLine)?;
        Ok(number)
    }

    /// A number of 32 bits, or `-` for none.
    #[tactic(auto, unfolding(crate::specs::Words::take_as, crate::specs::Words::optional))]
    pub fn optional_number(&mut self) -> Result<Option<u32>, TakeFault>
        ensures { Taken (take_as (optional number32) self.old) result self.new }
    {
        let word = self.word()?;
        if word == b"-".as_slice() {
            return Ok(None);
        }
        let number = numbers::number32(word).ok_or(TakeFault::NoLine)?;
        Ok(Some(number))
    }

    /// A signed number of 32 bits, or `-` for none.
    #[tactic(auto, unfolding(crate::specs::Words::take_as, crate::specs::Words::optional))]
    pub fn optional_int(&mut self) -> Result<Option<i32>, TakeFault>
        ensures { Taken (take_as (optional int32) self.old) result self.new }
    {
        let word = self.word()?;
        if word == b"-".as_slice() {
            return Ok(None);
        }
        let number = numbers::int32(word).ok_or(TakeFault::NoLine)?;
        Ok(Some(number))
    }

    /// A number in 16 hexadecimal digits.
    #[tactic(auto, unfolding(crate::specs::Words::take_as))]
    pub fn wide_hex(&mut self) -> Result<u64, TakeFault>
        ensures { Taken (take_as (hex_number 16) self.old) result self.new }
    {
        let word = self.word()?;
        let number = numbers::hex_number(16, word).ok_or(TakeFault::NoLine)?;
        Ok(number)
    }

    // The bytes of a text up to its closing quote, fewer than `limit`.
    #[tactic(auto, using(crate::proofs::Quoting::behind_nothing))]
    fn unquoted(&mut self, alloc: Global, limit: usize) -> Result<Bytes, TakeFault>
        ensures text { Taken (text_within limit self.old) result self.new }
        ensures zero { IfOk result IsText }
    {
        let mut rest = self.bytes;
        let mut text = Bytes::empty(alloc);
        for _ in 0..limit {
            if starts_quoted(rest) {
                self.bytes = behind_first(rest);
                return Ok(text);
            }
            let Some((byte, behind)) = text_byte(rest) else {
                return Err(TakeFault::NoLine);
            };
            text.push(byte)?;
            rest = behind;
        }
        Err(TakeFault::NoLine)
    }

    /// A text between quotes.
    #[tactic(auto, unfolding(crate::specs::Words::text_in_quotes))]
    pub fn text_in_quotes(&mut self, alloc: Global) -> Result<Text, TakeFault>
        ensures { Taken (text_in_quotes self.old) result self.new }
    {
        if !starts_quoted(self.bytes) {
            return Err(TakeFault::NoLine);
        }
        let limit = self.bytes.len();
        self.bytes = &self.bytes[1..];
        let bytes = self.unquoted(alloc, limit)?;
        Ok(Text::of_clean(bytes))
    }

    /// A text between quotes, behind one space.
    #[tactic(auto, unfolding(crate::specs::Words::take_text))]
    pub fn text(&mut self, alloc: Global) -> Result<Text, TakeFault>
        ensures { Taken (take_text self.old) result self.new }
    {
        self.space()?;
        let text = self.text_in_quotes(alloc)?;
        Ok(text)
    }

    /// A text between quotes or the `-` of none, behind one space.
    #[tactic(auto, unfolding(crate::specs::Words::take_help))]
    pub fn help(&mut self, alloc: Global) -> Result<Option<Text>, TakeFault>
        ensures { Taken (take_help self.old) result self.new }
    {
        self.space()?;
        if starts_missing(self.bytes) {
            self.bytes = &self.bytes[1..];
            return Ok(None);
        }
        let text = self.text_in_quotes(alloc)?;
        Ok(Some(text))
    }

    /// That nothing is left.
    pub fn end(&self) -> Result<(), TakeFault>
        ensures { Read (whole_line self.now tt) result }
    {
        if !self.bytes.is_empty() {
            return Err(TakeFault::NoLine);
        }
        Ok(())
    }
}

// Whether the bytes begin with `-`.
fn starts_missing(bytes: &[u8]) -> bool
    ensures { result ≡ starts_missing bytes.now }
{
    let [first, ..] = bytes else {
        return false;
    };
    *first == b'-'
}
