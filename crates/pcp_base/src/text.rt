//! Texts without a zero byte, by which formats end them.

ghost use Rattle.std.specs.Prelude.{◌≡◌, IfOk, MatchResult};
ghost use Rattle.pcp_base.specs.Texts.{IsText, IsTextError};
ghost use Rattle.pcp_base.specs.declared.text.TextError.TheVariants.{NoMemory as Refused};

use crate::duplicate::Duplicate;
use crate::list::Bytes;
use crate::memory::NoMemory;
use std::alloc::{AllocError, Global};
use std::error::Error;
use std::fmt;
use std::marker::Model;

/// Bytes without a zero byte, as names and texts are in archives and images.
#[derive(Drop)]
pub struct Text {
    bytes: Bytes,
}

/// The first zero byte stands at the offset `at`.
#[derive(Clone, Copy, Debug)]
pub struct Zero {
    pub at: u64,
}

/// Why bytes made no text.
#[derive(Clone, Copy, Debug)]
pub enum TextError {
    Zero(Zero),
    NoMemory,
}

impl fmt::Display for TextError {
    fn fmt<W: fmt::Write>(&self, f: &mut fmt::Formatter<W>) -> fmt::Result {
        f.write_str(match self {
            TextError::Zero(..) => "a text has a zero byte",
            TextError::NoMemory => "out of memory",
        })
    }
}

impl Error for TextError {}

impl From<AllocError> for TextError {
    ghost from_gives = { λ _ e. e ≡ Refused };

    fn from(_error: AllocError) -> TextError {
        TextError::NoMemory
    }
}

impl Model for Text {
    ghost use Rattle.std.specs.Prelude.{List as Sequence, ℕ};
    ghost use Rattle.pcp_base.specs.Texts.{IsText};

    ghost Value = { Sequence ℕ };

    ghost view = { λ a. a.bytes };

    ghost invariant = { λ a. IsText a.bytes };
}

impl Text {
    /// The text of these bytes; `Zero` exactly where there is a zero byte, at the first.
    pub fn build(alloc: Global, bytes: &[u8]) -> Result<Text, TextError>
        ensures { MatchResult result (λ t. IsText bytes.now × (t ≡ bytes.now)) (IsTextError bytes.now) }
    {
        if let Some(at) = bytes.iter().position(|byte| *byte == 0) {
            return Err(TextError::Zero(Zero { at: at as u64 }));
        }
        Ok(Text {
            bytes: Bytes::from_vec(Vec::from_slice(alloc, bytes)?),
        })
    }

    /// The text of bytes that are known to have no zero byte.
    pub fn of_clean(bytes: Bytes) -> Text
        requires { IsText bytes }
        ensures { result ≡ bytes }
    {
        Text { bytes }
    }

    /// The text of a copy of bytes that are known to have no zero byte.
    pub fn clean_copy(alloc: Global, bytes: &[u8]) -> Result<Text, NoMemory>
        requires { IsText bytes.now }
        ensures { IfOk result (λ text. text ≡ bytes.now) }
    {
        Ok(Text::of_clean(Bytes::from_vec(Vec::from_slice(alloc, bytes)?)))
    }

    /// The bytes, none of them zero.
    pub fn as_slice(&self) -> &[u8]
        ensures value { result.now ≡ self.now }
        ensures text { IsText self.now }
    {
        self.bytes.as_slice()
    }
}

impl Duplicate for Text {
    fn copy(&self, alloc: Global) -> Result<Self, NoMemory> {
        let bytes = self.bytes.copy(alloc)?;
        Ok(Text { bytes })
    }
}
