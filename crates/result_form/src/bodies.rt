//! The pairs of a set, one after another: values in place, and blocks.
ghost use Rattle.std.specs.Prelude.{◌≡◌, ◌∷◌, ◌≤◌, [], length, MatchOption};
ghost use Rattle.std.specs.Int.{w32, cast_signed};
ghost use Rattle.result_form.specs.Shown.{word_in, shown_values, shown_block, shown_blocks};

use crate::words::{behind, front, word_in};
use std::marker::Model;

/// A value that stands in a block of the payload (pmFetch(3)): its type code, and its bytes where they stand.
#[derive(Drop)]
pub struct BlockView<'a> {
    code: u8,
    bytes: &'a [u8],
}

impl<'a> Model for BlockView<'a> {
    ghost use Rattle.std.specs.Prelude.{◌≤◌, length};
    ghost use Rattle.pcp_base.specs.Typed.{TypedBytes};

    ghost Value = { TypedBytes };

    ghost view = { λ a. record { code = a.code; bytes = a.bytes.now } };

    ghost invariant = { λ a. length a.bytes.now ≤ 16777211 };
}

impl<'a> BlockView<'a> {
    /// The type code as it stands beside the bytes; any value may (pmFetch(3)).
    pub fn code(&self) -> u8
        ensures { result ≡ self.now.code }
    {
        self.code
    }

    /// The bytes, at most 16,777,211.
    pub fn bytes(&self) -> &'a [u8]
        ensures value { result.now ≡ self.now.bytes }
        ensures range { length self.now.bytes ≤ 16777211 }
    {
        self.bytes
    }
}

/// The block to which an offset leads.
#[tactic(auto, unfolding(crate::specs::Shown::shown_block))]
fn block_in(payload: &[u8], offset: u32) -> BlockView<'_>
    ensures { result ≡ shown_block payload.now offset }
{
    let begin = offset.saturating_sub(3) as usize * 4;
    let head = word_in(payload, begin);
    let size = (head % 16_777_216).saturating_sub(4);
    BlockView {
        code: (head / 16_777_216) as u8,
        bytes: front(behind(payload, begin + 4), size as usize),
    }
}

/// The instance of a pair.
pub fn instance_in(words: &[u8]) -> i32
    ensures { result ≡ cast_signed w32 (word_in words.now 0) }
{
    word_in(words, 0).cast_signed()
}

/// Values in place, each with its instance, from the next on.
#[derive(Drop)]
pub struct WordsView<'a> {
    left: u32,
    words: &'a [u8],
}

impl<'a> Model for WordsView<'a> {
    ghost use Rattle.std.specs.Prelude.{List, ℕ, ℤ};
    ghost use Rattle.result_form.specs.Shown.{shown_values};

    ghost Value = { List (ℤ × ℕ) };

    ghost view = { λ a. shown_values a.left a.words.now };
}

impl<'a> WordsView<'a> {
    /// So many values, whose pairs stand at the front of these bytes.
    pub(crate) fn of(left: u32, words: &'a [u8]) -> WordsView<'a>
        ensures { result ≡ shown_values left words.now }
    {
        WordsView { left, words }
    }

    /// The next instance and its value, and behind it the others are left; `None` where none is.
    pub fn next(&mut self) -> Option<(i32, u32)>
        ensures { MatchOption result ((self.old ≡ []) × (self.new ≡ [])) (λ pair. self.old ≡ pair ∷ self.new) }
    {
        if self.left == 0 {
            return None;
        }
        let instance = instance_in(self.words);
        let value = word_in(self.words, 4);
        self.words = behind(self.words, 8);
        self.left -= 1;
        Some((instance, value))
    }
}

/// Values in blocks, each with its instance, from the next on.
#[derive(Drop)]
pub struct BlocksView<'a> {
    payload: &'a [u8],
    left: u32,
    words: &'a [u8],
}

impl<'a> Model for BlocksView<'a> {
    ghost use Rattle.std.specs.Prelude.{List, ℤ};
    ghost use Rattle.pcp_base.specs.Typed.{TypedBytes};
    ghost use Rattle.result_form.specs.Shown.{shown_blocks};

    ghost Value = { List (ℤ × TypedBytes) };

    ghost view = { λ a. shown_blocks a.payload.now a.left a.words.now };
}

impl<'a> BlocksView<'a> {
    /// So many blocks of a payload, whose pairs stand at the front of these bytes.
    pub(crate) fn of(payload: &'a [u8], left: u32, words: &'a [u8]) -> BlocksView<'a>
        ensures { result ≡ shown_blocks payload.now left words.now }
    {
        BlocksView {
            payload,
            left,
            words,
        }
    }

    /// The next instance and its block, and behind it the others are left; `None` where none is.
    pub fn next(&mut self) -> Option<(i32, BlockView<'a>)>
        ensures { MatchOption result ((self.old ≡ []) × (self.new ≡ [])) (λ pair. self.old ≡ pair ∷ self.new) }
    {
        if self.left == 0 {
            return None;
        }
        let instance = instance_in(self.words);
        let offset = word_in(self.words, 4);
        let block = block_in(self.payload, offset);
        self.words = behind(self.words, 8);
        self.left -= 1;
        Some((instance, block))
    }
}
