//! The sets of a payload, one after another.
ghost use Rattle.std.specs.Prelude.{◌≡◌, ◌∷◌, [], length, MatchOption};
ghost use Rattle.result_form.specs.Bodies.{as_body};
ghost use Rattle.result_form.specs.Shown.{shown_body, shown_sets, set_size};

use crate::bodies::{BlocksView, WordsView};
use crate::words::{behind, is_status, word_in};
use pcp_base::Pmid;
use std::marker::Model;

/// The values of one metric, each with its instance (pmFetch(3)).
#[derive(Drop)]
pub enum BodyView<'a> {
    /// Values of 32 bits, in the set itself; at least one.
    InPlace(WordsView<'a>),
    /// Values in blocks outside the set; at least one.
    Blocks(BlocksView<'a>),
    /// No value: 0, or a negative error code.
    Status(i32),
}

/// The values of one metric in a result (pmFetch(3)), where they stand.
#[derive(Drop)]
pub struct SetView<'a> {
    payload: &'a [u8],
    words: &'a [u8],
}

impl<'a> Model for SetView<'a> {
    ghost use Rattle.pcp_base.specs.declared.result.ValueSet.{ValueSet};
    ghost use Rattle.result_form.specs.Shown.{shown_set};

    ghost Value = { ValueSet };

    ghost view = { λ a. shown_set a.payload.now a.words.now };
}

/// What a set holds, whose words stand at the front of these bytes.
#[tactic(auto, unfolding(crate::specs::Shown::shown_body))]
fn body_in<'a>(payload: &'a [u8], words: &'a [u8]) -> BodyView<'a>
    ensures { as_body result ≡ shown_body payload.now words.now }
{
    let number = word_in(words, 4);
    if is_status(number) {
        return BodyView::Status(number.cast_signed());
    }
    let pairs = behind(words, 12);
    if word_in(words, 8) == 0 {
        return BodyView::InPlace(WordsView::of(number, pairs));
    }
    BodyView::Blocks(BlocksView::of(payload, number, pairs))
}

/// How many bytes the words of a set take.
#[tactic(auto, unfolding(crate::specs::Shown::set_size))]
pub fn set_size(words: &[u8]) -> usize
    ensures { result ≡ set_size words.now }
{
    let number = word_in(words, 4);
    if is_status(number) {
        return 8;
    }
    12 + 8 * number as usize
}

impl<'a> SetView<'a> {
    /// The metric.
    pub fn pmid(&self) -> Pmid
        ensures { result ≡ self.now.pmid }
    {
        Pmid::of_word(word_in(self.words, 0))
    }

    /// The status, or the values from the first on.
    pub fn body(&self) -> BodyView<'a>
        ensures { as_body result ≡ self.now.body }
    {
        body_in(self.payload, self.words)
    }
}

/// The sets of a result in their order, from the next on.
#[derive(Drop)]
pub struct SetsView<'a> {
    payload: &'a [u8],
    left: u32,
    words: &'a [u8],
}

impl<'a> Model for SetsView<'a> {
    ghost use Rattle.std.specs.Prelude.{List};
    ghost use Rattle.pcp_base.specs.declared.result.ValueSet.{ValueSet};
    ghost use Rattle.result_form.specs.Shown.{shown_sets};

    ghost Value = { List ValueSet };

    ghost view = { λ a. shown_sets a.payload.now a.left a.words.now };
}

impl<'a> SetsView<'a> {
    /// So many sets of a payload, whose words stand at the front of these bytes.
    pub(crate) fn of(payload: &'a [u8], left: u32, words: &'a [u8]) -> SetsView<'a>
        ensures { result ≡ shown_sets payload.now left words.now }
    {
        SetsView {
            payload,
            left,
            words,
        }
    }

    /// How many sets are left.
    pub fn len(&self) -> usize
        ensures { result ≡ length self.now }
    {
        self.left as usize
    }

    /// The next set, and behind it the others are left; `None` where none is.
    pub fn next(&mut self) -> Option<SetView<'a>>
        ensures { MatchOption result ((self.old ≡ []) × (self.new ≡ [])) (λ set. self.old ≡ set ∷ self.new) }
    {
        if self.left == 0 {
            return None;
        }
        let set = SetView {
            payload: self.payload,
            words: self.words,
        };
        self.words = behind(self.words, set_size(self.words));
        self.left -= 1;
        Some(set)
    }
}
