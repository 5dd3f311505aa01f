//! The strings of an image as they grow. Where the first that is equal to a text stands is kept for the texts to which
//! references lead, and for no other, however many strings there are.
ghost use Rattle.std.specs.Prelude.{◌≡◌, ◌++◌, [], ◌∷◌, length, OnOk, OnErr, IfOk, is_none, bytes_eq};
ghost use Rattle.std.specs.List.{position};
ghost use Rattle.mmv_writer.specs.Tables.{texts_behind, first_of, is_open, IsIndex, KeepsFirst, Grows};
ghost use Rattle.mmv_writer.specs.Spelling.{with_missing};

use pcp_base::{List, NoMemory, Text};
use std::alloc::Global;
use std::collections::BTreeMap;
use std::marker::Model;

/// The strings of an image, in order. `firsts` has for each text that is looked up where the first string that is
/// equal to it stands, if there is one.
#[derive(Drop)]
pub struct StringTable<'a> {
    strings: List<&'a Text>,
    firsts: BTreeMap<Vec<u8>, Option<usize>>,
}

impl<'a> Model for StringTable<'a> {
    ghost use Rattle.std.specs.Prelude.{List as Sequence, ℕ};
    ghost use Rattle.mmv_writer.specs.Tables.{texts_behind, IsIndex};

    ghost Value = { Sequence (Sequence ℕ) };

    ghost view = { λ a. texts_behind a.strings };

    ghost invariant = { λ a. IsIndex a.firsts (texts_behind a.strings) };
}

fn is_nowhere(at: &Option<usize>) -> bool
    ensures { result ≡ is_none at.now }
{
    at.is_none()
}

/// Whether a text is looked up, and stands nowhere yet.
fn is_open(firsts: &BTreeMap<Vec<u8>, Option<usize>>, text: &Text) -> bool
    ensures { result ≡ is_open (first_of firsts.now text.now) }
{
    match firsts.get(text.as_slice()) {
        None => false,
        Some(at) => is_nowhere(at),
    }
}

/// Keeps that a text stands behind `at` other strings, where it is looked up and none of them is equal to it.
fn keep_first(
    alloc: Global,
    firsts: &mut BTreeMap<Vec<u8>, Option<usize>>,
    text: &Text,
    at: usize,
) -> Result<(), NoMemory>
    ensures ok { OnOk result (Grows firsts.old firsts.new text.now at) }
    ensures err { OnErr result (KeepsFirst firsts.old firsts.new) }
{
    if !is_open(firsts, text) {
        return Ok(());
    }
    let key = Vec::from_slice(alloc, text.as_slice())?;
    firsts.insert(key, Some(at))?;
    Ok(())
}

/// Adds a text that will be looked up, while there is no string.
fn add_key(
    alloc: Global,
    firsts: &mut BTreeMap<Vec<u8>, Option<usize>>,
    text: &Text,
) -> Result<(), NoMemory>
    requires { IsIndex firsts.now [] }
    ensures { OnOk result (IsIndex firsts.new []) }
{
    if firsts.contains_key(text.as_slice()) {
        return Ok(());
    }
    let key = Vec::from_slice(alloc, text.as_slice())?;
    firsts.insert(key, None)?;
    Ok(())
}

/// The texts that will be looked up, while there is no string.
fn keys_of(alloc: Global, texts: &[&Text]) -> Result<BTreeMap<Vec<u8>, Option<usize>>, NoMemory>
    ensures { IfOk result (λ firsts. IsIndex firsts []) }
{
    let mut firsts = BTreeMap::new(alloc);
    for text in texts {
        add_key(alloc, &mut firsts, *text)?;
    }
    Ok(firsts)
}

/// Where the first string that is equal to each of these texts stands.
fn firsts_of(
    alloc: Global,
    strings: &[Text],
    texts: &[&Text],
) -> Result<BTreeMap<Vec<u8>, Option<usize>>, NoMemory>
    ensures { IfOk result (λ firsts. IsIndex firsts strings.now) }
{
    let mut firsts = keys_of(alloc, texts)?;
    let mut at = 0;
    for text in strings {
        keep_first(alloc, &mut firsts, text, at)?;
        at += 1;
    }
    Ok(firsts)
}

/// A list that refers to these strings, in their order.
fn references_of<'a>(alloc: Global, strings: &'a [Text]) -> Result<List<&'a Text>, NoMemory>
    ensures { IfOk result (λ references. texts_behind references ≡ strings.now) }
{
    let mut references = List::empty(alloc);
    for text in strings {
        references.push(text)?;
    }
    Ok(references)
}

/// Adds a string behind the others; it is the first of its text where that is looked up and stood nowhere.
#[tactic(auto, using(crate::proofs::Firsts::index_stays))]
fn add_last<'a>(
    alloc: Global,
    strings: &mut List<&'a Text>,
    firsts: &mut BTreeMap<Vec<u8>, Option<usize>>,
    text: &'a Text,
) -> Result<(), NoMemory>
    requires { IsIndex firsts.now (texts_behind strings.now) }
    ensures index { IsIndex firsts.new (texts_behind strings.new) }
    ensures ok { OnOk result (texts_behind strings.new ≡ texts_behind strings.old ++ text.now ∷ []) }
{
    let at = strings.len();
    strings.push(text)?;
    if let Err(_) = keep_first(alloc, firsts, text, at) {
        strings.pop();
        return Err(NoMemory);
    }
    Ok(())
}

/// Which of these strings is the first that is equal to a text, if there is one.
fn position_in(strings: &[&Text], text: &Text) -> Option<usize>
    ensures { result ≡ position (λ other. bytes_eq other.now text.now) strings.now }
{
    strings
        .iter()
        .position(|other| other.as_slice() == text.as_slice())
}

impl<'a> StringTable<'a> {
    /// The table of these strings, in which these texts will be looked up.
    pub fn of(
        alloc: Global,
        strings: &'a [Text],
        texts: &[&Text],
    ) -> Result<StringTable<'a>, NoMemory>
        ensures { IfOk result (λ table. table ≡ strings.now) }
    {
        let firsts = firsts_of(alloc, strings, texts)?;
        let strings = references_of(alloc, strings)?;
        Ok(StringTable { strings, firsts })
    }

    /// How many strings there are.
    #[tactic(auto, using(crate::proofs::ReadTexts::length_read))]
    pub fn len(&self) -> usize
        ensures { result ≡ length self.now }
    {
        self.strings.len()
    }

    /// All strings in order.
    pub fn as_slice(&self) -> &[&'a Text]
        ensures { texts_behind result.now ≡ self.now }
    {
        self.strings.as_slice()
    }

    /// Which string is the first that is equal to a text, if there is one. A text of which nothing is kept is looked
    /// for string by string.
    pub fn position(&self, text: &Text) -> Option<usize>
        ensures { result ≡ position (λ other. bytes_eq other text.now) self.now }
    {
        match self.firsts.get(text.as_slice()) {
            None => position_in(self.strings.as_slice(), text),
            Some(at) => *at,
        }
    }

    /// Adds a string behind the others, also where one is equal to it.
    fn push(&mut self, alloc: Global, text: &'a Text) -> Result<(), NoMemory>
        ensures { OnOk result (self.new ≡ self.old ++ text.now ∷ []) }
    {
        add_last(alloc, &mut self.strings, &mut self.firsts, text)?;
        Ok(())
    }

    /// Adds a text, unless a string is equal to it.
    #[tactic(auto, using(crate::proofs::Missing::missing_there, crate::proofs::Missing::missing_new))]
    pub fn add(&mut self, alloc: Global, text: &'a Text) -> Result<(), NoMemory>
        ensures { OnOk result (self.new ≡ with_missing self.old (text.now ∷ [])) }
    {
        let is_there = self.position(text).is_some();
        if is_there {
            return Ok(());
        }
        self.push(alloc, text)?;
        Ok(())
    }
}
