//! A line of a text of rules.
ghost use Rattle.std.specs.Prelude.{◌≡◌, [], ◌∷◌};
ghost use Rattle.text_lines.specs.Numbers.{whole_number};
ghost use Rattle.text_lines.specs.Words.{Read, Taken, take_as};
ghost use Rattle.rule_watch.specs.Lines.{aggregate_of_word, collect, comparison_of, is_label, joint_at, keyword, quantifier_of, rule_line, rule_of, size_of, take_condition, take_joined, take_metric, take_label};

use crate::aggregate::Aggregate;
use crate::rule::{Comparison, Condition, Joint, Quantifier, Rule};
use pcp_base::{List, Text, is_name, spells_component};
use std::alloc::Global;
use text_lines::{Rest, TakeFault, read_number, split_word, take_name, whole_number};

// The word, behind one space.
#[tactic(auto, unfolding(text_lines::specs::Words::take_as))]
fn expect_word(rest: &mut Rest, text: &[u8]) -> Result<(), TakeFault>
    ensures { Taken (take_as (keyword text.now) rest.old) result rest.new }
{
    let word = rest.word()?;
    if word != text {
        return Err(TakeFault::NoLine);
    }
    Ok(())
}

fn quantifier_of(word: &[u8]) -> Option<Quantifier>
    ensures { result ≡ quantifier_of word.now }
{
    if word == b"some".as_slice() {
        return Some(Quantifier::Any);
    }
    if word == b"all".as_slice() {
        return Some(Quantifier::All);
    }
    None
}

#[tactic(auto, unfolding(text_lines::specs::Words::take_as))]
fn take_quantifier(rest: &mut Rest) -> Result<Quantifier, TakeFault>
    ensures { Taken (take_as quantifier_of rest.old) result rest.new }
{
    let word = rest.word()?;
    let quantifier = quantifier_of(word).ok_or(TakeFault::NoLine)?;
    Ok(quantifier)
}

fn aggregate_of(word: &[u8]) -> Option<Aggregate>
    ensures { result ≡ aggregate_of_word word.now }
{
    if word == b"min".as_slice() {
        return Some(Aggregate::Min);
    }
    if word == b"max".as_slice() {
        return Some(Aggregate::Max);
    }
    if word == b"sum".as_slice() {
        return Some(Aggregate::Sum);
    }
    if word == b"rise".as_slice() {
        return Some(Aggregate::Rise);
    }
    None
}

#[tactic(auto, unfolding(text_lines::specs::Words::take_as))]
fn take_aggregate(rest: &mut Rest) -> Result<Aggregate, TakeFault>
    ensures { Taken (take_as aggregate_of_word rest.old) result rest.new }
{
    let word = rest.word()?;
    let aggregate = aggregate_of(word).ok_or(TakeFault::NoLine)?;
    Ok(aggregate)
}

fn comparison_of(word: &[u8]) -> Option<Comparison>
    ensures { result ≡ comparison_of word.now }
{
    if word == b"<".as_slice() {
        return Some(Comparison::Below);
    }
    if word == b"<=".as_slice() {
        return Some(Comparison::AtMost);
    }
    if word == b">".as_slice() {
        return Some(Comparison::Above);
    }
    if word == b">=".as_slice() {
        return Some(Comparison::AtLeast);
    }
    if word == b"==".as_slice() {
        return Some(Comparison::Equal);
    }
    if word == b"!=".as_slice() {
        return Some(Comparison::Unequal);
    }
    None
}

#[tactic(auto, unfolding(text_lines::specs::Words::take_as))]
fn take_comparison(rest: &mut Rest) -> Result<Comparison, TakeFault>
    ensures { Taken (take_as comparison_of rest.old) result rest.new }
{
    let word = rest.word()?;
    let comparison = comparison_of(word).ok_or(TakeFault::NoLine)?;
    Ok(comparison)
}

// The number of a window's values, 1 to 1,000.
#[tactic(auto, unfolding(crate::specs::Lines::size_of))]
fn size_of(word: &[u8]) -> Option<u32>
    ensures { result ≡ size_of word.now }
{
    let number = read_number(word)?;
    if number < 1 {
        return None;
    }
    if number > 1000 {
        return None;
    }
    Some(number as u32)
}

#[tactic(auto, unfolding(text_lines::specs::Words::take_as))]
fn take_size(rest: &mut Rest) -> Result<u32, TakeFault>
    ensures { Taken (take_as size_of rest.old) result rest.new }
{
    let word = rest.word()?;
    let size = size_of(word).ok_or(TakeFault::NoLine)?;
    Ok(size)
}

#[tactic(auto, unfolding(text_lines::specs::Words::take_as))]
fn take_whole(rest: &mut Rest) -> Result<i128, TakeFault>
    ensures { Taken (take_as whole_number rest.old) result rest.new }
{
    let word = rest.word()?;
    let number = whole_number(word).ok_or(TakeFault::NoLine)?;
    Ok(number)
}

// The name of a metric.
#[tactic(auto, unfolding(crate::specs::Lines::take_metric))]
fn take_metric(alloc: Global, rest: &mut Rest) -> Result<Text, TakeFault>
    ensures { Taken (take_metric rest.old) result rest.new }
{
    let name = take_name(alloc, rest)?;
    if !is_name(name.as_slice()) {
        return Err(TakeFault::NoLine);
    }
    Ok(name)
}

// Whether a rule may have this label.
fn is_label(bytes: &[u8]) -> bool
    ensures { result ≡ is_label bytes.now }
{
    if bytes.len() > 63 {
        return false;
    }
    spells_component(bytes)
}

#[tactic(auto, unfolding(crate::specs::Lines::take_label))]
fn take_label(alloc: Global, rest: &mut Rest) -> Result<Text, TakeFault>
    ensures { Taken (take_label rest.old) result rest.new }
{
    let label = take_name(alloc, rest)?;
    if !is_label(label.as_slice()) {
        return Err(TakeFault::NoLine);
    }
    Ok(label)
}

#[tactic(auto, unfolding(crate::specs::Lines::take_condition))]
fn take_condition(alloc: Global, rest: &mut Rest) -> Result<Condition, TakeFault>
    ensures { Taken (take_condition rest.old) result rest.new }
{
    let quantifier = take_quantifier(rest)?;
    let aggregate = take_aggregate(rest)?;
    let name = take_metric(alloc, rest)?;
    expect_word(rest, b"over")?;
    let size = take_size(rest)?;
    let comparison = take_comparison(rest)?;
    let number = take_whole(rest)?;
    Ok(Condition {
        quantifier,
        aggregate,
        name,
        size,
        comparison,
        number,
    })
}

// The word by which conditions are joined that stand behind the first.
fn joint_at(bytes: &[u8]) -> Joint
    ensures { result ≡ joint_at bytes.now }
{
    let [_, behind @ ..] = bytes else {
        return Joint::And;
    };
    let (word, _) = split_word(behind);
    if word == b"or".as_slice() {
        return Joint::Or;
    }
    Joint::And
}

// One more condition, behind the word that joins it.
#[tactic(auto, unfolding(crate::specs::Lines::take_joined))]
fn take_joined(alloc: Global, rest: &mut Rest, joint: Joint) -> Result<Condition, TakeFault>
    ensures { Taken (take_joined joint rest.old) result rest.new }
{
    match joint {
        Joint::And => expect_word(rest, b"and")?,
        Joint::Or => expect_word(rest, b"or")?,
    }
    take_condition(alloc, rest)
}

// All conditions behind the first, at most seven.
#[tactic(auto, using(crate::proofs::Conditions::collected, crate::proofs::Conditions::too_many, crate::proofs::Conditions::collects_more, crate::proofs::Conditions::collects_none))]
fn collect(
    alloc: Global,
    rest: &mut Rest,
    joint: Joint,
    first: Condition,
) -> Result<List<Condition>, TakeFault>
    ensures { Read (collect 7 joint (first ∷ []) rest.old) result }
{
    let mut conditions = List::empty(alloc);
    conditions.push(first)?;
    let mut left: u32 = 7;
    while !rest.bytes().is_empty() {
        if left == 0 {
            return Err(TakeFault::NoLine);
        }
        let condition = take_joined(alloc, rest, joint)?;
        conditions.push(condition)?;
        left -= 1;
    }
    Ok(conditions)
}

#[tactic(auto, unfolding(crate::specs::Lines::rule_line))]
fn rule_line(alloc: Global, bytes: &[u8]) -> Result<Rule, TakeFault>
    ensures { Read (rule_line bytes.now) result }
{
    let mut rest = Rest::new(bytes);
    let label = take_label(alloc, &mut rest)?;
    expect_word(&mut rest, b"when")?;
    let first = take_condition(alloc, &mut rest)?;
    let joint = joint_at(rest.bytes());
    let conditions = collect(alloc, &mut rest, joint, first)?;
    Ok(Rule {
        label,
        joint,
        conditions,
    })
}

/// The rule of a line, which is without its line feed.
#[tactic(auto, unfolding(crate::specs::Lines::rule_of))]
pub fn rule_of(alloc: Global, line: &[u8]) -> Result<Rule, TakeFault>
    ensures { Read (rule_of line.now) result }
{
    let (word, left) = split_word(line);
    if word != b"rule".as_slice() {
        return Err(TakeFault::NoLine);
    }
    rule_line(alloc, left)
}
