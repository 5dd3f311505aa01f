//! What may stand many times, one behind another.
ghost use Rattle.std.specs.Prelude.{◌≡◌, ◌≤◌, length, IfOk};
ghost use Rattle.pdu_codec.specs.Reading.{Gives, many, one_part, parts_at};

use crate::fault::PduFault;
use crate::fields::{ZERO, given_at, signed_at, state_at, text_at, word_at};
use pcp_base::{InDom, List, Pmid, Text};
use profile_filter::DomainPart;
use std::alloc::Global;

/// What may stand many times.
pub trait Part: Drop {
    ghost use Rattle.std.specs.Prelude.{ℕ, ◌≤◌, length, List as Sequence, Result, IfOk};
    ghost use Rattle.pdu_codec.specs.declared.fault.PduFault.{PduFault as Fault};
    ghost use Rattle.pdu_codec.specs.Reading.{Gives};

    /// How it is read.
    ghost reading: { Sequence ℕ → ℕ → Result (Self × ℕ) Fault };

    /// The one that begins at a byte, and the byte behind it.
    fn part_at(alloc: Global, bytes: &[u8], at: usize) -> Result<(Self, usize), PduFault>
        requires { at ≤ length bytes.now }
        ensures part { Gives result (reading bytes.now at) }
        ensures within { IfOk result (λ x. x.1 ≤ length bytes.now) };
}

/// The head of a domain's part in a profile.
#[derive(Clone, Copy)]
pub struct Head {
    pub indom: InDom,
    pub include: bool,
    pub count: u32,
}

impl Part for Pmid {
    ghost use Rattle.pdu_codec.specs.Reading.{word_at};

    ghost reading = { word_at };

    fn part_at(_alloc: Global, bytes: &[u8], at: usize) -> Result<(Self, usize), PduFault> {
        let (word, next) = word_at(bytes, at)?;
        Ok((Pmid::of_word(word), next))
    }
}

impl Part for i32 {
    ghost use Rattle.pdu_codec.specs.Reading.{signed_at};

    ghost reading = { signed_at };

    fn part_at(_alloc: Global, bytes: &[u8], at: usize) -> Result<(Self, usize), PduFault> {
        signed_at(bytes, at)
    }
}

impl Part for Text {
    ghost use Rattle.pdu_codec.specs.Reading.{text_at};

    ghost reading = { text_at };

    fn part_at(alloc: Global, bytes: &[u8], at: usize) -> Result<(Self, usize), PduFault> {
        text_at(alloc, bytes, at)
    }
}

impl Part for (i32, Text) {
    ghost use Rattle.pdu_codec.specs.Reading.{pair_at};

    ghost reading = { pair_at };

    #[tactic(auto, unfolding(crate::specs::Reading::pair_at))]
    fn part_at(alloc: Global, bytes: &[u8], at: usize) -> Result<(Self, usize), PduFault> {
        let (instance, next) = signed_at(bytes, at)?;
        let (name, next) = text_at(alloc, bytes, next)?;
        Ok(((instance, name), next))
    }
}

impl Part for Head {
    ghost use Rattle.pdu_codec.specs.Reading.{head_at};

    ghost reading = { head_at };

    #[tactic(auto, unfolding(crate::specs::Reading::head_at))]
    fn part_at(_alloc: Global, bytes: &[u8], at: usize) -> Result<(Self, usize), PduFault> {
        let (indom, next) = word_at(bytes, at)?;
        let (include, next) = state_at(bytes, next)?;
        let (count, next) = word_at(bytes, next)?;
        let next = given_at(&ZERO, bytes, next)?;
        let indom = InDom::of_word(indom);
        let head = Head {
            indom,
            include,
            count,
        };
        Ok((head, next))
    }
}

/// So many, one behind another, and the byte behind them.
#[tactic(auto, unfolding(crate::specs::Reading::many))]
pub fn many<P: Part>(
    alloc: Global,
    bytes: &[u8],
    count: u32,
    from: usize,
) -> Result<(List<P>, usize), PduFault>
    requires { from ≤ length bytes.now }
    ensures items { Gives result (many P.reading bytes.now count from) }
    ensures within { IfOk result (λ x. x.1 ≤ length bytes.now) }
{
    let mut at = from;
    let mut items = List::empty(alloc);
    for _ in 0..count {
        let (item, next) = P::part_at(alloc, bytes, at)?;
        items.push(item)?;
        at = next;
    }
    Ok((items, at))
}

/// The part of a head, with its instances, and the byte behind them.
fn part_of(
    alloc: Global,
    bytes: &[u8],
    head: Head,
    at: usize,
) -> Result<(DomainPart, usize), PduFault>
    requires { at ≤ length bytes.now }
    ensures part { Gives result (one_part bytes.now head at) }
    ensures within { IfOk result (λ x. x.1 ≤ length bytes.now) }
{
    let (instances, next) = many::<i32>(alloc, bytes, head.count, at)?;
    let part = DomainPart {
        indom: head.indom,
        include: head.include,
        instances,
    };
    Ok((part, next))
}

/// The parts of these heads, with their instances, and the byte behind them.
#[tactic(auto, unfolding(crate::specs::Reading::parts_at))]
pub fn parts_at(
    alloc: Global,
    bytes: &[u8],
    heads: &[Head],
    from: usize,
) -> Result<(List<DomainPart>, usize), PduFault>
    requires { from ≤ length bytes.now }
    ensures parts { Gives result (parts_at bytes.now heads.now from) }
    ensures within { IfOk result (λ x. x.1 ≤ length bytes.now) }
{
    let mut at = from;
    let mut parts = List::empty(alloc);
    for head in heads {
        let (part, next) = part_of(alloc, bytes, *head, at)?;
        parts.push(part)?;
        at = next;
    }
    Ok((parts, at))
}
