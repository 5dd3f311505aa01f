//! Steps from framed record to framed record.
ghost use Rattle.std.specs.Prelude.{◌≡◌, ℕ, ◌+◌, ◌<◌, ◌≤◌, List, length, Result, Ok, IfOk, IfErr, MatchResult, MatchOption};
ghost use Rattle.pcp_base.specs.Fields.{number_at};
ghost use Rattle.archive_frame.specs.declared.steps.Step.TheVariants.{End, Payload};
ghost use Rattle.archive_frame.specs.Steps.{IsSize, IsSizeFault, Stands, IsForward, IsForwardFault, IsBack, IsBackFault};

use crate::fault::FrameFault;
use pcp_base::be32;

/// What stands at an offset of framed bytes.
#[derive(Clone, Copy)]
pub enum Step {
    /// No record: the offset is the end of the bytes, or for a step back their beginning.
    End,
    /// The record whose payload is the bytes from `from` up to `to`. `next` is the offset after the record, or for a
    /// step back the record's first byte.
    Payload { from: usize, to: usize, next: usize },
}

/// The word of 4 bytes at a byte; `None` exactly where it doesn't lie in the bytes.
fn word_at(bytes: &[u8], at: usize) -> Option<u32>
    ensures { MatchOption result (length bytes.now < at + 4) (λ n. (at + 4 ≤ length bytes.now) × (n ≡ number_at bytes.now at)) }
{
    be32(bytes, at)
}

/// The size that a length word says, where a framed record may have it.
fn size_of(word: u32, at: usize) -> Result<usize, FrameFault>
    ensures { MatchResult result (λ n. (n ≡ word) × IsSize n) (IsSizeFault word at) }
{
    if word < 12 || word > 16_777_216 {
        return Err(FrameFault::Size {
            at: at as u64,
            found: u64::from(word),
        });
    }
    Ok(word as usize)
}

fn forward(bytes: &[u8], at: usize) -> Result<Step, FrameFault>
    requires { at ≤ length bytes.now }
    ensures found { IfOk result (IsForward bytes.now at) }
    ensures end { at ≡ length bytes.now → result ≡ Ok End }
    ensures fault { IfErr result (IsForwardFault bytes.now at) }
{
    if at == bytes.len() {
        return Ok(Step::End);
    }
    let Some(head) = word_at(bytes, at) else {
        return Err(FrameFault::Torn { at: at as u64 });
    };
    let size = size_of(head, at)?;
    if bytes.len() - at < size {
        return Err(FrameFault::Torn { at: at as u64 });
    }
    let Some(tail) = word_at(bytes, at + size - 4) else {
        return Err(FrameFault::Torn { at: at as u64 });
    };
    if head != tail {
        return Err(FrameFault::Lengths {
            at: at as u64,
            head: u64::from(head),
            tail: u64::from(tail),
        });
    }
    Ok(Step::Payload {
        from: at + 4,
        to: at + size - 4,
        next: at + size,
    })
}

fn back(bytes: &[u8], at: usize) -> Result<Step, FrameFault>
    requires { at ≤ length bytes.now }
    ensures found { IfOk result (IsBack bytes.now at) }
    ensures end { at ≡ 0 → result ≡ Ok End }
    ensures fault { IfErr result (IsBackFault bytes.now at) }
{
    if at == 0 {
        return Ok(Step::End);
    }
    if at < 4 {
        return Err(FrameFault::Torn { at: at as u64 });
    }
    let Some(tail) = word_at(bytes, at - 4) else {
        return Err(FrameFault::Torn { at: at as u64 });
    };
    let size = size_of(tail, at)?;
    if at < size {
        return Err(FrameFault::Torn { at: at as u64 });
    }
    let Some(head) = word_at(bytes, at - size) else {
        return Err(FrameFault::Torn { at: at as u64 });
    };
    if head != tail {
        return Err(FrameFault::Lengths {
            at: at as u64,
            head: u64::from(head),
            tail: u64::from(tail),
        });
    }
    Ok(Step::Payload {
        from: at - size + 4,
        to: at - 4,
        next: at - size,
    })
}

/// The framed record that begins at an offset, or `End` where the bytes end there. A refusal is `Torn`, `Size` or
/// `Lengths`, in the order that `FrameFault` tells; no memory is taken.
pub fn step_forward(bytes: &[u8], at: usize) -> Result<Step, FrameFault>
    requires { at ≤ length bytes.now }
    // A payload that is answered stands framed there.
    ensures found { IfOk result (IsForward bytes.now at) }
    // A framed record that begins there is found.
    ensures only { (payload : List ℕ) (next : ℕ) → Stands bytes.now payload at next → result ≡ Ok (Payload (at + 4) (at + 4 + length payload) next) }
    // The end is told exactly there.
    ensures end { at ≡ length bytes.now → result ≡ Ok End }
    // Each fault has its condition: too few bytes, a length that no record has, two lengths that differ.
    ensures fault { IfErr result (IsForwardFault bytes.now at) }
{
    forward(bytes, at)
}

/// The framed record that ends at an offset, or `End` where this is the first byte. The length word that ends there is
/// looked at first; a refusal is as that of a step forward, and no memory is taken.
pub fn step_back(bytes: &[u8], at: usize) -> Result<Step, FrameFault>
    requires { at ≤ length bytes.now }
    // A payload that is answered stands framed there.
    ensures found { IfOk result (IsBack bytes.now at) }
    // A framed record that ends there is found.
    ensures only { (payload : List ℕ) (next : ℕ) → Stands bytes.now payload next at → result ≡ Ok (Payload (next + 4) (next + 4 + length payload) next) }
    // The beginning is told exactly there.
    ensures end { at ≡ 0 → result ≡ Ok End }
    // Each fault has its condition: too few bytes, a length that no record has, two lengths that differ.
    ensures fault { IfErr result (IsBackFault bytes.now at) }
{
    back(bytes, at)
}
