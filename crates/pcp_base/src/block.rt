//! Values that are kept outside their set, each with a type code (pmFetch(3)).

ghost use Rattle.std.specs.Prelude.{◌≡◌, ◌+◌, ◌≤◌, ◌<◌, length, take, drop, MatchOption, IfOk};

use crate::duplicate::Duplicate;
use crate::list::Bytes;
use crate::memory::NoMemory;
use crate::shared::Shared;
use std::alloc::Global;
use std::marker::Model;

/// A value that is kept outside its set (pmFetch(3)): a type code and at most 16,777,211 bytes, so that its
/// length with the header of 4 bytes fits 24 bits.
#[derive(Drop)]
pub struct Block {
    held: Held,
}

/// Where a block's bytes lie: in memory of their own, or at a place among bytes that others hold too. The code stands
/// in each, so that a block takes 32 bytes.
enum Held {
    Own {
        code: u8,
        bytes: Bytes,
    },
    Within {
        code: u8,
        size: u32,
        from: usize,
        shared: Shared,
    },
}

// Written out, so that to let a block go is one call, and no choice, for whoever does.
impl Drop for Held {
    fn drop(self) {
        match self {
            Held::Own { code: _, bytes: _ } => (),
            Held::Within {
                code: _,
                size: _,
                from: _,
                shared: _,
            } => (),
        }
    }
}

impl Model for Block {
    ghost use Rattle.pcp_base.specs.Typed.{TypedBytes};

    ghost Value = { TypedBytes };

    ghost use Rattle.pcp_base.specs.Held.{typed, IsHeld};

    ghost view = { λ a. typed a.held };

    ghost invariant = { λ a. IsHeld a.held };
}

impl Block {
    /// The block of these bytes; `None` exactly above 16,777,211 of them.
    pub fn build(code: u8, bytes: Bytes) -> Option<Block>
        ensures { MatchOption result (16777211 < length bytes) (λ b. (length bytes ≤ 16777211) × (b ≡ record { code = code; bytes = bytes })) }
    {
        if bytes.len() > 16_777_211 {
            return None;
        }
        Some(Block {
            held: Held::Own { code, bytes },
        })
    }

    /// The block of `size` bytes behind the first `from` of these, which it holds with others and doesn't copy. It is
    /// refused only where too many hold them.
    pub fn within(code: u8, shared: &Shared, from: usize, size: u32) -> Result<Block, NoMemory>
        requires place { from + size ≤ length shared.now }
        requires short { size ≤ 16777211 }
        ensures { IfOk result (λ b. b ≡ record { code = code; bytes = take size (drop from shared.now) }) }
    {
        let shared = shared.share()?;
        Ok(Block {
            held: Held::Within {
                code,
                size,
                from,
                shared,
            },
        })
    }

    /// The type code as it stands beside the bytes; any value may (pmFetch(3)).
    pub fn code(&self) -> u8
        ensures { result ≡ self.now.code }
    {
        match &self.held {
            Held::Own { code, .. } => *code,
            Held::Within { code, .. } => *code,
        }
    }

    /// The bytes, at most 16,777,211.
    pub fn bytes(&self) -> &[u8]
        ensures value { result.now ≡ self.now.bytes }
        ensures range { length self.now.bytes ≤ 16777211 }
    {
        match &self.held {
            Held::Own { bytes, .. } => bytes.as_slice(),
            Held::Within {
                size,
                from,
                shared,
                ..
            } => { &shared.as_slice()[*from..*from + *size as usize] }
        }
    }
}

/// Bytes that others hold too aren't copied: the copy holds them as well.
impl Duplicate for Block {
    fn copy(&self, alloc: Global) -> Result<Self, NoMemory> {
        match &self.held {
            Held::Own { code, bytes } => {
                let bytes = bytes.copy(alloc)?;
                Ok(Block {
                    held: Held::Own { code: *code, bytes },
                })
            }
            Held::Within {
                code,
                size,
                from,
                shared,
            } => { Block::within(*code, shared, *from, *size) }
        }
    }
}
