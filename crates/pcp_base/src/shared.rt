//! Bytes that several values hold together, in one block of memory.

ghost use Rattle.std.specs.Prelude.{◌≡◌, IfOk};

use crate::list::Bytes;
use crate::memory::NoMemory;
use std::marker::Model;
use std::sync::ArcSlice;

/// A hold on bytes that may have others; the last one to go frees them. Contracts see the bytes.
#[derive(Drop)]
pub struct Shared {
    bytes: ArcSlice<u8>,
}

impl Model for Shared {
    ghost use Rattle.std.specs.Prelude.{List as Sequence, ℕ};
    ghost use Rattle.std.specs.Arc.{arc_slice_items};

    ghost Value = { Sequence ℕ };

    ghost view = { λ a. arc_slice_items a.bytes };
}

impl Shared {
    /// The first hold on these bytes; none of them is copied.
    pub fn build(bytes: Bytes) -> Result<Shared, NoMemory>
        ensures { IfOk result (λ shared. shared ≡ bytes) }
    {
        let bytes = ArcSlice::from_vec(bytes.into_vec())?;
        Ok(Shared { bytes })
    }

    /// One more hold on the same bytes; refused only where their number is at its limit.
    pub fn share(&self) -> Result<Shared, NoMemory>
        ensures { IfOk result (λ shared. shared ≡ self.now) }
    {
        let bytes = self.bytes.clone()?;
        Ok(Shared { bytes })
    }

    /// All the bytes.
    pub fn as_slice(&self) -> &[u8]
        ensures { result.now ≡ self.now }
    {
        self.bytes.as_slice()
    }
}
