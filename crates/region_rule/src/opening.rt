//! What a region is told at its making.
ghost use Rattle.std.specs.Prelude.{◌≡◌, ◌≤◌, ◌∷◌, length, IfOk};
ghost use Rattle.region_core.specs.State.{with_zeros};

use std::alloc::{AllocError, Global};
use std::marker::Model;

/// What a region is told at its making: the gate and the words up to the capacity in one list, and how many passes it has.
#[derive(Drop)]
pub struct Opening {
    cells: Vec<u64>,
    passes: u32,
}

impl Model for Opening {
    ghost use Rattle.std.specs.Prelude.{◌≡◌, ◌∷◌, drop};
    ghost use Rattle.region_rule.specs.Openings.{Told};

    ghost Value = { Told };

    ghost view = { λ o. record { words = drop 1 o.cells.items; passes = o.passes } };

    ghost invariant = { λ o. o.cells.items ≡ 0 ∷ drop 1 o.cells.items };
}

/// A gate that nobody has passed, then the image, and zeros behind it up to the capacity.
fn cells_of(alloc: Global, image: &[u64], capacity: u32) -> Result<Vec<u64>, AllocError>
    requires { length image.now ≤ capacity }
    ensures { IfOk result (λ v. v.items ≡ 0 ∷ with_zeros image.now capacity) }
{
    let mut cells = Vec::with_capacity(alloc, capacity as usize + 1)?;
    cells.push(0)?;
    cells.extend_from_slice(image)?;
    cells.resize(capacity as usize + 1, 0)?;
    Ok(cells)
}

impl Opening {
    /// A region of this image, of the given capacity in words, and so many passes.
    pub(crate) fn of_image(
        alloc: Global,
        image: &[u64],
        capacity: u32,
        passes: u32,
    ) -> Result<Opening, AllocError>
        requires { length image.now ≤ capacity }
        ensures { IfOk result (λ o. (o.words ≡ with_zeros image.now capacity) × (o.passes ≡ passes)) }
    {
        let cells = cells_of(alloc, image, capacity)?;
        Ok(Opening { cells, passes })
    }

    /// The gate, and the words behind it.
    pub(crate) fn cells(&self) -> &[u64]
        ensures { result.now ≡ 0 ∷ self.now.words }
    {
        self.cells.as_slice()
    }
}
