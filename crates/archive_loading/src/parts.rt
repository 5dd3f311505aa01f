//! The index as it is read whole.
ghost use Rattle.std.specs.Prelude.{◌≡◌, ◌≤◌, negsuc, [], length, take, IfOk};
ghost use Rattle.pcp_model.specs.Labels.{IsLabel};
ghost use Rattle.archive_loading.specs.Parts.{IsIndexPart};

use crate::labels::{Head, head_of};
use pcp_base::NoMemory;
use pcp_model::Label;
use std::alloc::Global;
use temporal_index::{Index, IndexFault};

/// What the index is.
#[derive(Drop)]
pub enum IndexPart {
    /// Its label, or less, and entries.
    Whole(Index),
    /// Something else, from this byte on.
    Stops(u64),
}

/// As many of the bytes as a label has.
fn first_bytes(bytes: &[u8]) -> &[u8]
    ensures bytes { result.now ≡ take 132 bytes.now }
    ensures few { length result.now ≤ 132 }
{
    if bytes.len() < 132 {
        return bytes;
    }
    &bytes[..132]
}

fn with_entries(alloc: Global, bytes: &[u8], label: &Label) -> Result<IndexPart, NoMemory>
    requires label { IsLabel (take 132 bytes.now) label.now (negsuc 1) }
    requires long { 132 ≤ length bytes.now }
    ensures { IfOk result (IsIndexPart label.now bytes.now) }
{
    let whole = (bytes.len() - 132) / 20 * 20;
    match Index::read(alloc, &bytes[132..132 + whole]) {
        Ok(index) => Ok(IndexPart::Whole(index)),
        Err(IndexFault::Entry { at }) => Ok(IndexPart::Stops(132 + at)),
        Err(IndexFault::NoMemory) => Err(NoMemory),
    }
}

/// The index without an entry.
pub fn no_entries(alloc: Global) -> Result<Index, NoMemory>
    ensures { IfOk result (λ index. index ≡ []) }
{
    match Index::read(alloc, &[]) {
        Ok(index) => Ok(index),
        Err(_) => Err(NoMemory),
    }
}

/// What the bytes of the index are.
pub fn index_part(alloc: Global, bytes: &[u8], label: &Label) -> Result<IndexPart, NoMemory>
    ensures { IfOk result (IsIndexPart label.now bytes.now) }
{
    let head = first_bytes(bytes);
    match head_of(head, label, -2) {
        Head::Whole => with_entries(alloc, bytes, label),
        Head::Part => Ok(IndexPart::Whole(no_entries(alloc)?)),
        Head::Stops(at) => Ok(IndexPart::Stops(at)),
    }
}
