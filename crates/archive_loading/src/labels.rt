//! How a file begins: with its label, with less, or with something else.
ghost use Rattle.std.specs.Prelude.{◌≡◌, ◌≤◌, ◌≤ℤ◌, negsuc, length, IfOk};
ghost use Rattle.archive_loading.specs.LoadFaults.{IsHeadOf, IsMetaPrefix, label_offset};

use archive_frame::{FrameFault, Head as Found, read_label_of, read_meta_label};
use pcp_base::NoMemory;
use pcp_model::Label;
use std::alloc::Global;

/// How a file begins that should have a known label.
pub enum Head {
    /// With this label.
    Whole,
    /// The file ends within its label.
    Part,
    /// Not with it, from this byte on.
    Stops(u64),
}

/// How Meta begins.
#[derive(Drop)]
pub enum MetaHead {
    /// With a label of Meta.
    Whole(Label),
    /// Meta ends within its label.
    Part,
    /// With none, from this byte on.
    Stops(u64),
}

/// The offset of a label's fault.
fn label_offset(fault: FrameFault) -> Option<u64>
    ensures { result ≡ label_offset fault }
{
    match fault {
        FrameFault::Label { at } => Some(at),
        FrameFault::Torn { .. } => None,
        FrameFault::Size { .. } => None,
        FrameFault::Lengths { .. } => None,
        FrameFault::NoMemory => None,
    }
}

/// How the first bytes of a file go on, of which there are as many as a label has if the file has them.
pub fn head_of(bytes: &[u8], label: &Label, number: i32) -> Head
    requires few { length bytes.now ≤ 132 }
    requires numbered { negsuc 1 ≤ℤ number }
    ensures { IsHeadOf bytes.now label.now number result }
{
    match read_label_of(bytes, number, label) {
        Ok(Found::Whole) => Head::Whole,
        Ok(Found::Part) => Head::Part,
        Err(fault) => match label_offset(fault) {
            Some(at) => Head::Stops(at),
            None => Head::Stops(0),
        },
    }
}

/// How the first bytes of Meta go on.
pub fn meta_head(alloc: Global, bytes: &[u8]) -> Result<MetaHead, NoMemory>
    ensures { IfOk result (IsMetaPrefix bytes.now) }
{
    match read_meta_label(alloc, bytes) {
        Ok(Some(label)) => Ok(MetaHead::Whole(label)),
        Ok(None) => Ok(MetaHead::Part),
        Err(fault) => match label_offset(fault) {
            Some(at) => Ok(MetaHead::Stops(at)),
            None => Err(NoMemory),
        },
    }
}
