//! The label of an archive that a session makes.
ghost use Rattle.std.specs.Prelude.{◌≡◌, IfOk};
ghost use Rattle.logging_session.specs.Written.{starting};

use archive_frame::Label;
use pcp_base::{Duplicate, NoMemory, Stamp};
use std::alloc::Global;

/// The same label, but for its moment.
pub(crate) fn label_at(alloc: Global, label: &Label, stamp: Stamp) -> Result<Label, NoMemory>
    ensures { IfOk result (λ l. l ≡ starting label.now stamp) }
{
    let host = label.host().copy(alloc)?;
    let zone = label.zone().copy(alloc)?;
    match Label::build(label.pid(), stamp, host, zone) {
        Some(copy) => Ok(copy),
        // Both texts are as long as they were.
        None => Err(NoMemory),
    }
}
