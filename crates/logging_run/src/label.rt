//! The label of the archive that a run makes.
ghost use Rattle.std.specs.Prelude.{◌≡◌, IfOk};
ghost use Rattle.logging_run.specs.Named.{run_label};

use archive_frame::Label;
use pcp_base::{NoMemory, Stamp, Text};
use std::alloc::Global;

/// The label of a run's archive, but for its moment, which is that of its first result.
pub(crate) fn run_label(alloc: Global) -> Result<Label, NoMemory>
    ensures { IfOk result (λ l. l ≡ run_label) }
{
    let host = Text::clean_copy(alloc, b"localhost")?;
    let zone = Text::clean_copy(alloc, b"UTC")?;
    let Some(start) = Stamp::build(0, 0) else {
        // It is a moment.
        unreachable!()
    };
    let Some(label) = Label::build(1, start, host, zone) else {
        // Both texts are shorter than their fields.
        unreachable!()
    };
    Ok(label)
}
