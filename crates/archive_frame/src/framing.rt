//! Records put behind what a buffer of the caller's holds: a label, and a payload between its two length words. After
//! a refusal the buffer may hold a part of the record.
ghost use Rattle.std.specs.Prelude.{◌≡◌, ◌+◌, ◌≤◌, ◌≤ℤ◌, ◌++◌, negsuc, length, OnOk};
ghost use Rattle.pcp_model.specs.Frame.{frame};
ghost use Rattle.pcp_model.specs.Labels.{label as spelled};
ghost use Rattle.archive_frame.specs.Labels.{LabelInRange};

use crate::writing::label_bytes;
use pcp_base::NoMemory;
use pcp_model::{Label, put_word};

/// Puts the label of the file with this number: -1 Meta, -2 the index, else the volume's.
pub fn put_label(out: &mut Vec<u8>, label: &Label, volume: i32) -> Result<(), NoMemory>
    requires { negsuc 1 ≤ℤ volume }
    ensures bytes { OnOk result (out.new.items ≡ out.old.items ++ spelled label.now volume) }
    ensures length { OnOk result (length out.new.items ≡ length out.old.items + 132) }
    // What was written is read again: each number fits its word, and the texts their fields.
    ensures range { OnOk result (LabelInRange label.now volume) }
{
    let bytes = label_bytes(label, volume);
    out.extend_from_slice(&bytes)?;
    Ok(())
}
