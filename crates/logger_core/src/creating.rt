//! The writes of a creation: the labels of Meta, of the index and of the first volume.
ghost use Rattle.std.specs.Prelude.{pos, OnOk};
ghost use Rattle.pcp_model.specs.Disk.{IsEmpty, contents_of};
ghost use Rattle.pcp_outside.specs.Causes.{HasCause};
ghost use Rattle.pcp_outside.specs.Devices.{LeavesOnly};
ghost use Rattle.archive_frame.specs.Labels.{LabelInRange};
ghost use Rattle.logger_core.specs.Created.{HasNoItem, HoldsLabels};

use archive_frame::label_bytes;
use pcp_model::Label;
use pcp_outside::{Disk, Failed, FileId, append_synced};

/// Appends and syncs the three labels, over files that hold nothing.
pub(crate) fn write_labels<D: Disk>(disk: &mut D, label: &Label) -> Result<(), Failed>
    ensures ok { D.tells → IsEmpty (contents_of (D.held disk.old)) → OnOk result (HoldsLabels label.now (D.held disk.new)) }
    ensures any_moment { D.tells → IsEmpty (contents_of (D.held disk.old)) → LeavesOnly D.moment D.left_since disk.old disk.new HasNoItem }
    ensures range { LabelInRange label.now (pos 0) }
    ensures cause { HasCause (D.faults disk.old) (D.faults disk.new) result }
{
    let meta = label_bytes(label, -1);
    let index = label_bytes(label, -2);
    let volume = label_bytes(label, 0);
    append_synced(disk, FileId::Meta, &meta)?;
    append_synced(disk, FileId::Index, &index)?;
    append_synced(disk, FileId::Volume(0), &volume)
}
