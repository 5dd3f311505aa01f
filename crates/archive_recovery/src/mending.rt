//! The writes of recovery. Reading has told where whole records end and which labels are missing.
ghost use Rattle.std.specs.Prelude.{◌≡◌, ◌<◌, IfSome, OnOk};
ghost use Rattle.pcp_base.specs.declared.file.FileId.TheVariants.{Index, Volume};
ghost use Rattle.pcp_outside.specs.Causes.{HasCause};
ghost use Rattle.pcp_outside.specs.Devices.{IsNumbered, LeavesOnly, Becomes, cut_to, length_of};
ghost use Rattle.archive_recovery.specs.Mending.{MayBeCut, mended_index, IndexMayBe, LastIsMended, LastMayBe, VolumesAreMended, VolumesMayBe};

use pcp_outside::{Disk, Failed, FileId, append_synced};

/// Where the whole records of a file end, and where the file does, in bytes.
#[derive(Clone, Copy)]
pub struct Tail {
    pub end: u64,
    pub length: u64,
}

/// The last volume that isn't empty: where its whole records end, `None` where its label isn't whole, and where it does.
#[derive(Clone, Copy)]
pub struct Last {
    pub number: u32,
    pub end: Option<u64>,
    pub length: u64,
}

/// Cuts off what stands behind a file's whole records.
pub(crate) fn cut_tail<D: Disk>(disk: &mut D, file: FileId, tail: Tail) -> Result<(), Failed>
    requires numbered { IsNumbered file }
    requires length { D.tells → tail.length ≡ length_of (D.held disk.old file) }
    ensures held { D.tells → OnOk result (Becomes file (cut_to tail.end (D.held disk.old file)) (D.held disk.old) (D.held disk.new)) }
    ensures any_moment { D.tells → LeavesOnly D.moment D.left_since disk.old disk.new (MayBeCut file tail.end (D.held disk.old)) }
    ensures wrapped { D.tells → D.wrapped_file disk.new ≡ D.wrapped_file disk.old }
    ensures cause { HasCause (D.faults disk.old) (D.faults disk.new) result }
{
    if tail.end >= tail.length {
        return Ok(());
    }
    disk.cut(file, tail.end)
}

/// Cuts off what the index has behind its whole entries, which end there; where its label isn't whole (`None`), it gets it anew.
pub(crate) fn mend_index<D: Disk>(
    disk: &mut D,
    label: &[u8],
    end: Option<u64>,
    length: u64,
) -> Result<(), Failed>
    requires { D.tells → length ≡ length_of (D.held disk.old Index) }
    ensures held { D.tells → OnOk result (Becomes Index (mended_index end label.now (D.held disk.old Index)) (D.held disk.old) (D.held disk.new)) }
    ensures any_moment { D.tells → LeavesOnly D.moment D.left_since disk.old disk.new (IndexMayBe end label.now (D.held disk.old)) }
    ensures wrapped { D.tells → D.wrapped_file disk.new ≡ D.wrapped_file disk.old }
    ensures cause { HasCause (D.faults disk.old) (D.faults disk.new) result }
{
    match end {
        Some(end) => cut_tail(disk, FileId::Index, Tail { end, length }),
        None => {
            cut_tail(disk, FileId::Index, Tail { end: 0, length })?;
            append_synced(disk, FileId::Index, label)
        }
    }
}

/// Cuts off what the last volume has behind its whole records.
fn mend_last<D: Disk>(disk: &mut D, last: Option<Last>) -> Result<(), Failed>
    requires numbered { IfSome last (λ l. l.number < 4294967295) }
    requires length { D.tells → IfSome last (λ l. l.length ≡ length_of (D.held disk.old (Volume l.number))) }
    ensures held { D.tells → OnOk result (LastIsMended last (D.held disk.old) (D.held disk.new)) }
    ensures any_moment { D.tells → LeavesOnly D.moment D.left_since disk.old disk.new (LastMayBe last (D.held disk.old)) }
    ensures wrapped { D.tells → D.wrapped_file disk.new ≡ D.wrapped_file disk.old }
    ensures cause { HasCause (D.faults disk.old) (D.faults disk.new) result }
{
    let Some(last) = last else {
        return Ok(());
    };
    cut_tail(
        disk,
        FileId::Volume(last.number),
        Tail {
            end: last.end.unwrap_or(0),
            length: last.length,
        },
    )
}

/// Cuts off what the last volume has behind its whole records, and gives the first volume's label where no volume has one.
pub(crate) fn mend_volumes<D: Disk>(
    disk: &mut D,
    label: &[u8],
    last: Option<Last>,
    bare: bool,
) -> Result<(), Failed>
    requires numbered { IfSome last (λ l. l.number < 4294967295) }
    requires length { D.tells → IfSome last (λ l. l.length ≡ length_of (D.held disk.old (Volume l.number))) }
    ensures held { D.tells → OnOk result (VolumesAreMended last bare label.now (D.held disk.old) (D.held disk.new)) }
    ensures any_moment { D.tells → LeavesOnly D.moment D.left_since disk.old disk.new (VolumesMayBe last bare label.now (D.held disk.old)) }
    ensures wrapped { D.tells → D.wrapped_file disk.new ≡ D.wrapped_file disk.old }
    ensures cause { HasCause (D.faults disk.old) (D.faults disk.new) result }
{
    mend_last(disk, last)?;
    if !bare {
        return Ok(());
    }
    append_synced(disk, FileId::Volume(0), label)
}
