//! A file of the source becomes a file of the archive that is written, piece by piece, and is made sure.
ghost use Rattle.std.specs.Prelude.{◌≡◌, ◌+◌, ◌<◌, ◌≤◌, ◌++◌, length, take, drop, IfErr, OnOk};
ghost use Rattle.pcp_model.specs.Disk.{contents_of};
ghost use Rattle.pcp_outside.specs.Devices.{Becomes, IsNumbered, held_after_append, made_sure};
ghost use Rattle.archive_loading.specs.Looks.{Looks};
ghost use Rattle.log_export.specs.Copying.{AppendsOnly, IsBlamed, piece_of};

use crate::fault::ExportFault;
use archive_reader::ReaderFault;
use pcp_outside::{Disk, FileId};

/// Puts the bytes of a file of the source from an offset on, as many as the buffer holds, behind what that file has where it is written.
fn copy_piece<A: Disk, D: Disk>(
    source: &mut A,
    disk: &mut D,
    file: FileId,
    at: u64,
    piece: &mut [u8],
) -> Result<(), ExportFault>
    requires numbered { IsNumbered file }
    requires within { A.tells → at + length piece.old ≤ length (contents_of (A.held source.old) file) }
    ensures copied { A.tells → D.tells → OnOk result (Becomes file (held_after_append (D.held disk.old file) (take (length piece.old) (drop at (contents_of (A.held source.old) file)))) (D.held disk.old) (D.held disk.new)) }
    ensures any_moment { A.tells → D.tells → AppendsOnly D.Disk file (take (length piece.old) (drop at (contents_of (A.held source.old) file))) disk.old disk.new }
    ensures looks { Looks A.Disk source.old source.new }
    ensures later { D.faults disk.old ≤ D.faults disk.new }
    ensures cause { IfErr result (IsBlamed A.Disk source.old source.new D.Disk disk.old disk.new) }
    ensures source_quiet { OnOk result (A.faults source.new ≡ A.faults source.old) }
    ensures disk_quiet { OnOk result (D.faults disk.new ≡ D.faults disk.old) }
{
    match source.read(file, at, piece) {
        Ok(()) => {}
        Err(_) => return Err(ExportFault::Source(ReaderFault::DiskFault)),
    }
    disk.append(file, piece)?;
    Ok(())
}

/// How many bytes are copied at once, where so many are left and the buffer holds so many.
fn piece_length(left: u64, room: usize) -> usize
    requires left { 0 < left }
    requires room { 0 < room }
    ensures some { 0 < result }
    ensures within { result ≤ left }
    ensures fits { result ≤ room }
{
    if left < room as u64 {
        return left as usize;
    }
    room
}

/// Puts the bytes of a file of the source between two offsets behind what that file has where it is written.
fn copy_between<A: Disk, D: Disk>(
    source: &mut A,
    disk: &mut D,
    file: FileId,
    from: u64,
    to: u64,
    buffer: &mut [u8],
) -> Result<(), ExportFault>
    requires numbered { IsNumbered file }
    requires room { 0 < length buffer.old }
    requires order { from ≤ to }
    requires within { A.tells → from < to → to ≤ length (contents_of (A.held source.old) file) }
    ensures room { length buffer.new ≡ length buffer.old }
    ensures copied { A.tells → D.tells → OnOk result (Becomes file (held_after_append (D.held disk.old file) (piece_of from to (contents_of (A.held source.old) file))) (D.held disk.old) (D.held disk.new)) }
    ensures any_moment { A.tells → D.tells → AppendsOnly D.Disk file (piece_of from to (contents_of (A.held source.old) file)) disk.old disk.new }
    ensures looks { Looks A.Disk source.old source.new }
    ensures later { D.faults disk.old ≤ D.faults disk.new }
    ensures cause { IfErr result (IsBlamed A.Disk source.old source.new D.Disk disk.old disk.new) }
    ensures source_quiet { OnOk result (A.faults source.new ≡ A.faults source.old) }
    ensures disk_quiet { OnOk result (D.faults disk.new ≡ D.faults disk.old) }
{
    let mut at = from;
    while at < to {
        let count = piece_length(to - at, buffer.len());
        copy_piece(source, disk, file, at, &mut buffer[..count])?;
        at += count as u64;
    }
    Ok(())
}

/// Writes a file: these bytes, and behind them those of the source's file between two offsets. All of them are made sure.
pub(crate) fn lay<A: Disk, D: Disk>(
    source: &mut A,
    disk: &mut D,
    file: FileId,
    head: &[u8],
    from: u64,
    to: u64,
    buffer: &mut [u8],
) -> Result<(), ExportFault>
    requires numbered { IsNumbered file }
    requires room { 0 < length buffer.old }
    requires order { from ≤ to }
    requires within { A.tells → from < to → to ≤ length (contents_of (A.held source.old) file) }
    ensures room { length buffer.new ≡ length buffer.old }
    ensures laid { A.tells → D.tells → OnOk result (Becomes file (made_sure (D.held disk.old file) (head.now ++ piece_of from to (contents_of (A.held source.old) file))) (D.held disk.old) (D.held disk.new)) }
    ensures any_moment { A.tells → D.tells → AppendsOnly D.Disk file (head.now ++ piece_of from to (contents_of (A.held source.old) file)) disk.old disk.new }
    ensures looks { Looks A.Disk source.old source.new }
    ensures later { D.faults disk.old ≤ D.faults disk.new }
    ensures cause { IfErr result (IsBlamed A.Disk source.old source.new D.Disk disk.old disk.new) }
    ensures source_quiet { OnOk result (A.faults source.new ≡ A.faults source.old) }
    ensures disk_quiet { OnOk result (D.faults disk.new ≡ D.faults disk.old) }
{
    disk.append(file, head)?;
    copy_between(source, disk, file, from, to, buffer)?;
    disk.sync(file)?;
    Ok(())
}
