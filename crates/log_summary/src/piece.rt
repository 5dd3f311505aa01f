//! Pieces of volumes, as they are read.
ghost use Rattle.std.specs.Prelude.{◌≡◌, ◌+◌, ◌<◌, ◌≤◌, [], ◌∷◌, ◌++◌, ◌⊎◌, length, take, drop, IfOk, IfErr, OnOk};
ghost use Rattle.std.specs.List.{AllByRecursion};
ghost use Rattle.pcp_base.specs.declared.file.FileId.TheVariants.{Volume};
ghost use Rattle.pcp_model.specs.Disk.{contents_of};
ghost use Rattle.pcp_outside.specs.Causes.{Rose};
ghost use Rattle.archive_loading.specs.Looks.{Looks, Blames};
ghost use Rattle.archive_reader.specs.declared.fault.ReaderFault.TheVariants.{DiskFault, NoMemory as Refused};
ghost use Rattle.log_summary.specs.Jobs.{IsWithin, IsPiece};

use archive_loading::Lack;
use archive_reader::ReaderFault;
use pcp_base::NoMemory;
use pcp_outside::{Disk, FileId};
use std::alloc::Global;

/// What is to be read of a volume next: so many bytes from an offset on, or none.
#[derive(Clone, Copy)]
pub struct Want {
    pub number: u32,
    pub at: u64,
    pub count: u64,
}

/// Bytes of a volume from an offset on.
#[derive(Drop)]
pub struct Piece {
    pub number: u32,
    pub at: u64,
    pub bytes: Vec<u8>,
}

fn make_room(out: &mut Vec<u8>, count: usize) -> Result<(), NoMemory>
    requires { length out.old.items + count < 18446744073709551616 }
    ensures held { OnOk result ((length out.new.items ≡ length out.old.items + count) × (take (length out.old.items) out.new.items ≡ out.old.items)) }
{
    let held = out.len();
    out.resize(held + count, 0)?;
    Ok(())
}

// Puts bytes of a volume, from an offset on, behind what the buffer holds.
fn take_bytes<D: Disk>(
    disk: &mut D,
    number: u32,
    at: u64,
    count: usize,
    out: &mut Vec<u8>,
) -> Result<(), Lack>
    requires numbered { number < 4294967295 }
    requires room { length out.old.items + count < 18446744073709551616 }
    requires within { D.tells → at + count ≤ length (contents_of (D.held disk.old) (Volume number)) }
    ensures bytes { D.tells → OnOk result (out.new.items ≡ out.old.items ++ take count (drop at (contents_of (D.held disk.old) (Volume number)))) }
    ensures looks { Looks D.Disk disk.old disk.new }
    ensures cause { IfErr result (Blames D.Disk disk.old disk.new) }
    ensures quiet { OnOk result (D.faults disk.new ≡ D.faults disk.old) }
{
    let held = out.len();
    make_room(out, count)?;
    disk.read(FileId::Volume(number), at, &mut out[held..])?;
    Ok(())
}

// Reads what is wanted of a volume. No volume has the greatest number of 32 bits.
fn read_piece<D: Disk>(alloc: Global, want: Want, disk: &mut D) -> Result<Piece, Lack>
    requires { D.tells → IsWithin (contents_of (D.held disk.old)) want }
    ensures piece { D.tells → IfOk result (IsPiece (contents_of (D.held disk.old))) }
    ensures looks { Looks D.Disk disk.old disk.new }
    ensures cause { IfErr result (Blames D.Disk disk.old disk.new) }
    ensures quiet { OnOk result (D.faults disk.new ≡ D.faults disk.old) }
{
    let Want { number, at, count } = want;
    let mut bytes = Vec::new(alloc);
    if count == 0 {
        return Ok(Piece { number, at, bytes });
    }
    if number == u32::MAX {
        return Err(Lack::Memory);
    }
    take_bytes(disk, number, at, count as usize, &mut bytes)?;
    Ok(Piece { number, at, bytes })
}

fn push(pieces: &mut Vec<Piece>, piece: Piece) -> Result<(), NoMemory>
    ensures { OnOk result (pieces.new.items ≡ pieces.old.items ++ piece ∷ []) }
{
    pieces.push(piece)?;
    Ok(())
}

/// Reads what is wanted of some volumes, in their order.
pub fn read_pieces<D: Disk>(
    alloc: Global,
    wants: &[Want],
    disk: &mut D,
) -> Result<Vec<Piece>, ReaderFault>
    requires { D.tells → AllByRecursion (IsWithin (contents_of (D.held disk.old))) wants.now }
    ensures pieces { D.tells → IfOk result (λ pieces. AllByRecursion (IsPiece (contents_of (D.held disk.old))) pieces.items) }
    ensures looks { Looks D.Disk disk.old disk.new }
    ensures cause { IfErr result (λ e. e ≡ DiskFault → Rose (D.faults disk.old) (D.faults disk.new)) }
    ensures fault { IfErr result (λ e. (e ≡ DiskFault) ⊎ (e ≡ Refused)) }
    ensures quiet { OnOk result (D.faults disk.new ≡ D.faults disk.old) }
{
    let mut pieces = Vec::new(alloc);
    for want in wants {
        let piece = read_piece(alloc, *want, disk)?;
        push(&mut pieces, piece)?;
    }
    Ok(pieces)
}
