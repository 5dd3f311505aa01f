//! What a readable archive's first breach is.
ghost use Rattle.std.specs.Prelude.{◌≡◌, IfOk, IfErr, OnOk};
ghost use Rattle.std.specs.List.{AllByRecursion};
ghost use Rattle.pcp_model.specs.Disk.{contents_of};
ghost use Rattle.archive_loading.specs.Loaded.{IsMeasured};
ghost use Rattle.archive_loading.specs.Looks.{Looks, Blames};
ghost use Rattle.archive_check.specs.Marks.{mark_at};
ghost use Rattle.archive_check.specs.Verdicts.{IsStampAfter, IsMissing, IsEarly, IsFound, IsVerdict, IsTold, IsToldOf, IsToldBy};

use crate::afters::{first_after, first_item_after};
use crate::between::neighbours;
use crate::fault::CheckFault;
use crate::marks::{Marks, marks_of};
use crate::pointing::{Look, first_bad, see, top_of};
use crate::tally::no_records;
use crate::walks::{walk, walk_volumes};
use archive_loading::{Lack, length_of};
use pcp_base::Stamp;
use pcp_outside::{Disk, FileId};
use std::alloc::Global;
use temporal_index::{Entry, Index};

/// Whether a readable archive is sound.
#[derive(Clone, Copy)]
pub enum Verdict {
    /// It is, with so many items.
    Sound(u64),
    /// It isn't, and this is its first breach.
    Unsound(CheckFault),
}

/// The breach of an entry that points to no boundary, or is of a volume above the last.
fn missing<D: Disk>(
    alloc: Global,
    disk: &mut D,
    at: u64,
    entry: &Entry,
    seen: Look,
) -> Result<CheckFault, Lack>
    ensures told { IfOk result IsTold }
    ensures fault { D.tells → IfOk result (IsMissing (contents_of (D.held disk.old)) at entry.now seen) }
    ensures looks { Looks D.Disk disk.old disk.new }
    ensures cause { IfErr result (Blames D.Disk disk.old disk.new) }
    ensures quiet { OnOk result (D.faults disk.new ≡ D.faults disk.old) }
{
    match seen {
        Look::Above => Ok(CheckFault::Boundary {
            entry: at,
            file: FileId::Volume(entry.volume),
            below: 0,
            above: 0,
        }),
        Look::Misses(file, offset) => {
            let (below, above) = neighbours(alloc, disk, file, offset)?;
            Ok(CheckFault::Boundary {
                entry: at,
                file,
                below,
                above,
            })
        }
        Look::Skipped => Err(Lack::Memory),
        Look::Points(_, _) => Err(Lack::Memory),
    }
}

/// The first stamp after a moment: of Meta where this latest time is after it, else of the volumes.
fn stamp_after<D: Disk>(
    alloc: Global,
    disk: &mut D,
    volumes: &[(u32, u64)],
    domain: u64,
    t: Stamp,
) -> Result<Option<Stamp>, Lack>
    requires { D.tells → AllByRecursion (IsMeasured (contents_of (D.held disk.old))) volumes.now }
    ensures found { D.tells → IfOk result (IsStampAfter (contents_of (D.held disk.old)) volumes.now domain t) }
    ensures looks { Looks D.Disk disk.old disk.new }
    ensures cause { IfErr result (Blames D.Disk disk.old disk.new) }
    ensures quiet { OnOk result (D.faults disk.new ≡ D.faults disk.old) }
{
    if domain > t.microseconds() {
        let end = length_of(disk, FileId::Meta)?;
        return first_after(alloc, disk, FileId::Meta, end, t);
    }
    first_item_after(alloc, disk, volumes, t)
}

/// The breach of an entry that is stamped before a record in front of it.
fn early<D: Disk>(
    alloc: Global,
    disk: &mut D,
    volumes: &[(u32, u64)],
    at: u64,
    entry: &Entry,
    seen: Look,
) -> Result<CheckFault, Lack>
    requires { D.tells → AllByRecursion (IsMeasured (contents_of (D.held disk.old))) volumes.now }
    ensures told { IfOk result IsTold }
    ensures fault { D.tells → IfOk result (IsEarly (contents_of (D.held disk.old)) volumes.now at entry.now seen) }
    ensures looks { Looks D.Disk disk.old disk.new }
    ensures cause { IfErr result (Blames D.Disk disk.old disk.new) }
    ensures quiet { OnOk result (D.faults disk.new ≡ D.faults disk.old) }
{
    let Look::Points(domain, _) = seen else {
        return Err(Lack::Memory);
    };
    match stamp_after(alloc, disk, volumes, domain, entry.stamp)? {
        Some(stamp) => Ok(CheckFault::Late { entry: at, stamp }),
        None => Err(Lack::Memory),
    }
}

/// The first breach of an entry.
fn entry_fault<D: Disk>(
    alloc: Global,
    disk: &mut D,
    volumes: &[(u32, u64)],
    index: &Index,
    marks: &Marks,
) -> Result<Option<CheckFault>, Lack>
    requires { D.tells → AllByRecursion (IsMeasured (contents_of (D.held disk.old))) volumes.now }
    ensures told { IfOk result IsToldOf }
    ensures found { D.tells → IfOk result (IsFound (contents_of (D.held disk.old)) volumes.now index.now (mark_at marks.now)) }
    ensures looks { Looks D.Disk disk.old disk.new }
    ensures cause { IfErr result (Blames D.Disk disk.old disk.new) }
    ensures quiet { OnOk result (D.faults disk.new ≡ D.faults disk.old) }
{
    let top = top_of(volumes);
    if let Some((at, entry)) = first_bad(index, top, marks, false) {
        let fault = missing(alloc, disk, at, &entry, see(&entry, top, marks))?;
        return Ok(Some(fault));
    }
    if let Some((at, entry)) = first_bad(index, top, marks, true) {
        let seen = see(&entry, top, marks);
        let fault = early(alloc, disk, volumes, at, &entry, seen)?;
        return Ok(Some(fault));
    }
    Ok(None)
}

/// Whether a readable archive with this index and these volumes is sound.
pub fn judge<D: Disk>(
    alloc: Global,
    disk: &mut D,
    volumes: &[(u32, u64)],
    index: &Index,
) -> Result<Verdict, Lack>
    requires { D.tells → AllByRecursion (IsMeasured (contents_of (D.held disk.old))) volumes.now }
    ensures told { IfOk result IsToldBy }
    ensures verdict { D.tells → IfOk result (IsVerdict (contents_of (D.held disk.old)) volumes.now index.now) }
    ensures looks { Looks D.Disk disk.old disk.new }
    ensures cause { IfErr result (Blames D.Disk disk.old disk.new) }
    ensures quiet { OnOk result (D.faults disk.new ≡ D.faults disk.old) }
{
    let mut marks = marks_of(alloc, index)?;
    let end = length_of(disk, FileId::Meta)?;
    walk(alloc, disk, FileId::Meta, end, &mut marks, no_records())?;
    let tally = walk_volumes(alloc, disk, volumes, &mut marks)?;
    let count = tally.count;
    if let Some((first, second)) = tally.fall {
        return Ok(Verdict::Unsound(CheckFault::Items { first, second }));
    }
    match entry_fault(alloc, disk, volumes, index, &marks)? {
        Some(fault) => Ok(Verdict::Unsound(fault)),
        None => Ok(Verdict::Sound(count)),
    }
}
