//! The record that ends at an offset.
ghost use Rattle.std.specs.Prelude.{◌≡◌, ◌+◌, ◌-◌, ◌<◌, ◌≤◌, ◌++◌, length, take, drop, IfOk, IfErr, OnOk};
ghost use Rattle.pcp_base.specs.Fields.{number_at};
ghost use Rattle.pcp_model.specs.Disk.{contents_of};
ghost use Rattle.pcp_base.specs.declared.file.FileId.TheVariants.{Volume};
ghost use Rattle.archive_frame.specs.Steps.{IsSize};
ghost use Rattle.archive_loading.specs.Ending.{IsLastRecord, IsTailed, IsWholeRecord};
ghost use Rattle.archive_loading.specs.Looks.{Looks, Blames};
ghost use Rattle.archive_loading.specs.Taking.{TookBack, TookBefore};

use crate::forward::{Said, item_of, size_said, word_of};
use crate::lack::Lack;
use crate::reading::take_bytes;
use archive_frame::{Step, step_back};
use pcp_base::{Bytes, Item, List, NoMemory};
use pcp_outside::{Disk, FileId};
use std::alloc::Global;

/// What ends at an offset of a volume.
#[derive(Drop)]
pub enum Last {
    /// No record that begins behind the label.
    Nothing,
    /// A record of no item, from this offset on.
    Bad(u64),
    /// An item's record.
    Item(Item),
}

fn put_behind(out: &mut Vec<u8>, bytes: &[u8]) -> Result<(), NoMemory>
    ensures { OnOk result (out.new.items ≡ out.old.items ++ bytes.now) }
{
    out.extend_from_slice(bytes)?;
    Ok(())
}

/// The bytes of a record of which the last word is known.
fn take_before<D: Disk>(
    alloc: Global,
    disk: &mut D,
    number: u32,
    at: u64,
    size: usize,
    tail: &[u8],
) -> Result<Bytes, Lack>
    requires numbered { number < 4294967295 }
    requires sized { IsSize size }
    requires above { 132 + size ≤ at }
    requires word { length tail.now ≡ 4 }
    requires within { D.tells → at ≤ length (contents_of (D.held disk.old) (Volume number)) }
    ensures frame { D.tells → IfOk result (λ frame. frame ≡ take (size - 4) (drop (at - size) (contents_of (D.held disk.old) (Volume number))) ++ tail.now) }
    ensures count { D.tells → D.taken disk.new ≤ D.taken disk.old + (size - 4) }
    ensures looks { Looks D.Disk disk.old disk.new }
    ensures cause { IfErr result (Blames D.Disk disk.old disk.new) }
    ensures quiet { OnOk result (D.faults disk.new ≡ D.faults disk.old) }
{
    let mut frame = Vec::new(alloc);
    take_bytes(
        disk,
        FileId::Volume(number),
        at - size as u64,
        size - 4,
        &mut frame,
    )?;
    put_behind(&mut frame, tail)?;
    Ok(List::from_vec(frame))
}

/// The record that these bytes are, which stand from an offset on.
fn last_in(alloc: Global, frame: &[u8], first: u64) -> Result<Last, NoMemory>
    ensures { IsTailed frame.now → IfOk result (IsWholeRecord frame.now first) }
{
    match step_back(frame, frame.len()) {
        Ok(Step::Payload { from, to, next: _ }) => match item_of(&frame[from..to]) {
            Some(item) => Ok(Last::Item(item.to_item(alloc)?)),
            None => Ok(Last::Bad(first)),
        },
        Ok(Step::End) => Ok(Last::Nothing),
        Err(_) => Ok(Last::Nothing),
    }
}

/// The record whose last word these bytes are.
fn last_by<D: Disk>(
    alloc: Global,
    disk: &mut D,
    number: u32,
    at: u64,
    tail: &[u8],
) -> Result<Last, Lack>
    requires numbered { number < 4294967295 }
    requires above { 144 ≤ at }
    requires word { length tail.now ≡ 4 }
    requires there { D.tells → (at ≤ length (contents_of (D.held disk.old) (Volume number))) × (tail.now ≡ take 4 (drop (at - 4) (contents_of (D.held disk.old) (Volume number)))) }
    ensures found { D.tells → IfOk result (IsLastRecord (contents_of (D.held disk.old) (Volume number)) at) }
    ensures count { D.tells → TookBefore (contents_of (D.held disk.old) (Volume number)) at (D.taken disk.old) (D.taken disk.new) }
    ensures looks { Looks D.Disk disk.old disk.new }
    ensures cause { IfErr result (Blames D.Disk disk.old disk.new) }
    ensures quiet { OnOk result (D.faults disk.new ≡ D.faults disk.old) }
{
    match size_said(word_of(tail), at - 132) {
        Said::Torn => Ok(Last::Nothing),
        Said::Wrong => Ok(Last::Nothing),
        Said::Whole(size) => {
            let frame = take_before(alloc, disk, number, at, size, tail)?;
            let last = last_in(alloc, frame.as_slice(), at - size as u64)?;
            Ok(last)
        }
    }
}

/// What ends at an offset of a volume. Its last length word is taken, and then its other bytes.
pub fn last_record<D: Disk>(alloc: Global, disk: &mut D, number: u32, at: u64) -> Result<Last, Lack>
    requires numbered { number < 4294967295 }
    requires within { D.tells → at ≤ length (contents_of (D.held disk.old) (Volume number)) }
    ensures found { D.tells → IfOk result (IsLastRecord (contents_of (D.held disk.old) (Volume number)) at) }
    ensures count { D.tells → TookBack (contents_of (D.held disk.old) (Volume number)) at (D.taken disk.old) (D.taken disk.new) }
    ensures looks { Looks D.Disk disk.old disk.new }
    ensures cause { IfErr result (Blames D.Disk disk.old disk.new) }
    ensures quiet { OnOk result (D.faults disk.new ≡ D.faults disk.old) }
{
    if at < 144 {
        return Ok(Last::Nothing);
    }
    let mut tail = Vec::new(alloc);
    take_bytes(disk, FileId::Volume(number), at - 4, 4, &mut tail)?;
    last_by(alloc, disk, number, at, &tail)
}
