//! The record that begins at an offset.
ghost use Rattle.std.specs.Prelude.{◌≡◌, ◌≢◌, ◌+◌, ◌-◌, ◌<◌, ◌≤◌, ◌++◌, ℕ, length, take, drop, [], IfOk, IfErr, OnOk};
ghost use Rattle.pcp_base.specs.Fields.{number_at};
ghost use Rattle.pcp_model.specs.Disk.{contents_of};
ghost use Rattle.pcp_base.specs.declared.file.FileId.TheVariants.{Volume};
ghost use Rattle.pcp_outside.specs.Devices.{IsNumbered};
ghost use Rattle.archive_loading.specs.Looks.{Looks, Blames};
ghost use Rattle.archive_loading.specs.Taking.{volume_bytes, Took, TookBehind};
ghost use Rattle.archive_loading.specs.Standing.{IsSized, IsSaid, IsTaken, FitsIn, FitsNext, IsItemOf, IsItemIn, IsNextRecord};

use crate::lack::Lack;
use crate::reading::take_bytes;
use archive_frame::{Step, step_forward};
use archive_volume::ItemView;
use pcp_base::be32;
use pcp_outside::{Disk, FileId};

/// What was taken of the disk at an offset into the buffer.
pub enum Taken {
    /// Nothing: fewer bytes stand there than a record has, or its length word says.
    Torn,
    /// Nothing: no record has such a length word.
    Wrong,
    /// As many bytes as the length word says, it among them.
    Frame,
}

/// What stands at an offset of a volume.
#[derive(Drop)]
pub enum Next<'a> {
    /// The file's end, or a record that wasn't written whole.
    End,
    /// No item's record.
    Bad,
    /// An item's record, up to this offset.
    Item(ItemView<'a>, u64),
}

/// What a length word says of a record of which so many bytes are there.
pub enum Said {
    Torn,
    Wrong,
    Whole(usize),
}

pub fn size_said(word: u32, left: u64) -> Said
    ensures { IsSaid word left result }
{
    if word < 12 || word > 16_777_216 {
        return Said::Wrong;
    }
    if left < u64::from(word) {
        return Said::Torn;
    }
    Said::Whole(word as usize)
}

pub fn word_of(frame: &[u8]) -> u32
    requires { 4 ≤ length frame.now }
    ensures { result ≡ number_at frame.now 0 }
{
    be32(frame, 0).unwrap_or(0)
}

/// The other bytes of a record whose length word the buffer holds.
fn take_rest<D: Disk>(
    disk: &mut D,
    file: FileId,
    end: u64,
    at: u64,
    frame: &mut Vec<u8>,
) -> Result<Taken, Lack>
    requires numbered { IsNumbered file }
    requires word { length frame.old.items ≡ 4 }
    requires left { at + 4 ≤ end }
    requires there { D.tells → (end ≡ length (contents_of (D.held disk.old) file)) × (frame.old.items ≡ take 4 (drop at (contents_of (D.held disk.old) file))) }
    ensures taken { D.tells → IfOk result (IsTaken (contents_of (D.held disk.old) file) at frame.new.items) }
    ensures within { IfOk result (FitsIn end at frame.new.items) }
    ensures count { D.tells → TookBehind (contents_of (D.held disk.old) file) at (D.taken disk.old) (D.taken disk.new) }
    ensures most { D.tells → D.taken disk.new ≤ D.taken disk.old + volume_bytes file 16777212 }
    ensures looks { Looks D.Disk disk.old disk.new }
    ensures cause { IfErr result (Blames D.Disk disk.old disk.new) }
    ensures quiet { OnOk result (D.faults disk.new ≡ D.faults disk.old) }
{
    match size_said(word_of(frame), end - at) {
        Said::Torn => Ok(Taken::Torn),
        Said::Wrong => Ok(Taken::Wrong),
        Said::Whole(size) => {
            take_bytes(disk, file, at + 4, size - 4, frame)?;
            Ok(Taken::Frame)
        }
    }
}

/// The record's bytes at an offset of a file of this length, in place of what the buffer held: its length word is taken, and
/// then its other bytes.
pub fn take_frame<D: Disk>(
    disk: &mut D,
    file: FileId,
    end: u64,
    at: u64,
    frame: &mut Vec<u8>,
) -> Result<Taken, Lack>
    requires numbered { IsNumbered file }
    requires end { D.tells → end ≡ length (contents_of (D.held disk.old) file) }
    ensures taken { D.tells → IfOk result (IsTaken (contents_of (D.held disk.old) file) at frame.new.items) }
    ensures within { IfOk result (FitsIn end at frame.new.items) }
    ensures count { D.tells → Took (contents_of (D.held disk.old) file) at (D.taken disk.old) (D.taken disk.new) }
    ensures most { D.tells → D.taken disk.new ≤ D.taken disk.old + volume_bytes file 16777216 }
    ensures looks { Looks D.Disk disk.old disk.new }
    ensures cause { IfErr result (Blames D.Disk disk.old disk.new) }
    ensures quiet { OnOk result (D.faults disk.new ≡ D.faults disk.old) }
{
    if at >= end || end - at < 4 {
        return Ok(Taken::Torn);
    }
    frame.clear();
    take_bytes(disk, file, at, 4, frame)?;
    take_rest(disk, file, end, at, frame)
}

/// The item that a payload is.
pub fn item_of(payload: &[u8]) -> Option<ItemView<'_>>
    ensures { IsItemOf payload.now result }
{
    match ItemView::read(payload) {
        Ok(item) => Some(item),
        Err(_) => None,
    }
}

/// The item whose record these bytes are.
fn item_in(frame: &[u8]) -> Option<ItemView<'_>>
    requires { IsSized frame.now }
    ensures { IsItemIn frame.now result }
{
    match step_forward(frame, 0) {
        Ok(Step::Payload { from, to, next: _ }) => item_of(&frame[from..to]),
        Ok(Step::End) => None,
        Err(_) => None,
    }
}

/// What stands at an offset of a volume of this length. Its length word is taken, and then its other bytes, in place of what
/// the buffer held; the item is looked at there.
pub fn next_record<'a, D: Disk>(
    disk: &mut D,
    number: u32,
    end: u64,
    at: u64,
    frame: &'a mut Vec<u8>,
) -> Result<Next<'a>, Lack>
    requires numbered { number < 4294967295 }
    requires end { D.tells → end ≡ length (contents_of (D.held disk.old) (Volume number)) }
    ensures found { D.tells → IfOk result (IsNextRecord (contents_of (D.held disk.old) (Volume number)) at) }
    ensures within { IfOk result (FitsNext end at) }
    ensures count { D.tells → Took (contents_of (D.held disk.old) (Volume number)) at (D.taken disk.old) (D.taken disk.new) }
    ensures looks { Looks D.Disk disk.old disk.new }
    ensures cause { IfErr result (Blames D.Disk disk.old disk.new) }
    ensures quiet { OnOk result (D.faults disk.new ≡ D.faults disk.old) }
{
    match take_frame(disk, FileId::Volume(number), end, at, frame)? {
        Taken::Torn => return Ok(Next::End),
        Taken::Wrong => return Ok(Next::Bad),
        Taken::Frame => {}
    }
    let next = at + frame.len() as u64;
    match item_in(frame) {
        Some(item) => Ok(Next::Item(item, next)),
        None => Ok(Next::Bad),
    }
}
