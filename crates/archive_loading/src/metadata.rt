//! Meta, read record by record: of its bytes one record at a time is held.
ghost use Rattle.std.specs.Prelude.{◌≡◌, ◌-◌, ◌≤◌, length, drop, IfOk, IfErr, MatchBool, OnOk};
ghost use Rattle.pcp_base.specs.declared.file.FileId.TheVariants.{Meta};
ghost use Rattle.pcp_model.specs.Disk.{contents_of};
ghost use Rattle.archive_loading.specs.Looks.{Looks, Blames};
ghost use Rattle.archive_loading.specs.Standing.{IsSized};
ghost use Rattle.archive_loading.specs.Metadata.{FrameIsAdded, FrameIsBad, IsAdded, FitsAdded, IsRecordsRead, IsMetaPart, IsReadTo};

use crate::forward::{Taken, take_frame};
use crate::labels::{MetaHead, meta_head};
use crate::lack::Lack;
use crate::reading::front_of;
use crate::stamps::{later_by, stamp_in};
use archive_meta::{MetaFault, MetaState};
use pcp_base::{NoMemory, Stamp};
use pcp_model::Label;
use pcp_outside::{Disk, FileId};
use std::alloc::Global;

/// What stands in Meta at a byte.
pub enum Added {
    /// No whole record.
    End,
    /// No record that may stand there.
    Stops,
    /// A record, up to this byte.
    Record(u64),
}

/// What stands behind Meta's label.
#[derive(Drop)]
pub enum RecordsRead {
    /// Whole records up to this byte, the latest stamp of a domain's among them, and behind them at most one that wasn't
    /// written whole.
    Whole(MetaState, u64, Option<Stamp>),
    /// Something else, from this byte on.
    Stops(u64),
}

/// Where Meta's whole records end and where the file does, in bytes, and the latest stamp of a domain's record.
#[derive(Clone, Copy)]
pub struct MetaEnd {
    pub end: u64,
    pub length: u64,
    pub last: Option<Stamp>,
}

/// What Meta is.
#[derive(Drop)]
pub enum MetaPart {
    /// Less than its label, and this length.
    Begun(u64),
    /// Its label, records, and where these end.
    Whole(Label, MetaState, MetaEnd),
    /// Something else, from this byte on.
    Stops(u64),
}

/// Adds a framed record, and says whether it may follow those before it.
fn add_frame(
    alloc: Global,
    meta: &mut MetaState,
    last: &mut Option<Stamp>,
    frame: &[u8],
) -> Result<bool, NoMemory>
    requires { IsSized frame.now }
    ensures { IfOk result (λ added. MatchBool added (FrameIsAdded frame.now meta.old meta.new last.old last.new) (FrameIsBad frame.now meta.old meta.new)) }
{
    match meta.extend(alloc, frame) {
        Ok(()) => {
            *last = later_by(*last, stamp_in(frame));
            Ok(true)
        }
        Err(MetaFault::Record { at: _ }) => Ok(false),
        Err(MetaFault::NoMemory) => Err(NoMemory),
    }
}

/// Adds the record that stands in Meta at a byte behind the label, taken into the buffer.
fn add_next<D: Disk>(
    alloc: Global,
    disk: &mut D,
    meta: &mut MetaState,
    last: &mut Option<Stamp>,
    end: u64,
    at: u64,
    frame: &mut Vec<u8>,
) -> Result<Added, Lack>
    requires behind { 132 ≤ at }
    requires long { D.tells → (end ≡ length (contents_of (D.held disk.old) Meta)) × (132 ≤ end) }
    ensures added { D.tells → IfOk result (IsAdded (drop 132 (contents_of (D.held disk.old) Meta)) (at - 132) meta.old meta.new last.old last.new) }
    ensures within { IfOk result (FitsAdded end at) }
    ensures taken { D.tells → D.taken disk.new ≤ D.taken disk.old }
    ensures looks { Looks D.Disk disk.old disk.new }
    ensures cause { IfErr result (Blames D.Disk disk.old disk.new) }
    ensures quiet { OnOk result (D.faults disk.new ≡ D.faults disk.old) }
{
    match take_frame(disk, FileId::Meta, end, at, frame)? {
        Taken::Torn => return Ok(Added::End),
        Taken::Wrong => return Ok(Added::Stops),
        Taken::Frame => {}
    }
    let added = add_frame(alloc, meta, last, frame)?;
    if added {
        return Ok(Added::Record(at + frame.len() as u64));
    }
    Ok(Added::Stops)
}

/// The records behind the label of a Meta of this length.
fn read_records<D: Disk>(alloc: Global, disk: &mut D, end: u64) -> Result<RecordsRead, Lack>
    requires { D.tells → (end ≡ length (contents_of (D.held disk.old) Meta)) × (132 ≤ end) }
    ensures read { D.tells → IfOk result (IsRecordsRead (contents_of (D.held disk.old) Meta)) }
    ensures taken { D.tells → D.taken disk.new ≤ D.taken disk.old }
    ensures looks { Looks D.Disk disk.old disk.new }
    ensures cause { IfErr result (Blames D.Disk disk.old disk.new) }
    ensures quiet { OnOk result (D.faults disk.new ≡ D.faults disk.old) }
{
    let mut meta = MetaState::empty(alloc);
    let mut last = None;
    let mut at = 132;
    let mut frame = Vec::new(alloc);
    while at < end {
        match add_next(alloc, disk, &mut meta, &mut last, end, at, &mut frame)? {
            Added::End => return Ok(RecordsRead::Whole(meta, at, last)),
            Added::Stops => return Ok(RecordsRead::Stops(at)),
            Added::Record(next) => at = next,
        }
    }
    Ok(RecordsRead::Whole(meta, at, last))
}

/// Meta, read record by record. A torn end is its end.
pub fn load_meta<D: Disk>(alloc: Global, disk: &mut D) -> Result<MetaPart, Lack>
    ensures meta { D.tells → IfOk result (IsMetaPart (contents_of (D.held disk.old) Meta)) }
    ensures end { D.tells → IfOk result (IsReadTo (contents_of (D.held disk.old) Meta)) }
    ensures taken { D.tells → D.taken disk.new ≤ D.taken disk.old }
    ensures looks { Looks D.Disk disk.old disk.new }
    ensures cause { IfErr result (Blames D.Disk disk.old disk.new) }
    ensures quiet { OnOk result (D.faults disk.new ≡ D.faults disk.old) }
{
    let (head, length) = front_of(alloc, disk, FileId::Meta, 132)?;
    let label = match meta_head(alloc, head.as_slice())? {
        MetaHead::Part => return Ok(MetaPart::Begun(length)),
        MetaHead::Stops(at) => return Ok(MetaPart::Stops(at)),
        MetaHead::Whole(label) => label,
    };
    match read_records(alloc, disk, length)? {
        RecordsRead::Whole(meta, end, last) => {
            Ok(MetaPart::Whole(label, meta, MetaEnd { end, length, last }))
        }
        RecordsRead::Stops(at) => Ok(MetaPart::Stops(at)),
    }
}
