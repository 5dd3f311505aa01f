//! The command `dump`: the label of an archive and all its items.
ghost use Rattle.std.specs.Prelude.{◌≡◌, ◌++◌, ℕ, List as Sequence, false, Some, None, IfOk, IfErr, OnOk, OnErr};
ghost use Rattle.pcp_model.specs.Disk.{contents_of};
ghost use Rattle.archive_loading.specs.Looks.{Looks};
ghost use Rattle.archive_loading.specs.Loaded.{IsOver};
ghost use Rattle.pm_tasks.specs.Archives.{TurnedAway};
ghost use Rattle.pcp_outside.specs.Sides.{sink_side};
ghost use Rattle.pm_words.specs.Serving.{MeetsSending};
ghost use Rattle.pm_words.specs.Sides.{disk_side};
ghost use Rattle.pm_words.specs.Streams.{Turns};
ghost use Rattle.pm_tasks.specs.commands.dump.{label_line, IsTurnedAway, HasNext, BadNext, HasPut, HasPutSome, HasSaid, HasStopped, BadRecord, dump as meaning_of_dump};

use archive_reader::{ArchiveReader, Place};
use pcp_base::{Bytes, List, NoMemory};
use pcp_model::Label;
use pcp_outside::{Disk, Sink};
use pm_print::ItemLines;
use pm_words::{Refusal, send};
use std::alloc::Global;

// How many bytes are written at once, or a little more.
const FULL_PAGE: usize = 65_536;

// `archive PID HOST ZONE`
fn put_label(alloc: Global, out: &mut Vec<u8>, label: &Label) -> Result<(), NoMemory>
    ensures { OnOk result (out.new.items ≡ out.old.items ++ label_line (Some label.now)) }
{
    let pid = label.pid();
    let words = format!(in alloc; "archive {pid} ")?;
    out.extend_from_slice(words.as_bytes())?;
    out.extend_from_slice(label.host().as_slice())?;
    out.push(b' ')?;
    out.extend_from_slice(label.zone().as_slice())?;
    out.push(b'\n')?;
    Ok(())
}

// The label's line, or `archive none`.
fn put_head(alloc: Global, out: &mut Vec<u8>, reader: &ArchiveReader) -> Result<(), NoMemory>
    ensures { OnOk result (out.new.items ≡ out.old.items ++ label_line reader.now.label) }
{
    match reader.label() {
        Some(label) => put_label(alloc, out, label),
        None => {
            out.extend_from_slice(b"archive none\n")?;
            Ok(())
        }
    }
}

// The item of the next record, if one follows, and the place goes behind it. Its record is read into the frame.
fn put_next<D: Disk>(
    alloc: Global,
    disk: &mut D,
    reader: &ArchiveReader,
    place: &mut Place,
    frame: &mut Vec<u8>,
    lines: &mut ItemLines<'_>,
    out: &mut Vec<u8>,
) -> Result<bool, Refusal>
    requires over { D.tells → IsOver (contents_of (D.held disk.old)) reader.now }
    requires lines { lines.old ≡ reader.now.records }
    ensures same { lines.new ≡ lines.old }
    ensures put { D.tells → IfOk result (HasNext (contents_of (D.held disk.old)) reader.now place.old place.new out.old.items out.new.items) }
    ensures turned { IfErr result (TurnedAway (BadNext reader.now place.old) (disk_side D.Disk disk.old disk.new)) }
    ensures looks { Looks D.Disk disk.old disk.new }
    ensures quiet { OnOk result (D.faults disk.new ≡ D.faults disk.old) }
{
    match reader.view_at(disk, *place, frame)? {
        Some((item, next)) => {
            lines.put(alloc, out, &item)?;
            *place = next;
            Ok(true)
        }
        None => Ok(false),
    }
}

/// Writes the page once it is full, unless the sink has failed before.
pub(crate) fn turn_page<O: Sink>(out: &mut O, failed: &mut bool, page: &mut Vec<u8>)
    ensures { Turns (sink_side O.Sink out.old out.new) failed.old failed.new page.old.items page.new.items }
{
    let is_full = page.len() >= FULL_PAGE;
    if !is_full {
        return;
    }
    *failed = send(out, *failed, page);
    page.clear();
}

// All items, to the end; what fills pages is written.
fn put_items<O: Sink, D: Disk>(
    alloc: Global,
    disk: &mut D,
    reader: &ArchiveReader,
    out: &mut O,
    failed: &mut bool,
    page: &mut Vec<u8>,
) -> Result<(), Refusal>
    requires over { D.tells → IsOver (contents_of (D.held disk.old)) reader.now }
    requires fresh { failed.old ≡ false }
    ensures put { OnOk result (HasPut D.tells (contents_of (D.held disk.old)) reader.now page.old.items (sink_side O.Sink out.old out.new) failed.new page.new.items) }
    ensures stops { OnErr result (HasPutSome D.tells (contents_of (D.held disk.old)) reader.now page.old.items (sink_side O.Sink out.old out.new) failed.new) }
    ensures turned { IfErr result (TurnedAway (BadRecord reader.now) (disk_side D.Disk disk.old disk.new)) }
    ensures looks { Looks D.Disk disk.old disk.new }
    ensures quiet { OnOk result (D.faults disk.new ≡ D.faults disk.old) }
{
    let mut place = reader.start();
    let mut frame = Vec::new(alloc);
    let mut lines = ItemLines::of(alloc, reader.meta());
    for _ in 0..u64::MAX {
        let more = put_next(
            alloc, disk, reader, &mut place, &mut frame, &mut lines, page,
        )?;
        if !more {
            return Ok(());
        }
        turn_page(out, failed, page);
    }
    Err(Refusal::NoMemory)
}

// The label of an archive and all its items, as text; what fills pages is written, and the rest is answered.
fn put_archive<O: Sink, D: Disk>(
    alloc: Global,
    out: &mut O,
    failed: &mut bool,
    disk: &mut D,
) -> Result<Bytes, Refusal>
    requires { failed.old ≡ false }
    ensures said { IfOk result (HasSaid (sink_side O.Sink out.old out.new) failed.new (disk_side D.Disk disk.old disk.new)) }
    ensures stops { OnErr result (HasStopped (sink_side O.Sink out.old out.new) failed.new (disk_side D.Disk disk.old disk.new)) }
    ensures turned { IfErr result (TurnedAway IsTurnedAway (disk_side D.Disk disk.old disk.new)) }
    ensures looks { Looks D.Disk disk.old disk.new }
    ensures quiet { OnOk result (D.faults disk.new ≡ D.faults disk.old) }
{
    let reader = ArchiveReader::load(alloc, disk)?;
    let mut page = Vec::new(alloc);
    put_head(alloc, &mut page, &reader)?;
    put_items(alloc, disk, &reader, out, failed, &mut page)?;
    Ok(List::from_vec(page))
}

/// The label of an archive and all its items, as text. It is written as it is read, some 64 KiB at a time, and the rest is
/// answered.
pub fn dump<O: Sink, D: Disk>(
    alloc: Global,
    out: &mut O,
    failed: &mut bool,
    disk: &mut D,
) -> Result<Bytes, Refusal>
    requires { failed.old ≡ false }
    ensures meets { (input : Sequence ℕ) → MeetsSending (sink_side O.Sink out.old out.new) failed.new meaning_of_dump input D.Disk disk.old disk.new None result }
{
    put_archive(alloc, out, failed, disk)
}
