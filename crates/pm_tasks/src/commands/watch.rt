//! The command `watch SEC USEC SEC USEC`: which rules hold at the samples between two moments.
ghost use Rattle.std.specs.Prelude.{◌≡◌, ◌++◌, ◌∷◌, [], codes, false, None, IfOk, IfErr, OnOk, OnErr};
ghost use Rattle.pcp_model.specs.Disk.{contents_of};
ghost use Rattle.pcp_model.specs.Payload.{stamp_of};
ghost use Rattle.archive_loading.specs.Loaded.{IsOver};
ghost use Rattle.archive_loading.specs.Looks.{Looks};
ghost use Rattle.archive_reader.specs.Searches.{is_after, is_before};
ghost use Rattle.text_lines.specs.Spelling.{one_number};
ghost use Rattle.rule_watch.specs.Shown.{Shows, rules_of};
ghost use Rattle.pcp_outside.specs.Sides.{sink_side};
ghost use Rattle.pm_words.specs.Serving.{MeetsSending};
ghost use Rattle.pm_words.specs.Sides.{disk_side};
ghost use Rattle.pm_tasks.specs.Archives.{TurnedAway};
ghost use Rattle.pm_tasks.specs.Telling.{TellsBetween, TellsItem, TellsMore, TellsRow, firing_line, firings_of, is_outside, label_of, with_firing};
ghost use Rattle.pm_tasks.specs.Rows.{row_of};
ghost use Rattle.pm_tasks.specs.commands.dump.{BadNext, BadRecord, IsTurnedAway};
ghost use Rattle.pm_tasks.specs.commands.watch.{HasSaid, HasSentAll, HasSentSome, HasStopped, WatchesNext, refusal_of, watch as meaning_of_watch};

use crate::commands::dump::turn_page;
use crate::rows::row_of;
use archive_meta::MetaState;
use archive_reader::{ArchiveReader, Place};
use pcp_base::{Bytes, Item, List, NoMemory, PmResult, Stamp};
use pcp_outside::{Disk, Sink};
use pm_print::put_stamp;
use pm_words::Refusal;
use rule_watch::{ReadRulesError, Rules, Watch};
use std::alloc::Global;
use text_lines::put_one_number;

// The lines that were told and not sent, and how many were told.
#[derive(Drop)]
struct Told {
    text: Vec<u8>,
    count: u64,
}

// `STAMP LABEL`
fn put_line(out: &mut Vec<u8>, stamp: Stamp, label: &[u8]) -> Result<(), NoMemory>
    ensures { OnOk result (out.new.items ≡ out.old.items ++ firing_line (stamp, label.now)) }
{
    put_stamp(out, stamp)?;
    out.push(b' ')?;
    out.extend_from_slice(label)?;
    out.push(b'\n')?;
    Ok(())
}

// Tells one rule more.
fn tell_label(told: &mut Told, stamp: Stamp, label: &[u8]) -> Result<(), NoMemory>
    ensures { OnOk result (TellsMore ((stamp, label.now) ∷ []) told.old told.new) }
{
    let Some(count) = told.count.checked_add(1) else {
        return Err(NoMemory);
    };
    put_line(&mut told.text, stamp, label)?;
    told.count = count;
    Ok(())
}

fn tell_rule(told: &mut Told, watch: &Watch, stamp: Stamp, number: u32) -> Result<(), NoMemory>
    ensures { OnOk result (TellsMore (with_firing stamp (label_of (rules_of watch.now) number) []) told.old told.new) }
{
    match watch.label(number) {
        Some(label) => tell_label(told, stamp, label.as_slice()),
        None => Ok(()),
    }
}

// Tells the rules of these numbers.
fn tell_rules(told: &mut Told, watch: &Watch, stamp: Stamp, numbers: &[u32]) -> Result<(), NoMemory>
    ensures { OnOk result (TellsMore (firings_of stamp (rules_of watch.now) numbers.now) told.old told.new) }
{
    for number in numbers {
        tell_rule(told, watch, stamp, *number)?;
    }
    Ok(())
}

// Tells the rules that hold at a sample.
fn tell_sample(
    alloc: Global,
    told: &mut Told,
    watch: &mut Watch,
    meta: &MetaState,
    sample: &PmResult,
) -> Result<(), NoMemory>
    ensures { OnOk result (TellsRow sample.now.stamp (row_of meta.now sample.now.sets) watch.old watch.new told.old told.new) }
{
    let row = row_of(alloc, meta, watch, sample.sets.as_slice())?;
    let numbers = watch.push(alloc, &row)?;
    tell_rules(told, watch, sample.stamp, numbers.as_slice())
}

fn tell_item(
    alloc: Global,
    told: &mut Told,
    watch: &mut Watch,
    meta: &MetaState,
    item: &Item,
) -> Result<(), NoMemory>
    ensures { OnOk result (TellsItem meta.now item.now watch.old watch.new told.old told.new) }
{
    match item {
        Item::Sample(sample) => tell_sample(alloc, told, watch, meta, sample),
        Item::Mark(_) => Ok(()),
    }
}

fn stamp_of(item: &Item) -> Stamp
    ensures { result ≡ stamp_of item.now }
{
    match item {
        Item::Sample(sample) => sample.stamp,
        Item::Mark(stamp) => *stamp,
    }
}

fn is_before(item: &Item, t: Stamp) -> bool
    ensures { result ≡ is_before t item.now }
{
    stamp_of(item).microseconds() < t.microseconds()
}

fn is_after(item: &Item, t: Stamp) -> bool
    ensures { result ≡ is_after t item.now }
{
    t.microseconds() < stamp_of(item).microseconds()
}

fn is_outside(item: &Item, from: Stamp, to: Stamp) -> bool
    ensures { result ≡ is_outside from to item.now }
{
    is_before(item, from) || is_after(item, to)
}

// Tells the rules that hold at an item, unless it is before the first moment or after the second.
fn tell_between(
    alloc: Global,
    told: &mut Told,
    watch: &mut Watch,
    meta: &MetaState,
    item: &Item,
    from: Stamp,
    to: Stamp,
) -> Result<(), NoMemory>
    ensures { OnOk result (TellsBetween meta.now from to item.now watch.old watch.new told.old told.new) }
{
    if is_outside(item, from, to) {
        return Ok(());
    }
    tell_item(alloc, told, watch, meta, item)
}

// Watches the item of the next record, if one follows, and the place goes behind it.
fn watch_next<D: Disk>(
    alloc: Global,
    disk: &mut D,
    reader: &mut ArchiveReader,
    place: &mut Place,
    watch: &mut Watch,
    told: &mut Told,
    from: Stamp,
    to: Stamp,
) -> Result<bool, Refusal>
    requires { D.tells → IsOver (contents_of (D.held disk.old)) reader.old }
    ensures same { reader.new ≡ reader.old }
    ensures told { D.tells → IfOk result (WatchesNext (contents_of (D.held disk.old)) reader.old place.old place.new from to watch.old watch.new told.old told.new) }
    ensures turned { IfErr result (TurnedAway (BadNext reader.old place.old) (disk_side D.Disk disk.old disk.new)) }
    ensures looks { Looks D.Disk disk.old disk.new }
    ensures quiet { OnOk result (D.faults disk.new ≡ D.faults disk.old) }
{
    match reader.item_at(alloc, disk, *place)? {
        Some((item, next)) => {
            tell_between(alloc, told, watch, reader.meta(), &item, from, to)?;
            *place = next;
            Ok(true)
        }
        None => Ok(false),
    }
}

// Watches all items, to the end; what fills pages is written.
fn watch_all<O: Sink, D: Disk>(
    alloc: Global,
    disk: &mut D,
    reader: &mut ArchiveReader,
    out: &mut O,
    failed: &mut bool,
    watch: &mut Watch,
    told: &mut Told,
    from: Stamp,
    to: Stamp,
) -> Result<(), Refusal>
    requires over { D.tells → IsOver (contents_of (D.held disk.old)) reader.old }
    requires fresh { failed.old ≡ false }
    requires shows { Shows watch.old [] }
    requires text { told.old.text.items ≡ [] }
    requires count { told.old.count ≡ 0 }
    ensures told { OnOk result (HasSentAll D.tells (contents_of (D.held disk.old)) reader.old (rules_of watch.old) from to (sink_side O.Sink out.old out.new) failed.new told.new) }
    ensures stops { OnErr result (HasSentSome D.tells (contents_of (D.held disk.old)) reader.old (rules_of watch.old) from to (sink_side O.Sink out.old out.new) failed.new) }
    ensures turned { IfErr result (TurnedAway (BadRecord reader.old) (disk_side D.Disk disk.old disk.new)) }
    ensures looks { Looks D.Disk disk.old disk.new }
    ensures quiet { OnOk result (D.faults disk.new ≡ D.faults disk.old) }
{
    let mut place = reader.start();
    for _ in 0..u64::MAX {
        let more = watch_next(alloc, disk, reader, &mut place, watch, told, from, to)?;
        if !more {
            return Ok(());
        }
        turn_page(out, failed, &mut told.text);
    }
    Err(Refusal::NoMemory)
}

// The lines that wait, and last how many were told.
fn told_text(told: Told) -> Result<Bytes, NoMemory>
    ensures { IfOk result (λ text. text ≡ told.text.items ++ one_number (codes "fired") told.count) }
{
    let Told { mut text, count } = told;
    put_one_number(&mut text, b"fired", count)?;
    Ok(List::from_vec(text))
}

// What rules tell of the items of an archive between two moments, as text; what fills pages is written, and the rest is answered.
fn watch_archive<O: Sink, D: Disk>(
    alloc: Global,
    out: &mut O,
    failed: &mut bool,
    from: Stamp,
    to: Stamp,
    rules: Rules,
    disk: &mut D,
) -> Result<Bytes, Refusal>
    requires { failed.old ≡ false }
    ensures said { IfOk result (HasSaid from to rules (sink_side O.Sink out.old out.new) failed.new (disk_side D.Disk disk.old disk.new)) }
    ensures stops { OnErr result (HasStopped from to rules (sink_side O.Sink out.old out.new) failed.new (disk_side D.Disk disk.old disk.new)) }
    ensures turned { IfErr result (TurnedAway IsTurnedAway (disk_side D.Disk disk.old disk.new)) }
    ensures looks { Looks D.Disk disk.old disk.new }
    ensures quiet { OnOk result (D.faults disk.new ≡ D.faults disk.old) }
{
    let mut reader = ArchiveReader::load(alloc, disk)?;
    let mut watch = Watch::new(alloc, rules)?;
    let mut told = Told {
        text: Vec::new(alloc),
        count: 0,
    };
    watch_all(
        alloc,
        disk,
        &mut reader,
        out,
        failed,
        &mut watch,
        &mut told,
        from,
        to,
    )?;
    let text = told_text(told)?;
    Ok(text)
}

// Why rules weren't read, as the command refuses it.
fn refusal_of(error: ReadRulesError) -> Refusal
    ensures { result ≡ refusal_of error }
{
    match error {
        ReadRulesError::Fault(fault) => Refusal::Rules(fault),
        ReadRulesError::NoMemory => Refusal::NoMemory,
    }
}

/// Which rules of a text hold at each sample between two moments: a line for each, and last how many. The archive is read item by
/// item, and only the values of the rules' windows are kept. The lines are written as they are told, some 64 KiB at a time, and the
/// rest is answered.
pub fn watch<O: Sink, D: Disk>(
    alloc: Global,
    out: &mut O,
    failed: &mut bool,
    from: Stamp,
    to: Stamp,
    input: &[u8],
    disk: &mut D,
) -> Result<Bytes, Refusal>
    requires { failed.old ≡ false }
    ensures meets { MeetsSending (sink_side O.Sink out.old out.new) failed.new (meaning_of_watch from to) input.now D.Disk disk.old disk.new None result }
{
    match Rules::read(alloc, input) {
        Ok(rules) => watch_archive(alloc, out, failed, from, to, rules, disk),
        Err(error) => Err(refusal_of(error)),
    }
}
