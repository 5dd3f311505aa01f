//! The items of which some bytes have the records, one after another.
ghost use Rattle.std.specs.Prelude.{◌≡◌, ◌≤◌, [], ◌∷◌, length, fold, IfOk, OnOk};
ghost use Rattle.std.specs.Option.{option_map};
ghost use Rattle.pcp_model.specs.Payload.{stamp_of};
ghost use Rattle.archive_loading.specs.Standing.{IsItemOf};
ghost use Rattle.archive_reader.specs.Searches.{is_after, is_before, between};
ghost use Rattle.archive_volume.specs.Items.{item_of};
ghost use Rattle.log_summary.specs.Pieces.{IsFound, StopsAs};
ghost use Rattle.log_summary.specs.Tables.{counted};
ghost use Rattle.log_summary.specs.Values.{values_of};
ghost use Rattle.log_summary.specs.Volumes.{is_torn};

use crate::table::Table;
use archive_frame::{FrameFault, Step, step_forward};
use archive_meta::MetaState;
use pcp_base::{NoMemory, Stamp};
use result_form::ResultView;

// The result that a payload is.
fn result_of(payload: &[u8]) -> Option<ResultView<'_>>
    ensures { IsItemOf payload.now (option_map item_of result) }
{
    match ResultView::read(payload) {
        Ok(read) => Some(read),
        Err(_) => None,
    }
}

// Whether a step was refused since the record isn't whole.
fn is_torn(fault: FrameFault) -> bool
    ensures { result ≡ is_torn fault }
{
    match fault {
        FrameFault::Torn { at: _ } => true,
        FrameFault::Size { at: _, found: _ } => false,
        FrameFault::Lengths {
            at: _,
            head: _,
            tail: _,
        } => false,
        FrameFault::Label { at: _ } => false,
        FrameFault::NoMemory => false,
    }
}

/// What stands at an offset of bytes.
#[derive(Drop)]
pub enum Found<'a> {
    /// No whole record.
    End,
    /// No item's record.
    Bad,
    /// A result's record, up to this offset.
    Whole(ResultView<'a>, usize),
}

// What stands at an offset of bytes.
fn next_in(bytes: &[u8], at: usize) -> Found<'_>
    requires { at ≤ length bytes.now }
    ensures { IsFound bytes.now at result }
{
    match step_forward(bytes, at) {
        Ok(Step::Payload { from, to, next }) => match result_of(&bytes[from..to]) {
            Some(read) => Found::Whole(read, next),
            None => Found::Bad,
        },
        Ok(Step::End) => Found::End,
        Err(fault) => {
            if is_torn(fault) {
                return Found::End;
            }
            Found::Bad
        }
    }
}

fn stamp_of(read: &ResultView<'_>) -> Stamp
    ensures { result ≡ stamp_of (item_of read.now) }
{
    read.stamp()
}

fn is_before(read: &ResultView<'_>, t: Stamp) -> bool
    ensures { result ≡ is_before t (item_of read.now) }
{
    stamp_of(read).microseconds() < t.microseconds()
}

fn is_after(read: &ResultView<'_>, t: Stamp) -> bool
    ensures { result ≡ is_after t (item_of read.now) }
{
    t.microseconds() < stamp_of(read).microseconds()
}

// Counts a result, unless it is before the first moment or after the second.
fn count_between(
    table: &mut Table,
    meta: &MetaState,
    read: &ResultView<'_>,
    from: Stamp,
    to: Stamp,
) -> Result<(), NoMemory>
    ensures { OnOk result (table.new ≡ fold counted table.old (values_of meta.now (between from to (item_of read.now ∷ [])))) }
{
    if is_before(read, from) {
        return Ok(());
    }
    if is_after(read, to) {
        return Ok(());
    }
    table.count(meta, read)
}

/// Where the counting of bytes stops.
pub enum Stop {
    /// No whole record follows from there on.
    Torn(usize),
    /// A record that is no item's follows there.
    Wrong(usize),
}

/// Counts the items between two moments whose records stand whole in the bytes, from the first byte on.
pub fn count_whole(
    bytes: &[u8],
    meta: &MetaState,
    from: Stamp,
    to: Stamp,
    table: &mut Table,
) -> Result<Stop, NoMemory>
    ensures { IfOk result (StopsAs bytes.now meta.now from to table.old table.new) }
{
    let mut at = 0;
    for _ in 0..u64::MAX {
        match next_in(bytes, at) {
            Found::Whole(read, next) => {
                count_between(table, meta, &read, from, to)?;
                at = next;
            }
            Found::End => return Ok(Stop::Torn(at)),
            Found::Bad => return Ok(Stop::Wrong(at)),
        }
    }
    Err(NoMemory)
}
