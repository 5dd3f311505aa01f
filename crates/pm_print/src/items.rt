//! Items and sets as text.
ghost use Rattle.std.specs.Prelude.{◌≡◌, ◌++◌, ◌∷◌, [], decimal, IfOk, OnOk};
ghost use Rattle.pcp_base.specs.declared.result.Item.TheVariants.{Sample, Mark};
ghost use Rattle.pm_print.specs.Items.{sets_lines, item_text, set_text};
ghost use Rattle.pm_print.specs.Stamps.{stamp_text};

use crate::sets::put_set;
use crate::stamps::put_stamp;
use crate::values::put_decimal;
use archive_meta::MetaState;
use pcp_base::{Bytes, Item, List, NoMemory, PmResult, Stamp, ValueSet};
use std::alloc::Global;

fn put_sets(
    alloc: Global,
    out: &mut Vec<u8>,
    meta: &MetaState,
    stamp: Stamp,
    sets: &[ValueSet],
) -> Result<(), NoMemory>
    ensures { OnOk result (out.new.items ≡ out.old.items ++ sets_lines meta.now stamp sets.now) }
{
    for set in sets {
        put_set(alloc, out, meta, stamp, set)?;
    }
    Ok(())
}

/// The line before those of a sample's sets: its stamp, and how many they are.
pub fn put_front(out: &mut Vec<u8>, stamp: Stamp, count: usize) -> Result<(), NoMemory>
    ensures { OnOk result (out.new.items ≡ out.old.items ++ (stamp_text stamp ++ (32 ∷ (decimal count ++ 10 ∷ [])))) }
{
    put_stamp(out, stamp)?;
    out.push(b' ')?;
    put_decimal(out, count as u64)?;
    out.push(b'\n')?;
    Ok(())
}

#[tactic(auto, unfolding(crate::specs::Items::item_text))]
fn put_sample(
    alloc: Global,
    out: &mut Vec<u8>,
    sample: &PmResult,
    meta: &MetaState,
) -> Result<(), NoMemory>
    ensures { OnOk result (out.new.items ≡ out.old.items ++ item_text meta.now (Sample sample.now)) }
{
    put_front(out, sample.stamp, sample.sets.len())?;
    put_sets(alloc, out, meta, sample.stamp, sample.sets.as_slice())
}

/// A mark's line: its stamp and `mark`.
#[tactic(auto, unfolding(crate::specs::Items::item_text))]
pub fn put_mark(out: &mut Vec<u8>, stamp: Stamp, meta: &MetaState) -> Result<(), NoMemory>
    ensures { OnOk result (out.new.items ≡ out.old.items ++ item_text meta.now (Mark stamp)) }
{
    put_stamp(out, stamp)?;
    out.extend_from_slice(b" mark\n")?;
    Ok(())
}

/// Puts the text of an item behind what stands there: a sample's stamp and number of sets on a line, and the lines of
/// its sets; a mark's stamp and `mark`.
pub fn put_item(
    alloc: Global,
    out: &mut Vec<u8>,
    item: &Item,
    meta: &MetaState,
) -> Result<(), NoMemory>
    ensures { OnOk result (out.new.items ≡ out.old.items ++ item_text meta.now item.now) }
{
    match item {
        Item::Sample(sample) => put_sample(alloc, out, sample, meta),
        Item::Mark(stamp) => put_mark(out, *stamp, meta),
    }
}

/// The text of an item.
pub fn item_text(alloc: Global, item: &Item, meta: &MetaState) -> Result<Bytes, NoMemory>
    ensures { IfOk result (λ text. text ≡ item_text meta.now item.now) }
{
    let mut out = Vec::new(alloc);
    put_item(alloc, &mut out, item, meta)?;
    Ok(List::from_vec(out))
}

/// The text of one set: the stamp on a line, and the lines of the set. Instances have the names that hold at the stamp.
#[tactic(auto, unfolding(crate::specs::Items::set_text))]
pub fn set_text(
    alloc: Global,
    stamp: Stamp,
    set: &ValueSet,
    meta: &MetaState,
) -> Result<Bytes, NoMemory>
    ensures { IfOk result (λ text. text ≡ set_text meta.now stamp set.now) }
{
    let mut out = Vec::new(alloc);
    put_stamp(&mut out, stamp)?;
    out.push(b'\n')?;
    put_set(alloc, &mut out, meta, stamp, set)?;
    Ok(List::from_vec(out))
}
