//! The counting: these are the calls that a program makes so that it can be watched.

ghost use Rattle.std.specs.Prelude.{◌≡◌, ◌<◌, ◌∷◌, ◌++◌, [], All, IfOk, OnOk, find, length, option_copied};
ghost use Rattle.mmv_layout.specs.Form.{is_slot_of};
ghost use Rattle.region_core.specs.declared.mode.Mode.TheVariants.{Attached, Idle};
ghost use Rattle.region_rule.specs.Seats.{IsSame};
ghost use Rattle.region_words.specs.Calls.{form_seen};
ghost use Rattle.region_example.specs.Levels.{instance_of};
ghost use Rattle.region_example.specs.Counts.{AreOf, Counts, added, back, front, word_of};

use crate::layout::{BYTES, LINES};
use crate::level::Level;
use anyhow::{Result, bail};
use mmv_layout::Slot;
use pcp_base::List;
use region_words::{Pass, Region, Stint, is_number};
use std::alloc::Global;
use std::sync::Wait;
use std::thread::{Threads, join};

// The slot of a counter for a level, which tells the word that holds its value.
fn find_slot(slots: &[Slot], item: u32, level: Level) -> Option<&Slot>
    ensures { option_copied result ≡ find (is_slot_of item (instance_of level)) slots.now }
{
    slots.iter().find(|slot| slot.item == item && slot.instance == level.instance())
}

// Adds to a counter's value for a level, in one atomic step.
#[tactic(auto, using(crate::proofs::Slots::found_takes))]
fn add(
    region: &Region,
    stint: &mut Stint,
    slots: &List<Slot>,
    item: u32,
    level: Level,
    amount: u64,
) -> Result<()>
    requires here { stint.old.region ≡ region.now }
    requires slots { slots.now ≡ (form_seen stint.old.view).slots }
    requires below { All (λ slot. slot.word < length region.now.words) slots.now }
    ensures stays { OnOk result (IsSame Attached Attached stint.old stint.new) }
    ensures slots { form_seen stint.new.view ≡ form_seen stint.old.view }
    ensures adds { OnOk result (added stint.new.view ≡ added stint.old.view ++ (word_of slots.now item level, amount) ∷ []) }
{
    match find_slot(slots.as_slice(), item, level) {
        Some(slot) if is_number(slot.kind) => {
            stint.add(region, slot.word, amount);
            Ok(())
        }
        _ => bail!("the layout doesn't count this level"),
    }
}

/// Counts lines. The pass attaches to the region, and waits where its layout is just being changed; until it detaches the layout stays,
/// so the slots of the values are asked for once. No other thread waits for it, whether it adds or reads.
pub fn count<R: Wait>(
    rt: &R,
    alloc: Global,
    region: &Region,
    pass: Pass,
    lines: &[&[u8]],
) -> Result<Pass>
    requires here { pass.region ≡ region.now }
    ensures stays { IfOk result (IsSame Idle Idle pass) }
    ensures counts { IfOk result (λ after. Counts lines.now pass.view after.view) }
{
    let mut stint = region.attach_wait(rt, pass);
    let slots = region.slots(alloc, &mut stint)?;
    for line in lines {
        let (level, bytes) = (Level::of_line(line), line.len() as u64);
        add(region, &mut stint, &slots, LINES, level, 1)?;
        add(region, &mut stint, &slots, BYTES, level, bytes)?;
    }
    Ok(stint.detach(region))
}

/// Counts lines in two threads, half of them in each.
pub fn count_together<R: Threads + Wait + Sync>(
    rt: &R,
    alloc: Global,
    region: &Region,
    passes: (Pass, Pass),
    lines: &[&[u8]],
) -> Result<(Pass, Pass)>
    requires here { AreOf region.now passes }
    ensures here { IfOk result (AreOf region.now) }
    ensures counts { IfOk result (λ after. Counts (front lines.now) passes.0.view after.0.view × Counts (back lines.now) passes.1.view after.1.view) }
{
    let (first, second) = passes;
    let (front, back) = lines.split_at(lines.len() / 2);
    let (first, second) = join(
        rt,
        || -> Result<Pass>
            requires { first.region ≡ region.now }
            ensures stays { IfOk result (IsSame Idle Idle first) }
            ensures counts { IfOk result (λ pass. Counts front.entry.now first.view pass.view) }
        { count(rt, alloc, region, first, front) },
        || -> Result<Pass>
            requires { second.region ≡ region.now }
            ensures stays { IfOk result (IsSame Idle Idle second) }
            ensures counts { IfOk result (λ pass. Counts back.entry.now second.view pass.view) }
        { count(rt, alloc, region, second, back) },
    );
    Ok((first?, second?))
}
