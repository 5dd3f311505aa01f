//! The value words of an image by item and instance.
ghost use Rattle.std.specs.Prelude.{◌≡◌, IfOk, OnOk};
ghost use Rattle.mmv_layout.specs.Images.{IsImage};
ghost use Rattle.mmv_layout.specs.Form.{slots_of};
ghost use Rattle.mmv_layout.specs.SlotTables.{Finds, HasSlots, Keeps, slot_in};

use crate::rows::Slot;
use crate::slots::slots;
use pcp_base::NoMemory;
use std::alloc::Global;
use std::collections::BTreeMap;

/// The value words of an image, made once for many look-ups by item and instance.
#[derive(Drop)]
pub struct SlotTable {
    slots: BTreeMap<(u32, i32), Slot>,
}

/// Keeps a slot, unless one of its item and instance was kept before.
fn keep(slots: &mut BTreeMap<(u32, i32), Slot>, slot: Slot) -> Result<(), NoMemory>
    ensures { OnOk result (Keeps slots.old slots.new slot) }
{
    let key = (slot.item, slot.instance);
    if slots.contains_key(&key) {
        return Ok(());
    }
    slots.insert(key, slot)?;
    Ok(())
}

/// The first slot of each item and instance.
fn table_of(alloc: Global, slots: &[Slot]) -> Result<BTreeMap<(u32, i32), Slot>, NoMemory>
    ensures { IfOk result (λ table. HasSlots table slots.now) }
{
    let mut table: BTreeMap<(u32, i32), Slot> = BTreeMap::new(alloc);
    for slot in slots {
        keep(&mut table, *slot)?;
    }
    Ok(table)
}

impl SlotTable {
    /// The table of an image's value words.
    #[tactic(auto, using(crate::proofs::SlotTables::table_finds))]
    pub fn of_words(alloc: Global, words: &[u64]) -> Result<SlotTable, NoMemory>
        requires { IsImage words.now }
        ensures { IfOk result (λ table. Finds table.slots (slots_of words.now)) }
    {
        let slots = slots(alloc, words)?;
        let slots = table_of(alloc, slots.as_slice())?;
        Ok(SlotTable { slots })
    }

    /// The value word of an item and an instance, which is -1 for a metric without a domain.
    pub fn slot_of(&self, item: u32, instance: i32) -> Option<Slot>
        ensures { result ≡ slot_in self.now.slots item instance }
    {
        self.slots.get(&(item, instance)).copied()
    }
}
