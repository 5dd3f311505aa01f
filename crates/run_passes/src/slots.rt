//! The value words of a layout, and the one that was asked for last.
ghost use Rattle.std.specs.Prelude.{◌≡◌, negsuc, find, unwrap_or};
ghost use Rattle.std.specs.Option.{option_copied};
ghost use Rattle.mmv_layout.specs.Form.{is_slot_of};

use mmv_layout::Slot;
use pcp_base::List;
use std::marker::Model;

/// The value words of a layout, of which the one that was asked for last is looked at first. Contracts see the list.
#[derive(Drop)]
pub struct Slots {
    all: List<Slot>,
    last: Option<Slot>,
}

impl Model for Slots {
    ghost use Rattle.std.specs.Prelude.{List as Sequence};
    ghost use Rattle.mmv_layout.specs.declared.rows.Slot.{Slot};
    ghost use Rattle.run_passes.specs.Keeping.{IsFound};

    ghost Value = { Sequence Slot };

    ghost view = { λ s. s.all };

    ghost invariant = { λ s. IsFound s.all s.last };
}

/// The first slot of an item and an instance's number.
fn find_slot(slots: &[Slot], item: u32, number: i32) -> Option<&Slot>
    ensures { option_copied result ≡ find (is_slot_of item number) slots.now }
{
    slots
        .iter()
        .find(|slot| slot.item == item && slot.instance == number)
}

impl Slots {
    /// The value words, none of which was asked for yet.
    pub(crate) fn new(all: List<Slot>) -> Slots
        ensures { result ≡ all }
    {
        Slots { all, last: None }
    }

    /// The slot of an item and an instance; without an instance the metric has no domain.
    pub(crate) fn slot_of(&mut self, item: u32, instance: Option<i32>) -> Option<Slot>
        ensures same { self.new ≡ self.old }
        ensures slot { result ≡ find (is_slot_of item (unwrap_or instance (negsuc 0))) self.old }
    {
        let number = instance.unwrap_or(-1);
        if let Some(slot) = self.last {
            if slot.item == item && slot.instance == number {
                return Some(slot);
            }
        }
        let found = find_slot(self.all.as_slice(), item, number).copied();
        self.last = found;
        found
    }
}
