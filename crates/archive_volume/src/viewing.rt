//! The item of a record, looked at where it stands.
ghost use Rattle.std.specs.Prelude.{◌≡◌, ◌≢◌, IfOk, IfErr, Ok};
ghost use Rattle.pcp_base.specs.declared.result.Item.{Item};
ghost use Rattle.pcp_model.specs.Payload.{IsItem, stamp_of};
ghost use Rattle.result_form.specs.declared.fault.FormFault.TheVariants.{NoMemory as Refused};
ghost use Rattle.result_form.specs.Faults.{IsFormFault};
ghost use Rattle.archive_volume.specs.Items.{item_of};

use crate::reading::item_of;
use pcp_base::{Item, NoMemory, Stamp};
use result_form::{FormFault, ResultView};
use std::alloc::Global;
use std::marker::Model;

/// The item of a record's payload, looked at where it stands (LOGARCHIVE(5)): what has no set is a mark. Contracts see the
/// item.
#[derive(Drop)]
pub struct ItemView<'a> {
    read: ResultView<'a>,
}

impl<'a> Model for ItemView<'a> {
    ghost use Rattle.pcp_base.specs.declared.result.Item.{Item};
    ghost use Rattle.archive_volume.specs.Items.{item_of};

    ghost Value = { Item };

    ghost view = { λ a. item_of a.read };
}

impl<'a> ItemView<'a> {
    /// The item of a payload, all of which is checked. What is no item is refused as `decode_item` refuses it, by the first
    /// fault and its offset. No memory is taken.
    pub fn read(payload: &'a [u8]) -> Result<ItemView<'a>, FormFault>
        // What is shown is the item that the payload is.
        ensures found { IfOk result (IsItem payload.now) }
        // What the payload is is shown, always.
        ensures only { (item : Item) → IsItem payload.now item → result ≡ Ok item }
        // A refusal is the one fault that the payload has as a result.
        ensures fault { IfErr result (IsFormFault payload.now) }
        // It is one of the bytes, and never want of memory.
        ensures bytes { IfErr result (λ e. e ≢ Refused) }
    {
        match ResultView::read(payload) {
            Ok(read) => Ok(ItemView { read }),
            Err(fault) => Err(fault),
        }
    }

    /// The time stamp.
    pub fn stamp(&self) -> Stamp
        ensures { result ≡ stamp_of self.now }
    {
        self.read.stamp()
    }

    /// The result, which has no set where the item is a mark.
    pub fn result(&self) -> &ResultView<'a>
        ensures { item_of result.now ≡ self.now }
    {
        &self.read
    }

    /// The item itself, in memory of its own.
    pub fn to_item(&self, alloc: Global) -> Result<Item, NoMemory>
        ensures { IfOk result (λ item. item ≡ self.now) }
    {
        match self.read.to_result(alloc) {
            Ok(read) => Ok(item_of(read)),
            Err(refused) => Err(refused),
        }
    }
}
