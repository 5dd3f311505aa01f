//! The item of a record.
ghost use Rattle.std.specs.Prelude.{◌≡◌, IfOk, IfErr, Ok};
ghost use Rattle.pcp_model.specs.Payload.{IsItem};
ghost use Rattle.result_form.specs.Decoding.{Gives};
ghost use Rattle.result_form.specs.Faults.{IsFormFault};
ghost use Rattle.archive_volume.specs.Items.{item_of};

use pcp_base::{Item, PmResult};
use result_form::{FormFault, decode};
use std::alloc::Global;

/// A result as an item: one without a set is a mark.
pub fn item_of(read: PmResult) -> Item
    ensures { result ≡ item_of read }
{
    if read.sets.is_empty() {
        return Item::Mark(read.stamp);
    }
    Item::Sample(read)
}

/// The item of a record's payload, which without a set is a mark. What is no item is refused as `result_form`
/// refuses it, by the first fault and its offset, or because memory was refused.
pub fn decode_item(alloc: Global, payload: &[u8]) -> Result<Item, FormFault>
    // What is read is the item that the payload is.
    ensures found { IfOk result (IsItem payload.now) }
    // What the payload is is read, unless memory runs out.
    ensures only { (item : Item) → IsItem payload.now item → Gives result (Ok item) }
    // A refusal is the one fault that the payload has as a result, or want of memory.
    ensures fault { IfErr result (IsFormFault payload.now) }
{
    match decode(alloc, payload) {
        Ok(read) => Ok(item_of(read)),
        Err(fault) => Err(fault),
    }
}
