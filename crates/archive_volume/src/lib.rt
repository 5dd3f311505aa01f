//! The records of an archive's volumes (LOGARCHIVE(5)) as items: a result with sets is a sample, and one without is
//! a mark, where logging was broken off. An item is written as its framed record, and read of a record's payload
//! exactly, or looked at where it stands.
#![tactic(auto)]

mod laws;
mod reading;
mod viewing;
mod writing;

pub use laws::written_item_is_read;
pub use reading::decode_item;
pub use viewing::ItemView;
pub use writing::{encode_item, encode_sample, put_mark, put_sample};
