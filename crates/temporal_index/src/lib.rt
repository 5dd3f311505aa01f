//! The temporal index of an archive (LOGARCHIVE(5)): what follows the label of its file, entries of 20 bytes. It
//! is read and written exactly, an entry out of range is refused with its offset, and the last entry before a
//! moment is found, whether stamps rise or not.
#![tactic(auto)]

mod fault;
mod index;
mod laws;
mod reading;
mod writing;

pub use fault::IndexFault;
pub use index::Index;
pub use laws::{index_stops_once, written_index_is_read};
pub use pcp_model::Entry;
pub use writing::{entry_bytes, put_entry};
