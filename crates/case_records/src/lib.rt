//! Words of a book of cases for the records of an archive (LOGARCHIVE(5)): results and items, labels, frames, entries of
//! the index, and the records of Meta; and whether Meta describes an item.
#![tactic(auto)]

mod archive;
mod described;
mod facts;
mod items;
mod meta;
mod results;

pub use archive::tell_record;
pub use described::is_described;
pub use items::write_item;
pub use meta::tell_meta;
pub use results::tell_result;
