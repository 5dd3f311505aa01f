//! What an archive is (LOGARCHIVE(5)), apart from any code that writes or reads it: the spelling of each
//! record, which files are readable and what their scan is, what describes an item, and what a crash leaves
//! of a disk. The crates above cite these definitions, and each record is written and read by one of them.
#![tactic(auto)]

mod instances;
mod label;
mod laws;
mod records;
mod words;

pub use instances::DomainInstances;
pub use label::Label;
pub use laws::{
    cuts_are_read, cuts_are_sound, entry_is_added, files_are_read_once, instances_are_read,
    item_is_added, records_are_added, recovery_is_one, recovery_keeps_the_scan, recovery_stays,
    volume_is_added,
};
pub use records::{Entry, MetaRecord};
pub use words::{put_signed, put_word};
