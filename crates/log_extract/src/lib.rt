//! Two archives become one (pmlogextract(1)): both are checked and then read item by item, their merge is logged into the files of a third, over what
//! recovery leaves of them, and what was logged is flushed. `specs/Extracting` says it whole, and what the merge is stands in archive_merge.
#![tactic(auto)]

mod cursor;
mod extracting;
mod fault;
mod laws;
mod merging;
mod taking;

pub use extracting::extract_all;
pub use fault::ExtractFault;
pub use laws::{all_is_merged, next_is_judged, reports_are_merged};
