//! The logger (pmlogger(1)): what is acknowledged is never lost. It keeps of its archive where the files end, what the metadata
//! say and the greatest stamp; a crash at any moment of a call leaves the first of its items, with all acknowledged ones, each
//! described by the metadata that is left.
#![tactic(auto)]

mod batch;
mod creating;
mod ends;
mod entries;
mod extending;
mod fault;
mod flushing;
mod groups;
mod laws;
mod logger;
mod logging;
mod opening;
mod planning;
mod preparing;
mod retiring;
mod running;
mod switching;
mod writing;

pub use batch::Batch;
pub use fault::LogFault;
pub use laws::{
    entry_is_announced, given_is_greatest, greatest_is_given, group_of_one_is_logged,
    holding_nothing_is_a_logger, item_is_announced, kept_files_survive, later_records_describe,
    logger_holds_nothing, nearer_is_kept, records_are_announced, recovered_is_whole,
    retired_is_read, retired_is_recovered, retired_items_are_first, retiring_goes_on,
    sure_is_acknowledged, sure_is_known, survivors_are_recovered, volume_is_announced,
    whole_is_kept,
};
pub use logger::Logger;
