//! The call that the program `pcp` makes for `record SAMPLES VOLUME` (pmlogger(1)): the regions of a script are opened, its writers
//! run beside each other while a seat samples, and what is sampled is logged into the archive. It answers the exit status, each with
//! its cause, and leaves the regions on which it recorded.
#![tactic(auto)]

mod running;
mod scripts;
mod top;

pub use top::run_record;
