//! The archive of a logger's run (pmlogger(1)): at each tick one seat reads the regions for their names, and then for the values of the
//! groups that are due, and what they show is logged into one session, which holds results to be written together; flushes, the end of a run
//! and what it tells stand here too. A recording makes what a sample logged sure before it waits for the next one. Whatever others store
//! meanwhile, each sample is one reading of each region, and the archive is that of these results one behind another.
#![tactic(auto)]

mod asking;
mod ending;
mod finishing;
mod flushing;
mod label;
mod logging;
mod metrics;
mod names;
mod plans;
mod replayed;
mod sampler;
mod sampling;
mod sure;

pub use finishing::finish;
pub use flushing::flush_line;
pub use label::run_label;
pub use plans::Plans;
pub use replayed::Replayed;
pub use sampler::Sampler;
pub use sampling::{sample, sample_all, sample_at};
