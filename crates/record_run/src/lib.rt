//! The runs of a logger over any files (pmlogger(1)): the files are recovered, and a script is replayed line by line on one thread, where ticks
//! log what the regions show; or it is recorded, its writers beside each other and samples beside them. What is written, how it ends, the
//! files and each region's journal are said whole: of a replay those of the run as a fold; of a recording, whatever its writers do, that each
//! made just its own entries and that the samples stand between them, and what the last one comes to.
#![tactic(auto)]

mod gathering;
mod images;
mod laws;
mod recording;
mod replay;
mod run;
mod samples;
mod steps;
mod ticks;

pub use images::images_are;
pub use laws::{counters_are_sums, last_sample_is_exact, no_line_is_lost, words_are_sums};
pub use recording::record_script;
pub use replay::{ending_of, replay_script};
