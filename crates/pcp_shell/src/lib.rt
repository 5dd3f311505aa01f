//! The program's own rooms: the help that it prints (`help`), which word of a command line is bad (`bad_words`), PORT (`ports`), the two sources
//! of `extract` and the place of `export` (`sources`), the listener of `serve` (`listening`), the second and the terminal of `record` (`recording`), and with these the
//! connection of `pull` (`pulling`). Only pcp and tests use them.
#![tactic(auto)]

mod bad_words;
mod help;
mod listening;
mod ports;
mod progress;
mod pulling;
mod recording;
mod sources;

pub use bad_words::first_bad_of;
pub use help::{asks_help, write_help};
pub use listening::serve_clients;
pub use ports::first_bad_behind_port;
pub use pulling::pull_samples;
pub use recording::record_samples;
pub use sources::{
    first_bad_behind_sources, first_bad_behind_target, source_of_itself, sources_of, target_of,
    without_sources, without_target,
};
