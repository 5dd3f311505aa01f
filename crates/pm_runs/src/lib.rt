//! The commands of the program `pcp` that write an archive: `recover` mends one, `retire` lets its old volumes go, `once` logs the result
//! of an image, `replay` runs a script and `make` the script that a number makes. Each promises what its meaning says, and those that run a script on regions
//! hand these out.
#![tactic(auto)]

mod commands;
mod running;

pub use commands::make::make;
pub use commands::once::once;
pub use commands::recover::recover;
pub use commands::replay::replay;
pub use commands::retire::retire;
