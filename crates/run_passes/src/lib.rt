//! The passes of a script at work on its regions. What one pass does by the calls of its region is set against the step that it is in
//! a run as a fold. By these a script's lines are run one after another on one thread, where each pass has learned what the one before
//! it saw: once the logger's seat has gathered them all, what it has seen shows that nobody else acted, and that each region's journal
//! is the fold's. Or they are run by writers beside each other, one for each pass number, over the calls that wait: then what a pass has
//! seen grows by exactly the entries of its own lines, each store worked out in the state in which it stands.
#![tactic(auto)]

mod beginning;
mod changes;
mod crew;
mod dealing;
mod deed;
mod deeds;
mod hand;
mod kept;
mod laws;
mod lines;
mod opening;
mod positions;
mod running;
mod said;
mod slots;
mod stores;
mod threads;
mod worker;
mod writer;

pub use laws::{alike_answers_alike, alone_readings_are_states, last_leaves_the_gate};
pub use opening::{Opened, open_script};
pub use running::Running;
pub use threads::run_writers;
