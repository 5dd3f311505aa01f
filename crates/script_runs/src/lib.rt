//! What the run of a script makes of its regions and of an archive (pmlogger(1)): a plain fold over its lines, on states of
//! regions and on whole files, without retries, caches or buffers. Its definitions say what each line writes, which results
//! are logged, how the run ends, and which entries its passes made. Here its lines are written too, into room that was made for them
//! before what they tell was done.
#![tactic(auto)]

mod ending;
mod laws;
mod lines;

pub use ending::{Ending, LimitKind};
pub use laws::worked_scripts;
pub use lines::{make_room, put_line, put_one, put_two};
