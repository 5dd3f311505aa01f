//! The call that the program `pcp` makes for `extract BASE1 BASE2 VOLUME` (pmlogextract(1)): two archives are checked, and their merge is logged into
//! the files of a third. It answers the exit status, each with its cause.
#![tactic(auto)]

mod laws;
mod refusal;
mod top;

pub use laws::led_items_are_taken;
pub use top::extract;
