//! The call that the program `pcp` makes for `serve PORT COUNT`: the regions of a script are opened, and clients are served on four
//! seats beside each other (pmcd(1)). It answers the exit status, each with its cause, and leaves the regions on which it served.
#![tactic(auto)]

mod scripts;
mod served;
mod together;
mod top;

pub use served::Served;
pub use top::run_serve;
