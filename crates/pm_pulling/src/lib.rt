//! The call that the program `pcp` makes for `pull PORT SAMPLES VOLUME NAME..` (pmlogger(1)): a peer that serves metrics is asked for samples of
//! some of them, and each sample is logged into the archive and made sure. It answers the exit status, each with its cause.
#![tactic(auto)]

mod laws;
mod pulling;
mod sampling;
mod stop;
mod top;

pub use laws::led_samples_are_taken;
pub use top::pull;
