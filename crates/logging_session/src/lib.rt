//! A logging session (pmlogger(1)): who logs results one after another goes on with what recovery left, and its first result opens the
//! archive. Its events, one fold over them, and what a crash leaves at any moment are said here once: a flush acknowledges what was
//! logged before it, and from then on no crash takes it away. It knows no scripts, fetches or clocks.
#![tactic(auto)]

mod label;
mod laws;
mod opening;
mod place;
mod session;
mod sure;

pub use laws::{
    fewer_come_back, kept_counts_survive, kept_files_are_led, kept_files_are_whole,
    kept_sessions_survive, recovered_come_back,
};
pub use session::Session;
