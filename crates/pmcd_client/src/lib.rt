//! A client's side of the dialogue with pmcd, as a remote logger has it (pmlogger(1), pmFetch(3), PCP's PDU headers): it asks
//! by names, learns the metrics, their descriptions and instances, and then fetches samples, each with what describes it. What
//! is asked is a function of the replies so far; the first reply that doesn't fit ends the dialogue, and is told with its
//! reason.
#![tactic(auto)]

mod asking;
mod dialogue;
mod faults;
mod judging;
mod line;
mod listing;
mod metrics;
mod receiving;

pub use dialogue::Dialogue;
pub use faults::{ReplyFault, TalkFault};
