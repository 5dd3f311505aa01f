//! What a remote logger's dialogue and a session come to together, where each takes what the other writes (pmlogger(1),
//! pmcd(1)): the samples are the answers to the session's fetches. Nothing runs here; it is a law of the two dialogues'
//! definitions, each of which its own crate keeps.
#![tactic(auto)]

mod laws;

pub use laws::{logged_are_answers, samples_are_answers};
