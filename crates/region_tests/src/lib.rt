//! Tests of regions (mmv(5)): the laws at a concrete layout, calls with the answers that are known, and threads that run
//! beside each other.
#![tactic(auto)]

#[cfg(test)]
mod journals;
mod layouts;
mod slate;
#[cfg(test)]
mod threads;
#[cfg(test)]
mod words;

pub use layouts::{image_of_layout, is_one_layout, relay};
pub use slate::Slate;
