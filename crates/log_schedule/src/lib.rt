//! What a logger logs and when (pmlogger(1)): the configuration, whose statements name metrics and
//! an interval, and the instants at which each of its groups is due.
#![tactic(auto)]

mod bytes;
mod config;
mod found;
mod groups;
mod instants;
mod stage;

pub use config::{Config, ConfigFault, Group};
pub use groups::Groups;
