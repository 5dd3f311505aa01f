//! Words of a book of cases for parts that stand by themselves: values with a range, names, profiles, the logging
//! schedule, and the journals of a region (mmv(5)): one is replayed over the words of an image, and what stands after it
//! is told, or the entry at which it stops.
#![tactic(auto)]

mod base;
mod entries;
mod journals;
mod names;
mod profile;
mod schedule;

pub use base::{kind_name, tell_value};
pub use journals::tell_journal;
pub use names::tell_names;
pub use profile::Filter;
pub use schedule::Schedule;
