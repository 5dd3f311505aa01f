//! Words of a book of cases for a logger (pmlogger(1)) over the disk of the case: the result and the facts that it is handed,
//! its calls, and what a crash may leave of them.
#![tactic(auto)]

mod answers;
mod calls;
mod groups;
mod handed;
mod images;
mod items;

pub use calls::Logging;
