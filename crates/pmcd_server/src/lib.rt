//! Connections are served by workers beside each other, one for each seat at a server's regions and the door at its position
//! (pmcd(1)). A place for each session is drawn from one word, in a single atomic step, before its connection is asked for.
//! Each report of a door is that of a session, on the worker's own seat.
#![tactic(auto)]

mod draws;
mod fault;
mod places;
mod serving;
mod worker;

pub use fault::ServeFault;
pub use serving::serve;
