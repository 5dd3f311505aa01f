//! Fetches from regions (pmFetch(3), pmLookupDesc(3)): a server's regions are read by a seat, which has a pass of each. Of
//! what was read `fetch_answers` makes the answers, which are told with the readings behind them. A region is read in at most
//! three tries; one that was refused in all of them was missed.
#![tactic(auto)]

mod again;
mod laws;
mod seat;
mod server;
mod serving;
mod visits;

pub use fetch_answers::{AskFault, FetchFault, Fetched, Named, Shot, answer, names_of};
pub use laws::{hits_load_values, misses_are_missed, read_is_shown};
pub use seat::Seat;
pub use server::{Mounted, Server, ServerFault};
