//! What regions that were read say together (pmFetch(3), pmLookupDesc(3), pmGetInDom(3), pmns(5)): the name space of their
//! metrics, the sets of a fetch with the instances that a profile keeps and the facts that describe them, the description of
//! a metric, and the instances of a domain. A region that was missed shows the status -12389 for each of its metrics, and
//! adds no name.
#![tactic(auto)]

mod asks;
mod facts;
mod fetch;
mod index;
mod names;
mod pairs;
mod reading;
mod sets;
mod shot;
mod told;
mod values;

pub use asks::{AskFault, description, instances};
pub use fetch::{FETCH_LIMIT, FetchFault, Fetched, answer, answer_of};
pub use index::RowNumbers;
pub use names::{Named, names_known, names_of};
pub use reading::Known;
pub use sets::sets_of;
pub use shot::Shot;
pub use told::Told;
