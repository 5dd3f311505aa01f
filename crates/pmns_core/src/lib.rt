//! A name space of metrics (pmns(5)): pairs of a name and a PMID, of which no name continues another, kept
//! in the byte order of the names. A name, and the least name of a PMID, are found without a walk over
//! all names; what lies below a name is told in byte order (pmGetChildren(3), pmTraversePMNS(3)).
#![tactic(auto)]

mod below;
mod fault;
mod least;
mod names;
mod table;

pub use fault::NamesFault;
pub use names::Names;
