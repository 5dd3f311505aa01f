//! The merge of two archives (pmlogextract(1)): the results of both by rising stamp, one for each stamp, with the sets of the first source and behind
//! them those of the second, of a metric the first set alone; and what describes each, by what its source says. `specs/Merging` and `specs/Facts` say
//! it whole. The facts of one stamp are kept, and stand for the next where they still describe what stands there.
#![tactic(auto)]

mod facts;
mod fault;
mod kept;
mod laws;
mod lists;
mod misfits;
mod naming;
mod sets;
mod standing;

pub use fault::MergeFault;
pub use kept::KeptFacts;
pub use laws::{
    domains_are_listed, each_stamp_stands_once, facts_are_enough, facts_are_of_sources,
    misfits_say_why, sets_are_in_order, sets_are_of_both, sources_say_so,
};
pub use sets::StampSets;
