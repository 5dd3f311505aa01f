//! Whether what is read of an archive by time can be believed (pmlogcheck(1)): whether it is sound, or else the first place that isn't. The
//! whole archive is read for it, and left as it is.
#![tactic(auto)]

mod afters;
mod between;
mod fault;
mod laws;
mod marks;
mod pointing;
mod steps;
mod tally;
mod verdict;
mod walks;
mod whole;

pub use fault::CheckFault;
pub use laws::readable_is_judged;
pub use whole::check;
