//! The call that the program `pcp` makes for `summary WORKERS SEC USEC SEC USEC`: the numbers that an archive's metrics had between two
//! stamps are summed up by workers beside each other (pmlogsummary(1)). It answers the exit status, each with its cause, and leaves the
//! archive as it was.
#![tactic(auto)]

mod laws;
mod top;

pub use laws::archive_has_one_summary;
pub use top::summary;
