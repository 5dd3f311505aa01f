//! The call that the program `pcp` makes for `export BASE2`: an archive is written again, where nothing stands yet, as stock tools of PCP show it
//! whole. It answers the exit status, each with its cause, and leaves the archive as it was.
#![tactic(auto)]

mod top;

pub use top::export;
