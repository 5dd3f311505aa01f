//! The call that the program `pcp` makes: `offline` runs the command of a command line, and answers the exit status, each with
//! its cause.
#![tactic(auto)]

mod laws;
mod top;

pub use laws::{
    done_is_welcome, made_runs_on, one_end, readable_is_welcome, retiring_is_welcome,
    sound_before_recovery, sound_is_welcome,
};
pub use pm_words::{Call, Command, MakeWords, OnceWords, Refusal, ValueWords, read_words};
pub use top::{offline, writes_archive};
