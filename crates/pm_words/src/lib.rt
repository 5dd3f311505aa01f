//! The words of a command line of the program `pcp` and its input; what a command means, and how it ends: its output, or a
//! refusal with its status and last line.
#![tactic(auto)]

mod asking;
mod inputs;
mod lines;
mod names;
mod output;
mod refusal;
mod words;

pub use asking::ask;
pub use inputs::read_input;
pub use output::{send, tell_end};
pub use refusal::{PeerFault, Refusal, of_ending};
pub use words::{
    Call, Command, MakeWords, OnceWords, PullWords, RecordWords, SummaryWords, ValueWords,
    read_words,
};
