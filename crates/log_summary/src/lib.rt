//! What an archive's values come to between two stamps (pmlogsummary(1)): of each metric's instance that has numbers, how
//! many, the least, the greatest and their sum. Volumes are summed by workers beside each other, and what they found is put
//! together in the volumes' order, so the summary is that of the whole scan.
#![tactic(auto)]

mod job;
mod jobs;
mod laws;
mod lines;
mod numbers;
mod piece;
mod summing;
mod table;
mod tally;
mod walking;

pub use laws::{
    keys_are_apart, lines_tell, numbers_are_printed, summary_answers_once, tables_merge,
    tables_tell,
};
pub use numbers::{block_number, word_number};
pub use summing::summarize;
pub use table::{Table, code_of};
pub use tally::Tally;
