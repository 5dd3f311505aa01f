//! Words of a book of cases for runs of the program's commands (`run WORDS`), and for what a crash may leave of the runs of a
//! case: of each file by itself the bytes that were sure, and any beginning of the rest. Each image is read by the reader,
//! whose answers are what the definitions say, or recovered.
#![tactic(auto)]

mod images;
mod parts;
mod recoveries;
mod runs;
mod tables;
mod tally;

pub use images::crash;
pub use recoveries::recovered;
pub use runs::run;
pub use tables::faults;
