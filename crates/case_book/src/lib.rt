//! Cases as data: a book of cases is text whose lines set something up, do something and ask for what came of it. The
//! book reads literals, keeps named bytes, compares what is wanted with what came, and counts; what the lines do is
//! a `Subject`'s. An answer that no line asks for is a difference, so a case can't pass by asking nothing.
#![tactic(auto)]

mod answer;
mod book;
mod kept;
mod lines;
mod literals;
mod words;

pub use answer::Answer;
pub use book::{Book, Count, Subject};
pub use kept::Kept;
pub use lines::Line;
pub use literals::{read_hex, read_text, write_text};
pub use words::{Words, text_of};
