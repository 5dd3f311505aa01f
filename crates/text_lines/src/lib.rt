//! The lines of a text, and the parts of a line: words behind single spaces, decimal, signed and hexadecimal numbers,
//! quoted texts with their escapes, and `-` for a missing part. Takes each part from what is left of a line, exactly,
//! and writes each in its one spelling. So are the lines of layout text read and written, in which an image of memory
//! mapped values (mmv(5)) is written down, and a whole layout.
#![tactic(auto)]

mod content;
mod kinds;
mod laws;
mod layout_laws;
mod layout_line;
mod layout_parts;
mod layout_reading;
mod layout_words;
mod layout_writing;
mod lines;
mod names;
mod numbers;
mod quoted;
mod rest;
mod whole;
mod writing;

pub use content::{content_of, written_of};
pub use laws::{
    read_number_is_in_range, read_text_is_text, written_number_is_read, written_part_is_in_line,
    written_text_is_read,
};
pub use layout_line::{Line, Written};
pub use layout_parts::{put_kind, put_semantics};
pub use layout_reading::read_line;
pub use lines::split_line;
pub use names::take_name;
pub use numbers::{hex_number, int32, number32, number64, read_number, whole_number};
pub use quoted::starts_quoted;
pub use rest::{Rest, TakeFault, split_word};
pub use whole::layout_text;
pub use writing::{
    one_number_line, put_escapes, put_help, put_hex, put_hex_part, put_int, put_number,
    put_one_number, put_optional_int, put_optional_number, put_text, put_whole,
};
