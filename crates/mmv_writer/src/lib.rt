//! Writes images of memory mapped values, versions 1 and 2 (mmv(5)). A builder takes the rows of an image one by one and
//! refuses a row that would break the format; what was built is then spelled in one way alone, without gaps: which strings
//! it has, where its sections stand, and the words themselves. A whole layout text is read line after line, and an image
//! is lifted to version 2.
#![tactic(auto)]

mod adding;
mod builder;
mod drafting;
mod fault;
mod keys;
mod laws;
mod lifting;
mod line_fault;
mod lookups;
mod offsets;
mod reading;
mod references;
mod rules;
mod spelling;
mod strings;
mod tables;
mod text_laws;
mod words;

pub use builder::Builder;
pub use fault::BuildFault;
pub use laws::{
    drafts_are_images, drafts_are_of_version_2, drafts_are_said, layouts_are_drafts,
    lifted_says_the_layout,
};
pub use lifting::lift;
pub use line_fault::{LineError, LineFault, ReadTextError, TextFault};
pub use reading::{add_line, read_text, take_head, take_line};
pub use text_laws::{
    made_text_is_dumped, make_then_dump_gives_the_text_again, written_text_is_read,
};
