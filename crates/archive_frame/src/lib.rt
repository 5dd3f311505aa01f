//! What every file of an archive is made of (LOGARCHIVE(5)): the label, and framed records, over which a reader
//! steps forward and back. Both are written and read; what is read wrong is refused by the first fault and its
//! offset.
#![tactic(auto)]

mod fault;
mod framing;
mod heads;
mod laws;
mod parts;
mod reading;
mod steps;
mod writing;

pub use fault::FrameFault;
pub use framing::put_label;
pub use heads::{Head, read_label_of};
pub use laws::{
    each_frame_stands, label_says_one_thing, label_stops_once, no_frame_begins_another,
    written_label_is_read,
};
pub use pcp_model::Label;
pub use reading::{read_label, read_meta_label};
pub use steps::{Step, step_back, step_forward};
pub use writing::label_bytes;
