//! Reading an archive (LOGARCHIVE(5)): its label and its metadata are loaded, and of each volume its label; items are read
//! record after record, or searched by time. Over a sound archive a search wants no scan: it begins where the index says and
//! ends at the first item stamped after the later moment. A record that wasn't written whole is the archive's end.
#![tactic(auto)]

mod beginning;
mod fault;
mod lasts;
mod laws;
mod places;
mod ranges;
mod reader;
mod segments;
mod values;
mod walking;
mod whole;

pub use fault::ReaderFault;
pub use laws::{
    at_answers_once, chosen_place_is_enough, load_answers_once, places_part, range_answers_once,
    readable_finds_value, readable_is_loaded, readable_stands, segments_are_enough,
    sound_finds_last, sound_finds_range, standing_is_read, value_answers_once,
};
pub use places::Place;
pub use reader::ArchiveReader;
