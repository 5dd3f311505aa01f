//! What the files of an archive say (LOGARCHIVE(5)): of a record its length word is taken and then its other bytes, no byte
//! more; and before its items are read, the label and the metadata of Meta, the index, and of each volume its label. Of a
//! file that says something else the first byte that does is told. A call here only reads, and says so of the disk.
#![tactic(auto)]

mod backward;
mod forward;
mod labels;
mod lack;
mod loading;
mod metadata;
mod parts;
mod reading;
mod stamps;

pub use backward::{Last, last_record};
pub use forward::{Next, Taken, next_record, take_frame};
pub use labels::{Head, MetaHead, head_of, meta_head};
pub use lack::Lack;
pub use loading::{VolumePart, VolumesPart, is_alone, load_index, load_volume, load_volumes};
pub use metadata::{MetaEnd, MetaPart, load_meta};
pub use parts::{IndexPart, index_part, no_entries};
pub use reading::{count_volumes, length_of, wrapped_file};
pub use stamps::{later, later_by, stamp_in};
