//! The texts that the commands write: an image of memory mapped values (mmv(5)) as its layout text or as its bytes, the line
//! of each fault of an image or of a layout text, and what an archive (LOGARCHIVE(5)) says: items, sets and descriptions.
#![tactic(auto)]

mod faults;
mod images;
mod infos;
mod instances;
mod item_lines;
mod items;
mod laws;
mod sets;
mod stamps;
mod starts;
mod values;

pub use faults::{image_fault_text, line_fault_text};
pub use images::{image_bytes, image_text};
pub use infos::info_text;
pub use item_lines::ItemLines;
pub use items::{item_text, put_item, set_text};
pub use laws::bytes_are_the_image;
pub use stamps::put_stamp;
