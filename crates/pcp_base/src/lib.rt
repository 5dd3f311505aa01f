//! The values that Performance Co-Pilot speaks of: identifiers, units, time stamps, descriptions, results
//! and archive items (pmLookupDesc(3), pmFetch(3), LOGARCHIVE(5)), and readers of fixed fields.
//! A value that is out of its range can't be made.
#![tactic(auto)]

mod block;
mod desc;
mod duplicate;
mod fields;
mod file;
mod ids;
mod kind;
mod list;
mod memory;
mod names;
mod result;
mod shared;
mod stamp;
mod text;

pub use block::Block;
pub use desc::Desc;
pub use duplicate::Duplicate;
pub use fields::{be32, be64, le32, le64};
pub use file::FileId;
pub use ids::{InDom, Pmid, Units};
pub use kind::{Kind, Semantics};
pub use list::{Bytes, List};
pub use memory::NoMemory;
pub use names::{is_component, is_name, spells_component};
pub use result::{Body, Item, PmResult, ValueSet};
pub use shared::Shared;
pub use stamp::Stamp;
pub use text::{Text, TextError, Zero};
