//! Regions of memory mapped values (mmv(5)): threads store values into the words of an image, change its layout, and read it,
//! and no call waits but the two under `Wait`. Each call tells exactly the entries that it made in the region's one journal,
//! and a stable read is of one layout. The laws of journals stand in region_core, those of calls in region_rule.
#![tactic(auto)]

mod change;
mod laws;
mod number;
mod pass;
mod reading;
mod reads;
mod region;
mod shape;
mod stint;
mod waits;

pub use change::Change;
pub use laws::{numbers_take_all, slots_take_offsets, words_tell_the_form};
pub use number::is_number;
pub use pass::{Note, Pass};
pub use reading::Reading;
pub use reads::Known;
pub use region::Region;
pub use region_rule::{Again, ChangeFault, Changing, OpenFault, ReadFault, Stable, ValueFault};
pub use shape::Mmv;
pub use stint::Stint;
