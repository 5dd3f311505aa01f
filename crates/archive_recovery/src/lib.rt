//! Recovery of an archive that was stopped anywhere: it is read, and then what is torn is cut away and labels that are missing
//! are given.
#![tactic(auto)]

mod counting;
mod laws;
mod mending;
mod outcome;
mod reading;
mod recovering;
mod stamps;
mod survey;
mod syncing;
mod whole;

pub use laws::{
    halfway_is_read, halfway_recovers_sound, halfway_recovers_the_same, recovery_keeps_sound,
    settled_is_halfway,
};
pub use mending::{Last, Tail};
pub use outcome::{Archive, RecoverFault};
pub use recovering::recover;
pub use whole::{Damage, mend};
