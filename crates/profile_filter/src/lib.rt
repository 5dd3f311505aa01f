//! The instance profile of a context, by which a fetch leaves out instances (pmAddProfile(3),
//! pmDelProfile(3), pmFetch(3)). The first part of an instance domain decides about its instances, and
//! the global state does where the domain has no part.
#![tactic(auto)]

mod choices;
mod profile;

pub use choices::{ByDomain, Choice};
pub use profile::{DomainPart, Profile, TooMany};
