//! Words of a book about sessions: the regions of a script are served to a client, whose bytes are the input. Tests of sessions open
//! a script's regions by it, too.
#![tactic(auto)]

mod given;
mod opening;
mod serving;

pub use given::Given;
pub use opening::{Changer, Opening, open};
pub use serving::tell_session;
