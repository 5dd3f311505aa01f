//! The payload of a result, as archives and PDUs carry it (pmFetch(3), LOGARCHIVE(5)): its length, its one spelling, and
//! its one reader, `ResultView`, which takes each allowed offset of the blocks. What isn't a payload is refused by the
//! first fault and its offset. What was read is looked at where it stands, set by set and pair by pair over the payload's
//! own bytes and without memory, or made a value of its own.
#![tactic(auto)]

mod bodies;
mod checking;
mod fault;
mod laws;
mod owned;
mod reach;
mod reading;
mod sets;
mod sizes;
mod spelling;
mod view;
mod words;
mod writing;

pub use bodies::{BlockView, BlocksView, WordsView};
pub use fault::FormFault;
pub use laws::{faults_come_once, payloads_are_read_one_way, written_is_read};
pub use reading::decode;
pub use sets::{BodyView, SetView, SetsView};
pub use sizes::length;
pub use spelling::put_payload;
pub use view::ResultView;
pub use writing::{encode, fits};
