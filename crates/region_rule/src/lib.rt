//! The region rule: what holds of a region's words whatever threads do. There is one journal, it is legal, the words and
//! the gate are those of its last state, and what each pass has seen is a beginning of it with all the pass's own entries.
//! Each call of a pass says by which entries it made that beginning grow. No call waits but the two under `Wait`.
#![tactic(auto)]

mod change;
mod fault;
mod join;
mod laws;
mod opening;
mod pass;
mod reading;
mod reads;
mod region;
mod rule;
mod steps;
mod stint;
mod view;
mod waits;

pub use change::Change;
pub use fault::{Again, ChangeFault, Changing, NoMemory, OpenFault, ReadFault, Stable, ValueFault};
pub use laws::{
    agreement_is_shown, disagreement_is_again, form_stays_inside, last_closes_all, last_knows_all,
    last_leaves_idle, last_reads_all, last_reads_words, last_sees_all, steps_keep_the_form,
};
pub use opening::Opening;
pub use pass::{Note, Pass};
pub use reading::Reading;
pub use region::Region;
pub use rule::Rule;
pub use stint::Stint;
pub use view::{Role, View};
