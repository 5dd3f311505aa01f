//! The journal of an MMV region, and its laws. A region is a table of words that threads store into, read and re-lay;
//! what may happen to it is a list of entries, each one atomic step of one pass. This crate says which lists are legal and
//! what follows from it: what the gate counts, and how the two generation numbers of mmv(5) tell a reader that it saw one layout.
#![tactic(auto)]

mod act;
mod event;
mod laws;
mod mode;
mod shape;
mod state;

pub use act::{Act, Entry};
pub use event::Event;
pub use laws::{
    again_lasts, agreement_shows, changes_alone, gate_counts, generations_rise, idle_is_stable,
    legal_runs, missed_lasts, no_change_begins, one_form_between, one_form_each, one_pass_changes,
    padding_keeps_the_form, passes_alone, quiet_readings_agree, shown_lasts,
    shown_words_are_an_image, stopped_is_illegal, unchanging_is_stable, words_are_an_image,
    words_are_replayed,
};
pub use mode::Mode;
pub use shape::Shape;
pub use state::{State, Stop, replay};
