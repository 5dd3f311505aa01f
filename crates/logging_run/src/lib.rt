//! A logger's run over any files (pmlogger(1)): the files are recovered, results are logged one after another, each of them made sure at once or
//! held to be written with others, and at the end what was logged is flushed. One relation leads from the disk at the start to each way in which
//! a run may end; it says which files stand then, and what a crash at any moment leaves.
#![tactic(auto)]

mod fault;
mod label;
mod laws;
mod run;

pub use fault::RunFault;
pub use laws::{
    events_grow, events_lead_to_one, items_are_reports, sure_runs_are_acknowledged,
    sure_runs_lose_at_most_one, turned_away_for_one,
};
pub use run::Run;
