//! What the run of a script that a number makes comes to: by its lines it runs to its end.
#![tactic(auto)]

mod laws;

pub use laws::generated_scripts_run;
