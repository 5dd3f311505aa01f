//! An archive is written again as stock tools of PCP show it whole: its torn ends are left out, missing labels are given, volumes without a label or
//! without a byte are absent, and the index has in front the entry with which each index of pmlogger(1) begins. The source is read whole before
//! anything is written, and Meta is written last. `specs/Exported` says what comes to stand.
#![tactic(auto)]

mod copying;
mod fault;
mod laws;
mod laying;
mod planning;
mod standing;
mod walking;
mod whole;

pub use fault::ExportFault;
pub use laws::{export_begins, export_is_one, export_is_read, export_keeps_sound, export_stays};
pub use whole::export_all;
