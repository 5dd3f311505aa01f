//! The outside of a program of Performance Co-Pilot in memory, for tests: an object for each trait of `pcp_outside`
//! but `Turn`, proved against it, which tells its content and fails at the calls that a test lists or plans. The disk keeps
//! a record of its changes, and so tells what a crash at each moment might have left.
#![tactic(auto)]

mod contents;
mod memory_clock;
mod memory_disk;
mod memory_door;
mod memory_streams;
mod plans;

pub use memory_clock::ListClock;
pub use memory_disk::{Asked, DiskChange, MemDisk};
pub use memory_door::MemDoor;
pub use memory_streams::{MemSink, MemSource, SureSource};
pub use plans::{Call, Fault};
