//! What a program of Performance Co-Pilot has outside of it: bytes that come in, bytes that go out, moments, turns,
//! connections, and the disk that an archive (LOGARCHIVE(5)) stands on, each as a trait with what it may do said in its
//! contract. The objects over the system are `pcp_system`'s; those in memory, for tests, are `pcp_memory`'s.
#![tactic(auto)]

mod clocks;
mod disk;
mod doors;
mod failed;
mod streams;

pub use clocks::{Clock, Free, LOGGER, Turn};
pub use disk::{Disk, append_synced, is_before};
pub use doors::{Door, SessionEnd};
pub use failed::Failed;
pub use pcp_base::FileId;
pub use streams::{ReadFault, Sink, Source, read_to_limit, write_all};
