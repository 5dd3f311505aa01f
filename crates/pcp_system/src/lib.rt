//! The outside as the system has it: sources and sinks over its readers and writers, the files of an archive
//! (LOGARCHIVE(5)) in a folder, its clock, a pause between samples, a door over a listener, and a connection to a server. Each object is proved against its trait of
//! `pcp_outside`, and tells no content: what the system does is trusted, and tests show it.
#![tactic(auto)]

mod adapters;
mod archive_files;
mod archive_names;
mod client;
mod connection;
mod descriptors;
mod file_disk;
mod keepalive;
mod listing;
mod read_ahead;
mod screen;
mod server;
mod tcp_door;
mod times;
mod trouble;

pub use adapters::{ReaderSource, WriterSink};
pub use client::{ClientSource, Patience};
pub use connection::Connection;
pub use descriptors::{listener_above, open_standard};
pub use file_disk::FileDisk;
pub use screen::Screen;
pub use server::connect;
pub use tcp_door::TcpDoor;
pub use times::{Pace, SystemClock};
