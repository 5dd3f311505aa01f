//! What a case has outside of the program: the input, the sources, sinks and the disk that its runs are given. Words of
//! a book prepare these, call them alone, and look at the files of the disk.
#![tactic(auto)]

mod calls;
mod drive;
mod files;
mod flows;
mod input;
mod looks;
mod numbers;
mod outside;
mod streams;

pub use drive::{Drive, disk_of, planned_disk};
pub use files::{Held, bytes_in, put_changed, snapshot};
pub use input::prepare_input;
pub use numbers::file_of;
pub use outside::{Given, Outside};
pub use streams::{PieceSink, PieceSource};
