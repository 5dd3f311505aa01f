//! The commands of the program `pcp` that read an archive or convert an image. Each meets its meaning, and a disk that it reads
//! stays as it was.
#![tactic(auto)]

mod commands;
mod rows;

pub use commands::at::at;
pub use commands::check::check;
pub use commands::dump::dump;
pub use commands::info::info;
pub use commands::mmv_dump::mmv_dump;
pub use commands::mmv_lift::mmv_lift;
pub use commands::mmv_make::mmv_make;
pub use commands::range::range;
pub use commands::value::value;
pub use commands::watch::watch;
