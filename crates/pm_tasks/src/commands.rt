//! The commands, each in a file of its own.

pub(crate) mod at;
pub(crate) mod check;
pub(crate) mod dump;
pub(crate) mod info;
pub(crate) mod mmv_dump;
pub(crate) mod mmv_lift;
pub(crate) mod mmv_make;
pub(crate) mod range;
pub(crate) mod value;
pub(crate) mod watch;
