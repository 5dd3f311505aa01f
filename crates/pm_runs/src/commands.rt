//! The commands, each in a file of its own.

pub(crate) mod make;
pub(crate) mod once;
pub(crate) mod recover;
pub(crate) mod replay;
pub(crate) mod retire;
