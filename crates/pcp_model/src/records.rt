//! The records of Meta and the entries of the index, as values.
use crate::instances::DomainInstances;
use pcp_base::{Desc, InDom, List, Stamp, Text};

/// A record of Meta (LOGARCHIVE(5)).
#[derive(Drop)]
pub enum MetaRecord {
    /// A metric's description and its names.
    Description(Desc, List<Text>),
    /// The instances of a domain from a moment on, each with its number and name.
    Domain(Stamp, InDom, DomainInstances),
    /// A record of another kind, which is stepped over unread.
    Other,
}

/// An entry of the temporal index (LOGARCHIVE(5)): no record stamped after its time stands before its
/// offsets. The volume and the offsets, in bytes, are below 2^31.
#[derive(Clone, Copy)]
pub struct Entry {
    pub stamp: Stamp,
    pub volume: u32,
    pub meta: u32,
    pub offset: u32,
}
