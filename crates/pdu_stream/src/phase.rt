//! How a stream goes on.

/// Whether more PDUs may come, or why none will.
#[derive(Clone, Copy)]
pub enum Phase {
    /// More bytes may come.
    Open,
    /// No PDU begins with the length word that stands behind the PDUs that were given.
    Bad { found: u32 },
    /// Memory was refused.
    Lost,
}
