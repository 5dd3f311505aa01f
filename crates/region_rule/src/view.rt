//! What the proofs know of a pass. No value of a view is ever made.

use region_core::{Entry, Mode};
use std::collections::LinkedList;

/// What stands behind a view.
pub enum Role {
    /// A seat that was joined to another: it says nothing any more.
    Spent,
    /// A note: a copy of what a pass had seen.
    Copied,
    /// A pass, with a number of its own.
    Numbered,
}

/// What a pass has seen of its region's journal, and what it knows of itself and of the passes that it gathered.
pub struct View {
    pub role: Role,
    /// The region's words at its making.
    pub start: LinkedList<u64>,
    /// How many passes the region has.
    pub passes: u32,
    /// A beginning of the journal.
    pub seen: LinkedList<Entry>,
    /// A beginning of that one, which came by the last join.
    pub told: LinkedList<Entry>,
    pub number: u32,
    pub mode: Mode,
    /// All entries of this number in the journal.
    pub own: LinkedList<Entry>,
    /// The numbers of passes that were gathered, or are still to be given, each with all its entries.
    pub kept: LinkedList<(u32, LinkedList<Entry>)>,
}
