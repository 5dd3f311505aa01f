//! What a condition is told of a window.

/// What is told of a window's values: the least, the greatest, their sum, or the newest minus the oldest.
#[derive(Clone, Copy)]
pub enum Aggregate {
    Min,
    Max,
    Sum,
    Rise,
}
