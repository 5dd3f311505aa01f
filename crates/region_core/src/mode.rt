//! What a pass may be doing.

/// What a pass is doing; each pass is in one mode at a time.
#[derive(Clone, Copy, PartialEq, Eq)]
pub enum Mode {
    /// Neither attached nor changing: it may read.
    Idle,
    /// Inside the region: it may swap and add values, and no layout changes.
    Attached,
    /// It came while another pass was changing the layout, and has still to leave.
    Bounced,
    /// It has the region to itself, and may change the layout.
    Changing,
}
