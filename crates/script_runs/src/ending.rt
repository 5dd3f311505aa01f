//! How a run ends.
use pcp_base::{FileId, Pmid, Stamp};

/// What there would be too many of.
#[derive(Clone, Copy)]
pub enum LimitKind {
    /// The metrics that one tick asks for: more than 1,024.
    Sets,
    /// The bytes of one framed record: more than 16,777,216.
    Record,
    Meta,
    Index,
    /// The number of a volume: 10,000.
    Volume,
}

/// How a run ends, or why it was refused.
#[derive(Clone, Copy)]
pub enum Ending {
    /// Every line was run, and no pass was left at work.
    Done,
    /// The condition of this line failed; of the line behind the last where a pass was left at work.
    Condition { line: u32 },
    /// The disk failed.
    DiskFault,
    /// The files are no archive: these bytes fit no label and no record.
    NotArchive { file: FileId, at: u64 },
    /// A file stands under its name with `.xz` or `.gz` added.
    Compressed { file: FileId },
    /// `number` is above the limit: so many metrics, bytes or volumes would be needed.
    Limit { what: LimitKind, number: u64 },
    /// No moment was left for so many samples.
    ClockEnd { left: u32 },
    /// The clock failed, and so many samples were to come.
    ClockFault { left: u32 },
    /// Memory was refused.
    NoMemory,
    /// The result to log isn't after this stamp, the greatest of the archive.
    NotLater { last: Stamp },
    /// A metric is described otherwise than in the archive.
    Changed { pmid: Pmid },
}
