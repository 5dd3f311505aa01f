//! Where the archive of a session stands.
use archive_recovery::Archive;
use logger_core::Batch;

/// Where the archive of a session stands.
#[derive(Drop)]
pub(crate) enum Place {
    /// As recovery left it.
    Found(Archive),
    /// A logger goes on with it, and holds results to be written.
    Open(Batch),
    /// As recovery left it: memory was refused when it was to be opened, and nothing more is logged.
    Lost,
    /// The disk failed, and nothing more is logged: what it left is to be recovered. So many results that were held are lost; the first of them may stand.
    Failed(u32),
}
