//! The files of an archive by name (LOGARCHIVE(5)).

/// One file of an archive (LOGARCHIVE(5)): the metadata, the temporal index, or a volume by its number,
/// which is below 2^32 - 1.
#[derive(Clone, Copy, Debug, PartialEq, Eq)]
pub enum FileId {
    Meta,
    Index,
    Volume(u32),
}
