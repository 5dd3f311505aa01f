//! A place between two records of an archive's volumes.

/// Where a record of a volume begins, or the last one ends: an offset in bytes of the volume with this number.
#[derive(Clone, Copy)]
pub struct Place {
    pub volume: u32,
    pub offset: u64,
}
