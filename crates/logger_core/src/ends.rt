//! What a logger keeps of its archive in numbers: where the files end, the greatest stamp, the last entry of the index.
use pcp_base::Stamp;
use pcp_model::Entry;

/// Where the files of an archive end, in bytes, and which volume is written; the greatest stamp of any item, instance domain or entry;
/// the index's last entry; how many items were logged, and how many of them are acknowledged. Retired items count in all of it.
#[derive(Clone, Copy)]
pub struct Ends {
    pub meta: u64,
    pub index: u64,
    pub volume: u32,
    pub length: u64,
    pub greatest: Option<Stamp>,
    pub entry: Option<Entry>,
    pub logged: u64,
    pub acknowledged: u64,
}
