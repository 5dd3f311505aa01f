//! The latest stamp so far, and how many items.
ghost use Rattle.std.specs.Prelude.{◌≡◌, ◌+◌, [], ◌∷◌, ◌++◌, take, option_to_list, OnOk};
ghost use Rattle.archive_recovery.specs.Counts.{CountsMore};
ghost use Rattle.archive_recovery.specs.Stamps.{entry_stamps, IsLatestOn};

use archive_loading::{later, later_by};
use archive_volume::ItemView;
use pcp_base::{NoMemory, Stamp};
use temporal_index::Index;

/// How many items there are so far, and the latest stamp of them, of the index's entries and of domains' records.
#[derive(Clone, Copy)]
pub struct Tally {
    pub items: u64,
    pub last: Option<Stamp>,
}

/// The stamp of an index's entry at a position, if there is one.
fn stamp_at(index: &Index, at: u64) -> Option<Stamp>
    ensures { entry_stamps (take (at + 1) index.now) ≡ entry_stamps (take at index.now) ++ option_to_list result }
{
    match index.entry(at) {
        Some(entry) => Some(entry.stamp),
        None => None,
    }
}

/// The latest stamp where the entries of an index come.
pub(crate) fn later_entry(last: Option<Stamp>, index: &Index) -> Option<Stamp>
    ensures { IsLatestOn last (entry_stamps index.now) result }
{
    let mut latest = last;
    for at in 0..index.len() {
        latest = later_by(latest, stamp_at(index, at));
    }
    latest
}

impl Tally {
    /// One item more.
    pub(crate) fn count(&mut self, item: &ItemView<'_>) -> Result<(), NoMemory>
        ensures { OnOk result (CountsMore self.old (item.now ∷ []) self.new) }
    {
        if self.items == u64::MAX {
            return Err(NoMemory);
        }
        self.items += 1;
        self.last = Some(later(self.last, item.stamp()));
        Ok(())
    }
}
