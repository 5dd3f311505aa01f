//! What a logger keeps of an archive that recovery left.
ghost use Rattle.std.specs.Prelude.{◌≡◌, ◌<◌, ◌+◌, ◌*◌, length, MatchBool, MatchOption};
ghost use Rattle.logger_core.specs.Going.{AreSmall};
ghost use Rattle.logger_core.specs.Reopening.{ends_of};
ghost use Rattle.logger_core.specs.Steps.{last_entry};

use crate::ends::Ends;
use archive_recovery::Archive;
use pcp_model::Entry;
use temporal_index::Index;

/// One more than the most bytes that a file has.
const MOST: u64 = 1 << 63;

/// The index's last entry.
fn last_entry(index: &Index) -> Option<Entry>
    ensures { result ≡ last_entry index.now }
{
    if index.is_empty() {
        return None;
    }
    index.entry(index.len() - 1)
}

/// How many bytes the index has; 2^63 or more where they are so many.
fn index_length(index: &Index) -> u64
    ensures small { result < 9223372036854775808 → result ≡ 132 + 20 * length index.now }
    ensures large { 132 + 20 * length index.now < 9223372036854775808 → result ≡ 132 + 20 * length index.now }
{
    index.len().saturating_mul(20).saturating_add(132)
}

/// Whether no count of bytes is near what 64 bits hold, and the volume's number fits a label.
fn are_small(ends: &Ends) -> bool
    ensures small { MatchBool result (AreSmall ends.now) (AreSmall ends.now → ⊥) }
    ensures counted { ends.now.logged < 18446744073709551616 }
{
    let ends = *ends;
    ends.volume < 1 << 31 && ends.meta < MOST && ends.index < MOST && ends.length < MOST
}

/// Where the files of an archive end that recovery left, and what stands last in them. `None` where a file has 2^63 bytes or
/// more.
pub(crate) fn ends_of(archive: &Archive) -> Option<Ends>
    ensures { MatchOption result (AreSmall (ends_of archive.now) → ⊥) (λ e. (e ≡ ends_of archive.now) × AreSmall e × (archive.now.items < 18446744073709551616)) }
{
    let ends = Ends {
        meta: archive.meta_length,
        index: index_length(&archive.index),
        volume: archive.volume,
        length: archive.length,
        greatest: archive.last,
        entry: last_entry(&archive.index),
        logged: archive.items,
        acknowledged: archive.items,
    };
    if are_small(&ends) { Some(ends) } else { None }
}
