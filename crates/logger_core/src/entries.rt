//! Which entry the index gets.
ghost use Rattle.std.specs.Prelude.{◌≡◌, ◌<◌, IfSome};
ghost use Rattle.logger_core.specs.Planning.{due_at};
ghost use Rattle.logger_core.specs.LogSteps.{switch_entry as switch_entry_lem};
ghost use Rattle.logger_core.specs.Steps.{up_to, fits_index, fitting, is_behind, where_behind};

use crate::ends::Ends;
use pcp_base::Stamp;
use pcp_model::Entry;

/// The entry up to these ends, where the index stays below 2^31 bytes with it, and both offsets are.
pub(crate) fn fitting(size: u64, stamp: Stamp, volume: u32, meta: u64, offset: u64) -> Option<Entry>
    ensures { result ≡ fitting size (up_to stamp volume meta offset) }
{
    if size >= 2_147_483_628 || meta >= 2_147_483_648 || offset >= 2_147_483_648 {
        return None;
    }
    Some(Entry {
        stamp,
        volume,
        meta: meta as u32,
        offset: offset as u32,
    })
}

/// Whether the index's last entry is so far behind this one that it wants it.
fn is_behind(last: &Option<Entry>, entry: &Entry) -> bool
    ensures { result ≡ is_behind last.now entry.now }
{
    let Some(last) = last else {
        return true;
    };
    last.volume != entry.volume
        || last.meta < entry.meta
        || u64::from(last.offset) + 4096 <= u64::from(entry.offset)
}

/// The entry of a flush.
pub(crate) fn due(ends: &Ends) -> Option<Entry>
    ensures { result ≡ due_at ends.now }
{
    let stamp = ends.greatest?;
    if ends.logged == 0 {
        return None;
    }
    let entry = fitting(ends.index, stamp, ends.volume, ends.meta, ends.length)?;
    if is_behind(&ends.entry, &entry) {
        Some(entry)
    } else {
        None
    }
}

/// The number of bytes in a label.
pub(crate) const LABEL: u64 = 132;

/// The entry that leads to the label of the volume that was opened.
pub(crate) fn switch_entry(ends: &Ends) -> Option<Entry>
    ensures { result ≡ switch_entry_lem ends.now.greatest ends.now.index ends.now.volume ends.now.meta }
{
    let stamp = ends.greatest?;
    fitting(ends.index, stamp, ends.volume, ends.meta, LABEL)
}
