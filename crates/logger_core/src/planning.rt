//! Where the files will end once a result is written, in numbers, before any write.
ghost use Rattle.std.specs.Prelude.{◌≡◌, ◌+◌, ◌<◌, ◌≤◌, true, false, length};
ghost use Rattle.logger_core.specs.Going.{AreSmall, HasRoomIfAny, all_counted};
ghost use Rattle.logger_core.specs.Planning.{with_put, flushed_ends, opened_ends, led_ends, switched_ends, ready_ends, ran_ends, planned_ends};

use crate::ends::Ends;
use crate::entries::{LABEL, due, switch_entry};
use pcp_base::Stamp;
use pcp_model::Entry;

/// Every item is counted as acknowledged.
pub(crate) fn all_counted(ends: &Ends) -> Ends
    ensures { result ≡ all_counted ends.now }
{
    let mut next = *ends;
    next.acknowledged = next.logged;
    next
}

/// An entry stands behind the index, if there is one.
pub(crate) fn with_put(ends: &Ends, entry: Option<Entry>) -> Ends
    requires { HasRoomIfAny ends.now entry }
    ensures { result ≡ with_put entry ends.now }
{
    let mut next = *ends;
    if let Some(entry) = entry {
        next.index += 20;
        next.entry = Some(entry);
    }
    next
}

/// The ends after a flush.
fn flushed_ends(ends: &Ends) -> Ends
    ensures { result ≡ flushed_ends ends.now }
{
    let counted = all_counted(ends);
    let entry = due(&counted);
    with_put(&counted, entry)
}

/// The next volume holds its label.
pub(crate) fn opened_ends(ends: &Ends) -> Ends
    requires { ends.now.volume + 1 < 2147483648 }
    ensures { result ≡ opened_ends ends.now }
{
    let mut opened = *ends;
    opened.volume += 1;
    opened.length = LABEL;
    opened
}

/// The entry of a switch stands behind the index.
fn led_ends(ends: &Ends) -> Ends
    ensures { result ≡ led_ends ends.now }
{
    let entry = switch_entry(ends);
    with_put(ends, entry)
}

/// The ends after a switch to the next volume, or without one.
fn ready_ends(ends: &Ends, crossing: bool) -> Ends
    requires { crossing ≡ true → ends.now.volume + 1 < 2147483648 }
    ensures { result ≡ ready_ends crossing ends.now }
{
    if !crossing {
        return *ends;
    }
    let flushed = flushed_ends(ends);
    let opened = opened_ends(&flushed);
    led_ends(&opened)
}

/// So many bytes of metadata and of items stand, of so many items, the last of which is stamped so.
pub(crate) fn ran_ends(ends: &Ends, records: usize, items: usize, count: u64, stamp: Stamp) -> Ends
    requires meta_room { ends.now.meta + records < 18446744073709551616 }
    requires room { ends.now.length + items < 18446744073709551616 }
    ensures { result ≡ ran_ends records items count stamp ends.now }
{
    let mut next = *ends;
    next.meta += records as u64;
    next.length += items as u64;
    next.greatest = Some(stamp);
    next.logged = next.logged.saturating_add(count);
    next
}

/// The ends once one more result is written: whether it goes into the next volume, how long its metadata and its record are, and its
/// stamp.
pub(crate) fn planned_ends(
    ends: &Ends,
    crossing: bool,
    records: usize,
    item: usize,
    stamp: Stamp,
) -> Ends
    requires next { crossing ≡ true → ends.now.volume + 1 < 2147483648 }
    requires meta_room { ends.now.meta + records < 9223372036854775808 }
    requires room { (ready_ends crossing ends.now).length + item < 9223372036854775808 }
    ensures { result ≡ planned_ends crossing records item stamp ends.now }
{
    let ready = ready_ends(ends, crossing);
    ran_ends(&ready, records, item, 1, stamp)
}
