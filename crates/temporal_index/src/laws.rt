//! What holds between writing and reading.
ghost use Rattle.temporal_index.specs.Laws.{WrittenIndexIsRead, IndexStopsOnce};

/// Entries that were written one behind another are read again, unless memory runs out.
pub fn written_index_is_read()
    ensures { WrittenIndexIsRead }
{}

/// The first offset where no entry stands is one, and bytes with such an offset are no entries.
pub fn index_stops_once()
    ensures { IndexStopsOnce }
{}
