//! What holds between writing and reading.
ghost use Rattle.archive_volume.specs.Laws.{WrittenItemIsRead};

/// The payload that `encode_item` frames is that item, so `decode_item` answers this item for it, unless memory runs
/// out.
pub fn written_item_is_read()
    ensures { WrittenItemIsRead }
{}
