//! What holds of records, over all bytes.
ghost use Rattle.archive_meta.specs.Laws.{RecordsGoOn, MissingRecordsDescribe};

/// Bytes behind bytes are the records of both, and no bytes are two lists of records. So records that were read in
/// parts are those that are read at once.
pub fn records_go_on()
    ensures { RecordsGoOn }
{}

/// With the records that are missing a result is described, where `fit` answers Ok and the facts are enough: of each
/// metric with values they have the description, and they list its domain with every instance shown, unless it has none.
pub fn missing_records_describe()
    ensures { MissingRecordsDescribe }
{}
