//! What holds of every stream.
ghost use Rattle.pdu_stream.specs.Laws.{StreamSplitsOneWay};

/// A stream splits one way only into whole PDUs and what can't be given: so every cutting into pieces gives the same.
pub fn stream_splits_one_way()
    ensures { StreamSplitsOneWay }
{}
