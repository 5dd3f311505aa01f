//! What holds of summaries. It is the contract of a function without parameters, which does nothing.
ghost use Rattle.pm_summing.specs.Laws.{ArchiveHasOneSummary};

/// Between two moments an archive has one summary, so that the number of workers makes no difference.
pub fn archive_has_one_summary()
    ensures { ArchiveHasOneSummary }
{}
