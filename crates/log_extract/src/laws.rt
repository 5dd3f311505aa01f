//! What holds of extracts. Each is the contract of a function without parameters, which does nothing.
ghost use Rattle.log_extract.specs.Laws.{AllIsMerged, NextIsJudged, ReportsAreMerged};

/// The items that an extract logs are the first ones of the sources' merge.
pub fn reports_are_merged()
    ensures { ReportsAreMerged }
{}

/// What is refused is of the item of the merge behind them.
pub fn next_is_judged()
    ensures { NextIsJudged }
{}

/// Where none is refused they are the whole merge.
pub fn all_is_merged()
    ensures { AllIsMerged }
{}
