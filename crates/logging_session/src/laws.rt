//! What holds of what a session keeps. Each is the contract of a function without parameters, which does nothing.
ghost use Rattle.logging_session.specs.Laws.{FewerComeBack, KeptCountsSurvive, KeptFilesAreLed, KeptFilesAreWhole, KeptSessionsSurvive, RecoveredComeBack};

/// Whatever a crash leaves of what the disk holds between two calls comes back: the items of the start, and the first ones that were logged
/// since, all that a flush acknowledged among them.
pub fn kept_sessions_survive()
    ensures { KeptSessionsSurvive }
{}

/// They come back with all that the logger counts as acknowledged.
pub fn kept_counts_survive()
    ensures { KeptCountsSurvive }
{}

/// Where nothing is held, the files between two calls are those to which the session's events lead.
pub fn kept_files_are_led()
    ensures { KeptFilesAreLed }
{}

/// Recovery changes nothing of the files between two calls, also while results are held.
pub fn kept_files_are_whole()
    ensures { KeptFilesAreWhole }
{}

/// What comes back to the first ones of some items comes back to those of more.
pub fn fewer_come_back()
    ensures { FewerComeBack }
{}

/// What comes back to the items that recovery left comes back to those that stood before it.
pub fn recovered_come_back()
    ensures { RecoveredComeBack }
{}
