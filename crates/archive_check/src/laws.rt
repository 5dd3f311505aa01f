//! What holds of breaches: the contract of a function without parameters, which does nothing.
ghost use Rattle.archive_check.specs.Laws.{ReadableIsJudged};

/// A readable archive is sound, or has exactly one first breach.
pub fn readable_is_judged()
    ensures { ReadableIsJudged }
{}
