//! What holds of summaries. Each is the contract of a function without parameters, which does nothing.
ghost use Rattle.log_summary.specs.Laws.{AreNumbersPrinted, KeysAreApart, LinesTell, SummaryAnswersOnce, TablesMerge, TablesTell};

/// Of two lists of values one behind the other the counts and the sums add up, least and greatest are those of both: their
/// table is that of the one with that of the other merged behind it.
pub fn tables_merge()
    ensures { TablesMerge }
{}

/// Of each metric's instance a table has how many values it has, the least, the greatest and the sum of their numbers, and the
/// moment of the last; of one without values it has nothing.
pub fn tables_tell()
    ensures { TablesTell }
{}

/// A value is the number that a dump prints in decimal, and no number where that prints its bytes.
pub fn numbers_are_printed()
    ensures { AreNumbersPrinted }
{}

/// A table has a row for each metric's instance, and not one for several.
pub fn keys_are_apart()
    ensures { KeysAreApart }
{}

/// The lines of values ascend by the metric's name, then by metric, then by instance; each metric's instance that has values has one, of what
/// these come to, and there is no other.
pub fn lines_tell()
    ensures { LinesTell }
{}

/// Over any files there is one summary between two moments, whatever the number of workers, or some place is refused, and never both.
pub fn summary_answers_once()
    ensures { SummaryAnswersOnce }
{}
