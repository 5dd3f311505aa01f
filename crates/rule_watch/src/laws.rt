//! That rules are read as they are written, what many pushes tell, and what a row may lack.
ghost use Rattle.rule_watch.specs.Laws.{OnlyRulesAreRead, PushesTell, RowsMayLackOthers, RulesAreRead, SpellingIsOne, TextsAreRead};

/// What is written of a rule is read as that rule, and what is written of all rules of a text as these.
pub fn rules_are_read()
    ensures rule { RulesAreRead }
    ensures text { TextsAreRead }
{}

/// What is read of a line is a rule that may be written, and the line is what is written of it, but for a `-0`.
pub fn only_rules_are_read()
    ensures rules { OnlyRulesAreRead }
    ensures spelling { SpellingIsOne }
{}

/// Rows are pushed one behind another, some perhaps refused for want of memory: each answer is the numbers of the rules
/// that hold at its row, as the rows that were taken so far say.
pub fn pushes_tell()
    ensures { PushesTell }
{}

/// A row may be handed over without the values of names that aren't watched: what was answered and what is kept then is what
/// the whole row asks for.
pub fn rows_may_lack_others()
    ensures { RowsMayLackOthers }
{}
