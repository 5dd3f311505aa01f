//! What follows from the clauses of the calls. Each law is the contract of a function without parameters, which does nothing.

ghost use Rattle.region_rule.specs.Reads.{Agreement, Disagreement};
ghost use Rattle.region_rule.specs.Laws.{FormStaysInside, StepsKeepTheForm, LastSeesAll, LastClosesAll, LastKnowsAll, LastLeavesIdle, LastReadsAll, LastReadsWords};

use region_core::Shape;

/// While a pass is inside, the form of the journal's last state is that of what the pass has seen.
pub fn form_stays_inside<S: Shape>()
    ensures { FormStaysInside S.shaping }
{}

/// A step of a pass that is inside keeps the form of what it has seen.
pub fn steps_keep_the_form<S: Shape>()
    ensures { StepsKeepTheForm S.shaping }
{}

/// A pass that has gathered every other one has seen the whole journal: its next step finds nothing new before it.
pub fn last_sees_all<S: Shape>()
    ensures { LastSeesAll S.shaping }
{}

/// And where it closes the region, the words are those of what it has seen.
pub fn last_closes_all<S: Shape>()
    ensures { LastClosesAll S.shaping }
{}

/// A reading whose two numbers are one is shown, from the end of what its pass had seen.
pub fn agreement_is_shown<S: Shape>()
    ensures { Agreement S.shaping }
{}

/// And one whose two numbers differ is refused.
pub fn disagreement_is_again<S: Shape>()
    ensures { Disagreement S.shaping }
{}

/// A pass that has gathered every other one knows the whole journal.
pub fn last_knows_all<S: Shape>()
    ensures { LastKnowsAll S.shaping }
{}

/// And each other pass is idle.
pub fn last_leaves_idle<S: Shape>()
    ensures { LastLeavesIdle S.shaping }
{}

/// A reading by such a pass finds the last state's generations and words, and leaves that state.
pub fn last_reads_all<S: Shape>()
    ensures { LastReadsAll S.shaping }
{}

/// And a read of all words gives exactly the last state's words.
pub fn last_reads_words<S: Shape>()
    ensures { LastReadsWords S.shaping }
{}
