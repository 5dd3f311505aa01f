//! What readings of regions tell that are alike, what loads make of a run, and what a whole journal says. Each law is the contract of a
//! function without parameters, which does nothing.
ghost use Rattle.run_passes.specs.Alike.{AlikeAnswersAlike};
ghost use Rattle.run_passes.specs.Lasts.{LastLeavesTheGate};
ghost use Rattle.run_passes.specs.Loaded.{AloneReadingsAreStates, LoadedStayManned};

/// Readings that say the same but for generations and for what no metric shows answer a fetch alike, with the same facts and names.
#[tactic(auto, using(crate::proofs::AlikeAnswers::alike_answers))]
pub fn alike_answers_alike()
    ensures { AlikeAnswersAlike }
{}

/// Loads of the logger's passes leave each region of a run with its passes. Where nobody else acted up to them the run stands where it stood,
/// and what was read with them tells what its regions show.
pub fn alone_readings_are_states()
    ensures manned { LoadedStayManned }
    ensures states { AloneReadingsAreStates }
{}

/// Where one pass has gathered every other pass of its region the gate is free: no stint is left attached, and no change unfinished.
#[tactic(auto, using(crate::proofs::Lasting::leaves_the_gate))]
pub fn last_leaves_the_gate()
    ensures { LastLeavesTheGate }
{}
