//! What readings of regions tell of their journals. Each law is the contract of a function without parameters, which does
//! nothing.
ghost use Rattle.fetch_engine.specs.Tries.{HitsLoadValues};
ghost use Rattle.fetch_engine.specs.Visits.{MissesAreMissed, ReadIsShown};

/// A region that wasn't read was missed: three readings of it were refused, from the end of what the pass had seen.
#[tactic(auto, using(crate::proofs::Tries::misses_are_missed))]
pub fn misses_are_missed()
    ensures { MissesAreMissed }
{}

/// And what was read of a region is shown, from the end of what the pass had seen.
#[tactic(auto, using(crate::proofs::Tries::read_is_shown))]
pub fn read_is_shown()
    ensures { ReadIsShown }
{}

/// Where the first load of a reading finds the generation that is kept, value words alone are loaded behind it, up to the next
/// load of generation 2 or the end of the reading.
#[tactic(auto, using(crate::proofs::Hits::hits_load_values))]
pub fn hits_load_values()
    ensures { HitsLoadValues }
{}
