//! The laws of a recording, over whatever its writers do beside each other.
ghost use Rattle.record_run.specs.Closing.{LastSampleIsExact};
ghost use Rattle.record_run.specs.Counters.{CountersAreSums, WordsAreSums};
ghost use Rattle.record_run.specs.Whole.{NoLineIsLost};

/// After a recording that came to its end the last sample shows of each region exactly what the region's words say once every writer has
/// ended: each numeric value, under the region's last layout, as it stands in the end; and what is logged last is what these words answer.
#[tactic(auto, using(crate::proofs::Last::last_sample))]
pub fn last_sample_is_exact()
    ensures { LastSampleIsExact }
{}

/// Each word of each region is what was stored into it last, by a change of the layout or a swap, plus all adds since, modulo 2^64. Where
/// nothing was stored, it is so of the word that the region opened with.
pub fn words_are_sums()
    ensures { WordsAreSums }
{}

/// So it is of each numeric value that a region's last layout says.
pub fn counters_are_sums()
    ensures { CountersAreSums }
{}

/// In a recording of a script that it may take, whose writers have ended, each writer's own entries are exactly those of its
/// lines: no store finds its slot, its text or its kind missing, and no change finds the generations spent.
pub fn no_line_is_lost()
    ensures { NoLineIsLost }
{}
