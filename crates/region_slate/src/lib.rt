//! A toy layout for tests of regions: by it their laws are seen to be possible, and journals of it are legal or not. A slate has
//! its number of counters in word 0, the generation in words 1 and 2, the counters, and one text word, which holds the offset of
//! one of two strings, 64 or 128. Each law about a journal is the contract of a function that does nothing. That the layout keeps
//! the laws of a shape is a lemma, which a crate above cites where it gives a type this layout.
#![tactic(auto)]

ghost use Rattle.std.specs.Prelude.{[], ◌∷◌};
ghost use Rattle.region_slate.specs.Slate.{slate};
ghost use Rattle.region_core.specs.State.{opening};
ghost use Rattle.region_core.specs.Readings.{Shown, IsAgain, Missed};
ghost use Rattle.region_slate.specs.Journals.{one_counter, IsLegalSlate, IsIllegalSlate, whole_day, busy_day, generation_kept, end_first, put_first, taken_over, text_added, text_lost, image_lost};

/// A legal journal: a change with a bounced pass beside it, readings before, across and after it, an add and a swap.
pub fn whole_day_is_legal()
    ensures { IsLegalSlate whole_day }
{}

/// A change has a generation above the one that stands.
pub fn generation_kept_is_illegal()
    ensures { IsIllegalSlate generation_kept }
{}

/// `End` doesn't come before its `Begin`.
pub fn end_first_is_illegal()
    ensures { IsIllegalSlate end_first }
{}

/// No `Put` stands while the generations agree.
pub fn put_first_is_illegal()
    ensures { IsIllegalSlate put_first }
{}

/// `Take` gives nothing over a gate that isn't 0.
pub fn taken_over_is_illegal()
    ensures { IsIllegalSlate taken_over }
{}

/// Nothing is added to a text word.
pub fn text_added_is_illegal()
    ensures { IsIllegalSlate text_added }
{}

/// A text word takes the offset of a string alone.
pub fn text_lost_is_illegal()
    ensures { IsIllegalSlate text_lost }
{}

/// A change ends in an image.
pub fn image_lost_is_illegal()
    ensures { IsIllegalSlate image_lost }
{}

/// The reading across the change was refused: it loaded 5 and then 6.
pub fn reading_across_is_refused()
    ensures { IsAgain (opening one_counter 3) whole_day 0 2 5 6 }
{}

/// The reading after it is shown: generation 6, one counter, which is 9.
pub fn reading_after_is_shown()
    ensures { Shown slate (opening one_counter 3) whole_day 9 2 (record { generation = 6; form = 1; found = (3, 9) ∷ [] }) }
{}

/// Three readings within one change miss the region: each finds generation 6 in word 1, and 5 in word 2 before it.
pub fn three_tries_miss()
    ensures missed { Missed (opening one_counter 3) busy_day 0 2 }
    ensures legal { IsLegalSlate busy_day }
{}
