//! That words without a fault are the images, and which of several faults is told.
ghost use Rattle.mmv_layout.specs.FaultLaws.{ImagesAreGood};
ghost use Rattle.mmv_layout.specs.Lowest.{FirstIsTold, SectionsInOrder, OffsetsAreLowest, NamesAreLowest, KindsAreLowest, ReferencesAreLowest, DuplicatesAreLowest, SerialsAreLowest};

/// Words are an image exactly where they have no fault.
#[tactic(auto, using(crate::proofs::Images::images_same))]
pub fn images_are_good()
    ensures { ImagesAreGood }
{}

/// The fault that is told is the first in the order of the kinds, its section the first that isn't good, and its offset
/// the lowest at which something of its kind fails; nothing is told of a kind exactly where nothing fails.
#[tactic(auto, using(crate::proofs::Told::first_is_told, crate::proofs::Lowest::sections_in_order, crate::proofs::Lowest::offsets_are_lowest, crate::proofs::Lowest::names_are_lowest, crate::proofs::Lowest::kinds_are_lowest, crate::proofs::Lowest::references_are_lowest, crate::proofs::Lowest::duplicates_are_lowest, crate::proofs::Lowest::serials_are_lowest))]
pub fn lowest_offset()
    ensures first { FirstIsTold }
    ensures sections { SectionsInOrder }
    ensures offsets { OffsetsAreLowest }
    ensures names { NamesAreLowest }
    ensures kinds { KindsAreLowest }
    ensures references { ReferencesAreLowest }
    ensures duplicates { DuplicatesAreLowest }
    ensures serials { SerialsAreLowest }
{}
