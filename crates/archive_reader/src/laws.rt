//! What a search by time may leave unread, and that it has one answer. Each is the contract of a function without parameters, which does nothing.
ghost use Rattle.archive_reader.specs.Laws.{PlacesPart, SegmentsAreEnough, ChosenPlaceIsEnough, StandingIsRead};
ghost use Rattle.archive_reader.specs.Once.{LoadAnswersOnce, AtAnswersOnce, RangeAnswersOnce, ValueAnswersOnce};
ghost use Rattle.archive_reader.specs.Sounds.{LoadsReadable, ReadableStands, SoundFindsLast, SoundFindsRange, ReadableFindsValue};

/// A place parts an archive's items into those before it and those from it on.
pub fn places_part()
    ensures { PlacesPart }
{}

/// Where stamps never fall, nothing behind the first item after the later moment is asked for.
pub fn segments_are_enough()
    ensures { SegmentsAreEnough }
{}

/// Over a sound archive the place that an entry says is enough to begin with: of all that stands before it, at most the
/// last item is asked for.
pub fn chosen_place_is_enough()
    ensures { ChosenPlaceIsEnough }
{}

/// Where items' records stand from the first place on, over the ends of volumes and up to the end, the files are readable and
/// these items are their scan.
pub fn standing_is_read()
    ensures { StandingIsRead }
{}

/// A readable archive is loaded, unless the disk fails or memory runs out.
pub fn readable_is_loaded()
    ensures { LoadsReadable }
{}

/// In a readable archive that is loaded the items of the scan stand from the first place on, and nothing else does.
pub fn readable_stands()
    ensures { ReadableStands }
{}

/// Over a sound archive the last item not after a moment is that of the scan.
pub fn sound_finds_last()
    ensures { SoundFindsLast }
{}

/// Over a sound archive the items of a range are those of the scan.
pub fn sound_finds_range()
    ensures { SoundFindsRange }
{}

/// Over a readable archive a metric's last values are those of the scan.
pub fn readable_finds_value()
    ensures { ReadableFindsValue }
{}

/// Any files are loaded as one archive at most, and then no place of them is refused.
pub fn load_answers_once()
    ensures { LoadAnswersOnce }
{}

/// Over any files that are loaded the last item not after a moment is one, or there is none, or one place is refused.
pub fn at_answers_once()
    ensures { AtAnswersOnce }
{}

/// Over any files that are loaded the items of a range are one list, or one place is refused.
pub fn range_answers_once()
    ensures { RangeAnswersOnce }
{}

/// Over any files that are loaded a metric's last values are one set, or there are none, or one place is refused.
pub fn value_answers_once()
    ensures { ValueAnswersOnce }
{}
