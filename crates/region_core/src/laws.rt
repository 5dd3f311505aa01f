//! The laws of legal journals. Each is the contract of a function without parameters, which does nothing.

ghost use Rattle.region_core.specs.Laws.{GenerationsRise, HasOneFormBetween, HasOneFormEach, WordsAreAnImage, GateCounts, OnePassChanges, ChangesAlone, NoChangeBegins, AgreementShows, ShownWordsAreAnImage, PaddingKeepsTheForm, LegalRuns, StoppedIsIllegal, WordsAreReplayed, QuietReadingsAgree, UnchangingIsStable, IdleIsStable, PassesAlone, ShownLasts, AgainLasts, MissedLasts};

use crate::shape::Shape;

/// The second generation is never above the first, and neither falls.
pub fn generations_rise<S: Shape>()
    ensures { GenerationsRise S.shaping }
{}

/// Where the second generation at one position equals the first at a later one, every state between has both equal to it,
/// and one form. So a reader that loads word 2 first and word 1 last, and finds one number, saw one layout (mmv(5)).
pub fn one_form_between<S: Shape>()
    ensures { HasOneFormBetween S.shaping }
{}

/// Two states of a journal with both generations equal to one number have one form. So a layout that is kept for a
/// generation serves for that generation.
pub fn one_form_each<S: Shape>()
    ensures { HasOneFormEach S.shaping }
{}

/// Words found by loads between two such positions, taken together, are an image of that form.
pub fn words_are_an_image<S: Shape>()
    ensures { WordsAreAnImage S.shaping }
{}

/// The gate is the number of passes inside or bounced, plus 2^63 where one is changing. While one is changing none is
/// inside and no other is changing.
pub fn gate_counts<S: Shape>()
    ensures { GateCounts S.shaping }
{}

/// While a pass is changing, each other one is idle or bounced.
pub fn one_pass_changes<S: Shape>()
    ensures { OnePassChanges S.shaping }
{}

/// While a pass is changing, no other pass adds an event.
pub fn changes_alone<S: Shape>()
    ensures { ChangesAlone S.shaping }
{}

/// While a pass is inside, no `Begin` stands.
pub fn no_change_begins<S: Shape>()
    ensures { NoChangeBegins S.shaping }
{}

/// A reading whose two loaded numbers agree is a shown one: it shows one generation's layout, and values of that stretch.
pub fn agreement_shows<S: Shape>()
    ensures { AgreementShows S.shaping }
{}

/// The words of a shown reading that loaded every word are together an image of the form that it shows.
pub fn shown_words_are_an_image<S: Shape>()
    ensures { ShownWordsAreAnImage S.shaping }
{}

/// An image with zeros behind it, up to a capacity of at most 65,536 words, is an image of the same form.
pub fn padding_keeps_the_form<S: Shape>()
    ensures { PaddingKeepsTheForm S.shaping }
{}

/// A legal journal can be replayed to its end.
pub fn legal_runs<S: Shape>()
    ensures { LegalRuns S.shaping }
{}

/// A journal at which `replay` stops for an entry is legal under no layout.
pub fn stopped_is_illegal<S: Shape>()
    ensures { StoppedIsIllegal S.shaping }
{}

/// The words of a state are the replay of its events over the opening words.
pub fn words_are_replayed()
    ensures { WordsAreReplayed }
{}

/// A reading that began while the generations agreed, and during which no change begins, is not refused.
pub fn quiet_readings_agree<S: Shape>()
    ensures { QuietReadingsAgree S.shaping }
{}

/// Where no pass is changing the two generations agree.
pub fn unchanging_is_stable<S: Shape>()
    ensures { UnchangingIsStable S.shaping }
{}

/// And so where each pass is idle.
pub fn idle_is_stable<S: Shape>()
    ensures { IdleIsStable S.shaping }
{}

/// A number from the count of passes on has no entry.
pub fn passes_alone<S: Shape>()
    ensures { PassesAlone S.shaping }
{}

/// What a reading showed stays shown in any longer journal, and may be said from any earlier position.
pub fn shown_lasts<S: Shape>()
    ensures { ShownLasts S.shaping }
{}

/// A reading that was refused stays so in any longer journal, and may be said to be from any earlier position.
pub fn again_lasts()
    ensures { AgainLasts }
{}

/// A region that was missed stays so in any longer journal, and may be said to be from any earlier position.
pub fn missed_lasts()
    ensures { MissedLasts }
{}
