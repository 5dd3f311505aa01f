//! What holds of merges. Each is the contract of a function without parameters, which does nothing.
ghost use Rattle.archive_merge.specs.Laws.{DomainsAreListed, EachStampStandsOnce, FactsAreEnough, FactsAreOfSources, MisfitsSayWhy, SetsAreInOrder, SetsAreOfBoth, SourcesSaySo};

/// The items of a merge rise by stamp: each has that of a result, and each result's has an item.
pub fn each_stamp_stands_once()
    ensures { EachStampStandsOnce }
{}

/// The sets at a stamp are those of the results that have it, in their order.
pub fn sets_are_in_order()
    ensures { SetsAreInOrder }
{}

/// The sets of an item are those of the first source and behind them those of the second, of each metric the first.
pub fn sets_are_of_both()
    ensures { SetsAreOfBoth }
{}

/// Where nothing is lacking an item can be described by its facts.
pub fn facts_are_enough()
    ensures { FactsAreEnough }
{}

/// What a source says of a metric is its first description with the first name, and of a domain what holds at the moment.
pub fn sources_say_so()
    ensures { SourcesSaySo }
{}

/// A lack of the first source is told first, then one of the second, then a clash; and of each the first set's.
pub fn misfits_say_why()
    ensures { MisfitsSayWhy }
{}

/// The facts about metrics are those of their sources.
pub fn facts_are_of_sources()
    ensures { FactsAreOfSources }
{}

/// The domains that sets use are listed, each by what the sources say of it, and no other.
pub fn domains_are_listed()
    ensures { DomainsAreListed }
{}
