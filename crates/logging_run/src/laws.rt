//! What holds of runs. Each is the contract of a function without parameters, which does nothing.
ghost use Rattle.logging_run.specs.Laws.{EventsGrow, EventsLeadToOne, ItemsAreReports, SureRunsAreAcknowledged, SureRunsLoseAtMostOne, TakenIsNotTurnedAway, TurnedAwayForOne};

/// Of a run whose results are each made sure a crash loses at most one result, however it ends.
pub fn sure_runs_lose_at_most_one()
    ensures { SureRunsLoseAtMostOne }
{}

/// Between the calls of such a run all that it logged is acknowledged.
pub fn sure_runs_are_acknowledged()
    ensures { SureRunsAreAcknowledged }
{}

/// The items of a run are the results that it logged, one behind another.
pub fn items_are_reports()
    ensures { ItemsAreReports }
{}

/// The events of what is handed in stand behind those of what was handed in before.
pub fn events_grow()
    ensures { EventsGrow }
{}

/// One list of events leads to one set of files.
pub fn events_lead_to_one()
    ensures { EventsLeadToOne }
{}

/// An archive turns a result away for one reason.
pub fn turned_away_for_one()
    ensures { TurnedAwayForOne }
{}

/// A result that an archive took is none that it turns away.
pub fn taken_is_not_turned_away()
    ensures { TakenIsNotTurnedAway }
{}
