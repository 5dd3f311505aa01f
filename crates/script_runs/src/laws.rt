//! What the definitions make of worked scripts.
ghost use Rattle.script_runs.specs.Worked.{AddsOne, ReadsAround, ReadsBehind, IsBusy, ShowsBusy, IsBounced, IsSpent, IsTooLarge, ShowsOther, ShowsMissed, ShowsText, AreRefused};

/// Worked scripts write these lines, and ticks behind them show these values.
pub fn worked_scripts()
    ensures adds { AddsOne }
    ensures around { ReadsAround }
    ensures behind { ReadsBehind }
    ensures busy { IsBusy }
    ensures busy_shown { ShowsBusy }
    ensures bounced { IsBounced }
    ensures spent { IsSpent }
    ensures too_large { IsTooLarge }
    ensures other { ShowsOther }
    ensures missed { ShowsMissed }
    ensures text { ShowsText }
    ensures refused { AreRefused }
{}
