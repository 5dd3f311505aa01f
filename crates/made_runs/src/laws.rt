//! That generated scripts run.
ghost use Rattle.made_runs.specs.Laws.{GeneratedRuns};

/// By its lines the script that a number makes runs to its end: no condition fails, no tick asks for too many metrics, and no
/// pass is left at work.
pub fn generated_scripts_run()
    ensures { GeneratedRuns }
{}
