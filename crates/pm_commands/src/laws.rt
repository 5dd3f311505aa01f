//! Laws of the commands' meanings. Each is the contract of a function without parameters, which does nothing.
ghost use Rattle.pm_commands.specs.Laws.{DoneIsWelcome, MadeRunsOn, OneEnd, ReadableIsWelcome, RetiringIsWelcome, SoundBeforeRecovery, SoundIsWelcome};

/// A readable archive of which no file stands wrapped is turned away by no command that reads it whole, nor by
/// recovery.
pub fn readable_is_welcome()
    ensures { ReadableIsWelcome }
{}

/// A readable archive, of which no file stands wrapped and what recovery would leave is sound, is turned away by no command that asks
/// by time, but where `at` finds no item, nor by `check`. Such files are what a stop leaves of a sound archive, before recovery and after it.
pub fn sound_is_welcome()
    ensures { SoundIsWelcome }
{}

/// An archive of which no file stands wrapped is turned away by no `retire` whose number is at most the current volume that recovery would
/// leave.
pub fn retiring_is_welcome()
    ensures { RetiringIsWelcome }
{}

/// Readable files that recovery would leave sound are sound before it: so what `at` and `range` write of them is the scan's.
pub fn sound_before_recovery()
    ensures { SoundBeforeRecovery }
{}

/// Files over which a script's run comes to its end, and of which none stands wrapped, aren't turned away by a command that runs it.
pub fn done_is_welcome()
    ensures { DoneIsWelcome }
{}

/// A script runs over files to one end of its own, with one output, and the same events, regions and files.
pub fn one_end()
    ensures { OneEnd }
{}

/// The run of a script that `make` makes isn't ended by its lines, over any files: no condition fails in it, and no tick asks for too many
/// metrics.
pub fn made_runs_on()
    ensures { MadeRunsOn }
{}
