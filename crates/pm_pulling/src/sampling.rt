//! The samples of a peer, each logged before the next one is asked for.
ghost use Rattle.std.specs.Prelude.{◌≡◌, ℕ, List as Sequence, [], OnOk};
ghost use Rattle.pcp_outside.specs.Sides.{sink_side, source_side};
ghost use Rattle.logging_run.specs.Running.{Runs};
ghost use Rattle.logging_session.specs.Keeping.{IsWorking};
ghost use Rattle.pm_pulling.specs.Pulling.{GoesOn, LogsAll, LogsNext, pull_side};
ghost use Rattle.pm_words.specs.CommandLine.{FitsCommand};
ghost use Rattle.pm_words.specs.declared.words.Command.TheVariants.{Pull as Pulling};
ghost use Rattle.pmcd_client.specs.Talks.{Sample};

use crate::stop::Stop;
use logging_run::Run;
use pcp_outside::{Disk, Sink, Source, Turn};
use pm_words::PullWords;
use pmcd_client::Dialogue;
use std::alloc::Global;

/// Asks for a sample, logs it and makes it sure.
fn log_sample<I: Source, L: Sink, D: Disk>(
    alloc: Global,
    dialogue: &mut Dialogue,
    run: &mut Run,
    reply: &mut I,
    request: &mut L,
    disk: &mut D,
) -> Result<(), Stop>
    requires working { IsWorking run.old }
    ensures logs { (names : Sequence (Sequence ℕ)) (limit : ℕ) (samples : Sequence Sample) (first : I) (begun : L) (start : D)
        → GoesOn (pull_side (source_side I.Source first reply.old) (sink_side L.Sink begun request.old) D.Disk start disk.old) names limit samples dialogue.old run.old
        → LogsNext (pull_side (source_side I.Source first reply.new) (sink_side L.Sink begun request.new) D.Disk start disk.new) names limit samples dialogue.new run.new result }
    ensures working { OnOk result (IsWorking run.new) }
{
    let answer = dialogue.sample(alloc, reply, request)?;
    run.log_sure(alloc, disk, &answer, dialogue.facts())?;
    Ok(())
}

/// Opens a dialogue about the names that are asked for, and logs their samples, one turn before each.
pub(crate) fn log_samples<I: Source, L: Sink, D: Disk, T: Turn>(
    alloc: Global,
    asked: &PullWords,
    run: &mut Run,
    reply: &mut I,
    request: &mut L,
    disk: &mut D,
    turn: &T,
) -> Result<(), Stop>
    requires fits { FitsCommand (Pulling asked.now) }
    requires working { IsWorking run.old }
    ensures logs { (start : D) → Runs D.Disk asked.now.volume [] run.old start disk.old
        → LogsAll (pull_side (source_side I.Source reply.old reply.new) (sink_side L.Sink request.old request.new) D.Disk start disk.new) asked.now.names asked.now.volume asked.now.samples run.new result }
{
    let mut dialogue = Dialogue::open(alloc, asked.names.as_slice(), reply, request)?;
    for number in 0..asked.samples {
        turn.turn(0, u64::from(number));
        log_sample(alloc, &mut dialogue, run, reply, request, disk)?;
    }
    Ok(())
}
