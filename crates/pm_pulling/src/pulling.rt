//! A whole pull: the files are recovered, the samples are logged, and what was logged is flushed.
ghost use Rattle.std.specs.Prelude.{◌≡◌};
ghost use Rattle.pcp_outside.specs.Sides.{sink_side, source_side};
ghost use Rattle.pm_pulling.specs.Pulling.{Pulled, pull_side};
ghost use Rattle.pm_words.specs.CommandLine.{FitsCommand};
ghost use Rattle.pm_words.specs.declared.words.Command.TheVariants.{Pull as Pulling};

use crate::sampling::log_samples;
use crate::stop::Stop;
use logging_run::Run;
use pcp_outside::{Disk, Sink, Source, Turn};
use pm_words::PullWords;
use std::alloc::Global;

/// Logs the samples that are asked for into the files, over any files. Whatever ends it, what was logged is flushed; a disk that fails then
/// stands before whatever else ended it.
pub(crate) fn pull_samples<I: Source, L: Sink, D: Disk, T: Turn>(
    alloc: Global,
    asked: &PullWords,
    reply: &mut I,
    request: &mut L,
    disk: &mut D,
    turn: &T,
) -> Result<(), Stop>
    requires fits { FitsCommand (Pulling asked.now) }
    ensures { Pulled (pull_side (source_side I.Source reply.old reply.new) (sink_side L.Sink request.old request.new) D.Disk disk.old disk.new) asked.now result }
{
    let mut run = match Run::begin(alloc, disk, asked.volume) {
        Ok(run) => run,
        Err(fault) => return Err(Stop::Archive(fault)),
    };
    let logged = log_samples(alloc, asked, &mut run, reply, request, disk, turn);
    match run.finish(disk) {
        Ok(_) => logged,
        Err(fault) => Err(Stop::Archive(fault)),
    }
}
