//! The recording of a script on regions that are opened for it.
ghost use Rattle.std.specs.Prelude.{◌≡◌, IfOk, OnErr};
ghost use Rattle.pm_recording.specs.Recording.{HasRecorded, run_side};
ghost use Rattle.pm_words.specs.CommandLine.{FitsCommand};
ghost use Rattle.pm_words.specs.declared.words.Command.TheVariants.{Record};
ghost use Rattle.run_script.specs.Recording.{refused_line};
ghost use Rattle.run_script.specs.Rules.{KeepsRules};

use pcp_base::NoMemory;
use pcp_outside::{Clock, Disk, Turn};
use pm_words::RecordWords;
use record_run::{images_are, record_script};
use run_archive::Replayed;
use run_passes::{Opened, open_script};
use run_script::Script;
use std::alloc::Global;
use std::sync::Wait;
use std::thread::Threads;

const SEATS: u32 = 1;

/// Opens the regions of a script and records it on them, over any files; the regions are handed out, however the recording ends.
pub(crate) fn record_on<D: Disk, C: Clock, T: Turn + Sync, R: Threads + Wait + Sync>(
    rt: &R,
    alloc: Global,
    asked: RecordWords,
    script: Script,
    disk: &mut D,
    clock: &mut C,
    turn: &T,
    opened: &mut Option<Opened>,
) -> Result<Replayed, NoMemory>
    requires fits { FitsCommand (Record asked) }
    requires rules { KeepsRules script }
    requires beside { refused_line script ≡ None }
    ensures recorded { IfOk result (HasRecorded (run_side C.Clock D.Disk clock.old clock.new disk.old disk.new opened.new) asked script) }
    ensures untouched { OnErr result (disk.new ≡ disk.old) }
    ensures unasked { OnErr result (clock.new ≡ clock.old) }
    ensures unopened { OnErr result (opened.new ≡ opened.old) }
{
    let mut regions = open_script(alloc, &script, SEATS)?;
    images_are(&script);
    let recorded = record_script(
        rt,
        alloc,
        script,
        &mut regions,
        disk,
        clock,
        turn,
        asked.samples,
        asked.volume,
    );
    *opened = Some(regions);
    Ok(recorded)
}
