//! The run of a script by regions that are opened for it.
ghost use Rattle.std.specs.Prelude.{◌≡◌, ◌≤◌, IfOk, OnErr};
ghost use Rattle.run_archive.specs.Endings.{LeavesCount};
ghost use Rattle.run_script.specs.Rules.{KeepsRules};
ghost use Rattle.pm_runs.specs.Running.{WasRun};

use pcp_base::NoMemory;
use pcp_outside::Disk;
use record_run::replay_script;
use run_archive::Replayed;
use run_passes::{Opened, open_script};
use run_script::Script;
use std::alloc::Global;

/// Opens the regions of a script and runs it on them, over any files; the regions are handed out.
pub fn run_script<D: Disk>(
    alloc: Global,
    script: Script,
    volume: u64,
    disk: &mut D,
    opened: &mut Option<Opened>,
) -> Result<Replayed, NoMemory>
    requires rules { KeepsRules script }
    requires low { 1024 ≤ volume }
    requires high { volume ≤ 1073741824 }
    ensures run { IfOk result (WasRun D.Disk script volume disk.old disk.new opened.new) }
    ensures quiet { IfOk result (λ r. LeavesCount (D.faults disk.old) (D.faults disk.new) r.ending) }
    ensures untouched { OnErr result (disk.new ≡ disk.old) }
    ensures unopened { OnErr result (opened.new ≡ opened.old) }
{
    let mut regions = open_script(alloc, &script, 1)?;
    let replayed = replay_script(alloc, script, &mut regions, disk, volume);
    *opened = Some(regions);
    Ok(replayed)
}
