//! The command `replay VOLUME`: a script is read and run, over any files.
ghost use Rattle.std.specs.Prelude.{◌≡◌, ◌≤◌, length, IfErr, IfOk, OnOk, None, Some, false};
ghost use Rattle.run_script.specs.Rules.{KeepsRules};
ghost use Rattle.pm_words.specs.Serving.{MeetsSending};
ghost use Rattle.pm_runs.specs.commands.replay.{replay as meaning_of_replay, replaying};
ghost use Rattle.pm_words.specs.Inputs.{input_limit, refusal_of, Refuses};
ghost use Rattle.pcp_outside.specs.Sides.{sink_side};

use crate::running::run_script;
use pcp_base::Bytes;
use pcp_outside::{Disk, Sink};
use pm_words::{Refusal, of_ending, send};
use run_passes::Opened;
use run_script::{ReadScriptError, Script};
use std::alloc::Global;

// The script of an input.
fn read_script(alloc: Global, volume: u64, input: &[u8]) -> Result<Script, Refusal>
    requires within { length input.now ≤ input_limit }
    ensures script { IfOk result (λ script. (replaying volume).script input.now ≡ Some script) }
    ensures rules { IfOk result KeepsRules }
    ensures good { OnOk result (refusal_of (meaning_of_replay volume).reads input.now ≡ None) }
    ensures cause { IfErr result (Refuses (meaning_of_replay volume).reads input.now) }
{
    match Script::read(alloc, input) {
        Ok(script) => Ok(script),
        Err(ReadScriptError::NoMemory) => Err(Refusal::NoMemory),
        Err(ReadScriptError::Fault(fault)) => Err(Refusal::Script(fault)),
    }
}

/// Runs the script of an input, over any files. The lines of a run that is refused go to the sink before the refusal.
pub fn replay<O: Sink, D: Disk>(
    alloc: Global,
    volume: u64,
    input: &[u8],
    out: &mut O,
    failed: &mut bool,
    disk: &mut D,
    opened: &mut Option<Opened>,
) -> Result<Bytes, Refusal>
    requires low { 1024 ≤ volume }
    requires high { volume ≤ 1073741824 }
    requires within { length input.now ≤ input_limit }
    requires fresh { failed.old ≡ false }
    requires closed { opened.old ≡ None }
    ensures meets { MeetsSending (sink_side O.Sink out.old out.new) failed.new (meaning_of_replay volume) input.now D.Disk disk.old disk.new opened.new result }
{
    let script = read_script(alloc, volume, input)?;
    let replayed = run_script(alloc, script, volume, disk, opened)?;
    match of_ending(replayed.ending) {
        None => Ok(replayed.output),
        Some(refusal) => {
            *failed = send(out, *failed, replayed.output.as_slice());
            Err(refusal)
        }
    }
}
