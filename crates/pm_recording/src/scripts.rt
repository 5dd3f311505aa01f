//! The script of an input, whose passes must be able to act beside each other.
ghost use Rattle.std.specs.Prelude.{◌≡◌, ◌≤◌, IfOk, None, length};
ghost use Rattle.pm_recording.specs.Scripts.{Answers, script_recorded};
ghost use Rattle.pm_words.specs.Inputs.{input_limit};
ghost use Rattle.run_script.specs.Recording.{refused_line};
ghost use Rattle.run_script.specs.Rules.{KeepsRules};

use pm_words::Refusal;
use run_script::{ReadScriptError, Script, for_record};
use std::alloc::Global;

/// The script of an input, or why it isn't recorded.
pub(crate) fn read_script(alloc: Global, input: &[u8]) -> Result<Script, Refusal>
    requires within { length input.now ≤ input_limit }
    ensures answers { Answers (script_recorded input.now) result }
    ensures rules { IfOk result KeepsRules }
    ensures beside { IfOk result (λ script. refused_line script ≡ None) }
{
    let script = match Script::read(alloc, input) {
        Ok(script) => script,
        Err(ReadScriptError::NoMemory) => return Err(Refusal::NoMemory),
        Err(ReadScriptError::Fault(fault)) => return Err(Refusal::Script(fault)),
    };
    match for_record(&script) {
        Ok(()) => Ok(script),
        Err(fault) => Err(Refusal::Script(fault)),
    }
}
