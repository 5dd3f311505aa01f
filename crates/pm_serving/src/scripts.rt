//! The script of an input, whose regions must have room for the seats, and whose passes must be able to act beside each other.
ghost use Rattle.std.specs.Prelude.{◌≡◌, ◌≤◌, IfOk, None, length};
ghost use Rattle.pm_serving.specs.Scripts.{Answers, broken_at, crowded_line, earlier, script_served, with_room};
ghost use Rattle.run_script.specs.Recording.{refused_line};
ghost use Rattle.pm_words.specs.Inputs.{input_limit};
ghost use Rattle.run_script.specs.Reading.{script_of};
ghost use Rattle.run_script.specs.Rules.{KeepsRules};
ghost use Rattle.run_passes.specs.Openings.{HaveRoom};

use mmv_writer::LineFault;
use pm_words::Refusal;
use run_script::{ReadScriptError, Script, ScriptFault, ScriptLineFault, for_record};
use std::alloc::Global;

// The line of the first region without room for the seats.
fn crowded_line(script: &Script) -> Option<u64>
    ensures { result ≡ crowded_line script.now }
{
    let rows = script.regions.as_slice();
    let row = rows.iter().find(|row| row.passes > 252)?;
    Some(u64::from(row.line))
}

// The first line that passes beside each other can't run.
fn refused_line(script: &Script) -> Option<u64>
    requires rules { KeepsRules script.now }
    ensures { result ≡ refused_line script.now }
{
    match for_record(script) {
        Ok(()) => None,
        Err(fault) => Some(fault.line),
    }
}

fn earlier(line: Option<u64>, other: Option<u64>) -> Option<u64>
    ensures { result ≡ earlier line other }
{
    match (line, other) {
        (Some(line), Some(other)) => Some(line.min(other)),
        (Some(line), None) => Some(line),
        (None, other) => other,
    }
}

// A line breaks a rule of scripts.
fn broken_at(line: u64) -> ScriptFault
    ensures { result ≡ broken_at line }
{
    ScriptFault {
        line,
        fault: ScriptLineFault::Line(LineFault::Condition),
    }
}

/// The script of an input, or why it isn't served.
pub fn read_script(alloc: Global, input: &[u8]) -> Result<Script, Refusal>
    requires within { length input.now ≤ input_limit }
    ensures answers { Answers (script_served input.now) result }
    ensures rules { IfOk result KeepsRules }
    ensures room { IfOk result (λ script. HaveRoom script.regions 4) }
    ensures beside { IfOk result (λ script. refused_line script ≡ None) }
{
    let script = match Script::read(alloc, input) {
        Ok(script) => script,
        Err(ReadScriptError::NoMemory) => return Err(Refusal::NoMemory),
        Err(ReadScriptError::Fault(fault)) => return Err(Refusal::Script(fault)),
    };
    if let Some(line) = earlier(crowded_line(&script), refused_line(&script)) {
        return Err(Refusal::Script(broken_at(line)));
    }
    Ok(script)
}
