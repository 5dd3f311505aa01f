//! Whether a recording can take a script.
ghost use Rattle.std.specs.Prelude.{◌≡◌, [], None, Some, MatchResult};
ghost use Rattle.mmv_writer.specs.declared.line_fault.LineFault.TheVariants.{Condition};
ghost use Rattle.run_script.specs.declared.fault.ScriptLineFault.TheVariants.{Line as Broken};
ghost use Rattle.run_script.specs.Recording.{high_region, opens_low, or_else, refused_line, unrest_line, wrong_step};
ghost use Rattle.run_script.specs.Rules.{KeepsRules};

use crate::fault::{ScriptFault, ScriptLineFault};
use crate::holding::count_right;
use crate::pass_stages::{all_idle, all_rest, count_coming, line_behind};
use crate::script::{RegionRow, Script};
use crate::suiting::image_words;
use mmv_layout::first_generation;
use mmv_writer::LineFault;

// Whether a region opens under a generation below 2^63.
fn opens_low(script: &Script, row: &RegionRow) -> bool
    ensures { result ≡ opens_low script.now row.now }
{
    first_generation(image_words(script.images.as_slice(), row.image as usize)) < 1 << 63
}

// The line of the first region that doesn't.
fn high_region(script: &Script) -> Option<u64>
    ensures { result ≡ high_region script.now script.now.regions }
{
    for row in script.regions.as_slice() {
        if !opens_low(script, row) {
            return Some(u64::from(row.line));
        }
    }
    None
}

// The line of the first step that a recording refuses, or the one behind the last step where a pass is left at work.
fn refused_step(script: &Script) -> Option<u64>
    requires { KeepsRules script.now }
    ensures { result ≡ or_else (wrong_step script.now [] script.now.steps) (unrest_line script.now.steps) }
{
    let steps = script.steps.as_slice();
    let mut doing = all_idle();
    let came = count_coming(&mut doing, steps);
    let count = count_right(script, &steps[..came]);
    match script.steps.get(count) {
        Some((number, _)) => Some(u64::from(*number)),
        None => {
            if all_rest(&doing) {
                return None;
            }
            Some(line_behind(steps))
        }
    }
}

// The first line that a recording refuses, if there is one.
fn refused_line(script: &Script) -> Option<u64>
    requires { KeepsRules script.now }
    ensures { result ≡ refused_line script.now }
{
    match high_region(script) {
        Some(line) => Some(line),
        None => refused_step(script),
    }
}

/// Whether a recording can take the script: its steps are attach, detach, swap, add, begin, step and finish alone, each
/// pass's own lines meet the conditions of steps and leave it idle, and each image that a region may hold has what its
/// steps name, and fits; the opening generation of each region and the moment of each change are below 2^63. `Condition`
/// stands on the first line that it refuses: a region's, a step's, or the one behind the last.
pub fn for_record(script: &Script) -> Result<(), ScriptFault>
    requires rules { KeepsRules script.now }
    ensures { MatchResult result (λ _. refused_line script.now ≡ None)
        (λ fault. (fault.fault ≡ Broken Condition) × (refused_line script.now ≡ Some fault.line)) }
{
    match refused_line(script) {
        None => Ok(()),
        Some(line) => Err(ScriptFault {
            line,
            fault: ScriptLineFault::Line(LineFault::Condition),
        }),
    }
}
