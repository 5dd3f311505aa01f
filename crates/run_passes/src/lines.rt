//! What a line lets which pass do.
ghost use Rattle.std.specs.Prelude.{◌≡◌, [], IfSome, MatchOption, Some, List as Sequence};
ghost use Rattle.run_script.specs.Rules.{IsPlaced, HasPass};
ghost use Rattle.run_script.specs.declared.script.Script.{Script as Lines};
ghost use Rattle.script_runs.specs.Regions.{ScriptRegion};
ghost use Rattle.script_runs.specs.Steps.{pass_step, in_region};
ghost use Rattle.run_passes.specs.Works.{step_of};
ghost use Rattle.run_passes.specs.NamedItems.{NamesNoItem};

use crate::deed::Deed;
use run_script::{Line, Script};

/// What a line that names an item of a region lets which pass do; `None` for any other line.
fn item_deed<'a>(line: &'a Line) -> Option<(u32, u32, Deed<'a>)>
    ensures step { (script : Lines) (regions : Sequence ScriptRegion) → MatchOption
        result
        (NamesNoItem line.now)
        (λ found. pass_step script regions line.now ≡ in_region regions found.0 found.1 (step_of found.2)) }
    ensures there { (script : Lines) → IsPlaced script.images script.regions line.now → IfSome result (λ found. HasPass script.regions found.0 found.1) }
{
    match line {
        Line::Swap {
            region,
            pass,
            item,
            instance,
            value,
        } => {
            let (item, instance) = (*item, *instance);
            let deed = Deed::Swap {
                item,
                instance,
                value,
            };
            Some((*region, *pass, deed))
        }
        Line::Add {
            region,
            pass,
            item,
            instance,
            number,
        } => {
            let (item, instance, number) = (*item, *instance, *number);
            let deed = Deed::Add {
                item,
                instance,
                number,
            };
            Some((*region, *pass, deed))
        }
        _ => None,
    }
}

/// The region, the pass, and what it may do; `None` for a tick and a flush.
pub fn deed_of<'a>(script: &'a Script, line: &'a Line) -> Option<(u32, u32, Deed<'a>)>
    requires placed { IsPlaced script.now.images script.now.regions line.now }
    ensures step { (regions : Sequence ScriptRegion) → MatchOption
        result
        (pass_step script.now regions line.now ≡ Some (regions, []))
        (λ found. pass_step script.now regions line.now ≡ in_region regions found.0 found.1 (step_of found.2)) }
    ensures there { IfSome result (λ found. HasPass script.now.regions found.0 found.1) }
{
    match line {
        Line::Attach { region, pass } => Some((*region, *pass, Deed::Attach)),
        Line::Detach { region, pass } => Some((*region, *pass, Deed::Detach)),
        Line::Swap { .. } | Line::Add { .. } => item_deed(line),
        Line::Begin {
            region,
            pass,
            image,
            moment,
        } => {
            let (_, image) = &script.images.as_slice()[*image as usize];
            let moment = *moment;
            Some((*region, *pass, Deed::Begin { image, moment }))
        }
        Line::Step { region, pass } => Some((*region, *pass, Deed::Step)),
        Line::Finish { region, pass } => Some((*region, *pass, Deed::Finish)),
        Line::Load { region, pass } => Some((*region, *pass, Deed::Load)),
        Line::Word {
            region,
            pass,
            index,
        } => Some((*region, *pass, Deed::Word { index: *index })),
        Line::Done { region, pass } => Some((*region, *pass, Deed::Done)),
        Line::Tick { .. } | Line::Flush => None,
    }
}
