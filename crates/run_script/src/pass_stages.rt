//! What the passes of a script's regions are doing, step by step.
ghost use Rattle.std.specs.Prelude.{◌≡◌, ℕ, true, false, List as Sequence, [], ◌∷◌, ◌++◌, length, take};
ghost use Rattle.std.specs.List.{list_all};
ghost use Rattle.run_script.specs.Recording.{place_of, stage_after, may_come, comes_at, all_rest, line_behind};
ghost use Rattle.run_script.specs.RecordingSteps.{IsFirst, IsNear, AreNear, Tells, stage_of, is_resting, comes};

use crate::script::Line;

/// What a pass is doing.
#[derive(Clone, Copy, PartialEq, Eq)]
pub enum Doing {
    Idle,
    Attached,
    Changing,
}

// The region and the pass that a step names.
fn place_of(line: &Line) -> Option<(u32, u32)>
    ensures { result ≡ place_of line.now }
{
    match line {
        Line::Attach { region, pass } => Some((*region, *pass)),
        Line::Detach { region, pass } => Some((*region, *pass)),
        Line::Swap { region, pass, .. } => Some((*region, *pass)),
        Line::Add { region, pass, .. } => Some((*region, *pass)),
        Line::Begin { region, pass, .. } => Some((*region, *pass)),
        Line::Step { region, pass } => Some((*region, *pass)),
        Line::Finish { region, pass } => Some((*region, *pass)),
        Line::Load { region, pass } => Some((*region, *pass)),
        Line::Word { region, pass, .. } => Some((*region, *pass)),
        Line::Done { region, pass } => Some((*region, *pass)),
        Line::Tick { .. } => None,
        Line::Flush => None,
    }
}

// What a pass is doing behind a line of its own.
fn doing_after(line: &Line) -> Doing
    ensures { stage_of result ≡ stage_after line.now }
{
    match line {
        Line::Attach { .. } => Doing::Attached,
        Line::Swap { .. } => Doing::Attached,
        Line::Add { .. } => Doing::Attached,
        Line::Begin { .. } => Doing::Changing,
        Line::Step { .. } => Doing::Changing,
        _ => Doing::Idle,
    }
}

// Whether a line of its own may come where a pass is doing this.
fn may_come(doing: Doing, line: &Line) -> bool
    ensures { result ≡ may_come (stage_of doing) line.now }
{
    match line {
        Line::Attach { .. } => doing == Doing::Idle,
        Line::Detach { .. } => doing == Doing::Attached,
        Line::Swap { .. } => doing == Doing::Attached,
        Line::Add { .. } => doing == Doing::Attached,
        Line::Begin { .. } => doing == Doing::Idle,
        Line::Step { .. } => doing == Doing::Changing,
        Line::Finish { .. } => doing == Doing::Changing,
        _ => false,
    }
}

// Takes a step into the table, if it may come.
fn step_on(doing: &mut [Doing], line: &Line) -> bool
    requires size { length doing.old ≡ 16384 }
    requires near { IsNear (place_of line.now) }
    ensures came { (before : Sequence (ℕ × Line)) → Tells before doing.old → result ≡ comes_at before line.now (place_of line.now) }
    ensures later { (before : Sequence (ℕ × Line)) (number : ℕ) → Tells before doing.old → result ≡ true → Tells (before ++ (number, line.now) ∷ []) doing.new }
    ensures stays { result ≡ false → doing.new ≡ doing.old }
{
    let Some((region, pass)) = place_of(line) else {
        return false;
    };
    let at = region as usize * 256 + pass as usize;
    if !may_come(doing[at], line) {
        return false;
    }
    doing[at] = doing_after(line);
    true
}

/// How many steps may come where they stand before the first that may not. The table tells what each pass is doing
/// behind these.
pub fn count_coming(doing: &mut [Doing], steps: &[(u32, Line)]) -> usize
    requires idle { Tells [] doing.old }
    requires near { AreNear steps.now }
    ensures count { IsFirst (comes steps.now) (length steps.now) result }
    ensures stages { Tells (take result steps.now) doing.new }
{
    for (k, (_, line)) in steps.iter().enumerate() {
        if !step_on(doing, line) {
            return k;
        }
    }
    steps.len()
}

/// A table of passes that do nothing.
pub fn all_idle() -> [Doing; 16384]
    ensures { Tells [] result }
{
    [Doing::Idle; 16384]
}

/// Whether each pass of a table does nothing.
pub fn all_rest(doing: &[Doing]) -> bool
    ensures { result ≡ list_all is_resting doing.now }
{
    doing.iter().all(|one| *one == Doing::Idle)
}

/// The number of the line behind the last step, and 0 without one.
pub fn line_behind(steps: &[(u32, Line)]) -> u64
    ensures { result ≡ line_behind steps.now }
{
    match steps.last() {
        None => 0,
        Some((number, _)) => u64::from(*number) + 1,
    }
}
