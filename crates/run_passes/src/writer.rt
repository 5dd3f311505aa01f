//! A pass of a writer at its lines.
ghost use Rattle.std.specs.Prelude.{◌≡◌, ◌<◌, ◌≤◌, ℕ, ◌∷◌, [], true, length, MatchResult};
ghost use Rattle.region_core.specs.declared.act.Act.TheVariants.{Leave};
ghost use Rattle.region_core.specs.declared.mode.Mode.TheVariants.{Idle};
ghost use Rattle.run_script.specs.Recording.{image_words, is_attached, is_changing, is_idle, may_come};
ghost use Rattle.run_script.specs.Rules.{IsPlaced};
ghost use Rattle.script_runs.specs.Slots.{add_of, swap_of};
ghost use Rattle.run_passes.specs.Workers.{IsPassOf};
ghost use Rattle.run_passes.specs.LineEntries.{Attaches, BeginsChange, Finishes, Makes, StepsOn, Stores, Writing};
ghost use Rattle.run_passes.specs.Writers.{Did, HasRoom, IsHere, IsWriter, RunsLine, StaysWriter, answer_of as answer_in, stage_of, view_of, writing_of};

use crate::kept::KeptStint;
use crate::stores::{add_in, swap_in};
use mmv_layout::Image;
use pcp_base::NoMemory;
use region_words::{Change, Pass, Region};
use run_script::{Given, Line, Script};
use std::alloc::Global;
use std::mem;
use std::sync::Wait;

/// A pass of a writer: it does nothing, or it is attached, or it changes the layout, or it goes on with the lines of a change that was
/// refused. A pass that acts at this moment is away, and so is one that its region doesn't have.
pub(crate) enum Writer {
    Idle(Pass),
    Inside(KeptStint),
    Changing(Change),
    Refused(Pass),
    Away,
}

/// Takes the pass up, which leaves its place away.
fn take(writer: &mut Writer) -> Writer
    ensures taken { result ≡ writer.old }
    ensures away { writer.new ≡ Writer.Away }
{
    mem::replace(writer, Writer::Away)
}

/// Puts the pass back into its place.
fn put(writer: &mut Writer, next: Writer)
    requires away { writer.old ≡ Writer.Away }
    ensures { writer.new ≡ next }
{
    let away = mem::replace(writer, next);
    let Writer::Away = away else { unreachable!() };
}

/// Enters, and tries again while a pass is changing the layout.
fn attach<R: Wait>(rt: &R, writer: &mut Writer, region: &Region)
    requires here { IsHere region.now writer.old }
    requires may { is_idle (stage_of (writing_of writer.old)) ≡ true }
    ensures { Did region.now (λ k s entries next. (writing_of writer.old ≡ Writing.idle) × Attaches k s entries × (next ≡ Writing.attached)) writer.old writer.new }
{
    let taken = take(writer);
    let Writer::Idle(pass) = taken else {
        unreachable!()
    };
    let stint = region.attach_wait(rt, pass);
    put(writer, Writer::Inside(KeptStint::new(stint)));
}

fn detach(writer: &mut Writer, region: &Region)
    requires here { IsHere region.now writer.old }
    requires may { is_attached (stage_of (writing_of writer.old)) ≡ true }
    ensures { Did region.now (λ k s entries next. (writing_of writer.old ≡ Writing.attached) × Makes k (Leave ∷ []) entries × (next ≡ Writing.idle)) writer.old writer.new }
{
    let taken = take(writer);
    let Writer::Inside(stint) = taken else {
        unreachable!()
    };
    put(writer, Writer::Idle(stint.detach(region)));
}

/// What a store answers: whether memory sufficed.
fn answer_of(stored: Result<bool, NoMemory>) -> Result<(), NoMemory>
    ensures { result ≡ answer_in stored }
{
    match stored {
        Ok(_) => Ok(()),
        Err(fault) => Err(fault),
    }
}

/// Swaps a value into the slot of an item and an instance, where the layout has it.
fn swap(
    writer: &mut Writer,
    alloc: Global,
    region: &Region,
    item: u32,
    instance: Option<i32>,
    value: &Given,
) -> Result<(), NoMemory>
    requires here { IsHere region.now writer.old }
    requires may { is_attached (stage_of (writing_of writer.old)) ≡ true }
    ensures { MatchResult
        result
        (λ _. Did region.now (λ k s entries next. (writing_of writer.old ≡ Writing.attached) × Stores k s (λ words. swap_of words item instance value.now) entries × (next ≡ Writing.attached)) writer.old writer.new)
        (λ _. StaysWriter region.now writer.old writer.new) }
{
    let Writer::Inside(stint) = writer else {
        unreachable!()
    };
    let stored = swap_in(alloc, region, stint, item, instance, value);
    answer_of(stored)
}

/// Adds a number to the slot of an item and an instance, where the layout has it.
fn add(
    writer: &mut Writer,
    alloc: Global,
    region: &Region,
    item: u32,
    instance: Option<i32>,
    number: i128,
) -> Result<(), NoMemory>
    requires here { IsHere region.now writer.old }
    requires may { is_attached (stage_of (writing_of writer.old)) ≡ true }
    ensures { MatchResult
        result
        (λ _. Did region.now (λ k s entries next. (writing_of writer.old ≡ Writing.attached) × Stores k s (λ words. add_of words item instance number) entries × (next ≡ Writing.attached)) writer.old writer.new)
        (λ _. StaysWriter region.now writer.old writer.new) }
{
    let Writer::Inside(stint) = writer else {
        unreachable!()
    };
    let stored = add_in(alloc, region, stint, item, instance, number);
    answer_of(stored)
}

/// Begins a change to an image, of which it makes a copy, and tries again while the gate isn't free.
fn begin<R: Wait>(
    rt: &R,
    writer: &mut Writer,
    alloc: Global,
    region: &Region,
    image: &Image,
    moment: u64,
) -> Result<(), NoMemory>
    requires here { IsHere region.now writer.old }
    requires may { is_idle (stage_of (writing_of writer.old)) ≡ true }
    requires fits { length image.now ≤ length region.now.words }
    ensures { MatchResult
        result
        (λ _. Did region.now (λ k s entries next. (writing_of writer.old ≡ Writing.idle) × BeginsChange k s image.now moment entries next) writer.old writer.new)
        (λ _. StaysWriter region.now writer.old writer.new) }
{
    let Ok(copy) = image.copy(alloc) else {
        return Err(NoMemory);
    };
    let taken = take(writer);
    let Writer::Idle(pass) = taken else {
        unreachable!()
    };
    match region.begin_change_wait(rt, pass, copy, moment) {
        Ok(change) => put(writer, Writer::Changing(change)),
        Err((pass, _copy, _fault)) => put(writer, Writer::Refused(pass)),
    }
    Ok(())
}

/// Stores the next word of the image, if one is left.
fn step(writer: &mut Writer, region: &Region)
    requires here { IsHere region.now writer.old }
    requires may { is_changing (stage_of (writing_of writer.old)) ≡ true }
    ensures { Did region.now (λ k s entries next. StepsOn k (writing_of writer.old) entries next) writer.old writer.new }
{
    match writer {
        Writer::Changing(change) => {
            change.step(region);
        }
        Writer::Refused(_) => {}
        _ => unreachable!(),
    }
}

/// Stores the words that are left, the second generation and the gate.
fn finish(writer: &mut Writer, region: &Region)
    requires here { IsHere region.now writer.old }
    requires may { is_changing (stage_of (writing_of writer.old)) ≡ true }
    ensures { Did region.now (λ k s entries next. Finishes k (writing_of writer.old) entries next) writer.old writer.new }
{
    let taken = take(writer);
    match taken {
        Writer::Changing(change) => put(writer, Writer::Idle(change.finish(region))),
        Writer::Refused(pass) => put(writer, Writer::Idle(pass)),
        _ => unreachable!(),
    }
}

/// An image of a script.
fn image_at(script: &Script, at: u32) -> &Image
    requires { at < length script.now.images }
    ensures { result.now ≡ image_words script.now.images at }
{
    let (_, image) = &script.images.as_slice()[at as usize];
    image
}

impl Writer {
    /// Runs a line of the pass's own, in its place. Where memory is refused it did nothing but look.
    pub(crate) fn run<R: Wait>(
        &mut self,
        rt: &R,
        alloc: Global,
        region: &Region,
        script: &Script,
        line: &Line,
    ) -> Result<(), NoMemory>
        requires here { IsHere region.now self.old }
        requires placed { IsPlaced script.now.images script.now.regions line.now }
        requires may { may_come (stage_of (writing_of self.old)) line.now ≡ true }
        requires fits { HasRoom script.now.images line.now (length region.now.words) }
        ensures { MatchResult result (λ _. RunsLine region.now script.now.images line.now self.old self.new) (λ _. StaysWriter region.now self.old self.new) }
    {
        match line {
            Line::Attach { .. } => attach(rt, self, region),
            Line::Detach { .. } => detach(self, region),
            Line::Swap {
                item,
                instance,
                value,
                ..
            } => return swap(self, alloc, region, *item, *instance, value),
            Line::Add {
                item,
                instance,
                number,
                ..
            } => return add(self, alloc, region, *item, *instance, *number),
            Line::Begin { image, moment, .. } => {
                let image = image_at(script, *image);
                return begin(rt, self, alloc, region, image, *moment);
            }
            Line::Step { .. } => step(self, region),
            Line::Finish { .. } => finish(self, region),
            _ => unreachable!(),
        }
        Ok(())
    }

    /// Ends what the pass is doing: an open change is finished, and a stint detached.
    pub(crate) fn close(self, region: &Region) -> Pass
        requires here { IsHere region.now self }
        ensures idle { (k : ℕ) → IsWriter region.now k self → IsPassOf region.now k Idle result }
        ensures same { writing_of self ≡ Writing.idle → result.view ≡ view_of self }
    {
        match self {
            Writer::Idle(pass) => pass,
            Writer::Inside(stint) => stint.detach(region),
            Writer::Changing(change) => change.finish(region),
            Writer::Refused(pass) => pass,
            Writer::Away => unreachable!(),
        }
    }
}
