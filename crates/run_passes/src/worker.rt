//! What a pass of a script is doing.
ghost use Rattle.std.specs.Prelude.{◌≡◌, ℕ, IsOk, MatchResult};
ghost use Rattle.region_rule.specs.Calls.{Learns};
ghost use Rattle.region_rule.specs.Tokens.{note_of};
ghost use Rattle.region_words.specs.Images.{mmv};
ghost use Rattle.script_runs.specs.Regions.{Doing};
ghost use Rattle.run_passes.specs.Workers.{IsWorker, view_of, doing_of};
ghost use Rattle.run_passes.specs.Works.{IsHere, NeedsNone, Works, Rests, ended_doing, step_of};

use crate::changes::{begin, finish, step};
use crate::deed::Deed;
use crate::deeds::{attach, detach, done, load, word};
use crate::kept::KeptStint;
use crate::said::Said;
use crate::stores::{add, swap};
use pcp_base::NoMemory;
use region_words::{Change, Note, Pass, Reading, Region};
use std::alloc::Global;

/// What a pass of a script is doing: nothing, or it is attached, or it changes the layout, or it reads. A pass that acts at this
/// moment is away.
pub enum Worker {
    Idle(Pass),
    Inside(KeptStint),
    Changing(Change),
    Reading(Reading),
    Away,
}

impl Worker {
    /// Takes the longer of what the pass and the note have seen.
    pub fn learned(self, region: &Region, note: Note) -> Worker
        requires here { IsHere region.now self }
        requires note { note.region ≡ region.now }
        ensures learns { Learns mmv (view_of self) note.view (view_of result) }
        ensures doing { doing_of result ≡ doing_of self }
        ensures stays { (k : ℕ) → IsWorker region.now k self → IsWorker region.now k result }
    {
        match self {
            Worker::Idle(mut pass) => {
                pass.learn(region, note);
                Worker::Idle(pass)
            }
            Worker::Inside(mut stint) => {
                stint.learn(region, note);
                Worker::Inside(stint)
            }
            Worker::Changing(mut change) => {
                change.learn(region, note);
                Worker::Changing(change)
            }
            Worker::Reading(mut reading) => {
                reading.learn(region, note);
                Worker::Reading(reading)
            }
            Worker::Away => unreachable!(),
        }
    }

    /// A note of what the pass has seen.
    pub fn noted(self, region: &Region) -> (Worker, Note)
        requires here { IsHere region.now self }
        ensures same { result.0 ≡ self }
        ensures region { result.1.region ≡ region.now }
        ensures note { result.1.view ≡ note_of (view_of self) }
    {
        match self {
            Worker::Idle(mut pass) => {
                let note = pass.note(region);
                (Worker::Idle(pass), note)
            }
            Worker::Inside(mut stint) => {
                let note = stint.note(region);
                (Worker::Inside(stint), note)
            }
            Worker::Changing(mut change) => {
                let note = change.note(region);
                (Worker::Changing(change), note)
            }
            Worker::Reading(mut reading) => {
                let note = reading.note(region);
                (Worker::Reading(reading), note)
            }
            Worker::Away => unreachable!(),
        }
    }
}

/// A step that needs no memory.
fn told(done: (Worker, Option<Said>)) -> (Worker, Result<Option<Said>, NoMemory>)
    ensures worker { result.0 ≡ done.0 }
    ensures said { result.1 ≡ Ok done.1 }
{
    let (worker, said) = done;
    (worker, Ok(said))
}

impl Worker {
    /// Does what a line lets the pass do, by the calls of its region. `None`: the line's condition fails. Where memory is refused
    /// the pass did nothing but look at the layout.
    pub fn run(
        self,
        alloc: Global,
        region: &Region,
        deed: &Deed<'_>,
    ) -> (Worker, Result<Option<Said>, NoMemory>)
        requires here { IsHere region.now self }
        ensures works { MatchResult result.1 (λ said. Works region.now (step_of deed.now) self result.0 said) (λ _. Rests region.now self result.0) }
        ensures sure { NeedsNone deed.now → IsOk result.1 }
        ensures ends { NeedsNone deed.now → doing_of result.0 ≡ ended_doing deed.now (doing_of self) }
    {
        match *deed {
            Deed::Attach => told(attach(self, region)),
            Deed::Detach => told(detach(self, region)),
            Deed::Swap {
                item,
                instance,
                value,
            } => swap(self, alloc, region, item, instance, value),
            Deed::Add {
                item,
                instance,
                number,
            } => add(self, alloc, region, item, instance, number),
            Deed::Begin { image, moment } => begin(self, alloc, region, image, moment),
            Deed::Step => told(step(self, region)),
            Deed::Finish => told(finish(self, region)),
            Deed::Load => told(load(self, region)),
            Deed::Word { index } => told(word(self, region, index)),
            Deed::Done => told(done(self, region)),
        }
    }

    /// The pass of one that does nothing.
    pub fn into_pass(self, region: &Region) -> Pass
        requires here { IsHere region.now self }
        requires idle { doing_of self ≡ Doing.idle }
        ensures region { result.region ≡ region.now }
        ensures view { result.view ≡ view_of self }
    {
        let Worker::Idle(pass) = self else {
            unreachable!()
        };
        pass
    }
}
