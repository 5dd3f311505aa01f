//! The ten acts, and the entries of a journal.

use crate::event::Event;

/// One atomic step of a pass. A word is named by its index in the image, and stays below the region's capacity.
#[derive(Clone, Copy)]
pub enum Act {
    /// A load of this image word.
    Load(u32),
    /// A swap of this value word for the value.
    Swap(u32, u64),
    /// A fetch_add of the number to this value word, modulo 2^64.
    Add(u32, u64),
    /// A fetch_add of 1 to the gate: the pass is inside, or bounced where another is changing.
    Enter,
    /// A fetch_sub of 1 from the gate: the pass is idle again.
    Leave,
    /// A compare_exchange of the gate from 0 to 2^63: where it was 0, the pass is changing.
    Take,
    /// A store of this new generation to word 1.
    Begin(u64),
    /// A store of the value to this image word, which is neither 1 nor 2.
    Put(u32, u64),
    /// A store of the new generation to word 2.
    End(u64),
    /// A fetch_sub of 2^63 from the gate: the change is over, and the pass is idle.
    Free,
}

/// One entry of a region's journal: the number of a pass, and its act.
#[derive(Clone, Copy)]
pub struct Entry {
    pub by: u32,
    pub act: Act,
}

impl Entry {
    ghost use Rattle.std.specs.Prelude.{◌≡◌};
    ghost use Rattle.region_core.specs.Events.{event_of};

    /// The event of this entry; `None` where its act stores no image word.
    pub fn event(self) -> Option<Event>
        ensures { result ≡ event_of self }
    {
        match self.act {
            Act::Begin(generation) => Some(Event::Begin(generation)),
            Act::Put(word, value) => Some(Event::Put(word, value)),
            Act::End(generation) => Some(Event::End(generation)),
            Act::Swap(word, value) => Some(Event::Swap(self.by, word, value)),
            Act::Add(word, number) => Some(Event::Add(self.by, word, number)),
            Act::Load(_) | Act::Enter | Act::Leave | Act::Take | Act::Free => None,
        }
    }
}
