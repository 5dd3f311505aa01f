//! A line of a script's head, and a step, as they stand; what they name is looked up by whoever knows the head.
use pcp_base::{Stamp, Text};

/// A line of a script's head.
#[derive(Drop)]
pub enum HeadLine {
    /// An image of this name; its lines follow, up to the line `end`.
    Image(Text),
    /// A region of this FILE, which opens on the image of this name.
    Region {
        file: Text,
        image: Text,
        capacity: u128,
        passes: u128,
    },
    /// A line that begins with the word `log`; the whole line is a statement of the configuration, or none.
    Log,
    /// The end of the head.
    Start,
}

/// A pass of the region with this FILE; the number has at most 20 digits.
#[derive(Drop)]
pub struct Place {
    pub file: Text,
    pub pass: u128,
}

/// The slot of a value: of the metric with this item, and of this instance where the metric has a domain.
#[derive(Clone, Copy)]
pub struct Slot {
    pub item: u32,
    pub instance: Option<i32>,
}

/// What is swapped into a slot: a whole number of at most 20 digits, or the first string with this text.
#[derive(Drop)]
pub enum Given {
    Number(i128),
    Choice(Text),
}

/// A step of a script.
#[derive(Drop)]
pub enum StepLine {
    Attach(Place),
    Detach(Place),
    Swap {
        place: Place,
        slot: Slot,
        given: Given,
    },
    Add {
        place: Place,
        slot: Slot,
        number: i128,
    },
    /// A change to the image of this name; `moment` is the count of the moment it is told of.
    Begin {
        place: Place,
        image: Text,
        moment: u64,
    },
    Step(Place),
    Finish(Place),
    Load(Place),
    Word {
        place: Place,
        index: u32,
    },
    Done(Place),
    Tick(Stamp),
    Flush,
}
