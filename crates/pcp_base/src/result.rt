//! What a fetch answers and what a record of an archive's volume holds (pmFetch(3), LOGARCHIVE(5)).

ghost use Rattle.std.specs.Prelude.{◌≡◌, ◌↔◌, IsTrue};

use crate::block::Block;
use crate::duplicate::Duplicate;
use crate::ids::Pmid;
use crate::list::List;
use crate::memory::NoMemory;
use crate::stamp::Stamp;
use std::alloc::Global;

/// The values of one metric (pmFetch(3)), each with its instance; -1 is the null instance.
#[derive(Drop)]
pub enum Body {
    /// Values of 32 bits, in the set itself; at least one.
    InPlace(List<(i32, u32)>),
    /// Values in blocks outside the set; at least one.
    Blocks(List<(i32, Block)>),
    /// No value: 0, or a negative error code.
    Status(i32),
}

/// The values of one metric in a result (pmFetch(3)).
#[derive(Drop)]
pub struct ValueSet {
    pub pmid: Pmid,
    pub body: Body,
}

/// What one fetch answered, or what one archive record holds (pmFetch(3)).
#[derive(Drop)]
pub struct PmResult {
    pub stamp: Stamp,
    pub sets: List<ValueSet>,
}

/// An item of an archive (LOGARCHIVE(5)): a result with sets, or a mark where logging was broken off.
#[derive(Drop)]
pub enum Item {
    Sample(PmResult),
    Mark(Stamp),
}

impl ValueSet {
    ghost use Rattle.pcp_base.specs.Results.{Fits};

    /// Whether the set can be written: a set with values holds at least one, a status isn't above 0.
    pub fn fits(&self) -> bool
        ensures { IsTrue result ↔ Fits self.now }
    {
        match &self.body {
            Body::InPlace(pairs) => !pairs.is_empty(),
            Body::Blocks(pairs) => !pairs.is_empty(),
            Body::Status(status) => *status <= 0,
        }
    }
}

impl Duplicate for Body {
    fn copy(&self, alloc: Global) -> Result<Self, NoMemory> {
        match self {
            Body::InPlace(pairs) => Ok(Body::InPlace(pairs.copy(alloc)?)),
            Body::Blocks(pairs) => Ok(Body::Blocks(pairs.copy(alloc)?)),
            Body::Status(status) => Ok(Body::Status(*status)),
        }
    }
}

impl Duplicate for ValueSet {
    fn copy(&self, alloc: Global) -> Result<Self, NoMemory> {
        let body = self.body.copy(alloc)?;
        Ok(ValueSet {
            pmid: self.pmid,
            body,
        })
    }
}

impl Duplicate for PmResult {
    fn copy(&self, alloc: Global) -> Result<Self, NoMemory> {
        let sets = self.sets.copy(alloc)?;
        Ok(PmResult {
            stamp: self.stamp,
            sets,
        })
    }
}

impl Duplicate for Item {
    fn copy(&self, alloc: Global) -> Result<Self, NoMemory> {
        match self {
            Item::Sample(result) => Ok(Item::Sample(result.copy(alloc)?)),
            Item::Mark(stamp) => Ok(Item::Mark(*stamp)),
        }
    }
}
