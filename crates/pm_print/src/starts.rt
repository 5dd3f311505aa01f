//! What the lines of metrics begin with, kept while items are printed.
ghost use Rattle.std.specs.Prelude.{◌≡◌, List as Sequence, OnOk, IfOk, IfSome};
ghost use Rattle.pcp_model.specs.declared.records.MetaRecord.{MetaRecord as Record};
ghost use Rattle.pm_print.specs.Starts.{IsSaid, AreSaid};

use crate::sets::{desc_of, put_head};
use archive_meta::MetaState;
use indexmap::IndexMap;
use pcp_base::{Desc, NoMemory, Pmid};
use std::alloc::Global;

/// How many are kept at most; then they are looked up anew.
const MOST: usize = 65_536;

/// What the lines of a metric begin with, and the description by which its values are printed.
#[derive(Drop)]
pub struct Start {
    pub pmid: Pmid,
    pub head: Vec<u8>,
    pub desc: Option<Desc>,
}

/// The starts of metrics in the order in which these came first, and where each may stand. The next metric is looked for
/// where the one behind the last stands: results mostly have the same metrics in the same order.
#[derive(Drop)]
pub struct Starts {
    pub list: Vec<Start>,
    pub places: IndexMap<u32, usize>,
    pub next: usize,
}

/// The start of a metric's lines.
pub fn start_of(alloc: Global, meta: &MetaState, pmid: Pmid) -> Result<Start, NoMemory>
    ensures said { IfOk result (IsSaid meta.now) }
    ensures metric { IfOk result (λ start. start.pmid ≡ pmid) }
{
    let mut head = Vec::new(alloc);
    put_head(&mut head, meta, pmid)?;
    Ok(Start {
        pmid,
        head,
        desc: desc_of(meta, pmid),
    })
}

// The start at a place, if it is the metric's.
fn start_at(list: &[Start], pmid: Pmid, place: usize) -> Option<(usize, &Start)>
    ensures metric { IfSome result (λ found. found.1.now.pmid ≡ pmid) }
    ensures said { (records : Sequence Record) → AreSaid records list.now → IfSome result (λ found. IsSaid records found.1.now) }
{
    match list.get(place) {
        Some(start) => {
            if start.pmid == pmid {
                return Some((place, start));
            }
            None
        }
        None => None,
    }
}

impl Starts {
    /// None is kept.
    pub fn none(alloc: Global) -> Starts
        ensures { (records : Sequence Record) → AreSaid records result.list.items }
    {
        Starts {
            list: Vec::new(alloc),
            places: IndexMap::new(alloc),
            next: 0,
        }
    }

    /// The start of a metric's lines and its place, if it is kept.
    pub fn find(&self, pmid: Pmid) -> Option<(usize, &Start)>
        ensures metric { IfSome result (λ found. found.1.now.pmid ≡ pmid) }
        ensures said { (records : Sequence Record) → AreSaid records self.now.list.items → IfSome result (λ found. IsSaid records found.1.now) }
    {
        match start_at(&self.list, pmid, self.next) {
            Some(found) => Some(found),
            None => match self.places.get(&pmid.word()) {
                Some(place) => start_at(&self.list, pmid, *place),
                None => None,
            },
        }
    }

    // Makes room for one more.
    fn make_room(&mut self)
        ensures { (records : Sequence Record) → AreSaid records self.old.list.items → AreSaid records self.new.list.items }
    {
        if self.list.len() < MOST {
            return;
        }
        self.list.clear();
        self.places.clear();
    }

    /// Keeps one more.
    pub fn keep(&mut self, start: Start) -> Result<(), NoMemory>
        ensures { (records : Sequence Record) → AreSaid records self.old.list.items → IsSaid records start → AreSaid records self.new.list.items }
    {
        self.make_room();
        let place = self.list.len();
        let word = start.pmid.word();
        self.list.push(start)?;
        self.places.insert(word, place)?;
        self.next = place.saturating_add(1);
        Ok(())
    }
}
