//! Metrics, each once.
ghost use Rattle.std.specs.Prelude.{◌≡◌, [], length, map, IfOk, OnOk, OnErr};
ghost use Rattle.script_runs.specs.Groups.{with_metric, with_metrics};

use indexmap::IndexSet;
use pcp_base::{List, NoMemory, Pmid};
use std::alloc::Global;
use std::marker::Model;

/// Metrics, each once, in the order in which they first came.
#[derive(Drop)]
pub struct Metrics {
    words: IndexSet<u32>,
}

impl Model for Metrics {
    ghost use Rattle.std.specs.Prelude.{List as Sequence, ℕ};

    ghost Value = { Sequence ℕ };

    ghost view = { λ m. m.words.keys };
}

impl Metrics {
    /// No metrics.
    pub fn none(alloc: Global) -> Metrics
        ensures { result ≡ [] }
    {
        Metrics {
            words: IndexSet::new(alloc),
        }
    }

    /// How many there are.
    pub fn len(&self) -> usize
        ensures { result ≡ length self.now }
    {
        self.words.len()
    }

    /// Adds a metric, if it isn't among them.
    pub fn add(&mut self, pmid: Pmid) -> Result<(), NoMemory>
        ensures ok { OnOk result (self.new ≡ with_metric self.old pmid) }
        ensures err { OnErr result (self.new ≡ self.old) }
    {
        match self.words.insert(pmid.word()) {
            Ok(_) => Ok(()),
            Err(_) => Err(NoMemory),
        }
    }

    /// Adds each of these that isn't among them, in their order.
    pub fn add_all(&mut self, others: &Metrics) -> Result<(), NoMemory>
        ensures { OnOk result (self.new ≡ with_metrics self.old others.now) }
    {
        for word in others.words.as_slice() {
            self.add(Pmid::of_word(*word))?;
        }
        Ok(())
    }

    /// The metrics as a list, in the order in which each was added first.
    pub fn to_list(&self, alloc: Global) -> Result<List<Pmid>, NoMemory>
        ensures { IfOk result (λ pmids. pmids ≡ self.now) }
    {
        let mut pmids = List::empty(alloc);
        for word in self.words.as_slice() {
            pmids.push(Pmid::of_word(*word))?;
        }
        Ok(pmids)
    }
}
