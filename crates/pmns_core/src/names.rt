//! The name space that callers see, over its two tables.

ghost use Rattle.std.specs.Prelude.{◌≡◌, [], IfOk};
ghost use Rattle.std.specs.Option.{option_copied};
ghost use Rattle.pmns_core.specs.Adding.{Adds, AreApart};
ghost use Rattle.pmns_core.specs.Below.{below, children_of};
ghost use Rattle.pmns_core.specs.Pairs.{least_name, pmid_of, IsInOrder};

use crate::below::{all_below, children_below};
use crate::fault::NamesFault;
use crate::least::{Least, make_slots, name_at, note_all};
use crate::table::{Table, add_all, pmid_at};
use pcp_base::{Duplicate, List, NoMemory, Pmid, Text};
use std::alloc::Global;
use std::collections::BTreeMap;
use std::marker::Model;

/// Names with their PMIDs (pmns(5)). No name is there twice, and none continues another: one name
/// continues another where it begins with that name and a `.`. Contracts see the pairs in the byte
/// order of their names.
#[derive(Drop)]
pub struct Names {
    table: Table,
    least: Least,
}

impl Model for Names {
    ghost use Rattle.std.specs.Prelude.{List as Sequence};
    ghost use Rattle.pmns_core.specs.Adding.{AreApart};
    ghost use Rattle.pmns_core.specs.Pairs.{Pair};
    ghost use Rattle.pmns_core.specs.Tables.{pairs_of, Agree};

    ghost Value = { Sequence Pair };

    ghost view = { λ a. pairs_of a.table };

    ghost invariant = { λ a. Agree a.table a.least × AreApart (pairs_of a.table) };
}

impl Names {
    /// The name space without a name; it takes no memory until it grows.
    pub fn empty(alloc: Global) -> Names
        ensures { result ≡ [] }
    {
        Names {
            table: BTreeMap::new(alloc),
            least: BTreeMap::new(alloc),
        }
    }

    /// Adds all pairs or none. For the first pair that doesn't fit, `Duplicate` comes where its name is there
    /// already, and else `LeafAndNode` where it continues a name that is there or one continues it.
    #[tactic(auto, using(crate::proofs::Apart::stay_apart))]
    pub fn add(&mut self, alloc: Global, pairs: &List<(Text, Pmid)>) -> Result<(), NamesFault>
        ensures { Adds result pairs.now self.old self.new }
    {
        let copies = pairs.copy(alloc)?;
        make_slots(&mut self.least, pairs.as_slice())?;
        add_all(alloc, &mut self.table, pairs.as_slice())?;
        note_all(&mut self.least, copies);
        Ok(())
    }

    /// The PMID of a name (pmLookupName(3)).
    pub fn find(&self, name: &Text) -> Option<Pmid>
        ensures { result ≡ pmid_of self.now name.now }
    {
        pmid_at(&self.table, name.as_slice())
    }

    /// The least name of a PMID in byte order (pmNameID(3)).
    pub fn name_of(&self, pmid: Pmid) -> Option<&Text>
        ensures name { option_copied result ≡ least_name self.now pmid }
        ensures order { IsInOrder self.now }
    {
        name_at(&self.least, pmid)
    }

    /// The next components of the names that continue this name, in byte order, with true for a leaf
    /// (pmGetChildrenStatus(3)); `None` exactly where no name is this name or continues it.
    pub fn children(
        &self,
        alloc: Global,
        name: &Text,
    ) -> Result<Option<List<(Text, bool)>>, NoMemory>
        ensures { IfOk result (λ found. found ≡ children_of self.now name.now) }
    {
        children_below(alloc, &self.table, name)
    }

    /// The pairs whose names are this name or continue it, in byte order (pmTraversePMNS(3)).
    pub fn traverse(&self, alloc: Global, name: &Text) -> Result<List<(Text, Pmid)>, NoMemory>
        ensures found { IfOk result (λ found. found ≡ below self.now name.now) }
        ensures order { IsInOrder self.now }
        // No name that is there continues another.
        ensures apart { AreApart self.now }
    {
        all_below(alloc, &self.table, name)
    }
}
