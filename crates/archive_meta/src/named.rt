//! The metric that a name leads to.
ghost use Rattle.std.specs.Prelude.{◌≡◌, IfOk, bytes_eq};
ghost use Rattle.archive_meta.specs.Said.{description_of, names_of, has_name, is_named, first_named, metric_of_name};

use crate::state::MetaState;
use pcp_base::{NoMemory, Pmid, Text};
use std::alloc::Global;

fn is_name(text: &Text, name: &[u8]) -> bool
    ensures { result ≡ bytes_eq text.now name.now }
{
    text.as_slice() == name
}

fn has_name(names: &[Text], name: &[u8]) -> bool
    ensures { result ≡ has_name name.now names.now }
{
    let mut index = 0;
    while index < names.len() {
        if is_name(&names[index], name) {
            return true;
        }
        index += 1;
    }
    false
}

// Whether a metric has this name.
fn is_named(meta: &MetaState, pmid: Pmid, name: &[u8]) -> bool
    ensures { result ≡ is_named name.now (names_of (description_of pmid meta.now)) }
{
    match meta.names(pmid) {
        Some(names) => has_name(names.as_slice(), name),
        None => false,
    }
}

fn first_named(meta: &MetaState, pmids: &[Pmid], name: &[u8]) -> Option<Pmid>
    ensures { result ≡ first_named meta.now name.now pmids.now }
{
    let mut index = 0;
    while index < pmids.len() {
        if is_named(meta, pmids[index], name) {
            return Some(pmids[index]);
        }
        index += 1;
    }
    None
}

impl MetaState {
    /// The metric that has a name, the first of them in the order in which metrics are first described; `None` exactly where none has it.
    pub fn metric_of_name(&self, alloc: Global, name: &[u8]) -> Result<Option<Pmid>, NoMemory>
        ensures { IfOk result (λ pmid. pmid ≡ metric_of_name self.now name.now) }
    {
        let pmids = self.pmids(alloc)?;
        Ok(first_named(self, pmids.as_slice(), name))
    }
}
