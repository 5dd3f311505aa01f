//! Descriptions of metrics (pmLookupDesc(3)).

use crate::duplicate::Duplicate;
use crate::ids::{InDom, Pmid, Units};
use crate::memory::NoMemory;
use std::alloc::Global;

/// The description of a metric (pmLookupDesc(3)): its type code, its instance domain, the code of its
/// semantics and its units. Codes may be any number, since an archive may have any.
#[derive(Clone, Copy, PartialEq, Eq)]
pub struct Desc {
    pub pmid: Pmid,
    pub code: u32,
    pub indom: InDom,
    pub semantics: u32,
    pub units: Units,
}

impl Duplicate for Desc {
    fn copy(&self, _alloc: Global) -> Result<Self, NoMemory> {
        Ok(*self)
    }
}
