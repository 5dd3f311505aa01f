//! What describes a result, and why a result's facts are refused.
ghost use Rattle.std.specs.Prelude.{◌≡◌};
ghost use Rattle.archive_meta.specs.declared.facts.RecordsFault.TheVariants.{NoMemory as Refused};

use pcp_base::{Desc, InDom, List, NoMemory, Pmid, Text};
use std::error::Error;
use std::fmt;

/// What describes a result: the description of each of its metrics with the metric's name, and the instances of their
/// domains, each by number and name.
#[derive(Drop)]
pub struct Facts {
    pub metrics: List<(Desc, Text)>,
    pub domains: List<(InDom, List<(i32, Text)>)>,
}

/// A metric is described otherwise than before, or its name isn't the first one kept.
#[derive(Clone, Copy, Debug)]
pub struct Changed {
    pub pmid: Pmid,
}

impl fmt::Display for Changed {
    fn fmt<W: fmt::Write>(&self, f: &mut fmt::Formatter<W>) -> fmt::Result {
        f.write_str("a metric is described otherwise than before")
    }
}

impl Error for Changed {}

/// Why the records that describe a result weren't made.
#[derive(Clone, Copy, Debug)]
pub enum RecordsFault {
    /// One of them would be framed in more than 16,777,216 bytes; the first such in so many.
    Large { bytes: u64 },
    /// Memory was refused.
    NoMemory,
}

impl fmt::Display for RecordsFault {
    fn fmt<W: fmt::Write>(&self, f: &mut fmt::Formatter<W>) -> fmt::Result {
        f.write_str(match self {
            RecordsFault::Large { .. } => "a record of Meta would be too long",
            RecordsFault::NoMemory => "out of memory",
        })
    }
}

impl Error for RecordsFault {}

impl From<NoMemory> for RecordsFault {
    ghost from_gives = { λ _ e. e ≡ Refused };

    fn from(_error: NoMemory) -> RecordsFault {
        RecordsFault::NoMemory
    }
}
