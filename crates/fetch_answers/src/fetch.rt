//! The answer of a fetch over what was read of regions.
ghost use Rattle.std.specs.Prelude.{◌≡◌, ◌<◌, ◌≤◌, length, map, IfOk, MatchResult};
ghost use Rattle.fetch_answers.specs.Answers.{answer_of, facts_of};
ghost use Rattle.fetch_answers.specs.Fetches.{IsFetchFault};
ghost use Rattle.fetch_answers.specs.Readings.{reading_of, AreInOrder};
ghost use Rattle.fetch_answers.specs.declared.fetch.FetchFault.TheVariants.{NoMemory as Refused};

use crate::facts::facts_of;
use crate::reading::{Known, all_known};
use crate::sets::sets_of;
use crate::shot::Shot;
use archive_meta::Facts;
use pcp_base::{NoMemory, PmResult, Pmid, Stamp};
use profile_filter::Profile;
use std::alloc::Global;
use std::error::Error;
use std::fmt;

/// How many metrics a fetch may ask for.
pub const FETCH_LIMIT: usize = 1024;

/// What a fetch answered, and what describes it.
#[derive(Drop)]
pub struct Fetched {
    pub result: PmResult,
    pub facts: Facts,
}

/// Why a fetch wasn't answered.
#[derive(Clone, Copy, Debug)]
pub enum FetchFault {
    /// More than 1,024 metrics were asked for.
    TooMany { count: u64 },
    NoMemory,
}

impl fmt::Display for FetchFault {
    fn fmt<W: fmt::Write>(&self, f: &mut fmt::Formatter<W>) -> fmt::Result {
        f.write_str(match self {
            FetchFault::TooMany { .. } => "more than 1,024 metrics are asked for at once",
            FetchFault::NoMemory => "out of memory",
        })
    }
}

impl Error for FetchFault {}

impl From<NoMemory> for FetchFault {
    ghost from_gives = { λ _ e. e ≡ Refused };

    fn from(_error: NoMemory) -> FetchFault {
        FetchFault::NoMemory
    }
}

/// The answer over what is known of regions.
pub fn answer_of(
    alloc: Global,
    regions: &[Known],
    profile: &Profile,
    pmids: &[Pmid],
    stamp: Stamp,
) -> Result<Fetched, NoMemory>
    ensures { IfOk result (λ fetched. (fetched.result ≡ answer_of (map reading_of regions.now) profile.now pmids.now stamp) × (fetched.facts ≡ facts_of (map reading_of regions.now) fetched.result.sets)) }
{
    let sets = sets_of(alloc, regions, profile, pmids)?;
    let facts = facts_of(alloc, regions, sets.as_slice())?;
    let result = PmResult { stamp, sets };
    Ok(Fetched { result, facts })
}

/// The sets of the metrics that are asked for, in the order asked, and what describes them (pmFetch(3)). `TooMany` comes
/// exactly above 1,024 metrics. A region that was missed shows the status -12389 for each of its metrics, a number that
/// no region has -12358, and a metric of a kind that isn't converted -12362. The profile decides which instances of a
/// domain are shown.
pub fn answer(
    alloc: Global,
    shots: &[Shot],
    profile: &Profile,
    pmids: &[Pmid],
    stamp: Stamp,
) -> Result<Fetched, FetchFault>
    requires { AreInOrder shots.now }
    ensures { MatchResult result
        (λ fetched. (length pmids.now ≤ 1024) × (fetched.result ≡ answer_of (map reading_of shots.now) profile.now pmids.now stamp) × (fetched.facts ≡ facts_of (map reading_of shots.now) fetched.result.sets))
        (IsFetchFault (length pmids.now)) }
{
    if pmids.len() > FETCH_LIMIT {
        let count = pmids.len() as u64;
        return Err(FetchFault::TooMany { count });
    }
    let regions = all_known(alloc, shots)?;
    Ok(answer_of(alloc, regions.as_slice(), profile, pmids, stamp)?)
}
