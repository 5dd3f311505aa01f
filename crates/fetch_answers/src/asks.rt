//! What regions tell of one metric, and of one instance domain (pmLookupDesc(3), pmGetInDom(3)).
ghost use Rattle.std.specs.Prelude.{◌≡◌, ◌==◌, map, find};
ghost use Rattle.fetch_answers.specs.Asks.{desc_asked, instances_asked, layout_domain, layout_metric, row_asked, Tells};
ghost use Rattle.fetch_answers.specs.Readings.{reading_of};
ghost use Rattle.fetch_answers.specs.declared.asks.AskFault.TheVariants.{NoMemory as Refused};

use crate::facts::{Instances, by_number, desc_of, listed, row_with};
use crate::reading::{Known, region_of};
use mmv_layout::IndomRow;
use pcp_base::{Desc, InDom, NoMemory, Pmid};
use std::alloc::Global;
use std::error::Error;
use std::fmt;

/// No region or metric has the number: PM_ERR_PMID (pmErrStr(3)).
const NO_METRIC: i32 = -12358;

/// No region has the instance domain: PM_ERR_INDOM (pmErrStr(3)).
const NO_DOMAIN: i32 = -12359;

/// The region was missed: PM_ERR_AGAIN (pmErrStr(3)).
const MISSED: i32 = -12389;

/// Why nothing is told of a metric or an instance domain.
#[derive(Clone, Copy, Debug)]
pub enum AskFault {
    /// -12358 where no region has the metric, -12359 where none has the domain, and -12389 where the region was missed.
    Status(i32),
    NoMemory,
}

impl fmt::Display for AskFault {
    fn fmt<W: fmt::Write>(&self, f: &mut fmt::Formatter<W>) -> fmt::Result {
        f.write_str(match self {
            AskFault::Status(..) => "the answer is a status",
            AskFault::NoMemory => "out of memory",
        })
    }
}

impl Error for AskFault {}

impl From<NoMemory> for AskFault {
    ghost from_gives = { λ _ e. e ≡ Refused };

    fn from(_error: NoMemory) -> AskFault {
        AskFault::NoMemory
    }
}

/// The description of a metric of a region.
fn region_metric(region: &Known, pmid: Pmid) -> Result<Desc, AskFault>
    ensures { Tells result (layout_metric region.now.cluster pmid (reading_of region.now).layout) }
{
    let Some(told) = &region.told else {
        return Err(AskFault::Status(MISSED));
    };
    match told.metric(pmid.item()) {
        Some(metric) => Ok(desc_of(region.cluster, pmid, metric)),
        None => Err(AskFault::Status(NO_METRIC)),
    }
}

/// The description of a metric (pmLookupDesc(3)); that of an elapsed time has the type code of a signed number of 64 bits.
pub fn description(regions: &[Known], pmid: Pmid) -> Result<Desc, AskFault>
    ensures { Tells result (desc_asked (map reading_of regions.now) pmid) }
{
    match region_of(regions, pmid.word()) {
        Some(region) => region_metric(region, pmid),
        None => Err(AskFault::Status(NO_METRIC)),
    }
}

/// The instances of a row.
fn row_domain(alloc: Global, rows: &[IndomRow], serial: u32) -> Result<Instances, AskFault>
    ensures { Tells result (row_asked (find (λ row. row.serial == serial) rows.now)) }
{
    let Some(row) = row_with(rows, serial) else {
        return Err(AskFault::Status(NO_DOMAIN));
    };
    let table = by_number(alloc, row.instances.as_slice())?;
    Ok(listed(alloc, table)?)
}

/// The instances of a domain of a region.
fn region_domain(alloc: Global, region: &Known, serial: u32) -> Result<Instances, AskFault>
    ensures { Tells result (layout_domain serial (reading_of region.now).layout) }
{
    match &region.told {
        Some(told) => row_domain(alloc, told.indoms(), serial),
        None => Err(AskFault::Status(MISSED)),
    }
}

/// The instances of a domain in ascending number, with their names (pmGetInDom(3)).
pub fn instances(alloc: Global, regions: &[Known], indom: InDom) -> Result<Instances, AskFault>
    ensures { Tells result (instances_asked (map reading_of regions.now) indom) }
{
    let word = indom.word();
    match region_of(regions, word) {
        Some(region) => region_domain(alloc, region, word % 1024),
        None => Err(AskFault::Status(NO_DOMAIN)),
    }
}
