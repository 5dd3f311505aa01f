//! The set of a metric that was asked for (pmFetch(3)).
ghost use Rattle.std.specs.Prelude.{◌≡◌, ◌<◌, map, option_map, IfOk};
ghost use Rattle.mmv_layout.specs.Rows.{layout_of};
ghost use Rattle.fetch_answers.specs.Answers.{body_of, layout_body, metric_body, metric_with, set_of};
ghost use Rattle.fetch_answers.specs.Bounds.{FitsSerial};
ghost use Rattle.fetch_answers.specs.Names.{served_word};
ghost use Rattle.fetch_answers.specs.Readings.{reading_of};

use crate::index::RowNumbers;
use crate::pairs::served_word;
use crate::reading::{Known, region_of};
use crate::told::Told;
use crate::values::body_of_values;
use mmv_layout::MetricRow;
use pcp_base::{Body, InDom, List, NoMemory, Pmid, ValueSet};
use profile_filter::{ByDomain, Profile};
use std::alloc::Global;
use std::collections::BTreeMap;

/// No region or metric has the number: PM_ERR_PMID (pmErrStr(3)).
const UNKNOWN: i32 = -12358;

/// The region was missed: PM_ERR_AGAIN (pmErrStr(3)).
const AGAIN: i32 = -12389;

/// The instance domain of a serial in a cluster.
pub fn indom_in(cluster: u32, serial: Option<u32>) -> Option<InDom>
    requires cluster { cluster < 4096 }
    requires serial { FitsSerial serial }
    ensures { result ≡ option_map (served_word cluster) serial }
{
    match serial {
        Some(serial) => Some(InDom::of_word(served_word(cluster, serial))),
        None => None,
    }
}

/// What a metric shows.
fn metric_body(
    alloc: Global,
    profile: &ByDomain<'_>,
    cluster: u32,
    told: &Told,
    item: u32,
) -> Result<Body, NoMemory>
    requires { cluster < 4096 }
    ensures { IfOk result (λ body. body ≡ metric_body profile.now cluster (layout_of told.now) (metric_with item (layout_of told.now).metrics)) }
{
    let Some(metric) = told.metric(item) else {
        return Ok(Body::Status(UNKNOWN));
    };
    let choice = profile.choice(indom_in(cluster, metric.serial));
    match told.numbers(metric.item) {
        Some(numbers) => body_of_values(alloc, metric.kind, &choice, told.words(), numbers),
        None => {
            let none: RowNumbers = BTreeMap::new(alloc);
            body_of_values(alloc, metric.kind, &choice, told.words(), &none)
        }
    }
}

/// What a metric of a region shows.
fn region_body(
    alloc: Global,
    profile: &ByDomain<'_>,
    pmid: Pmid,
    region: &Known,
) -> Result<Body, NoMemory>
    ensures { IfOk result (λ body. body ≡ layout_body profile.now region.now.cluster pmid (reading_of region.now).layout) }
{
    match &region.told {
        Some(told) => metric_body(alloc, profile, region.cluster, told, pmid.item()),
        None => Ok(Body::Status(AGAIN)),
    }
}

fn body_of(
    alloc: Global,
    regions: &[Known],
    profile: &ByDomain<'_>,
    pmid: Pmid,
) -> Result<Body, NoMemory>
    ensures { IfOk result (λ body. body ≡ body_of (map reading_of regions.now) profile.now pmid) }
{
    match region_of(regions, pmid.word()) {
        Some(region) => region_body(alloc, profile, pmid, region),
        None => Ok(Body::Status(UNKNOWN)),
    }
}

/// The sets of metrics, by a profile whose parts are found by their domains.
fn all_sets(
    alloc: Global,
    regions: &[Known],
    profile: &ByDomain<'_>,
    pmids: &[Pmid],
) -> Result<List<ValueSet>, NoMemory>
    ensures { IfOk result (λ sets. sets ≡ map (set_of (map reading_of regions.now) profile.now) pmids.now) }
{
    let mut sets = List::empty(alloc);
    for pmid in pmids {
        let body = body_of(alloc, regions, profile, *pmid)?;
        sets.push(ValueSet { pmid: *pmid, body })?;
    }
    Ok(sets)
}

/// A set for each metric that was asked for, in the order asked.
pub fn sets_of(
    alloc: Global,
    regions: &[Known],
    profile: &Profile,
    pmids: &[Pmid],
) -> Result<List<ValueSet>, NoMemory>
    ensures { IfOk result (λ sets. sets ≡ map (set_of (map reading_of regions.now) profile.now) pmids.now) }
{
    let profile = ByDomain::of(alloc, profile)?;
    all_sets(alloc, regions, &profile, pmids)
}
