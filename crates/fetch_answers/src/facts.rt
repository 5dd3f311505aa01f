//! What describes a fetch's answer: its metrics and their instance domains (pmLookupDesc(3), pmGetInDom(3)).
ghost use Rattle.std.specs.Prelude.{◌≡◌, ◌==◌, ◌++◌, ◌<◌, find, map, IfOk, OnOk};
ghost use Rattle.std.specs.Option.{option_copied};
ghost use Rattle.archive_meta.specs.Facts.{has_values};
ghost use Rattle.fetch_answers.specs.Answers.{ascending, code_of, desc_of, domains_in, domains_of, fact_of, facts_of, instances_of, layout_fact, layout_instances, metrics_in, row_instances, shown_of, with_indom, with_shown};
ghost use Rattle.fetch_answers.specs.Bounds.{FitsMetric};
ghost use Rattle.fetch_answers.specs.Readings.{reading_of};

use crate::pairs::full_name;
use crate::reading::{Known, region_of};
use crate::sets::indom_in;
use archive_meta::Facts;
use mmv_layout::{IndomRow, MetricRow};
use pcp_base::{Body, Desc, Duplicate, InDom, Kind, List, NoMemory, Pmid, Text, ValueSet};
use std::alloc::Global;
use std::collections::{BTreeMap, BTreeSet};

/// The instances of a domain, by number and name.
pub type Instances = List<(i32, Text)>;

/// The type code that describes a kind; an elapsed time is a signed number of 64 bits.
fn code_of(kind: Kind) -> u32
    ensures { result ≡ code_of kind }
{
    match kind {
        Kind::Elapsed => Kind::I64.code(),
        Kind::I32 | Kind::U32 | Kind::I64 | Kind::U64 | Kind::Float | Kind::Double | Kind::Text =>
            kind.code(),
    }
}

/// The description of a metric.
pub fn desc_of(cluster: u32, pmid: Pmid, metric: &MetricRow) -> Desc
    requires cluster { cluster < 4096 }
    requires metric { FitsMetric metric.now }
    ensures { result ≡ desc_of cluster pmid metric.now }
{
    Desc {
        pmid,
        code: code_of(metric.kind),
        indom: indom_in(cluster, metric.serial).unwrap_or(InDom::null()),
        semantics: metric.semantics.code(),
        units: metric.units,
    }
}

/// Adds the fact about a metric of a region, if the region said it.
fn push_fact(
    alloc: Global,
    metrics: &mut List<(Desc, Text)>,
    region: &Known,
    pmid: Pmid,
) -> Result<(), NoMemory>
    ensures { OnOk result (metrics.new ≡ metrics.old ++ layout_fact region.now.cluster region.now.file pmid (reading_of region.now).layout) }
{
    let Some(told) = &region.told else {
        return Ok(());
    };
    let Some(metric) = told.metric(pmid.item()) else {
        return Ok(());
    };
    let name = full_name(alloc, &region.file, told.flags(), &metric.name)?;
    metrics.push((desc_of(region.cluster, pmid, metric), name))
}

/// Adds the fact about a metric, if a region said it.
fn push_fact_of(
    alloc: Global,
    metrics: &mut List<(Desc, Text)>,
    regions: &[Known],
    pmid: Pmid,
) -> Result<(), NoMemory>
    ensures { OnOk result (metrics.new ≡ metrics.old ++ fact_of (map reading_of regions.now) pmid) }
{
    match region_of(regions, pmid.word()) {
        Some(region) => push_fact(alloc, metrics, region, pmid),
        None => Ok(()),
    }
}

/// Whether a set shows values.
fn has_values(set: &ValueSet) -> bool
    ensures { result ≡ has_values set.now.body }
{
    match &set.body {
        Body::InPlace(_) | Body::Blocks(_) => true,
        Body::Status(_) => false,
    }
}

/// Notes the metric of a set, if the set shows values.
fn note_shown(pmids: &mut BTreeSet<Pmid>, set: &ValueSet) -> Result<(), NoMemory>
    ensures { OnOk result (pmids.new.keys ≡ with_shown pmids.old.keys set.now) }
{
    if !has_values(set) {
        return Ok(());
    }
    pmids.insert(set.pmid)?;
    Ok(())
}

/// The metrics of the sets with values, each once.
fn shown_of(alloc: Global, sets: &[ValueSet]) -> Result<BTreeSet<Pmid>, NoMemory>
    ensures { IfOk result (λ pmids. pmids.keys ≡ shown_of sets.now) }
{
    let mut pmids: BTreeSet<Pmid> = BTreeSet::new(alloc);
    for set in sets {
        note_shown(&mut pmids, set)?;
    }
    Ok(pmids)
}

/// The facts about metrics, in ascending number.
fn metrics_in(
    alloc: Global,
    regions: &[Known],
    pmids: &BTreeSet<Pmid>,
) -> Result<List<(Desc, Text)>, NoMemory>
    ensures { IfOk result (λ metrics. metrics ≡ metrics_in (map reading_of regions.now) pmids.now.keys) }
{
    let mut metrics = List::empty(alloc);
    for pmid in pmids {
        push_fact_of(alloc, &mut metrics, regions, *pmid)?;
    }
    Ok(metrics)
}

/// Notes the domain of a metric, if it has one.
fn note_domain(indoms: &mut BTreeSet<InDom>, indom: InDom) -> Result<(), NoMemory>
    ensures { OnOk result (indoms.new.keys ≡ with_indom indoms.old.keys indom) }
{
    if indom == InDom::null() {
        return Ok(());
    }
    indoms.insert(indom)?;
    Ok(())
}

/// The domains of metrics, each once.
fn domains_of(alloc: Global, metrics: &[(Desc, Text)]) -> Result<BTreeSet<InDom>, NoMemory>
    ensures { IfOk result (λ indoms. indoms.keys ≡ domains_of metrics.now) }
{
    let mut indoms: BTreeSet<InDom> = BTreeSet::new(alloc);
    for fact in metrics {
        note_domain(&mut indoms, fact.0.indom)?;
    }
    Ok(indoms)
}

/// Instances by number.
pub fn by_number(alloc: Global, instances: &[(i32, Text)]) -> Result<BTreeMap<i32, Text>, NoMemory>
    ensures { IfOk result (λ table. table.entries ≡ ascending instances.now) }
{
    let mut table: BTreeMap<i32, Text> = BTreeMap::new(alloc);
    for (number, name) in instances {
        let made = name.copy(alloc)?;
        table.insert(*number, made)?;
    }
    Ok(table)
}

/// The instances of a table.
pub fn listed(alloc: Global, table: BTreeMap<i32, Text>) -> Result<Instances, NoMemory>
    ensures { IfOk result (λ list. list ≡ table.entries) }
{
    let mut list = List::empty(alloc);
    for (number, name) in table {
        list.push((number, name))?;
    }
    Ok(list)
}

pub fn row_with(rows: &[IndomRow], serial: u32) -> Option<&IndomRow>
    ensures { option_copied result ≡ find (λ row. row.serial == serial) rows.now }
{
    rows.iter().find(|row| row.serial == serial)
}

fn row_instances(alloc: Global, rows: &[IndomRow], serial: u32) -> Result<Instances, NoMemory>
    ensures { IfOk result (λ list. list ≡ row_instances (find (λ row. row.serial == serial) rows.now)) }
{
    let Some(row) = row_with(rows, serial) else {
        return Ok(List::empty(alloc));
    };
    let table = by_number(alloc, row.instances.as_slice())?;
    listed(alloc, table)
}

/// The instances of a domain of a region, in ascending number.
fn region_instances(alloc: Global, region: &Known, serial: u32) -> Result<Instances, NoMemory>
    ensures { IfOk result (λ list. list ≡ layout_instances serial (reading_of region.now).layout) }
{
    match &region.told {
        Some(told) => row_instances(alloc, told.indoms(), serial),
        None => Ok(List::empty(alloc)),
    }
}

/// The instances of a domain, in ascending number.
fn instances_of(alloc: Global, regions: &[Known], indom: InDom) -> Result<Instances, NoMemory>
    ensures { IfOk result (λ list. list ≡ instances_of (map reading_of regions.now) indom) }
{
    let word = indom.word();
    match region_of(regions, word) {
        Some(region) => region_instances(alloc, region, word % 1024),
        None => Ok(List::empty(alloc)),
    }
}

/// Domains with their instances, in ascending number.
fn domains_in(
    alloc: Global,
    regions: &[Known],
    indoms: &BTreeSet<InDom>,
) -> Result<List<(InDom, Instances)>, NoMemory>
    ensures { IfOk result (λ domains. domains ≡ domains_in (map reading_of regions.now) indoms.now.keys) }
{
    let mut domains = List::empty(alloc);
    for indom in indoms {
        let instances = instances_of(alloc, regions, *indom)?;
        domains.push((*indom, instances))?;
    }
    Ok(domains)
}

/// What describes the sets with values: each of their metrics once, with its name, and each of their domains once, with
/// all of its instances.
pub fn facts_of(alloc: Global, regions: &[Known], sets: &[ValueSet]) -> Result<Facts, NoMemory>
    ensures { IfOk result (λ facts. facts ≡ facts_of (map reading_of regions.now) sets.now) }
{
    let pmids = shown_of(alloc, sets)?;
    let metrics = metrics_in(alloc, regions, &pmids)?;
    let indoms = domains_of(alloc, metrics.as_slice())?;
    let domains = domains_in(alloc, regions, &indoms)?;
    Ok(Facts { metrics, domains })
}
