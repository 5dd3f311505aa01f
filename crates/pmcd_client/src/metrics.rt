//! The metrics that names lead to, and the domains that descriptions name.
ghost use Rattle.std.specs.Prelude.{◌≡◌, length, map, IfOk, OnOk};
ghost use Rattle.pmcd_client.specs.Replies.{domains_described, has_domain, has_metric, metrics_named, with_domain, with_metric};

use pcp_base::{Desc, Duplicate, InDom, List, NoMemory, Pmid, Text};
use std::alloc::Global;

/// Whether a metric is among these.
fn has_metric(metrics: &[(Pmid, Text)], pmid: Pmid) -> bool
    ensures { result ≡ has_metric metrics.now pmid }
{
    metrics.iter().any(|metric| metric.0 == pmid)
}

/// Adds a metric where it comes first.
fn push_metric(
    alloc: Global,
    metrics: &mut Vec<(Pmid, Text)>,
    pmid: Pmid,
    name: &Text,
) -> Result<(), NoMemory>
    ensures { OnOk result (metrics.new.items ≡ with_metric metrics.old.items pmid name.now) }
{
    if has_metric(metrics.as_slice(), pmid) {
        return Ok(());
    }
    let name = name.copy(alloc)?;
    metrics.push((pmid, name))?;
    Ok(())
}

/// The different metrics to which names lead, each with its first name.
pub fn metrics_named(
    alloc: Global,
    pmids: &[Pmid],
    names: &[Text],
) -> Result<Vec<(Pmid, Text)>, NoMemory>
    requires { length pmids.now ≡ length names.now }
    ensures metrics { IfOk result (λ metrics. metrics.items ≡ metrics_named pmids.now names.now) }
{
    let mut metrics = Vec::new(alloc);
    for (pmid, name) in pmids.iter().zip(names.iter()) {
        push_metric(alloc, &mut metrics, *pmid, name)?;
    }
    Ok(metrics)
}

/// The metrics without their names.
pub fn pmids_of(alloc: Global, metrics: &[(Pmid, Text)]) -> Result<List<Pmid>, NoMemory>
    ensures { IfOk result (λ pmids. pmids ≡ map (λ m. m.0) metrics.now) }
{
    let mut pmids = List::from_vec(Vec::with_capacity(alloc, metrics.len())?);
    for (pmid, _) in metrics {
        pmids.push(*pmid)?;
    }
    Ok(pmids)
}

/// Whether a domain is among these.
fn has_domain(domains: &[InDom], indom: InDom) -> bool
    ensures { result ≡ has_domain domains.now indom }
{
    domains.iter().any(|domain| *domain == indom)
}

/// Adds a domain where it comes first, unless it's the null domain.
fn push_domain(domains: &mut Vec<InDom>, indom: InDom) -> Result<(), NoMemory>
    ensures { OnOk result (domains.new.items ≡ with_domain domains.old.items indom) }
{
    if indom == InDom::null() || has_domain(domains.as_slice(), indom) {
        return Ok(());
    }
    domains.push(indom)?;
    Ok(())
}

/// The different domains of descriptions but the null one.
pub fn domains_described(alloc: Global, metrics: &[(Desc, Text)]) -> Result<Vec<InDom>, NoMemory>
    ensures { IfOk result (λ domains. domains.items ≡ domains_described (map (λ m. m.0) metrics.now)) }
{
    let mut domains = Vec::new(alloc);
    for (desc, _) in metrics {
        push_domain(&mut domains, desc.indom)?;
    }
    Ok(domains)
}
