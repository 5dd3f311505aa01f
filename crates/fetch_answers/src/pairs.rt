//! The names of one region's metrics, as the name space spells them.
ghost use Rattle.std.specs.Prelude.{◌≡◌, ◌<◌, ◌++◌, map, All, IfOk};
ghost use Rattle.pcp_base.specs.Texts.{IsText};
ghost use Rattle.fetch_answers.specs.Bounds.{FitsMetric};
ghost use Rattle.fetch_answers.specs.Names.{served_word, front_of, full_name, pair_of};

use mmv_layout::MetricRow;
use pcp_base::{List, NoMemory, Pmid, Text};
use std::alloc::Global;

/// The number of a metric, or of an instance domain, that is served in a cluster.
pub fn served_word(cluster: u32, item: u32) -> u32
    requires cluster { cluster < 4096 }
    requires item { item < 1024 }
    ensures { result ≡ served_word cluster item }
{
    70 * 4_194_304 + cluster * 1024 + item
}

/// What stands before each name of a region.
fn front_of(alloc: Global, file: &Text, flags: u32) -> Result<Vec<u8>, NoMemory>
    ensures front { IfOk result (λ front. front.items ≡ front_of file.now flags) }
    ensures text { IfOk result (λ front. IsText front.items) }
{
    let mut front = b"mmv.".to_vec(alloc)?;
    if flags % 2 != 0 {
        return Ok(front);
    }
    front.extend_from_slice(file.as_slice())?;
    front.extend_from_slice(b".")?;
    Ok(front)
}

/// A metric's name: `mmv.FILE.NAME`, or `mmv.NAME` with flag 1.
pub fn full_name(alloc: Global, file: &Text, flags: u32, name: &Text) -> Result<Text, NoMemory>
    ensures { IfOk result (λ text. text ≡ full_name file.now flags name.now) }
{
    let mut bytes = front_of(alloc, file, flags)?;
    bytes.extend_from_slice(name.as_slice())?;
    Ok(Text::of_clean(List::from_vec(bytes)))
}

/// The names of a region's metrics, each with its number.
pub fn pairs_of(
    alloc: Global,
    cluster: u32,
    file: &Text,
    flags: u32,
    metrics: &[MetricRow],
) -> Result<List<(Text, Pmid)>, NoMemory>
    requires cluster { cluster < 4096 }
    requires metrics { All FitsMetric metrics.now }
    ensures { IfOk result (λ pairs. pairs ≡ map (pair_of cluster file.now flags) metrics.now) }
{
    let mut pairs = List::empty(alloc);
    for metric in metrics {
        let name = full_name(alloc, file, flags, &metric.name)?;
        pairs.push((name, Pmid::of_word(served_word(cluster, metric.item))))?;
    }
    Ok(pairs)
}
