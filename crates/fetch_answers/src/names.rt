//! The name space of regions.
ghost use Rattle.std.specs.Prelude.{◌≡◌, ◌<◌, ◌++◌, ◌∷◌, [], IfOk, OnOk};
ghost use Rattle.fetch_answers.specs.Names.{names_of, missed_of, with_missed, with_pairs, with_region};
ghost use Rattle.fetch_answers.specs.Readings.{reading_of, AreInOrder};

use crate::pairs::pairs_of;
use crate::reading::{Known, all_known};
use crate::shot::Shot;
use pcp_base::{List, NoMemory, Pmid, Text};
use pmns_core::{Names, NamesFault};
use std::alloc::Global;

/// The name space of regions, and the clusters of those that were missed.
#[derive(Drop)]
pub struct Named {
    pub names: Names,
    pub missing: List<u32>,
}

/// Adds the names of one region, all or none.
fn add_pairs(alloc: Global, names: &mut Names, pairs: &List<(Text, Pmid)>) -> Result<(), NoMemory>
    ensures { OnOk result (names.new ≡ with_pairs names.old pairs.now) }
{
    match names.add(alloc, pairs) {
        Ok(()) => Ok(()),
        Err(NamesFault::NoMemory) => Err(NoMemory),
        Err(NamesFault::Duplicate { name: _name }) => Ok(()),
        Err(NamesFault::LeafAndNode { name: _name }) => Ok(()),
    }
}

/// Adds what is known of a region.
fn add_region(alloc: Global, named: &mut Named, region: &Known) -> Result<(), NoMemory>
    ensures names { OnOk result (named.new.names ≡ with_region named.old.names (reading_of region.now)) }
    ensures missing { OnOk result (named.new.missing ≡ with_missed named.old.missing (reading_of region.now).cluster (reading_of region.now).layout) }
{
    let Some(told) = &region.told else {
        named.missing.push(region.cluster)?;
        return Ok(());
    };
    let pairs = pairs_of(
        alloc,
        region.cluster,
        &region.file,
        told.flags(),
        told.metrics(),
    )?;
    add_pairs(alloc, &mut named.names, &pairs)
}

/// The name space of what is known of regions, one region after another. A region whose names don't all fit adds none
/// (pmns(5)), and neither does one that was missed, whose cluster is told.
pub fn names_known(alloc: Global, regions: &[Known]) -> Result<Named, NoMemory>
    ensures names { IfOk result (λ named. named.names ≡ names_of regions.now) }
    ensures missing { IfOk result (λ named. named.missing ≡ missed_of regions.now) }
{
    let mut named = Named {
        names: Names::empty(alloc),
        missing: List::empty(alloc),
    };
    for region in regions {
        add_region(alloc, &mut named, region)?;
    }
    Ok(named)
}

/// The name space of regions in ascending cluster, as `names_known` has it.
pub fn names_of(alloc: Global, shots: &[Shot]) -> Result<Named, NoMemory>
    requires { AreInOrder shots.now }
    ensures names { IfOk result (λ named. named.names ≡ names_of shots.now) }
    ensures missing { IfOk result (λ named. named.missing ≡ missed_of shots.now) }
{
    let regions = all_known(alloc, shots)?;
    names_known(alloc, regions.as_slice())
}
