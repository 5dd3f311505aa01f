//! Making the regions of a script, each with its passes.
ghost use Rattle.std.specs.Prelude.{◌+◌, ◌<◌, ◌≤◌, length, IfOk};
ghost use Rattle.std.specs.List.{AllZip};
ghost use Rattle.region_rule.specs.Calls.{Opens};
ghost use Rattle.run_script.specs.Rules.{IsRegion, KeepsRules};
ghost use Rattle.run_passes.specs.Makings.{AreMadeInOrder, IsMadeFor};
ghost use Rattle.run_passes.specs.Openings.{HaveRoom};

use fetch_engine::Mounted;
use mmv_layout::Image;
use pcp_base::{Duplicate, NoMemory};
use region_words::{OpenFault, Pass, Region};
use run_script::{RegionRow, Script};
use std::alloc::Global;

/// A region that was made, with the passes that the script names in it, and one for each seat.
#[derive(Drop)]
pub(crate) struct Made {
    pub(crate) mounted: Mounted,
    pub(crate) own: Vec<Pass>,
    pub(crate) seated: Vec<Pass>,
}

/// A region of an image that fits into it.
fn region_of(
    alloc: Global,
    image: &Image,
    capacity: u32,
    passes: u32,
) -> Result<(Region, Vec<Pass>), NoMemory>
    requires fits { length image.now ≤ capacity }
    requires capacity { capacity ≤ 65536 }
    requires passes { (0 < passes) × (passes ≤ 256) }
    ensures { IfOk result (λ made. Opens image.now capacity passes made.0 made.1.items) }
{
    match Region::make(alloc, image, capacity, passes) {
        Ok(made) => Ok(made),
        Err(OpenFault::TooLarge { .. }) => unreachable!(),
        Err(OpenFault::NoMemory) => Err(NoMemory),
    }
}

/// The region of a row: of its passes the last are those of the seats.
fn make_region(
    alloc: Global,
    script: &Script,
    row: &RegionRow,
    seats: u32,
) -> Result<Made, NoMemory>
    requires region { IsRegion script.now.images row.now }
    requires room { row.now.passes + seats ≤ 256 }
    ensures { IfOk result (IsMadeFor script.now seats row.now) }
{
    let Some((_, image)) = script.images.get(row.image as usize) else {
        unreachable!()
    };
    let (region, mut own) = region_of(alloc, image, row.capacity, row.passes + seats)?;
    let seated = own.split_off(row.passes as usize)?;
    let file = row.file.copy(alloc)?;
    let cluster = image.cluster();
    Ok(Made {
        mounted: Mounted {
            file,
            cluster,
            region,
        },
        own,
        seated,
    })
}

/// The regions of all rows.
fn make_each(alloc: Global, script: &Script, seats: u32) -> Result<Vec<Made>, NoMemory>
    requires rules { KeepsRules script.now }
    requires room { HaveRoom script.now.regions seats }
    ensures { IfOk result (λ made. AllZip (IsMadeFor script.now seats) script.now.regions made.items) }
{
    let mut made = Vec::new(alloc);
    for row in script.regions.as_slice() {
        made.push(make_region(alloc, script, row, seats)?)?;
    }
    Ok(made)
}

/// The regions of all rows in ascending cluster, in which a server has them.
pub(crate) fn make_regions(
    alloc: Global,
    script: &Script,
    seats: u32,
) -> Result<Vec<Made>, NoMemory>
    requires rules { KeepsRules script.now }
    requires room { HaveRoom script.now.regions seats }
    ensures { IfOk result (λ made. AreMadeInOrder script.now seats made.items) }
{
    let mut made = make_each(alloc, script, seats)?;
    made.sort_unstable_by_key(|region| region.mounted.cluster);
    Ok(made)
}
