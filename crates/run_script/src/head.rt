//! What the lines of a script's head say.
ghost use Rattle.std.specs.Prelude.{◌≡◌, IfOk, OnOk};
ghost use Rattle.std.specs.Option.{option_copied};
ghost use Rattle.pcp_base.specs.Names.{spells_component};
ghost use Rattle.run_script.specs.Faults.{Takes};
ghost use Rattle.run_script.specs.Heads.{has_file, is_of, has_cluster, fits_image, may_open, region_at, single, statement_of, with_group};
ghost use Rattle.run_script.specs.Reading.{may_name};
ghost use Rattle.run_script.specs.Names.{Tells, Stays};

use crate::fault::{LineStop, ScriptLineFault};
use crate::names::place_of;
use crate::said::Said;
use crate::script::RegionRow;
use log_schedule::{Config, ConfigFault, Group};
use mmv_layout::Image;
use pcp_base::{NoMemory, Text, spells_component};
use std::alloc::Global;
use std::collections::BTreeMap;

// Whether some region has this FILE.
fn has_file(regions: &[RegionRow], file: &Text) -> bool
    ensures { result ≡ has_file regions.now file.now }
{
    regions
        .iter()
        .any(|row| row.file.as_slice() == file.as_slice())
}

// Whether an image, if there is one, is of this cluster.
fn is_of(cluster: u32, image: Option<&(Text, Image)>) -> bool
    ensures { result ≡ is_of cluster (option_copied image.entry) }
{
    match image {
        Some((_, image)) => image.cluster() == cluster,
        None => false,
    }
}

// Whether some region's image is of this cluster.
fn has_cluster(said: &Said, cluster: u32) -> bool
    ensures { result ≡ has_cluster said.now.images said.now.regions cluster }
{
    let images = &said.images;
    said.regions
        .as_slice()
        .iter()
        .any(|row| is_of(cluster, images.get(row.image as usize)))
}

// Whether a region may have these numbers of words and of passes.
fn fits_image(image: &Image, capacity: u128, passes: u128) -> bool
    ensures { result ≡ fits_image image.now capacity passes }
{
    let size = image.words().len() as u128;
    size <= capacity && capacity <= 65536 && 1 <= passes && passes <= 255
}

// Whether a region may be opened.
fn may_open(said: &Said, file: &Text, image: &Image, capacity: u128, passes: u128) -> bool
    ensures { result ≡ may_open said.now file.now image.now capacity passes }
{
    if !spells_component(file.as_slice()) || has_file(said.regions.as_slice(), file) {
        return false;
    }
    if !fits_image(image, capacity, passes) {
        return false;
    }
    !has_cluster(said, image.cluster())
}

/// Adds a region on the image that stands here, if there is one, where the rules for regions have it.
#[tactic(auto, using(crate::proofs::NamePositions::stays), unfolding(crate::specs::Heads::region_at))]
pub fn add_region(
    said: &mut Said,
    place: Option<u32>,
    number: u32,
    file: Text,
    capacity: u128,
    passes: u128,
) -> Result<(), LineStop>
    ensures step { Takes (region_at place number said.old file capacity passes) said.new result }
    ensures kept { OnOk result (Stays said.old said.new) }
{
    if said.regions.len() >= 64 {
        return Err(LineStop::Fault(ScriptLineFault::Regions));
    }
    let Some(at) = place else {
        return Err(LineStop::condition());
    };
    let Some((_, image)) = said.images.get(at as usize) else {
        return Err(LineStop::condition());
    };
    if !may_open(said, &file, image, capacity, passes) {
        return Err(LineStop::condition());
    }
    said.regions.push(RegionRow {
        file,
        image: at,
        capacity: capacity as u32,
        passes: passes as u32,
        line: number,
    })?;
    Ok(())
}

// The group of a configuration that has one alone.
#[tactic(auto, using(crate::proofs::Statements::one_alone, crate::proofs::Statements::not_one))]
fn single(config: Config) -> Option<Group>
    ensures { result ≡ single config.groups }
{
    let mut groups = config.groups;
    if groups.len() == 1 {
        return groups.pop();
    }
    None
}

// The group of a line, if the line is one statement.
#[tactic(auto, using(crate::proofs::Statements::told_group))]
fn statement_of(alloc: Global, line: &[u8]) -> Result<Option<Group>, NoMemory>
    ensures { IfOk result (λ group. group ≡ statement_of line.now) }
{
    match Config::read(alloc, line) {
        Ok(config) => Ok(single(config)),
        Err(ConfigFault::Grammar { .. }) => Ok(None),
        Err(ConfigFault::NoMemory) => Err(NoMemory),
    }
}

/// Adds the group of a line, where the line is one statement of the configuration.
#[tactic(auto, using(crate::proofs::NamePositions::stays))]
pub fn add_group(alloc: Global, said: &mut Said, line: &[u8]) -> Result<(), LineStop>
    ensures step { Takes (with_group said.old (statement_of line.now)) said.new result }
    ensures kept { OnOk result (Stays said.old said.new) }
{
    let Some(group) = statement_of(alloc, line)? else {
        return Err(LineStop::grammar());
    };
    said.groups.push(group)?;
    Ok(())
}

/// Whether an image may have this name.
pub fn may_name(said: &Said, names: &BTreeMap<Vec<u8>, u32>, name: &Text) -> bool
    requires { Tells names.now said.now.images }
    ensures { result ≡ may_name said.now name.now }
{
    spells_component(name.as_slice()) && place_of(names, name).is_none()
}
