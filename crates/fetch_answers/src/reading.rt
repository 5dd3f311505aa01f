//! What is known of a region: what it said when it was read, by item, or that it was missed.
ghost use Rattle.std.specs.Prelude.{◌≡◌, ◌==◌, ◌/◌, ◌+◌, ◌*◌, ◌<◌, find, map, option_map, All, IfOk};
ghost use Rattle.std.specs.Option.{option_copied};
ghost use Rattle.fetch_answers.specs.Answers.{region_of};
ghost use Rattle.fetch_answers.specs.Readings.{reading_of};

use crate::shot::Shot;
use crate::told::Told;
use mmv_layout::Image;
use pcp_base::{Duplicate, List, NoMemory, Text};
use std::alloc::Global;
use std::marker::Model;

/// What is known of a region.
#[derive(Drop)]
pub struct Known {
    pub file: Text,
    pub cluster: u32,
    pub told: Option<Told>,
}

impl Model for Known {
    ghost use Rattle.std.specs.Prelude.{◌<◌};
    ghost use Rattle.fetch_answers.specs.declared.shot.Shot.{Shot as Read};

    ghost Value = { Read };

    ghost view = { λ a. record { file = a.file; cluster = a.cluster; image = a.told } };

    ghost invariant = { λ a. a.cluster < 4096 };
}

fn told_of(alloc: Global, image: &Option<Image>) -> Result<Option<Told>, NoMemory>
    ensures { IfOk result (λ told. told ≡ image.now) }
{
    match image {
        Some(image) => Ok(Some(Told::of_image(alloc, image.copy(alloc)?)?)),
        None => Ok(None),
    }
}

fn known_of(alloc: Global, shot: &Shot) -> Result<Known, NoMemory>
    requires { shot.now.cluster < 4096 }
    ensures { IfOk result (λ known. known ≡ shot.now) }
{
    Ok(Known {
        file: shot.file.copy(alloc)?,
        cluster: shot.cluster,
        told: told_of(alloc, &shot.image)?,
    })
}

/// What is known of each region, in order.
pub fn all_known(alloc: Global, shots: &[Shot]) -> Result<List<Known>, NoMemory>
    requires { All (λ shot. shot.cluster < 4096) shots.now }
    ensures { IfOk result (λ known. known ≡ shots.now) }
{
    let mut known = List::empty(alloc);
    for shot in shots {
        known.push(known_of(alloc, shot)?)?;
    }
    Ok(known)
}

/// The first region in whose cluster a number lies.
fn find_region(regions: &[Known], word: u32) -> Option<&Known>
    ensures { option_copied result ≡ find (λ region. word / 1024 == 70 * 4096 + region.cluster) regions.now }
{
    regions
        .iter()
        .find(|region| word / 1024 == 70 * 4096 + region.cluster)
}

/// The region of a metric or of an instance domain.
pub fn region_of(regions: &[Known], word: u32) -> Option<&Known>
    ensures { option_map reading_of (option_copied result) ≡ region_of (map reading_of regions.now) word }
{
    find_region(regions, word)
}
