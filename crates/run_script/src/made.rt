//! The script that a number makes. Its images are read from their layout texts.
ghost use Rattle.std.specs.Prelude.{◌≡◌, ◌≤◌, ◌+◌, IfOk, OnOk, if◌then◌else◌, [], ◌∷◌, ◌++◌};
ghost use Rattle.pcp_base.specs.Texts.{IsText};
ghost use Rattle.mmv_writer.specs.Spelling.{image_words};
ghost use Rattle.run_script.specs.Generated.{layout, images, regions, group, generated_script};

use crate::making::all_steps;
use crate::script::{RegionRow, Script};
use log_schedule::{Config, Group};
use mmv_layout::Image;
use mmv_writer::{ReadTextError, read_text};
use pcp_base::{List, NoMemory, Text};
use std::alloc::Global;

// The end of an image's first line, and the rows before the values: a domain, the counters, and the domain's metric.
const ROWS: &[u8] = b"\n\
indom 1 - -\n\
instance 1 0 \"i0\"\n\
instance 1 1 \"i1\"\n\
instance 1 2 \"i2\"\n\
instance 1 3 \"i3\"\n\
instance 1 4 \"i4\"\n\
instance 1 5 \"i5\"\n\
instance 1 6 \"i6\"\n\
instance 1 7 \"i7\"\n\
instance 1 8 \"i8\"\n\
instance 1 9 \"i9\"\n\
instance 1 10 \"i10\"\n\
instance 1 11 \"i11\"\n\
instance 1 12 \"i12\"\n\
instance 1 13 \"i13\"\n\
instance 1 14 \"i14\"\n\
instance 1 15 \"i15\"\n\
metric c1 1 u32 counter 00100000 - - -\n\
metric c2 2 u32 counter 00100000 - - -\n\
metric c3 3 u32 counter 00100000 - - -\n\
metric c4 4 u32 counter 00100000 - - -\n\
metric c5 5 u32 counter 00100000 - - -\n\
metric c6 6 u32 counter 00100000 - - -\n\
metric c7 7 u32 counter 00100000 - - -\n\
metric c8 8 u32 counter 00100000 - - -\n\
metric c9 9 u32 counter 00100000 - - -\n\
metric c10 10 u32 counter 00100000 - - -\n\
metric c11 11 u32 counter 00100000 - - -\n\
metric c12 12 u32 counter 00100000 - - -\n\
metric per 13 u64 counter 00100000 1 - -\n";

const VALUES: &[u8] = b"value 1 - 0\n\
value 2 - 0\n\
value 3 - 0\n\
value 4 - 0\n\
value 5 - 0\n\
value 6 - 0\n\
value 7 - 0\n\
value 8 - 0\n\
value 9 - 0\n\
value 10 - 0\n\
value 11 - 0\n\
value 12 - 0\n\
value 13 0 0\n\
value 13 1 0\n\
value 13 2 0\n\
value 13 3 0\n\
value 13 4 0\n\
value 13 5 0\n\
value 13 6 0\n\
value 13 7 0\n\
value 13 8 0\n\
value 13 9 0\n\
value 13 10 0\n\
value 13 11 0\n\
value 13 12 0\n\
value 13 13 0\n\
value 13 14 0\n\
value 13 15 0\n";

// What the first region's second image has besides.
const LATE: &[u8] = b"metric late 14 i32 instant 00000000 - - -\n";

const LATE_VALUE: &[u8] = b"value 14 - 0\n";

fn when(has: bool, bytes: &[u8]) -> &[u8]
    ensures { result.now ≡ (if has then bytes.now else []) }
{
    if has { bytes } else { b"".as_slice() }
}

// The image of a cluster, with the metric `late` or without.
fn image(alloc: Global, cluster: u8, late: bool) -> Result<Image, NoMemory>
    requires low { 1 ≤ cluster }
    requires high { cluster ≤ 3 }
    ensures { IfOk result (λ made. made ≡ image_words (layout cluster late)) }
{
    let mut text = Vec::from_slice(alloc, b"mmv 1 1 0 0 ")?;
    text.push(b'0' + cluster)?;
    text.extend_from_slice(ROWS)?;
    text.extend_from_slice(when(late, LATE))?;
    text.extend_from_slice(VALUES)?;
    text.extend_from_slice(when(late, LATE_VALUE))?;
    match read_text(alloc, &text) {
        Ok(image) => Ok(image),
        Err(ReadTextError::NoMemory) => Err(NoMemory),
        Err(ReadTextError::Fault(_)) => unreachable!(),
    }
}

// Adds an image of this name.
fn add_image(
    alloc: Global,
    images: &mut List<(Text, Image)>,
    name: &[u8],
    image: Image,
) -> Result<(), NoMemory>
    requires { IsText name.now }
    ensures { OnOk result (images.new ≡ images.old ++ (name.now, image) ∷ []) }
{
    let name = Text::clean_copy(alloc, name)?;
    images.push((name, image))?;
    Ok(())
}

#[tactic(auto, unfolding(crate::specs::Generated::images))]
fn images(alloc: Global) -> Result<List<(Text, Image)>, NoMemory>
    ensures { IfOk result (λ made. made ≡ images) }
{
    let mut made = List::empty(alloc);
    add_image(alloc, &mut made, b"r0", image(alloc, 1, false)?)?;
    add_image(alloc, &mut made, b"r1", image(alloc, 2, false)?)?;
    add_image(alloc, &mut made, b"r2", image(alloc, 3, false)?)?;
    add_image(alloc, &mut made, b"r0late", image(alloc, 1, true)?)?;
    Ok(made)
}

// Adds the region that opens on the image at its own position.
fn add_region(
    alloc: Global,
    regions: &mut List<RegionRow>,
    image: u32,
    file: &[u8],
) -> Result<(), NoMemory>
    requires text { IsText file.now }
    requires few { image ≤ 2 }
    ensures { OnOk result (regions.new ≡ regions.old ++ record { file = file.now; image = image; capacity = 2048; passes = 4; line = 247 + image } ∷ []) }
{
    regions.push(RegionRow {
        file: Text::clean_copy(alloc, file)?,
        image,
        capacity: 2048,
        passes: 4,
        line: 247 + image,
    })?;
    Ok(())
}

#[tactic(auto, unfolding(crate::specs::Generated::regions))]
fn regions(alloc: Global) -> Result<List<RegionRow>, NoMemory>
    ensures { IfOk result (λ made. made ≡ regions) }
{
    let mut made = List::empty(alloc);
    add_region(alloc, &mut made, 0, b"r0")?;
    add_region(alloc, &mut made, 1, b"r1")?;
    add_region(alloc, &mut made, 2, b"r2")?;
    Ok(made)
}

// Each second, all metrics.
fn config(alloc: Global) -> Result<Config, NoMemory>
    ensures { IfOk result (λ made. made.groups ≡ group ∷ []) }
{
    let mut names = List::empty(alloc);
    names.push(Text::clean_copy(alloc, b"mmv")?)?;
    let mut groups = List::empty(alloc);
    groups.push(Group {
        interval: Some(1000),
        names,
    })?;
    Ok(Config { groups })
}

/// The script that a number makes: so many ticks, one each second from second 1 on, at most 100,000.
#[tactic(auto, unfolding(crate::specs::Generated::generated_script))]
pub fn generate(alloc: Global, number: u64, ticks: u32) -> Result<Script, NoMemory>
    requires { ticks ≤ 100000 }
    ensures { IfOk result (λ script. script ≡ generated_script number ticks) }
{
    let images = images(alloc)?;
    let regions = regions(alloc)?;
    let config = config(alloc)?;
    let steps = all_steps(alloc, number, ticks)?;
    Ok(Script {
        images,
        regions,
        config,
        steps,
    })
}
