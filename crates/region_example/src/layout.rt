//! What the region counts: its layout (mmv(5)) has the counters `lines` and `bytes`, each with an instance for each level.

ghost use Rattle.std.specs.Prelude.{◌≡◌, [], All, IfOk, MatchOption};
ghost use Rattle.mmv_layout.specs.Form.{IsOther, slots_of};
ghost use Rattle.region_example.specs.Counts.{AreOf, HasCounted, ShowsAll, ShowsCount, added};
ghost use Rattle.region_example.specs.Levels.{instance_of};

use crate::level::Level;
use anyhow::{Result, bail};
use mmv_layout::Image;
use mmv_writer::read_text;
use region_words::{Pass, Region};
use std::alloc::Global;
use std::sync::Wait;
use text_lines::layout_text;

/// The item of the counter `lines`.
pub const LINES: u32 = 1;

/// The item of the counter `bytes`.
pub const BYTES: u32 = 2;

// How many words the region has: enough for the layout with all levels.
const CAPACITY: u32 = 512;

// The layout at first, as layout text: version 1, generation 1, no flags, process 0 and cluster 7; an instance domain with two
// instances; two counters over it, whose units are a count and bytes; and a value for each counter and instance.
const AT_FIRST: &str = "mmv 1 1 0 0 7
indom 1 \"levels\" -
instance 1 0 \"info\"
instance 1 1 \"warning\"
metric lines 1 u64 counter 00100000 1 \"lines of the log\" -
metric bytes 2 u64 counter 10000000 1 \"bytes of the log\" -
value 1 0 0
value 1 1 0
value 2 0 0
value 2 1 0
";

// What it has more once the first error comes.
const ERRORS: &str = "instance 1 2 \"error\"
value 1 2 0
value 2 2 0
";

/// The region as it is at first, with a pass for each of the two threads that count.
pub fn make_region(alloc: Global) -> Result<(Region, (Pass, Pass))>
    ensures here { IfOk result (λ made. AreOf made.0 made.1) }
    ensures fresh { IfOk result (λ made. HasCounted [] made.1.0.view made.1.1.view) }
{
    let image = read_text(alloc, AT_FIRST.as_bytes())?;
    let (region, mut passes) = Region::make(alloc, &image, CAPACITY, 2)?;
    match (passes.pop(), passes.pop()) {
        (Some(second), Some(first)) => Ok((region, (first, second))),
        _ => bail!("a pass is missing"),
    }
}

// The image that says what this one says, and begins to count errors.
fn with_errors(alloc: Global, image: &Image) -> Result<Image> {
    let layout = image.layout(alloc)?;
    let mut text = layout_text(alloc, &layout)?.into_vec();
    text.extend_from_slice(ERRORS.as_bytes())?;
    Ok(read_text(alloc, &text)?)
}

/// The value of a counter for a level in an image, and `None` exactly where its layout has no instance for the level.
pub fn count_in(image: &Image, item: u32, level: Level) -> Option<u64>
    ensures { MatchOption result (All (IsOther item (instance_of level)) (slots_of image.now)) (ShowsCount image.now item level) }
{
    let slot = image.slot_of(item, level.instance())?;
    Some(image.words()[slot.word as usize])
}

/// The image in the end. The first pass ends the other one, so it knows of all that both did.
pub fn last_image(alloc: Global, region: &Region, passes: (Pass, Pass)) -> Result<Image>
    requires here { AreOf region.now passes }
    ensures shows { IfOk result (ShowsAll passes.0.view passes.1.view) }
{
    let (mut first, second) = passes;
    first.gather(region, second);
    Ok(region.read_image(alloc, &mut first)?)
}

/// Lays the region anew where it doesn't count errors yet: a change begins, which keeps every pass from attaching, puts the words
/// of the new image, and ends. The counts so far are taken over; nobody adds to them meanwhile, since the passes of both threads are
/// here.
pub fn add_errors<R: Wait>(
    rt: &R,
    alloc: Global,
    region: &Region,
    passes: (Pass, Pass),
) -> Result<(Pass, Pass)>
    requires here { AreOf region.now passes }
    ensures here { IfOk result (AreOf region.now) }
    ensures adds_none { IfOk result (λ after. (added after.0.view ≡ added passes.0.view) × (added after.1.view ≡ added passes.1.view)) }
{
    let (mut first, second) = passes;
    let image = region.read_image(alloc, &mut first)?;
    if count_in(&image, LINES, Level::Error).is_some() {
        return Ok((first, second));
    }
    let image = with_errors(alloc, &image)?;
    match region.begin_change_wait(rt, first, image, 0) {
        Ok(change) => Ok((change.finish(region), second)),
        Err((_, _, fault)) => Err(fault.into()),
    }
}
