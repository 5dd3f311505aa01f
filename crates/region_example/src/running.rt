//! The work of the program: it makes the region, has its lines counted, and logs.

ghost use Rattle.std.specs.Prelude.{[], IfOk};
ghost use Rattle.region_example.specs.Counts.{AreOf, CountsHalves, HasCounted, IsCounted};

use crate::counting::count_together;
use crate::layout::{add_errors, last_image, make_region};
use crate::level::Level;
use crate::logging::{log, now, open};
use anyhow::Result;
use mmv_layout::Image;
use pcp_outside::{Clock, Disk};
use region_words::{Pass, Region};
use std::alloc::Global;
use std::sync::Wait;
use std::thread::Threads;

fn has_error(lines: &[&[u8]]) -> bool {
    lines
        .iter()
        .any(|line| Level::of_line(line) == Level::Error)
}

// Counts a batch of lines, for which the region is laid anew if one of them is an error.
fn count_batch<R: Threads + Wait + Sync>(
    rt: &R,
    alloc: Global,
    region: &Region,
    passes: (Pass, Pass),
    lines: &[&[u8]],
) -> Result<(Pass, Pass)>
    requires here { AreOf region.now passes }
    ensures here { IfOk result (AreOf region.now) }
    ensures counts { IfOk result (CountsHalves lines.now passes) }
{
    if !has_error(lines) {
        return count_together(rt, alloc, region, passes, lines);
    }
    let passes = add_errors(rt, alloc, region, passes)?;
    count_together(rt, alloc, region, passes, lines)
}

// Counts batches of lines in a region, and logs it behind each. Answers how many results the archive has, and the last image.
fn count_all<R: Threads + Wait + Sync>(
    rt: &R,
    alloc: Global,
    disk: &mut impl Disk,
    clock: &mut impl Clock,
    region: &Region,
    passes: (Pass, Pass),
    batches: &[&[&[u8]]],
) -> Result<(u64, Image)>
    requires here { AreOf region.now passes }
    requires fresh { HasCounted [] passes.0.view passes.1.view }
    ensures { IfOk result (λ told. IsCounted batches.now told.1) }
{
    let mut logger = open(alloc, disk, now(clock)?)?;
    let mut passes = passes;
    for batch in batches {
        passes = count_batch(rt, alloc, region, passes, batch)?;
        let image = region.read_image(alloc, &mut passes.0)?;
        log(alloc, disk, &mut logger, image, now(clock)?)?;
    }
    Ok((logger.logged(), last_image(alloc, region, passes)?))
}

/// Makes the region, has batches of lines counted in it by two threads, and logs it behind each. Answers how many results the archive
/// has, and the last image of the region.
pub fn run<R: Threads + Wait + Sync>(
    rt: &R,
    alloc: Global,
    disk: &mut impl Disk,
    clock: &mut impl Clock,
    batches: &[&[&[u8]]],
) -> Result<(u64, Image)>
    ensures { IfOk result (λ told. IsCounted batches.now told.1) }
{
    let (region, passes) = make_region(alloc)?;
    count_all(rt, alloc, disk, clock, &region, passes, batches)
}
