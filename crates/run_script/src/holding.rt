//! Which regions may hold an image, and how many steps are right with all images.
ghost use Rattle.std.specs.Prelude.{◌≡◌, ◌<◌, ◌≤◌, ◌||◌, ℕ, false, length, slice_get, IfSome};
ghost use Rattle.std.specs.List.{list_any};
ghost use Rattle.std.specs.Option.{option_copied};
ghost use Rattle.run_script.specs.Recording.{fits_in, image_words, place_of};
ghost use Rattle.run_script.specs.RecordingSteps.{AreNear, IsFirst, IsNear, TellsHeld, begins, fits_room, is_held, is_place, opens, passes_at, right_with, suits_image};

use crate::script::{Line, RegionRow, Script};
use crate::suiting::{image_words, suits_in};
use mmv_layout::Image;

// Marks the regions that open on an image.
fn mark_opened(held: &mut [bool], regions: &[RegionRow], image: usize)
    requires size { length held.old ≡ 64 }
    requires clear { (region : ℕ) → is_held held.old region ≡ false }
    requires few { length regions.now ≤ 64 }
    ensures { (region : ℕ) → is_held held.new region ≡ opens image (slice_get regions.now region) }
{
    for (region, row) in regions.iter().enumerate() {
        held[region] = row.image as usize == image;
    }
}

// The region that a step begins to change to an image.
fn region_begun(line: &Line, image: usize) -> Option<u32>
    requires { IsNear (place_of line.now) }
    ensures bound { IfSome result (λ region. region < 64) }
    ensures region { (region : ℕ) → begins region image line.now ≡ is_place result region }
{
    match line {
        Line::Begin {
            region,
            image: at,
            ..
        } if *at as usize == image => Some(*region),
        _ => None,
    }
}

// Marks the regions that some step begins to change to an image.
fn mark_begun(held: &mut [bool], steps: &[(u32, Line)], image: usize)
    requires size { length held.old ≡ 64 }
    requires near { AreNear steps.now }
    ensures { (region : ℕ) → is_held held.new region ≡ (is_held held.old region || list_any (λ step. begins region image step.1) steps.now) }
{
    for (_, line) in steps {
        if let Some(region) = region_begun(line, image) {
            held[region as usize] = true;
        }
    }
}

// Flags of which none is set.
fn no_regions() -> [bool; 64]
    ensures size { length result ≡ 64 }
    ensures clear { (region : ℕ) → is_held result region ≡ false }
{
    [false; 64]
}

// The regions that may hold the image at a position.
fn holders(script: &Script, image: usize) -> [bool; 64]
    requires few { length script.now.regions ≤ 64 }
    requires near { AreNear script.now.steps }
    ensures { TellsHeld script.now image result }
{
    let mut held = no_regions();
    mark_opened(&mut held, script.regions.as_slice(), image);
    mark_begun(&mut held, script.steps.as_slice(), image);
    held
}

// How many steps are right with an image before the first that isn't.
fn count_suiting(script: &Script, at: usize, image: &Image, steps: &[(u32, Line)]) -> usize
    requires few { length script.now.regions ≤ 64 }
    requires near { AreNear script.now.steps }
    requires front { AreNear steps.now }
    requires image { image_words script.now.images at ≡ image.now }
    ensures { IsFirst (passes_at (suits_image script.now at) steps.now) (length steps.now) result }
{
    let held = holders(script, at);
    for (k, (_, line)) in steps.iter().enumerate() {
        if !suits_in(&held, image, line) {
            return k;
        }
    }
    steps.len()
}

// Whether an image fits into a region, if the region is there.
fn fits_in(size: usize, region: Option<&RegionRow>) -> bool
    ensures { result ≡ fits_in size (option_copied region.entry) }
{
    match region {
        Some(row) => size <= row.capacity as usize,
        None => false,
    }
}

// Whether the image of a change fits into its region, and the change's moment is below 2^63.
fn fits_room(script: &Script, line: &Line) -> bool
    ensures { result ≡ fits_room script.now line.now }
{
    match line {
        Line::Begin {
            region,
            image,
            moment,
            ..
        } => {
            let size = image_words(script.images.as_slice(), *image as usize).len();
            fits_in(size, script.regions.get(*region as usize)) && *moment < 1 << 63
        }
        _ => true,
    }
}

// How many steps fit before the first that doesn't.
fn count_fitting(script: &Script, steps: &[(u32, Line)]) -> usize
    ensures { IsFirst (passes_at (fits_room script.now) steps.now) (length steps.now) result }
{
    for (k, (_, line)) in steps.iter().enumerate() {
        if !fits_room(script, line) {
            return k;
        }
    }
    steps.len()
}

/// How many steps fit, and are right with each image, before the first that isn't.
pub fn count_right(script: &Script, steps: &[(u32, Line)]) -> usize
    requires few { length script.now.regions ≤ 64 }
    requires near { AreNear script.now.steps }
    requires front { AreNear steps.now }
    ensures { IsFirst (passes_at (right_with script.now (length script.now.images)) steps.now) (length steps.now) result }
{
    let mut count = count_fitting(script, steps);
    for (at, (_, image)) in script.images.as_slice().iter().enumerate() {
        count = count_suiting(script, at, image, &steps[..count]);
    }
    count
}
