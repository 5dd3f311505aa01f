//! Layouts that differ, and a pass that lays a region anew with one after the other.

ghost use Rattle.std.specs.Prelude.{◌≡◌, IfSome};

use mmv_layout::Image;
use mmv_writer::read_text;
use region_words::{Pass, Region};
use std::alloc::Global;
use std::sync::Wait;
use std::sync::atomic::{AtomicBool, Ordering};
use std::thread;

// How many layouts there are at most.
const LAYOUTS: u64 = 2000;

// How many are laid at least.
const FEWEST: u64 = 200;

/// Layout n has the item 2 or 3 as n is even or odd, and a value that begins at n times 2^32.
pub fn image_of_layout(alloc: Global, layout: u64) -> Option<Image> {
    let item = 2 + layout % 2;
    let value = layout << 32;
    let text = format!(in alloc;
        "mmv 1 5 0 0 1\nmetric hits {item} u64 counter 00100000 - - -\nvalue {item} - {value}\n"
    ).ok()?;
    read_text(alloc, text.as_bytes()).ok()
}

/// Whether the generation, the metric word and the value are those of one layout, the first of which has generation 5.
pub fn is_one_layout(generation: u64, metric: u64, value: u64) -> bool {
    let layout = generation.wrapping_sub(5);
    metric == 0x3_0000_0002 + layout % 2 && value >> 32 == layout
}

/// Lays one layout after the other, until another thread is done. Half way through each change it lets others run.
pub fn relay<R: Wait>(
    rt: &R,
    alloc: Global,
    region: &Region,
    pass: Pass,
    done: &AtomicBool,
) -> Option<Pass>
    requires here { pass.region ≡ region.now }
    ensures { IfSome result (λ p. p.region ≡ region.now) }
{
    let mut pass = pass;
    for layout in 1..LAYOUTS {
        let image = image_of_layout(alloc, layout)?;
        match region.begin_change_wait(rt, pass, image, 0) {
            Ok(mut change) => {
                let _ = change.step(region);
                thread::yield_now();
                pass = change.finish(region);
            }
            Err(_) => return None,
        }
        if layout >= FEWEST && done.load(Ordering::SeqCst) {
            return Some(pass);
        }
    }
    Some(pass)
}
