//! Regions of memory mapped values: what scripts can't say of their calls.

ghost use Rattle.std.specs.Prelude.{◌≡◌, ◌<◌, length};

use crate::layouts::image_of_layout;
use mmv_layout::Image;
use region_words::{Known, Note, Pass, Reading, Region, Stint, ValueFault};
use std::alloc::Global;
use std::process::Abort;

// The image of a layout, whose value stands in word 22 of 26.
fn image_of(rt: &impl Abort, alloc: Global, layout: u64) -> Image {
    image_of_layout(alloc, layout).expect(rt, "an image")
}

// A region of 26 words, and its two passes.
fn make_two(rt: &impl Abort, alloc: Global) -> (Region, Pass, Pass)
    ensures words { length result.0.words ≡ 26 }
    ensures regions { (result.1.region ≡ result.0) × (result.2.region ≡ result.0) }
{
    let Ok((region, mut passes)) = Region::make(alloc, &image_of(rt, alloc, 0), 26, 2) else {
        panic!(rt; "no memory")
    };
    let second = passes.pop().expect(rt, "two passes");
    let first = passes.pop().expect(rt, "two passes");
    (region, first, second)
}

// Reads the value under a known generation.
fn read_value(region: &Region, pass: &mut Pass, generation: u64) -> Result<u64, ValueFault>
    requires here { pass.old.region ≡ region.now }
    requires below { 22 < length region.now.words }
    ensures { pass.new.region ≡ region.now }
{
    let mut values = [0];
    region.read_values(pass, &Known { generation }, &[22], &mut values)?;
    Ok(values[0])
}

#[test]
fn a_known_layout_is_refused_beside_a_change_and_behind_it(rt: HostRuntime) {
    let alloc = rt.alloc();
    let (region, writer, mut reader) = make_two(&rt, alloc);
    let Ok(change) = region.begin_change(writer, image_of(&rt, alloc, 1), 0) else {
        panic!(&rt; "the gate was 0")
    };
    let crossed = read_value(&region, &mut reader, 5);
    let _ = change.finish(&region);
    let newer = read_value(&region, &mut reader, 5);
    assert!(&rt; matches!(crossed, Err(ValueFault::Again { first: 5, last: 6 })));
    assert!(&rt; matches!(newer, Err(ValueFault::Newer { found: 6 })));
    assert!(&rt; matches!(read_value(&region, &mut reader, 6), Ok(0x1_0000_0000)));
}

fn needs_send<T: Send>() {}

fn needs_sync<T: Sync>() {}

#[test]
fn tokens_may_be_sent_and_a_region_shared(_rt: HostRuntime) {
    needs_send::<Pass>();
    needs_send::<Note>();
    needs_send::<Reading>();
    needs_send::<Stint>();
    needs_sync::<Region>();
}
