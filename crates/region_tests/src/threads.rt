//! Threads that run beside each other over one region: four writers, one that changes the layout, and a reader.

ghost use Rattle.std.specs.Prelude.{◌≡◌, All, IfOk, IfSome};

use crate::layouts::{image_of_layout, is_one_layout, relay};
use mmv_layout::Image;
use region_words::{Known, Pass, ReadFault, Region, Stint, ValueFault, is_number};
use std::alloc::{AllocError, Global};
use std::sync::Wait;
use std::sync::atomic::{AtomicBool, Ordering};
use std::thread::{self, Threads};

const STINTS: u64 = 1000;

const ADDS: u64 = 100;

// How often a layout was seen, or a read refused.
#[derive(Drop)]
struct Seen {
    stable: u64,
    refused: u64,
}

// Adds 1 to the first value, and answers the word before.
fn add_to_first(alloc: Global, region: &Region, stint: &mut Stint) -> Option<u64>
    requires here { stint.old.region ≡ region.now }
    ensures { stint.new.region ≡ region.now }
{
    let Ok(slots) = region.slots(alloc, stint) else {
        return None;
    };
    let Some(slot) = slots.get(0) else {
        return None;
    };
    if is_number(slot.kind) {
        return Some(stint.add(region, slot.word, 1));
    }
    None
}

// Adds 1 many times, and keeps what it found.
fn add_many(alloc: Global, region: &Region, stint: &mut Stint, found: &mut Vec<u64>) -> Option<()>
    requires here { stint.old.region ≡ region.now }
    ensures { stint.new.region ≡ region.now }
{
    for _ in 0..ADDS {
        let word = add_to_first(alloc, region, stint)?;
        found.push(word).ok()?;
    }
    Some(())
}

// Attaches `STINTS` times and adds `ADDS` times in each stint; answers the pass and each number that was found.
fn write<R: Wait>(rt: &R, alloc: Global, region: &Region, pass: Pass) -> Option<(Pass, Vec<u64>)>
    requires here { pass.region ≡ region.now }
    ensures { IfSome result (λ r. r.0.region ≡ region.now) }
{
    let mut found = Vec::new(alloc);
    let mut pass = pass;
    for _ in 0..STINTS {
        let mut stint = region.attach_wait(rt, pass);
        add_many(alloc, region, &mut stint, &mut found)?;
        pass = stint.detach(region);
        thread::yield_now();
    }
    Some((pass, found))
}

// Reads chosen words of the layout that was just read, and says whether a layout was seen.
fn read_known(region: &Region, pass: &mut Pass, image: &Image, seen: &mut Seen) -> bool
    requires here { pass.old.region ≡ region.now }
    ensures { pass.new.region ≡ region.now }
{
    if region.capacity() <= 22 {
        return false;
    }
    let known = Known::of_image(image);
    let mut values = [0; 2];
    match region.read_values(pass, &known, &[17, 22], &mut values) {
        Ok(()) => {
            seen.stable = seen.stable.wrapping_add(1);
            is_one_layout(known.generation, values[0], values[1])
        }
        Err(ValueFault::Newer { found }) => found > known.generation,
        Err(ValueFault::Again { first: _, last: _ }) => {
            seen.refused = seen.refused.wrapping_add(1);
            true
        }
    }
}

// Reads all words, and then chosen ones, and says whether they were of one layout each.
fn read_both(alloc: Global, region: &Region, pass: &mut Pass, seen: &mut Seen) -> bool
    requires here { pass.old.region ≡ region.now }
    ensures { pass.new.region ≡ region.now }
{
    match region.read_image(alloc, pass) {
        Ok(image) => {
            seen.stable = seen.stable.wrapping_add(1);
            are_one_layout(image.words()) && read_known(region, pass, &image, seen)
        }
        Err(ReadFault::Again { first: _, last: _ }) => {
            seen.refused = seen.refused.wrapping_add(1);
            true
        }
        Err(ReadFault::NoMemory) => false,
    }
}

// Reads until enough readings were stable and enough were refused; `None` where one was of no one layout.
fn read(alloc: Global, region: &Region, pass: Pass, done: &AtomicBool) -> Option<Pass>
    requires here { pass.region ≡ region.now }
    ensures { IfSome result (λ p. p.region ≡ region.now) }
{
    let mut pass = pass;
    let mut seen = Seen {
        stable: 0,
        refused: 0,
    };
    for _ in 0..10_000_000 {
        if !read_both(alloc, region, &mut pass, &mut seen) {
            return None;
        }
        if seen.stable >= 1000 && seen.refused >= 100 {
            done.store(true, Ordering::SeqCst);
            return Some(pass);
        }
    }
    None
}

// What the thread of each pass does, by the pass's number: 4 changes the layout, 5 reads, and the others write.
fn work<R: Wait>(
    rt: &R,
    alloc: Global,
    region: &Region,
    pass: Pass,
    done: &AtomicBool,
) -> Option<(Pass, Vec<u64>)>
    requires here { pass.region ≡ region.now }
    ensures { IfSome result (λ r. r.0.region ≡ region.now) }
{
    match pass.number() {
        4 => Some((relay(rt, alloc, region, pass, done)?, Vec::new(alloc))),
        5 => Some((read(alloc, region, pass, done)?, Vec::new(alloc))),
        _ => write(rt, alloc, region, pass),
    }
}

// A thread for each pass.
fn run<R: Threads + Wait + Sync>(
    rt: &R,
    alloc: Global,
    region: &Region,
    passes: Vec<Pass>,
) -> Result<Vec<Option<(Pass, Vec<u64>)>>, AllocError>
    requires here { All (λ pass. pass.region ≡ region.now) passes.items }
    ensures { IfOk result (λ ended. All (λ one. IfSome one (λ r. r.0.region ≡ region.now)) ended.items) }
{
    let done = AtomicBool::new(false);
    thread::map_vec(
        rt,
        passes,
        &|pass| -> Option<(Pass, Vec<u64>)>
            requires { pass.region ≡ region.now }
            ensures { IfSome result (λ r. r.0.region ≡ region.entry.now) }
        { work(rt, alloc, region, pass, &done) },
    )
}

// Gathers all passes, and what each found; `None` where one of them stopped.
fn gather_all(
    region: &Region,
    first: Pass,
    ended: Vec<Option<(Pass, Vec<u64>)>>,
    found: &mut Vec<u64>,
) -> Option<Pass>
    requires first { first.region ≡ region.now }
    requires here { All (λ one. IfSome one (λ r. r.0.region ≡ region.now)) ended.items }
    ensures { IfSome result (λ p. p.region ≡ region.now) }
{
    let mut pass = first;
    for one in ended {
        let (other, words) = one?;
        pass.gather(region, other);
        found.extend_from_slice(&words).ok()?;
    }
    Some(pass)
}

// Whether the words are those of one layout.
fn are_one_layout(words: &[u64]) -> bool {
    match (words.get(1), words.get(17), words.get(22)) {
        (Some(generation), Some(metric), Some(value)) => {
            is_one_layout(*generation, *metric, *value)
        }
        _ => false,
    }
}

// Whether what was found in each layout, in order, is 0, 1, 2 and so on above the layout's first value, each once.
fn is_gapless(found: &[u64]) -> bool {
    let mut next = 0u64;
    for word in found {
        if *word < next || (*word > next && *word & 0xffff_ffff != 0) {
            return false;
        }
        next = word.wrapping_add(1);
    }
    true
}

// How many numbers four writers found beside a changer and a reader, with the last value, which the next one would have
// found; `None` where a number was lost, a reading was of no one layout, or too few were seen.
fn count_found<R: Threads + Wait + Sync>(rt: &R, alloc: Global) -> Option<usize> {
    let image = image_of_layout(alloc, 0)?;
    let (region, mut passes) = Region::make(alloc, &image, 32, 7).ok()?;
    let last = passes.pop()?;
    let ended = run(rt, alloc, &region, passes).ok()?;
    let mut found = Vec::new(alloc);
    let pass = gather_all(&region, last, ended, &mut found)?;
    let words = region.close(alloc, pass).ok()?;
    found.push(*words.get(22)?).ok()?;
    found.sort().ok()?;
    if are_one_layout(&words) && is_gapless(&found) {
        Some(found.len())
    } else {
        None
    }
}

#[test]
fn four_writers_a_changer_and_a_reader_lose_no_add(rt: HostRuntime) {
    let count = count_found(&rt, rt.alloc());
    assert_eq!(&rt; count, Some(400_001));
}
