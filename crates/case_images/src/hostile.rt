//! Images that are changed at random: each is an image still, or has a named fault that lies in it.
use byteorder::{ByteOrder, LittleEndian};
use mmv_layout::{Image, ImageFault};
use pcp_base::NoMemory;
use std::alloc::Global;

/// How many changed images there were, and how many of them are neither.
#[derive(Clone, Copy)]
struct Tally {
    images: u64,
    unanswered: u64,
}

// Whether a fault is a named one, at an offset in so many bytes.
fn is_named(fault: ImageFault, bytes: usize) -> bool {
    match fault {
        ImageFault::NoMemory => false,
        ImageFault::Offset { at }
        | ImageFault::Name { at }
        | ImageFault::Kind { at }
        | ImageFault::Reference { at }
        | ImageFault::Duplicate { at }
        | ImageFault::Serial { at } => at < bytes as u64,
        _ => true,
    }
}

fn is_answered(alloc: Global, bytes: &[u8]) -> bool {
    match Image::from_bytes(alloc, bytes) {
        Ok(_) => true,
        Err(fault) => is_named(fault, bytes.len()),
    }
}

impl Tally {
    fn none() -> Tally {
        Tally {
            images: 0,
            unanswered: 0,
        }
    }

    fn add(&mut self, answered: bool) {
        self.images = self.images.saturating_add(1);
        if !answered {
            self.unanswered = self.unanswered.saturating_add(1);
        }
    }

    fn tell(self, alloc: Global) -> Result<String, NoMemory> {
        let Tally { images, unanswered } = self;
        Ok(format!(in alloc; "{images} changed, {unanswered} unanswered\n")?)
    }
}

fn turn(bytes: &mut [u8], at: usize, mask: u8) {
    if let Some(byte) = bytes.get_mut(at) {
        *byte ^= mask;
    }
}

// Each bit turned by itself.
fn turn_bits(alloc: Global, input: &[u8]) -> Result<Tally, NoMemory> {
    let mut bytes = input.to_vec(alloc)?;
    let mut tally = Tally::none();
    for at in 0..input.len() {
        for mask in [1, 2, 4, 8, 16, 32, 64, 128] {
            turn(&mut bytes, at, mask);
            tally.add(is_answered(alloc, &bytes));
            turn(&mut bytes, at, mask);
        }
    }
    Ok(tally)
}

// Each beginning, which is no image.
fn cut_short(alloc: Global, input: &[u8]) -> Tally {
    let mut tally = Tally::none();
    for end in 0..input.len() {
        let front = input.get(..end).unwrap_or(input);
        tally.add(match Image::from_bytes(alloc, front) {
            Ok(_) => false,
            Err(fault) => is_named(fault, input.len()),
        });
    }
    tally
}

// The next number of a fixed sequence (a linear congruential generator).
fn next(seed: u64) -> u64 {
    seed.wrapping_mul(6_364_136_223_846_793_005)
        .wrapping_add(1_442_695_040_888_963_407)
}

// Puts a word at an index.
fn put_word(bytes: &mut [u8], index: usize, word: u64) {
    let at = index.saturating_mul(8);
    if let Some(old) = bytes.get_mut(at..at.saturating_add(8)) {
        LittleEndian::write_u64(old, word);
    }
}

// Small numbers of the sequence in three words of the input.
fn change_words(alloc: Global, input: &[u8], seed: u64) -> Result<Vec<u8>, NoMemory> {
    let mut bytes = input.to_vec(alloc)?;
    let words = (input.len() / 8).max(1);
    let mut random = seed;
    for _ in 0..3 {
        random = next(random);
        let at = (random >> 33) as usize % words;
        random = next(random);
        put_word(&mut bytes, at, (random >> 40) % 2048);
    }
    Ok(bytes)
}

// Up to 63 words of the sequence, of any size, behind the input's first three.
fn add_words(alloc: Global, input: &[u8], seed: u64) -> Result<Vec<u8>, NoMemory> {
    let mut bytes = input.get(..24).unwrap_or(input).to_vec(alloc)?;
    let mut random = seed;
    for _ in 0..seed % 64 {
        random = next(random);
        let word = random >> (random % 64) as u32;
        let mut eight = [0; 8];
        LittleEndian::write_u64(&mut eight, word);
        bytes.extend_from_slice(&eight)?;
    }
    Ok(bytes)
}

fn change_all(alloc: Global, input: &[u8], count: u64) -> Result<Tally, NoMemory> {
    let mut tally = Tally::none();
    for seed in 0..count {
        let bytes = change_words(alloc, input, seed)?;
        tally.add(is_answered(alloc, &bytes));
    }
    Ok(tally)
}

fn add_all(alloc: Global, input: &[u8], count: u64) -> Result<Tally, NoMemory> {
    let mut tally = Tally::none();
    for seed in 0..count {
        let bytes = add_words(alloc, input, seed)?;
        tally.add(is_answered(alloc, &bytes));
    }
    Ok(tally)
}

/// `each bit`, `each front`, `changed words COUNT` and `added words COUNT`.
pub fn tell(alloc: Global, input: &[u8], rest: &str) -> Result<Option<String>, NoMemory> {
    let (form, count) = rest.rsplit_once(' ').unwrap_or((rest, ""));
    let tally = match (form, count) {
        ("each", "bit") => turn_bits(alloc, input)?,
        ("each", "front") => cut_short(alloc, input),
        ("changed words", _) => change_all(alloc, input, count.parse::<u64>().unwrap_or(0))?,
        ("added words", _) => add_all(alloc, input, count.parse::<u64>().unwrap_or(0))?,
        _ => return Ok(None),
    };
    Ok(Some(tally.tell(alloc)?))
}
