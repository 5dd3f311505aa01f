//! What of the sections of an image is at fault.
ghost use Rattle.std.specs.Prelude.{◌≡◌};
ghost use Rattle.mmv_layout.specs.Contents.{section_bytes, end_in, section_lies, are_apart, is_first_of_type, entry_lies, has_good_section, is_aligned};
ghost use Rattle.mmv_layout.specs.Faults.{bad_type, section_fault, offset_fault};

use crate::contents::{
    INDOMS, INSTANCES, METRICS, STRINGS, VALUES, bytes_in, count_in, entry_at, offset_in, type_in,
};
use crate::header::{contents_in, version_in};
use crate::sizes::{
    ENTRY_SIZE, HEADER_SIZE, INDOM_SIZE, STRING_SIZE, VALUE_SIZE, instance_size, metric_size,
};

/// How many bytes `count` entries of a type take in a version.
#[tactic(auto, unfolding(crate::specs::Contents::section_bytes))]
fn section_bytes(version: u32, kind: u32, count: u32) -> u64
    ensures { result ≡ section_bytes version kind count }
{
    let count = count as u64;
    match kind {
        INDOMS => INDOM_SIZE * count,
        INSTANCES => instance_size(version) * count,
        METRICS => metric_size(version) * count,
        VALUES => VALUE_SIZE * count,
        STRINGS => STRING_SIZE * count,
        _ => 0,
    }
}

/// The offset behind the section of a contents entry.
#[tactic(auto, unfolding(crate::specs::Contents::end_in))]
fn end_in(words: &[u64], i: u32) -> u128
    ensures { result ≡ end_in words.now i }
{
    let bytes = section_bytes(version_in(words), type_in(words, i), count_in(words, i));
    offset_in(words, i) as u128 + bytes as u128
}

/// Whether an entry's section, if it has one, lies in the words behind the contents.
#[tactic(auto, unfolding(crate::specs::Contents::section_lies))]
fn section_lies(words: &[u64], i: u32) -> bool
    ensures { result ≡ section_lies words.now i }
{
    count_in(words, i) == 0
        || entry_at(contents_in(words)) <= offset_in(words, i) as u128
            && end_in(words, i) <= bytes_in(words)
}

/// Whether two entries have different types, and their sections no byte in common.
#[tactic(auto, unfolding(crate::specs::Contents::are_apart))]
fn are_apart(words: &[u64], j: u32, i: u32) -> bool
    ensures { result ≡ are_apart words.now j i }
{
    type_in(words, j) != type_in(words, i)
        && (count_in(words, j) == 0
            || count_in(words, i) == 0
            || end_in(words, j) <= offset_in(words, i) as u128
            || end_in(words, i) <= offset_in(words, j) as u128)
}

/// Whether no earlier entry has the type of this one, or a section that overlaps its.
#[tactic(auto, using(crate::proofs::Below::all_none, crate::proofs::Below::all_more), unfolding(crate::specs::Contents::is_first_of_type))]
fn is_first_of_type(words: &[u64], i: u32) -> bool
    ensures { result ≡ is_first_of_type words.now i }
{
    for j in 0..i {
        if !are_apart(words, j, i) {
            return false;
        }
    }
    true
}

/// Whether a contents entry lies in the words.
fn entry_lies(words: &[u64], i: u32) -> bool
    ensures { result ≡ entry_lies words.now i }
{
    entry_at(i) + ENTRY_SIZE as u128 <= bytes_in(words)
}

/// Whether a contents entry and its section are good.
#[tactic(auto, unfolding(crate::specs::Contents::has_good_section))]
fn has_good_section(words: &[u64], i: u32) -> bool
    ensures { result ≡ has_good_section words.now i }
{
    entry_lies(words, i)
        && (INDOMS <= type_in(words, i) && type_in(words, i) <= STRINGS)
        && section_lies(words, i)
        && is_first_of_type(words, i)
}

/// Whether an entry's section, if it has one, begins at a multiple of 8.
#[tactic(auto, unfolding(crate::specs::Contents::is_aligned))]
fn is_aligned(words: &[u64], i: u32) -> bool
    ensures { result ≡ is_aligned words.now i }
{
    count_in(words, i) == 0 || offset_in(words, i) % 8 == 0
}

/// The type of a contents entry, and 0 where it doesn't lie in the words.
#[tactic(auto, unfolding(crate::specs::Faults::bad_type))]
fn bad_type(words: &[u64], i: u32) -> u32
    ensures { result ≡ bad_type words.now i }
{
    if entry_lies(words, i) {
        type_in(words, i)
    } else {
        0
    }
}

/// The type of the first contents entry that isn't good.
#[tactic(auto, using(crate::proofs::Firsts::first_none, crate::proofs::Firsts::first_goes), unfolding(crate::specs::Faults::section_fault, crate::specs::Faults::unless))]
pub fn section_fault(words: &[u64]) -> Option<u32>
    ensures { result ≡ section_fault words.now }
{
    for i in 0..contents_in(words) {
        if !has_good_section(words, i) {
            return Some(bad_type(words, i));
        }
    }
    None
}

/// The offset of the first section offset that is no multiple of 8.
#[tactic(auto, using(crate::proofs::Firsts::first_none, crate::proofs::Firsts::first_goes), unfolding(crate::specs::Faults::offset_fault, crate::specs::Faults::unless))]
pub fn offset_fault(words: &[u64]) -> Option<u64>
    ensures { result ≡ offset_fault words.now }
{
    for i in 0..contents_in(words) {
        if !is_aligned(words, i) {
            return Some(HEADER_SIZE + ENTRY_SIZE * i as u64 + 8);
        }
    }
    None
}
