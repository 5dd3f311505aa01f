//! How many entries and words an image has, and where its sections stand.
ghost use Rattle.std.specs.Prelude.{◌≡◌, ◌≤◌, min};
ghost use Rattle.mmv_writer.specs.Offsets.{instance_length, metric_length, instances_in, counts_of, one_if_some, sections_in, section_offsets, words_in};

use crate::tables::StringTable;
use mmv_layout::{
    ENTRY_SIZE, HEADER_SIZE, INDOM_SIZE, IndomRow, Layout, STRING_SIZE, VALUE_SIZE, instance_size,
    metric_size,
};

const HEADER_WORDS: u128 = HEADER_SIZE as u128 / 8;

const ENTRY_WORDS: u128 = ENTRY_SIZE as u128 / 8;

const INDOM_WORDS: u128 = INDOM_SIZE as u128 / 8;

const VALUE_WORDS: u128 = VALUE_SIZE as u128 / 8;

const STRING_WORDS: u128 = STRING_SIZE as u128 / 8;

/// How many entries each section of an image of a version has.
#[derive(Clone, Copy)]
pub struct Counts {
    pub version: u32,
    pub indoms: u64,
    pub instances: u64,
    pub metrics: u64,
    pub values: u64,
    pub strings: u64,
}

/// Where each section of an image of a version stands, in bytes from the image's start.
#[derive(Clone, Copy)]
pub struct SectionOffsets {
    pub version: u32,
    pub indoms: u64,
    pub instances: u64,
    pub metrics: u64,
    pub values: u64,
    pub strings: u64,
}

/// How many instances domains have together, 2^64 - 1 at most.
pub fn instances_in(rows: &[IndomRow]) -> u64
    ensures { result ≡ min (instances_in rows.now) 18446744073709551615 }
{
    let mut count: u64 = 0;
    for row in rows {
        count = count.saturating_add(row.instances.len() as u64);
    }
    count
}

/// One for a section that isn't empty.
fn one_if_some(count: u64) -> u64
    ensures value { result ≡ one_if_some count }
    ensures bound { result ≤ 1 }
{
    if count == 0 { 0 } else { 1 }
}

/// How many sections aren't empty.
#[tactic(auto, unfolding(crate::specs::Offsets::sections_in))]
pub fn sections_in(counts: &Counts) -> u64
    ensures value { result ≡ sections_in counts.now }
    ensures bound { result ≤ 5 }
{
    one_if_some(counts.indoms)
        + one_if_some(counts.instances)
        + one_if_some(counts.metrics)
        + one_if_some(counts.values)
        + one_if_some(counts.strings)
}

/// How many entries the sections of a draft with these strings have; there are 2^64 - 1 instances at most.
pub fn counts_of(draft: &Layout, strings: &StringTable) -> Counts
    ensures { result ≡ record (counts_of draft.now strings.now) { instances = min (instances_in draft.now.indoms) 18446744073709551615 } }
{
    Counts {
        version: draft.version,
        indoms: draft.indoms.len() as u64,
        instances: instances_in(draft.indoms.as_slice()),
        metrics: draft.metrics.len() as u64,
        values: draft.values.len() as u64,
        strings: strings.len() as u64,
    }
}

/// How many words an instance has.
fn instance_words(version: u32) -> u128
    ensures value { result ≡ instance_length version }
    ensures bound { result ≤ 10 }
{
    instance_size(version) as u128 / 8
}

/// How many words a metric has.
fn metric_words(version: u32) -> u128
    ensures value { result ≡ metric_length version }
    ensures bound { result ≤ 13 }
{
    metric_size(version) as u128 / 8
}

/// How many words an image with these counts has, 2^64 - 1 at most.
pub fn words_in(counts: &Counts) -> u64
    ensures { result ≡ min (words_in counts.now) 18446744073709551615 }
{
    let words = HEADER_WORDS
        + ENTRY_WORDS * sections_in(counts) as u128
        + INDOM_WORDS * counts.indoms as u128
        + instance_words(counts.version) * counts.instances as u128
        + metric_words(counts.version) * counts.metrics as u128
        + VALUE_WORDS * counts.values as u128
        + STRING_WORDS * counts.strings as u128;
    if words < u64::MAX as u128 {
        words as u64
    } else {
        u64::MAX
    }
}

/// Where the sections stand in an image with these counts.
pub fn section_offsets(counts: &Counts) -> SectionOffsets
    requires { words_in counts.now ≤ 65536 }
    ensures { result ≡ section_offsets counts.now }
{
    let indoms = HEADER_SIZE + ENTRY_SIZE * sections_in(counts);
    let instances = indoms + INDOM_SIZE * counts.indoms;
    let metrics = instances + instance_size(counts.version) * counts.instances;
    let values = metrics + metric_size(counts.version) * counts.metrics;
    let strings = values + VALUE_SIZE * counts.values;
    SectionOffsets {
        version: counts.version,
        indoms,
        instances,
        metrics,
        values,
        strings,
    }
}
