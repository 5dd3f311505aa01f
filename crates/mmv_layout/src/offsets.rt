//! The offsets of entries that lie in the words, as they are told.
ghost use Rattle.std.specs.Prelude.{◌≡◌, ◌<◌};
ghost use Rattle.mmv_layout.specs.Entries.{indom_count, indom_at, instance_count, instance_at, metric_count, metric_at, value_count, value_at, string_count, string_at};
ghost use Rattle.mmv_layout.specs.Faults.{HasSections};

use crate::entries::{indom_at, instance_at, metric_at, string_at, value_at};

/// The offset of an instance domain that lies in the words; so of the other entries.
pub fn indom_offset(words: &[u64], i: u32) -> u64
    requires sections { HasSections words.now }
    requires below { i < indom_count words.now }
    ensures offset { result ≡ indom_at words.now i }
    ensures bound { result < 524288 }
{
    indom_at(words, i) as u64
}

pub fn instance_offset(words: &[u64], i: u32) -> u64
    requires sections { HasSections words.now }
    requires below { i < instance_count words.now }
    ensures offset { result ≡ instance_at words.now i }
    ensures bound { result < 524288 }
{
    instance_at(words, i) as u64
}

pub fn metric_offset(words: &[u64], i: u32) -> u64
    requires sections { HasSections words.now }
    requires below { i < metric_count words.now }
    ensures offset { result ≡ metric_at words.now i }
    ensures bound { result < 524288 }
{
    metric_at(words, i) as u64
}

pub fn value_offset(words: &[u64], i: u32) -> u64
    requires sections { HasSections words.now }
    requires below { i < value_count words.now }
    ensures offset { result ≡ value_at words.now i }
    ensures bound { result < 524288 }
{
    value_at(words, i) as u64
}

pub fn string_offset(words: &[u64], i: u32) -> u64
    requires sections { HasSections words.now }
    requires below { i < string_count words.now }
    ensures offset { result ≡ string_at words.now i }
    ensures bound { result < 524288 }
{
    string_at(words, i) as u64
}
