//! The fields of an image's header.
ghost use Rattle.std.specs.Prelude.{◌≡◌};
ghost use Rattle.mmv_layout.specs.Contents.{has_magic, version_in, first_generation, second_generation, contents_in, flags_in, process_in, cluster_in};

use crate::fields::{number32, number64};

/// `MMV` and a zero byte, the low byte first.
const MAGIC: u32 = 0x0056_4d4d;

pub const CLUSTER_OFFSET: u64 = 36;

pub fn has_magic(words: &[u64]) -> bool
    ensures { result ≡ has_magic words.now }
{
    number32(words, 0) == MAGIC
}

pub fn version_in(words: &[u64]) -> u32
    ensures { result ≡ version_in words.now }
{
    number32(words, 4)
}

pub fn first_generation(words: &[u64]) -> u64
    ensures { result ≡ first_generation words.now }
{
    number64(words, 8)
}

pub fn second_generation(words: &[u64]) -> u64
    ensures { result ≡ second_generation words.now }
{
    number64(words, 16)
}

/// The number of contents entries.
pub fn contents_in(words: &[u64]) -> u32
    ensures { result ≡ contents_in words.now }
{
    number32(words, 24)
}

pub fn flags_in(words: &[u64]) -> u32
    ensures { result ≡ flags_in words.now }
{
    number32(words, 28)
}

pub fn process_in(words: &[u64]) -> u32
    ensures { result ≡ process_in words.now }
{
    number32(words, 32)
}

pub fn cluster_in(words: &[u64]) -> u32
    ensures { result ≡ cluster_in words.now }
{
    number32(words, CLUSTER_OFFSET as u128)
}
