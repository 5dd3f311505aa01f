//! The contents of an image: which sections it has, and where they lie.
ghost use Rattle.std.specs.Prelude.{◌≡◌, ◌<◌};
ghost use Rattle.mmv_layout.specs.Contents.{bytes_in, entry_at, type_in, count_in, offset_in, section_of};

use crate::fields::{number32, number64};
use crate::header::contents_in;
use crate::sizes::{ENTRY_SIZE, HEADER_SIZE};

/// The type of the section of instance domains; so of the other sections.
pub const INDOMS: u32 = 1;

pub const INSTANCES: u32 = 2;

pub const METRICS: u32 = 3;

pub const VALUES: u32 = 4;

pub const STRINGS: u32 = 5;

/// Where a section's entries begin, and how many there are.
#[derive(Clone, Copy)]
pub struct Section {
    pub offset: u64,
    pub count: u32,
}

/// The number of bytes of the image.
pub fn bytes_in(words: &[u64]) -> u128
    ensures { result ≡ bytes_in words.now }
{
    8 * words.len() as u128
}

/// The offset of a contents entry's section.
pub fn entry_at(i: u32) -> u128
    ensures { result ≡ entry_at i }
{
    HEADER_SIZE as u128 + ENTRY_SIZE as u128 * i as u128
}

pub fn type_in(words: &[u64], i: u32) -> u32
    ensures { result ≡ type_in words.now i }
{
    number32(words, entry_at(i))
}

pub fn count_in(words: &[u64], i: u32) -> u32
    ensures { result ≡ count_in words.now i }
{
    number32(words, entry_at(i) + 4)
}

pub fn offset_in(words: &[u64], i: u32) -> u64
    ensures { result ≡ offset_in words.now i }
{
    number64(words, entry_at(i) + 8)
}

/// The section of a type, without entries where the contents have none. Contents entries behind the words' end have no
/// type, so that it looks at no more entries than the words have, whatever number the header says.
#[tactic(auto, using(crate::proofs::SectionFacts::find_none, crate::proofs::SectionFacts::find_more, crate::proofs::SectionFacts::find_past), unfolding(crate::specs::Contents::section_of))]
pub fn section_of(words: &[u64], kind: u32) -> Section
    requires { 0 < kind }
    ensures { result ≡ section_of words.now kind }
{
    let mut found = Section {
        offset: 0,
        count: 0,
    };
    for i in 0..contents_in(words) {
        if bytes_in(words) <= entry_at(i) {
            return found;
        }
        if type_in(words, i) == kind {
            found = Section {
                offset: offset_in(words, i),
                count: count_in(words, i),
            };
        }
    }
    found
}
