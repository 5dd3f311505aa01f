//! Profiles, and which instances they keep (pmAddProfile(3), pmFetch(3)).

ghost use Rattle.std.specs.Prelude.{◌≡◌, ◌==◌, ◌≤◌, ◌<◌, [], true, min, find, MatchResult};
ghost use Rattle.profile_filter.specs.Kept.{Settings, is_kept, is_kept_by};
ghost use Rattle.std.specs.Option.{option_copied};
ghost use Rattle.profile_filter.specs.Size.{size_of};

use pcp_base::{InDom, List};
use std::alloc::Global;
use std::error::Error;
use std::fmt;
use std::marker::Model;

/// How many parts and listed instances a profile may hold together.
const LIMIT: u64 = 1024;

/// What a profile says of one instance domain (pmFetch(3)): with `include` it keeps all instances but
/// the listed ones, and without it none but the listed ones.
#[derive(Drop)]
pub struct DomainPart {
    pub indom: InDom,
    pub include: bool,
    pub instances: List<i32>,
}

/// Parts and listed instances are `count` together (2^64 - 1 where they are more), above 1,024.
#[derive(Clone, Copy, Debug)]
pub struct TooMany {
    pub count: u64,
}

impl fmt::Display for TooMany {
    fn fmt<W: fmt::Write>(&self, f: &mut fmt::Formatter<W>) -> fmt::Result {
        f.write_str("too many parts and listed instances")
    }
}

impl Error for TooMany {}

/// Which instances a fetch of this context keeps (pmFetch(3)).
#[derive(Drop)]
pub struct Profile {
    global: bool,
    parts: List<DomainPart>,
}

impl Model for Profile {
    ghost use Rattle.profile_filter.specs.Kept.{Settings};

    ghost Value = { Settings };

    ghost view = { λ a. record { global = a.global; parts = a.parts } };
}

impl Profile {
    /// The profile of a new context: every instance is kept.
    pub fn all(alloc: Global) -> Profile
        ensures { result ≡ record { global = true; parts = [] } }
    {
        Profile {
            global: true,
            parts: List::empty(alloc),
        }
    }

    /// Replaces the profile; `TooMany` exactly where parts and listed instances together are above 1,024,
    /// and then nothing is changed.
    pub fn set(&mut self, global: bool, parts: List<DomainPart>) -> Result<(), TooMany>
        ensures { MatchResult result
            (λ _. (size_of parts ≤ 1024) × (self.new ≡ record { global = global; parts = parts }))
            (λ e. (1024 < size_of parts) × (e.count ≡ min (size_of parts) 18446744073709551615) × (self.new ≡ self.old)) }
    {
        let count = count_of(parts.as_slice());
        if count > LIMIT {
            return Err(TooMany { count });
        }
        self.global = global;
        self.parts = parts;
        Ok(())
    }

    /// Whether instances of a domain without a part are kept.
    pub(crate) fn global(&self) -> bool
        ensures { result ≡ self.now.global }
    {
        self.global
    }

    /// What the profile says of domains.
    pub(crate) fn parts(&self) -> &[DomainPart]
        ensures { result.now ≡ self.now.parts }
    {
        self.parts.as_slice()
    }

    /// Whether a fetch keeps this instance of this domain.
    pub fn includes(&self, indom: InDom, instance: i32) -> bool
        ensures { result ≡ is_kept self.now indom instance }
    {
        match part_of(self.parts.as_slice(), indom) {
            Some(part) => part.keeps(instance),
            None => self.global,
        }
    }
}

impl DomainPart {
    // Whether the part keeps this instance of its domain.
    fn keeps(&self, instance: i32) -> bool
        ensures { result ≡ is_kept_by self.now instance }
    {
        if self.instances.as_slice().contains(&instance) {
            !self.include
        } else {
            self.include
        }
    }
}

// The first part of a domain.
fn part_of(parts: &[DomainPart], indom: InDom) -> Option<&DomainPart>
    ensures { option_copied result ≡ find (λ part. part.indom == indom) parts.now }
{
    parts.iter().find(|part| part.indom == indom)
}

// How many parts and listed instances there are, or 2^64 - 1 where there are more.
fn count_of(parts: &[DomainPart]) -> u64
    ensures { result ≡ min (size_of parts.now) 18446744073709551615 }
{
    let mut count = parts.len() as u64;
    for part in parts {
        count = count.saturating_add(part.instances.len() as u64);
    }
    count
}
