//! Identifiers of metrics and of instance domains, and units, as the words that formats have for them (pmLookupDesc(3)).

ghost use Rattle.std.specs.Prelude.{◌≡◌, ◌≤◌, ◌<◌, ◌+◌, ◌*◌, ◌/◌, ◌%◌, ◌⊎◌, MatchOption};
ghost use Rattle.pcp_base.specs.Ids.{pmid_word, indom_word, domain_of, cluster_of, item_of, serial_of};

use crate::duplicate::Duplicate;
use crate::memory::NoMemory;
use std::alloc::Global;
use std::marker::Model;

/// A performance metric identifier (pmLookupDesc(3)): from the top bit 1 flag bit, 9 bits domain,
/// 12 bits cluster and 10 bits item.
#[derive(Clone, Copy, Debug, PartialEq, Eq, PartialOrd, Ord)]
pub struct Pmid(u32);

impl Model for Pmid {
    ghost use Rattle.std.specs.Prelude.{ℕ};

    ghost Value = { ℕ };

    ghost view = { λ a. a.0 };

    ghost inverse = { λ n. record { 0 = n } };
}

impl Pmid {
    /// The identifier without its flag; `None` exactly where `domain` is above 511, `cluster` above 4095
    /// or `item` above 1023.
    pub fn build(domain: u32, cluster: u32, item: u32) -> Option<Pmid>
        ensures { MatchOption result ((512 ≤ domain) ⊎ ((4096 ≤ cluster) ⊎ (1024 ≤ item)))
            (λ p. (domain < 512) × (cluster < 4096) × (item < 1024) × (p ≡ pmid_word domain cluster item)) }
    {
        if domain > 511 || cluster > 4095 || item > 1023 {
            return None;
        }
        Some(Pmid(domain * 4194304 + cluster * 1024 + item))
    }

    /// The identifier of a word as it stands in formats.
    pub fn of_word(word: u32) -> Self
        ensures { result ≡ word }
    {
        Pmid(word)
    }

    /// The word as it stands in formats.
    pub fn word(self) -> u32
        ensures { result ≡ self }
    {
        self.0
    }

    /// The domain, below 512.
    pub fn domain(self) -> u32
        ensures { result ≡ domain_of self }
    {
        self.0 / 4194304 % 512
    }

    /// The cluster, below 4096.
    pub fn cluster(self) -> u32
        ensures { result ≡ cluster_of self }
    {
        self.0 / 1024 % 4096
    }

    /// The item, below 1024.
    pub fn item(self) -> u32
        ensures { result ≡ item_of self }
    {
        self.0 % 1024
    }
}

impl Duplicate for Pmid {
    fn copy(&self, _alloc: Global) -> Result<Self, NoMemory> {
        Ok(*self)
    }
}

/// An instance domain identifier (pmGetInDom(3)): 1 flag bit, 9 bits domain and 22 bits serial.
#[derive(Clone, Copy, PartialEq, Eq, PartialOrd, Ord)]
pub struct InDom(u32);

impl Model for InDom {
    ghost use Rattle.std.specs.Prelude.{ℕ};

    ghost Value = { ℕ };

    ghost view = { λ a. a.0 };

    ghost inverse = { λ n. record { 0 = n } };
}

impl InDom {
    /// The identifier without its flag; `None` exactly where `domain` is above 511 or `serial` above 4,194,303.
    pub fn build(domain: u32, serial: u32) -> Option<InDom>
        ensures { MatchOption result ((512 ≤ domain) ⊎ (4194304 ≤ serial))
            (λ i. (domain < 512) × (serial < 4194304) × (i ≡ indom_word domain serial)) }
    {
        if domain > 511 || serial > 4194303 {
            return None;
        }
        Some(InDom(domain * 4194304 + serial))
    }

    /// The null domain `0xffffffff`, of a metric with one value.
    pub fn null() -> InDom
        ensures { result ≡ 4294967295 }
    {
        InDom(u32::MAX)
    }

    /// The identifier of a word as it stands in formats.
    pub fn of_word(word: u32) -> Self
        ensures { result ≡ word }
    {
        InDom(word)
    }

    /// The word as it stands in formats.
    pub fn word(self) -> u32
        ensures { result ≡ self }
    {
        self.0
    }

    /// The domain, below 512.
    pub fn domain(self) -> u32
        ensures { result ≡ domain_of self }
    {
        self.0 / 4194304 % 512
    }

    /// The serial, below 4,194,304.
    pub fn serial(self) -> u32
        ensures { result ≡ serial_of self }
    {
        self.0 % 4194304
    }
}

impl Duplicate for InDom {
    fn copy(&self, _alloc: Global) -> Result<Self, NoMemory> {
        Ok(*self)
    }
}

/// The units of a metric (pmLookupDesc(3)): four bits each of dimSpace, dimTime, dimCount, scaleSpace,
/// scaleTime and scaleCount, then 8 bits of padding.
#[derive(Clone, Copy, PartialEq, Eq)]
pub struct Units(u32);

impl Model for Units {
    ghost use Rattle.std.specs.Prelude.{ℕ};

    ghost Value = { ℕ };

    ghost view = { λ a. a.0 };

    ghost inverse = { λ n. record { 0 = n } };
}

impl Units {
    /// The units of a word as it stands in formats.
    pub fn of_word(word: u32) -> Self
        ensures { result ≡ word }
    {
        Units(word)
    }

    /// The word as it stands in formats.
    pub fn word(self) -> u32
        ensures { result ≡ self }
    {
        self.0
    }
}

impl Duplicate for Units {
    fn copy(&self, _alloc: Global) -> Result<Self, NoMemory> {
        Ok(*self)
    }
}
