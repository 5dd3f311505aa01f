//! A profile as a fetch asks it: the part of a domain is found once for a metric, and whether it lists an instance is
//! looked up in a set.

ghost use Rattle.std.specs.Prelude.{◌≡◌, ℕ, ◌==◌, if◌then◌else◌, Some, None, IfOk, OnOk};
ghost use Rattle.std.specs.Option.{option_copied, option_or};
ghost use Rattle.std.specs.Ordering.{nat_cmp};
ghost use Rattle.std.specs.BTreeMap.{get};
ghost use Rattle.profile_filter.specs.Kept.{keeps};
ghost use Rattle.profile_filter.specs.Lists.{Decides, HasListed, HasParts};

use crate::profile::{DomainPart, Profile};
use pcp_base::{Duplicate, InDom, NoMemory};
use std::alloc::Global;
use std::collections::{BTreeMap, BTreeSet};
use std::marker::Model;

// The part of a domain, with its listed instances as a set.
#[derive(Drop)]
struct ListedPart<'a> {
    part: &'a DomainPart,
    listed: BTreeSet<i32>,
}

impl<'a> Model for ListedPart<'a> {
    ghost use Rattle.profile_filter.specs.declared.profile.DomainPart.{DomainPart as Part};
    ghost use Rattle.profile_filter.specs.Lists.{HasListed};

    ghost Value = { Part };

    ghost view = { λ a. a.part.now };

    ghost invariant = { λ a. HasListed a.listed a.part.now.instances };
}

// The listed instances as a set.
fn set_of(alloc: Global, instances: &[i32]) -> Result<BTreeSet<i32>, NoMemory>
    ensures { IfOk result (λ set. HasListed set instances.now) }
{
    let mut set: BTreeSet<i32> = BTreeSet::new(alloc);
    for instance in instances {
        set.insert(*instance)?;
    }
    Ok(set)
}

fn listed_part<'a>(alloc: Global, part: &'a DomainPart) -> Result<ListedPart<'a>, NoMemory>
    ensures { IfOk result (λ made. made ≡ part.now) }
{
    let listed = set_of(alloc, part.instances.as_slice())?;
    Ok(ListedPart { part, listed })
}

// Keeps a part, unless one of its domain was kept before.
fn keep_part<'a>(
    alloc: Global,
    table: &mut BTreeMap<InDom, ListedPart<'a>>,
    part: &'a DomainPart,
) -> Result<(), NoMemory>
    ensures { OnOk result ((indom : ℕ) → get nat_cmp table.new indom ≡ option_or (get nat_cmp table.old indom) (if part.now.indom == indom then Some part.now else None)) }
{
    if table.contains_key(&part.indom) {
        return Ok(());
    }
    let made = listed_part(alloc, part)?;
    table.insert(part.indom, made)?;
    Ok(())
}

// The first part of each domain.
fn table_of<'a>(
    alloc: Global,
    parts: &'a [DomainPart],
) -> Result<BTreeMap<InDom, ListedPart<'a>>, NoMemory>
    ensures { IfOk result (λ table. HasParts table parts.now) }
{
    let mut table: BTreeMap<InDom, ListedPart<'a>> = BTreeMap::new(alloc);
    for part in parts {
        keep_part(alloc, &mut table, part)?;
    }
    Ok(table)
}

/// A profile by domain, as it stands during a fetch. Contracts see the profile.
#[derive(Drop)]
pub struct ByDomain<'a> {
    profile: &'a Profile,
    parts: BTreeMap<InDom, ListedPart<'a>>,
}

impl<'a> Model for ByDomain<'a> {
    ghost use Rattle.profile_filter.specs.Kept.{Settings};
    ghost use Rattle.profile_filter.specs.Lists.{HasParts};

    ghost Value = { Settings };

    ghost view = { λ a. a.profile.now };

    ghost invariant = { λ a. HasParts a.parts a.profile.now.parts };
}

/// What a profile says of the instances of one metric. Contracts see the profile, and the metric's domain.
#[derive(Drop)]
pub struct Choice<'a> {
    profile: &'a Profile,
    indom: Option<InDom>,
    base: bool,
    listed: Option<&'a BTreeSet<i32>>,
}

impl<'a> Model for Choice<'a> {
    ghost use Rattle.std.specs.Option.{option_copied};
    ghost use Rattle.profile_filter.specs.Kept.{Question};
    ghost use Rattle.profile_filter.specs.Lists.{Decides};

    ghost Value = { Question };

    ghost view = { λ a. record { settings = a.profile.now; indom = a.indom } };

    ghost invariant = { λ a. Decides a.base (option_copied a.listed) a.profile.now a.indom };
}

impl<'a> ByDomain<'a> {
    /// The profile, each of its parts found by its domain.
    pub fn of(alloc: Global, profile: &'a Profile) -> Result<ByDomain<'a>, NoMemory>
        ensures { IfOk result (λ made. made ≡ profile.now) }
    {
        let parts = table_of(alloc, profile.parts())?;
        Ok(ByDomain { profile, parts })
    }

    /// What the profile says of the instances of a metric, by the metric's domain, if it has one.
    pub fn choice(&self, indom: Option<InDom>) -> Choice<'_>
        ensures { result ≡ record { settings = self.now; indom = indom } }
    {
        let Some(domain) = indom else {
            return choice_of(self.profile, indom, true, None);
        };
        match self.parts.get(&domain) {
            Some(part) => {
                let listed = part.listed();
                choice_of(self.profile, indom, part.include(), Some(listed))
            }
            None => choice_of(self.profile, indom, self.profile.global(), None),
        }
    }
}

impl<'a> ListedPart<'a> {
    fn include(&self) -> bool
        ensures { result ≡ self.now.include }
    {
        self.part.include
    }

    fn listed(&self) -> &BTreeSet<i32>
        ensures { HasListed result.now self.now.instances }
    {
        &self.listed
    }
}

// The instances in a set have the other answer.
fn choice_of<'b>(
    profile: &'b Profile,
    indom: Option<InDom>,
    base: bool,
    listed: Option<&'b BTreeSet<i32>>,
) -> Choice<'b>
    requires { Decides base (option_copied listed) profile.now indom }
    ensures { result ≡ record { settings = profile.now; indom = indom } }
{
    Choice {
        profile,
        indom,
        base,
        listed,
    }
}

impl<'a> Choice<'a> {
    /// Whether the metric's value for this instance is kept (pmFetch(3)); a metric without a domain ignores the profile.
    pub fn keeps(&self, instance: i32) -> bool
        ensures { result ≡ keeps self.now.settings self.now.indom instance }
    {
        match self.listed {
            Some(listed) => {
                if listed.contains(&instance) {
                    !self.base
                } else {
                    self.base
                }
            }
            None => self.base,
        }
    }
}
