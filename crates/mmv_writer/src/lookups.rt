//! Where the first row of each key stands, looked up in ordered maps.
ghost use Rattle.std.specs.Prelude.{◌≡◌, ◌≤◌, ◌==◌, ℕ, ℤ, length, take, unwrap_or, OnOk, IfOk};
ghost use Rattle.std.specs.List.{position_or_len};
ghost use Rattle.std.specs.Ordering.{nat_cmp, int_cmp, int_eq};
ghost use Rattle.std.specs.BTreeMap.{get};
ghost use Rattle.mmv_writer.specs.Offsets.{instances_in};
ghost use Rattle.mmv_writer.specs.Spelling.{domain_of, member_of, serial_of};
ghost use Rattle.mmv_writer.specs.Tables.{kept_or, IsMemberIndex, IsItemIndex, IsDomainIndex, IsPlace};

use crate::offsets::instances_in;
use mmv_layout::{IndomRow, MetricRow};
use pcp_base::{NoMemory, Text};
use std::alloc::Global;
use std::collections::BTreeMap;
use std::marker::Model;

/// What is kept of a domain: where its row stands, how many instances stand before its own, how many it has, and where
/// the first with each number stands.
#[derive(Drop)]
pub struct DomainPlace {
    at: usize,
    before: u64,
    count: usize,
    members: BTreeMap<i32, usize>,
}

/// Domains, each looked up by its serial; of several with one serial the first.
#[derive(Drop)]
pub struct DomainTable<'a> {
    rows: &'a [IndomRow],
    all: u64,
    places: BTreeMap<u32, DomainPlace>,
}

impl<'a> Model for DomainTable<'a> {
    ghost use Rattle.std.specs.Prelude.{◌≡◌, List, min};
    ghost use Rattle.mmv_layout.specs.declared.rows.IndomRow.{IndomRow};
    ghost use Rattle.mmv_writer.specs.Offsets.{instances_in};
    ghost use Rattle.mmv_writer.specs.Tables.{IsDomainIndex};

    ghost Value = { List IndomRow };

    ghost view = { λ a. a.rows.now };

    ghost invariant = { λ a. IsDomainIndex a.places a.rows.now × (a.all ≡ min (instances_in a.rows.now) 18446744073709551615) };
}

/// Metrics, each looked up by its item; of several with one item the first.
#[derive(Drop)]
pub struct MetricTable<'a> {
    rows: &'a [MetricRow],
    items: BTreeMap<u32, usize>,
}

impl<'a> Model for MetricTable<'a> {
    ghost use Rattle.std.specs.Prelude.{List};
    ghost use Rattle.mmv_layout.specs.declared.rows.MetricRow.{MetricRow};
    ghost use Rattle.mmv_writer.specs.Tables.{IsItemIndex};

    ghost Value = { List MetricRow };

    ghost view = { λ a. a.rows.now };

    ghost invariant = { λ a. IsItemIndex a.items a.rows.now };
}

// Keeps the position of an instance number, unless one of it is kept.
fn keep_number(members: &mut BTreeMap<i32, usize>, id: &i32, at: usize) -> Result<(), NoMemory>
    ensures { OnOk result ((q : ℤ) → get int_cmp members.new q ≡ kept_or (get int_cmp members.old q) (int_eq id.now q) at) }
{
    if members.contains_key(id) {
        return Ok(());
    }
    let number = *id;
    members.insert(number, at)?;
    Ok(())
}

// Keeps the position of an item, unless one of it is kept.
#[tactic(auto, using(crate::proofs::Keeping::key_there, crate::proofs::Keeping::key_new))]
fn keep_item(items: &mut BTreeMap<u32, usize>, item: u32, at: usize) -> Result<(), NoMemory>
    ensures { OnOk result ((q : ℕ) → get nat_cmp items.new q ≡ kept_or (get nat_cmp items.old q) (item == q) at) }
{
    if items.contains_key(&item) {
        return Ok(());
    }
    items.insert(item, at)?;
    Ok(())
}

// Keeps the place of a domain, unless one of its serial is kept.
#[tactic(auto, using(crate::proofs::Keeping::key_there, crate::proofs::Keeping::key_new))]
fn keep_domain(
    places: &mut BTreeMap<u32, DomainPlace>,
    serial: u32,
    place: DomainPlace,
) -> Result<(), NoMemory>
    ensures { OnOk result ((q : ℕ) → get nat_cmp places.new q ≡ kept_or (get nat_cmp places.old q) (serial == q) place) }
{
    if places.contains_key(&serial) {
        return Ok(());
    }
    places.insert(serial, place)?;
    Ok(())
}

// Where the first instance with each number stands.
fn members_of(alloc: Global, instances: &[(i32, Text)]) -> Result<BTreeMap<i32, usize>, NoMemory>
    ensures { IfOk result (λ members. IsMemberIndex members instances.now) }
{
    let mut members = BTreeMap::new(alloc);
    let mut at = 0;
    for instance in instances {
        keep_number(&mut members, &instance.0, at)?;
        at += 1;
    }
    Ok(members)
}

// Where the first metric with each item stands.
fn items_of(alloc: Global, rows: &[MetricRow]) -> Result<BTreeMap<u32, usize>, NoMemory>
    ensures { IfOk result (λ items. IsItemIndex items rows.now) }
{
    let mut items = BTreeMap::new(alloc);
    let mut at = 0;
    for row in rows {
        keep_item(&mut items, row.item, at)?;
        at += 1;
    }
    Ok(items)
}

// What is kept of a domain whose row stands here, behind so many instances.
fn place_of(alloc: Global, row: &IndomRow, at: usize, before: u64) -> Result<DomainPlace, NoMemory>
    ensures { IfOk result (λ place. IsPlace row.now at before place) }
{
    let instances = row.instances.as_slice();
    let members = members_of(alloc, instances)?;
    Ok(DomainPlace {
        at,
        before,
        count: instances.len(),
        members,
    })
}

// What is kept of each serial's first domain.
fn places_of(alloc: Global, rows: &[IndomRow]) -> Result<BTreeMap<u32, DomainPlace>, NoMemory>
    ensures { IfOk result (λ places. IsDomainIndex places rows.now) }
{
    let mut places = BTreeMap::new(alloc);
    let mut at = 0;
    let mut before: u64 = 0;
    for row in rows {
        let place = place_of(alloc, row, at, before)?;
        keep_domain(&mut places, row.serial, place)?;
        at += 1;
        before = before.saturating_add(row.instances.len() as u64);
    }
    Ok(places)
}

impl<'a> DomainTable<'a> {
    /// The table of these domains.
    pub fn of(alloc: Global, rows: &'a [IndomRow]) -> Result<DomainTable<'a>, NoMemory>
        ensures { IfOk result (λ table. table ≡ rows.now) }
    {
        let places = places_of(alloc, rows)?;
        Ok(DomainTable {
            rows,
            all: instances_in(rows),
            places,
        })
    }

    /// Which domain has a serial, or the number of domains.
    pub fn domain_of(&self, serial: u32) -> usize
        ensures value { result ≡ domain_of self.now serial }
        ensures bound { result ≤ length self.now }
    {
        match self.places.get(&serial) {
            None => self.rows.len(),
            Some(place) => place.at,
        }
    }

    /// How many instances stand before those of the domain with a serial.
    pub fn instances_before(&self, serial: u32) -> u64
        requires { instances_in self.now ≤ 65536 }
        ensures value { result ≡ instances_in (take (domain_of self.now serial) self.now) }
        ensures bound { result ≤ 65536 }
    {
        match self.places.get(&serial) {
            None => self.all,
            Some(place) => place.before,
        }
    }

    /// Which of the instances of the domain with a serial has a number, or how many it has.
    pub fn member_of(&self, serial: u32, id: &i32) -> u64
        requires { instances_in self.now ≤ 65536 }
        ensures value { result ≡ member_of self.now serial id.now }
        ensures bound { result ≤ 65536 }
    {
        match self.places.get(&serial) {
            None => 0,
            Some(place) => member_in(place, id) as u64,
        }
    }
}

// Which of a domain's instances has a number, or how many it has.
fn member_in(place: &DomainPlace, id: &i32) -> usize
    ensures { result ≡ unwrap_or (get int_cmp place.now.members id.now) place.now.count }
{
    place.members.get(id).copied().unwrap_or(place.count)
}

impl<'a> MetricTable<'a> {
    /// The table of these metrics.
    pub fn of(alloc: Global, rows: &'a [MetricRow]) -> Result<MetricTable<'a>, NoMemory>
        ensures { IfOk result (λ table. table ≡ rows.now) }
    {
        let items = items_of(alloc, rows)?;
        Ok(MetricTable { rows, items })
    }

    /// Which metric has an item, or the number of metrics.
    pub fn metric_of(&self, item: u32) -> usize
        ensures value { result ≡ position_or_len (λ metric. metric.item == item) self.now }
        ensures bound { result ≤ length self.now }
    {
        match self.items.get(&item) {
            None => self.rows.len(),
            Some(at) => *at,
        }
    }

    /// The serial of the domain of the metric with an item, if there is one.
    pub fn serial_of(&self, item: u32) -> Option<u32>
        ensures { result ≡ serial_of self.now item }
    {
        match self.rows.get(self.metric_of(item)) {
            None => None,
            Some(metric) => metric.serial,
        }
    }
}
