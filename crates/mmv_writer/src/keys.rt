//! What tells rows apart, kept in ordered maps and sets.
ghost use Rattle.std.specs.Prelude.{◌≡◌, ◌||◌, ℤ, false, true, is_some, None, Some, OnOk, OnErr};
ghost use Rattle.std.specs.Ordering.{nat_cmp};
ghost use Rattle.std.specs.BTreeMap.{get};
ghost use Rattle.std.specs.BTreeSet.{contains};
ghost use Rattle.mmv_writer.specs.Keys.{is_named, domain_in, place_of, numbers_have, names_have, fits_domain, value_order, Adds, KeepsMembers, AddsMember, KeepsAllMembers, IsEmptyDomain, AreNoKeys};

use mmv_layout::MetricRow;
use pcp_base::{NoMemory, Text};
use std::alloc::Global;
use std::collections::{BTreeMap, BTreeSet};

/// What is kept of a domain: where its row stands, and the numbers and the names of its instances.
#[derive(Drop)]
pub struct DomainKeys {
    pub at: usize,
    pub numbers: BTreeSet<i32>,
    pub names: BTreeSet<Vec<u8>>,
}

/// What is kept of all rows: domains by serial, the places of metrics by item, their names, and the item and instance
/// of values.
#[derive(Drop)]
pub struct RowKeys {
    pub domains: BTreeMap<u32, DomainKeys>,
    pub items: BTreeMap<u32, usize>,
    pub names: BTreeSet<Vec<u8>>,
    pub values: BTreeSet<(u32, Option<i32>)>,
}

impl DomainKeys {
    /// The keys of a domain without instances.
    pub fn new(alloc: Global, at: usize) -> DomainKeys
        ensures { IsEmptyDomain at result }
    {
        DomainKeys {
            at,
            numbers: BTreeSet::new(alloc),
            names: BTreeSet::new(alloc),
        }
    }

    fn has_number(&self, id: &i32) -> bool
        ensures { result ≡ numbers_have (Some self.now) id.now }
    {
        self.numbers.contains(id)
    }

    fn has_name(&self, name: &Text) -> bool
        ensures { result ≡ names_have (Some self.now) name.now }
    {
        self.names.contains(name.as_slice())
    }

    /// Takes the number and the name of an instance; a refusal takes neither.
    fn add(&mut self, id: &i32, name: Vec<u8>) -> Result<(), NoMemory>
        requires { numbers_have (Some self.now) id.now ≡ false }
        ensures ok { OnOk result (Adds id.now name.items self.old self.new) }
        ensures err { OnErr result (KeepsMembers self.old self.new) }
    {
        let number = *id;
        self.numbers.insert(number)?;
        if let Err(_) = self.names.insert(name) {
            self.numbers.remove(id);
            return Err(NoMemory);
        }
        Ok(())
    }
}

impl RowKeys {
    /// The keys of no row.
    pub fn empty(alloc: Global) -> RowKeys
        ensures { AreNoKeys result }
    {
        RowKeys {
            domains: BTreeMap::new(alloc),
            items: BTreeMap::new(alloc),
            names: BTreeSet::new(alloc),
            values: BTreeSet::new(alloc),
        }
    }
}

/// Whether a metric has the item or the name of this one.
pub fn has_metric(items: &BTreeMap<u32, usize>, names: &BTreeSet<Vec<u8>>, row: &MetricRow) -> bool
    ensures { result ≡ (is_some (get nat_cmp items.now row.now.item) || is_named names.now row.now.name) }
{
    items.contains_key(&row.item) || names.contains(row.name.as_slice())
}

/// Where the row of the domain with a serial stands.
pub fn place_of(domains: &BTreeMap<u32, DomainKeys>, serial: u32) -> Option<usize>
    ensures { result ≡ place_of (domain_in domains.now serial) }
{
    match domains.get(&serial) {
        None => None,
        Some(domain) => Some(domain.at),
    }
}

/// Whether there is a domain with a serial.
pub fn has_domain(domains: &BTreeMap<u32, DomainKeys>, serial: u32) -> bool
    ensures { result ≡ is_some (domain_in domains.now serial) }
{
    domains.contains_key(&serial)
}

/// Whether an instance of the domain with a serial has a number.
fn has_number(domains: &BTreeMap<u32, DomainKeys>, serial: u32, id: &i32) -> bool
    ensures { result ≡ numbers_have (domain_in domains.now serial) id.now }
{
    match domains.get(&serial) {
        None => false,
        Some(domain) => domain.has_number(id),
    }
}

/// Whether an instance of the domain with a serial has a number or a name.
pub fn has_either(domains: &BTreeMap<u32, DomainKeys>, serial: u32, id: &i32, name: &Text) -> bool
    ensures { result ≡ (numbers_have (domain_in domains.now serial) id.now || names_have (domain_in domains.now serial) name.now) }
{
    match domains.get(&serial) {
        None => false,
        Some(domain) => domain.has_number(id) || domain.has_name(name),
    }
}

/// Whether a value of a metric with this domain has this instance.
pub fn fits_domain(
    domains: &BTreeMap<u32, DomainKeys>,
    serial: Option<u32>,
    instance: &Option<i32>,
) -> bool
    ensures { result ≡ fits_domain domains.now serial instance.now }
{
    match (serial, instance) {
        (None, None) => true,
        (Some(serial), Some(id)) => has_number(domains, serial, id),
        _ => false,
    }
}

/// Takes the number and the name of an instance of the domain with a serial; a refusal takes neither.
pub fn add_member(
    domains: &mut BTreeMap<u32, DomainKeys>,
    serial: u32,
    id: &i32,
    name: Vec<u8>,
) -> Result<(), NoMemory>
    requires there { is_some (domain_in domains.now serial) ≡ true }
    requires absent { numbers_have (domain_in domains.now serial) id.now ≡ false }
    ensures ok { OnOk result (AddsMember serial id.now name.items domains.old domains.new) }
    ensures err { OnErr result (KeepsAllMembers domains.old domains.new) }
{
    match domains.get_mut(&serial) {
        None => Ok(()),
        Some(domain) => {
            domain.add(id, name)?;
            Ok(())
        }
    }
}
