//! Rows and their keys, added together.
ghost use Rattle.std.specs.Prelude.{◌≡◌, ◌==◌, [], ◌∷◌, ◌++◌, false, true, is_some, Some, OnOk, OnErr};
ghost use Rattle.std.specs.List.{list_any, position};
ghost use Rattle.mmv_writer.specs.Rules.{has_domain, has_same_instance, is_same_metric};
ghost use Rattle.mmv_writer.specs.Draft.{add_instance};
ghost use Rattle.mmv_writer.specs.Keys.{domain_in, numbers_have, AddsMember, KeepsAllMembers, HasDomains, HasItems, HasMetricNames, HasValues};

use crate::keys::{DomainKeys, add_member, place_of};
use mmv_layout::{IndomRow, MetricRow, ValueRow};
use pcp_base::{List, NoMemory, Text};
use std::alloc::Global;
use std::collections::{BTreeMap, BTreeSet};

/// Adds a domain without instances; a refusal leaves rows and keys.
pub fn add_domain(
    alloc: Global,
    rows: &mut List<IndomRow>,
    domains: &mut BTreeMap<u32, DomainKeys>,
    row: IndomRow,
) -> Result<(), NoMemory>
    requires keys { HasDomains domains.now rows.now }
    requires empty { row.instances ≡ [] }
    requires new { has_domain rows.now row.serial ≡ false }
    ensures keys { HasDomains domains.new rows.new }
    ensures ok { OnOk result (rows.new ≡ rows.old ++ row ∷ []) }
    ensures err { OnErr result (rows.new ≡ rows.old) }
{
    let serial = row.serial;
    let domain = DomainKeys::new(alloc, rows.len());
    rows.push(row)?;
    if let Err(_) = domains.insert(serial, domain) {
        rows.pop();
        return Err(NoMemory);
    }
    Ok(())
}

/// Adds an instance behind others of the domain with a serial; a refusal leaves them and the keys.
#[tactic(auto, using(crate::proofs::RowLookups::all_held))]
fn add_to(
    instances: &mut List<(i32, Text)>,
    domains: &mut BTreeMap<u32, DomainKeys>,
    serial: u32,
    instance: (i32, Text),
    name: Vec<u8>,
) -> Result<(), NoMemory>
    requires there { is_some (domain_in domains.now serial) ≡ true }
    requires absent { numbers_have (domain_in domains.now serial) instance.0 ≡ false }
    ensures ok { OnOk result (instances.new ≡ instances.old ++ instance ∷ []) }
    ensures keys { OnOk result (AddsMember serial instance.0 name.items domains.old domains.new) }
    ensures err { OnErr result (instances.new ≡ instances.old) }
    ensures held { OnErr result (KeepsAllMembers domains.old domains.new) }
{
    let id = instance.0;
    instances.push(instance)?;
    if let Err(_) = add_member(domains, serial, &id, name) {
        instances.pop();
        return Err(NoMemory);
    }
    Ok(())
}

/// Adds an instance to the row at a position.
fn add_at(
    rows: &mut [IndomRow],
    at: usize,
    domains: &mut BTreeMap<u32, DomainKeys>,
    serial: u32,
    instance: (i32, Text),
    name: Vec<u8>,
) -> Result<(), NoMemory>
    requires keys { HasDomains domains.now rows.now }
    requires place { position (λ row. row.serial == serial) rows.now ≡ Some at }
    requires new { has_same_instance rows.now serial instance ≡ false }
    requires name { name.items ≡ instance.1 }
    ensures keys { HasDomains domains.new rows.new }
    ensures ok { OnOk result (rows.new ≡ add_instance rows.old serial instance) }
    ensures err { OnErr result (rows.new ≡ rows.old) }
{
    add_to(&mut rows[at].instances, domains, serial, instance, name)?;
    Ok(())
}

/// Adds an instance at the end of the domain of this serial; without one there is nothing to do. A refusal leaves rows
/// and keys.
pub fn add_instance(
    alloc: Global,
    rows: &mut List<IndomRow>,
    domains: &mut BTreeMap<u32, DomainKeys>,
    serial: u32,
    instance: (i32, Text),
) -> Result<(), NoMemory>
    requires keys { HasDomains domains.now rows.now }
    requires new { has_same_instance rows.now serial instance ≡ false }
    ensures keys { HasDomains domains.new rows.new }
    ensures ok { OnOk result (rows.new ≡ add_instance rows.old serial instance) }
    ensures err { OnErr result (rows.new ≡ rows.old) }
{
    let Some(at) = place_of(domains, serial) else {
        return Ok(());
    };
    let name = Vec::from_slice(alloc, instance.1.as_slice())?;
    let mut items = std::mem::replace(rows, List::empty(alloc)).into_vec();
    let added = add_at(items.as_mut_slice(), at, domains, serial, instance, name);
    *rows = List::from_vec(items);
    added
}

/// Adds a metric; a refusal leaves rows and keys.
pub fn add_metric(
    rows: &mut List<MetricRow>,
    items: &mut BTreeMap<u32, usize>,
    names: &mut BTreeSet<Vec<u8>>,
    row: MetricRow,
    name: Vec<u8>,
) -> Result<(), NoMemory>
    requires keys { HasItems items.now rows.now }
    requires names { HasMetricNames names.now rows.now }
    requires new { list_any (λ other. is_same_metric other row) rows.now ≡ false }
    requires name { name.items ≡ row.name }
    ensures keys { HasItems items.new rows.new }
    ensures names { HasMetricNames names.new rows.new }
    ensures ok { OnOk result (rows.new ≡ rows.old ++ row ∷ []) }
    ensures err { OnErr result (rows.new ≡ rows.old) }
{
    let item = row.item;
    let at = rows.len();
    rows.push(row)?;
    if let Err(_) = items.insert(item, at) {
        rows.pop();
        return Err(NoMemory);
    }
    if let Err(_) = names.insert(name) {
        items.remove(&item);
        rows.pop();
        return Err(NoMemory);
    }
    Ok(())
}

/// Adds a value; a refusal leaves rows and keys.
pub fn add_value(
    rows: &mut List<ValueRow>,
    values: &mut BTreeSet<(u32, Option<i32>)>,
    row: ValueRow,
) -> Result<(), NoMemory>
    requires keys { HasValues values.now rows.now }
    ensures keys { HasValues values.new rows.new }
    ensures ok { OnOk result (rows.new ≡ rows.old ++ row ∷ []) }
    ensures err { OnErr result (rows.new ≡ rows.old) }
{
    let key = (row.item, row.instance);
    rows.push(row)?;
    if let Err(_) = values.insert(key) {
        rows.pop();
        return Err(NoMemory);
    }
    Ok(())
}
