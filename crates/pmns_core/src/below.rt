//! What lies below a name: the pairs that continue it, and their next components (pmTraversePMNS(3),
//! pmGetChildren(3)).

ghost use Rattle.std.specs.Prelude.{◌≡◌, ◌<◌, ◌++◌, length, position, IfOk, IfSome, OnOk};
ghost use Rattle.std.specs.BTreeMap.{insert_entry};
ghost use Rattle.pcp_base.specs.Texts.{IsText};
ghost use Rattle.pmns_core.specs.Below.{behind, below, children, children_of, component, pairs_with_front, is_leaf, is_point, pair_of_name};
ghost use Rattle.pmns_core.specs.Order.{byte_order};
ghost use Rattle.pmns_core.specs.Pairs.{IsInOrder};
ghost use Rattle.pmns_core.specs.Tables.{pairs_of, parts_of, AreTextParts};

use crate::table::{Table, front_of, has, is_continued, pmid_at};
use pcp_base::{Duplicate, List, NoMemory, Pmid, Text};
use std::alloc::Global;
use std::collections::BTreeMap;

/// The pairs whose names are the name or continue it, in byte order.
pub fn all_below(alloc: Global, table: &Table, name: &Text) -> Result<List<(Text, Pmid)>, NoMemory>
    requires { IsInOrder (pairs_of table.now) }
    ensures { IfOk result (λ found. found ≡ below (pairs_of table.now) name.now) }
{
    let mut found = own_pair(alloc, table, name)?;
    let front = front_of(alloc, name.as_slice())?;
    push_all(alloc, &mut found, table, &front)?;
    Ok(found)
}

// The pair of the name itself, if it is there.
fn own_pair(alloc: Global, table: &Table, name: &Text) -> Result<List<(Text, Pmid)>, NoMemory>
    ensures { IfOk result (λ found. found ≡ pair_of_name (pairs_of table.now) name.now) }
{
    let mut found = List::empty(alloc);
    match pmid_at(table, name.as_slice()) {
        Some(pmid) => {
            found.push((name.copy(alloc)?, pmid))?;
            Ok(found)
        }
        None => Ok(found),
    }
}

// Adds the pairs whose names begin with a front.
fn push_all(
    alloc: Global,
    found: &mut List<(Text, Pmid)>,
    table: &Table,
    front: &Vec<u8>,
) -> Result<(), NoMemory>
    requires { IsInOrder (pairs_of table.now) }
    ensures { OnOk result (found.new ≡ found.old ++ pairs_with_front (pairs_of table.now) front.now.items) }
{
    let mut rest = table.range(front..);
    while let Some((key, pmid)) = rest.next() {
        if !key.as_slice().starts_with(front.as_slice()) {
            return Ok(());
        }
        found.push((Text::clean_copy(alloc, key.as_slice())?, *pmid))?;
    }
    Ok(())
}

/// The next components of the names that continue a name, true for a leaf, in byte order; `None` where no
/// name is the name or continues it.
pub fn children_below(
    alloc: Global,
    table: &Table,
    name: &Text,
) -> Result<Option<List<(Text, bool)>>, NoMemory>
    requires { IsInOrder (pairs_of table.now) }
    ensures { IfOk result (λ found. found ≡ children_of (pairs_of table.now) name.now) }
{
    let front = front_of(alloc, name.as_slice())?;
    if !has(table, name.as_slice()) && !is_continued(alloc, table, name.as_slice())? {
        return Ok(None);
    }
    let parts = parts_below(alloc, table, &front)?;
    let found = texts_of(alloc, &parts)?;
    Ok(Some(found))
}

// Next components, and whether the name ends with them.
type Parts = BTreeMap<Vec<u8>, bool>;

// The components after a front: behind each one the next name is sought that hasn't it.
fn parts_below(alloc: Global, table: &Table, front: &Vec<u8>) -> Result<Parts, NoMemory>
    requires { IsInOrder (pairs_of table.now) }
    ensures parts { IfOk result (λ parts. parts_of parts ≡ children (pairs_of table.now) front.now.items) }
    ensures texts { IfOk result (λ parts. AreTextParts (parts_of parts)) }
{
    let mut parts = BTreeMap::new(alloc);
    let mut at = Vec::from_slice(alloc, front.as_slice())?;
    while let Some((key, _pmid)) = table.range(&at..).next() {
        let Some(rest) = key.as_slice().strip_prefix(front.as_slice()) else {
            return Ok(parts);
        };
        add_part(alloc, &mut parts, rest)?;
        at = behind(alloc, front.as_slice(), rest)?;
    }
    Ok(parts)
}

// The least bytes behind all names with this component after a front.
fn behind(alloc: Global, front: &[u8], rest: &[u8]) -> Result<Vec<u8>, NoMemory>
    ensures { IfOk result (λ at. at.items ≡ behind front.now rest.now) }
{
    let (part, is_leaf) = part_of(rest);
    let mut at = Vec::from_slice(alloc, front)?;
    at.extend_from_slice(part)?;
    at.push(if is_leaf { 0 } else { b'/' })?;
    Ok(at)
}

// Adds the next component of a name, given the rest of that name behind the front.
fn add_part(alloc: Global, parts: &mut Parts, rest: &[u8]) -> Result<(), NoMemory>
    requires text { IsText rest.now }
    requires texts { AreTextParts (parts_of parts.old) }
    ensures part { OnOk result (parts_of parts.new ≡ insert_entry byte_order (parts_of parts.old) (component rest.now) (is_leaf rest.now)) }
    ensures texts { OnOk result (AreTextParts (parts_of parts.new)) }
{
    let (part, is_leaf) = part_of(rest);
    let key = Vec::from_slice(alloc, part)?;
    parts.insert(key, is_leaf)?;
    Ok(())
}

// The next component of a rest of a name, and whether the rest ends with it.
fn part_of(rest: &[u8]) -> (&[u8], bool)
    ensures part { result.0.now ≡ component rest.now }
    ensures leaf { result.1 ≡ is_leaf rest.now }
{
    match point_in(rest) {
        Some(at) => (&rest[..at], false),
        None => (rest, true),
    }
}

// The offset of the first `.`.
fn point_in(rest: &[u8]) -> Option<usize>
    ensures value { result ≡ position is_point rest.now }
    ensures within { IfSome result (λ at. at < length rest.now) }
{
    rest.iter().position(|byte| *byte == b'.')
}

// The components as texts.
fn texts_of(alloc: Global, parts: &Parts) -> Result<List<(Text, bool)>, NoMemory>
    requires { AreTextParts (parts_of parts.now) }
    ensures { IfOk result (λ found. found ≡ parts_of parts.now) }
{
    let mut found = List::empty(alloc);
    let mut rest = parts.range(..);
    while let Some((key, is_leaf)) = rest.next() {
        found.push((Text::clean_copy(alloc, key.as_slice())?, *is_leaf))?;
    }
    Ok(found)
}
