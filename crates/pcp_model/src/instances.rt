//! The instances of a domain, as they stand in its record.
ghost use Rattle.std.specs.Prelude.{◌≡◌, ◌↔◌, ℕ, ◌+◌, ◌*◌, ◌<◌, ◌≤◌, [], ◌∷◌, ◌++◌, length, take, drop, slice_get, nat_lt, is_some, None, Some, option_map, option_copied, IsTrue, IfOk, IfSome, MatchOption};
ghost use Rattle.std.specs.Int.{w32, cast_signed};
ghost use Rattle.pcp_base.specs.Fields.{be_field};
ghost use Rattle.pcp_base.specs.Texts.{IsText};
ghost use Rattle.pcp_model.specs.Instances.{name_at, pair_at, pairs_from, instance_at, instances_in};

use memchr::{memchr, memrchr};
use pcp_base::{Bytes, NoMemory, Text, be32};
use std::alloc::Global;
use std::marker::Model;

/// The instances of a domain by number and name, as its record has them (LOGARCHIVE(5)): how many there are, and the bytes
/// behind that. Names may share bytes of the record's table, so all take the memory of these bytes and no more.
#[derive(Drop)]
pub struct DomainInstances {
    count: u32,
    bytes: Bytes,
}

impl Model for DomainInstances {
    ghost use Rattle.std.specs.Prelude.{ℕ, ℤ, List as Sequence};
    ghost use Rattle.pcp_model.specs.Instances.{listed_in, ListsInstances};

    ghost Value = { Sequence (ℤ × Sequence ℕ) };

    ghost view = { λ a. listed_in a.count a.bytes };

    ghost invariant = { λ a. ListsInstances a.count a.bytes };
}

/// Up to where a table has names: one begins exactly at each offset before that.
fn names_end(table: &[u8]) -> usize
    ensures { (offset : ℕ) → is_some (name_at table.now offset) ≡ nat_lt offset result }
{
    match memrchr(0, table) {
        Some(last) => last + 1,
        None => 0,
    }
}

/// Whether each of the offsets, of which there are so many, leads to a name.
fn have_names(bytes: &[u8], count: u32) -> bool
    requires { 8 * count ≤ length bytes.now }
    ensures { result ≡ is_some (pairs_from (drop (8 * count) bytes.now) count bytes.now (drop (4 * count) bytes.now)) }
{
    let offsets = &bytes[4 * count as usize..];
    let end = names_end(&bytes[8 * count as usize..]);
    for i in 0..count {
        match be32(&offsets[4 * i as usize..], 0) {
            Some(offset) => {
                if offset as usize >= end {
                    return false;
                }
            }
            None => return false,
        }
    }
    true
}

/// The name that begins at an offset of a table, up to the first zero byte.
fn name_at(table: &[u8], offset: u32) -> Option<&[u8]>
    ensures name { option_copied result ≡ name_at table.now offset }
    ensures text { IfSome result (λ name. IsText name.now) }
{
    let from = offset as usize;
    if table.len() < from {
        return None;
    }
    let rest = &table[from..];
    match memchr(0, rest) {
        Some(end) => Some(&rest[..end]),
        None => None,
    }
}

/// The number with which bytes begin.
fn number_in(bytes: &[u8]) -> Option<i32>
    ensures { result ≡ option_map (cast_signed w32) (be_field w32 0 bytes.now) }
{
    match be32(bytes, 0) {
        Some(number) => Some(number.cast_signed()),
        None => None,
    }
}

/// The instance whose number and offset these bytes begin with, and its name in the table.
#[tactic(auto, unfolding(crate::specs::Instances::pair_at))]
fn pair_at<'a>(numbers: &[u8], offsets: &[u8], table: &'a [u8]) -> Option<(i32, &'a [u8])>
    ensures pair { MatchOption result (pair_at numbers.now offsets.now table.now ≡ None) (λ found. pair_at numbers.now offsets.now table.now ≡ Some (found.0, found.1.now)) }
    ensures text { IfSome result (λ found. IsText found.1.now) }
{
    let (Some(number), Some(offset)) = (be32(numbers, 0), be32(offsets, 0)) else {
        return None;
    };
    match name_at(table, offset) {
        Some(name) => Some((number.cast_signed(), name)),
        None => None,
    }
}

fn is_same(a: &[u8], b: &[u8]) -> bool
    ensures { IsTrue result ↔ (a.now ≡ b.now) }
{
    a == b
}

/// Whether bytes begin with these and a zero byte.
fn begin_with(bytes: &[u8], name: &[u8]) -> bool
    ensures { IsTrue result ↔ (take (length name.now + 1) bytes.now ≡ name.now ++ 0 ∷ []) }
{
    let end = name.len();
    if bytes.len() <= end {
        return false;
    }
    if bytes[end] != 0 {
        return false;
    }
    is_same(&bytes[..end], name)
}

/// Whether the name that begins at an offset of a table is this one.
fn is_name(table: &[u8], offset: u32, name: &Text) -> bool
    ensures { IsTrue result ↔ (name_at table.now offset ≡ Some name.now) }
{
    let from = offset as usize;
    if table.len() < from {
        return false;
    }
    begin_with(&table[from..], name.as_slice())
}

/// Whether the instance whose number and offset these bytes begin with is this one.
#[tactic(auto, unfolding(crate::specs::Instances::pair_at))]
fn is_pair(numbers: &[u8], offsets: &[u8], table: &[u8], pair: &(i32, Text)) -> bool
    ensures { IsTrue result ↔ (pair_at numbers.now offsets.now table.now ≡ Some pair.now) }
{
    let (Some(number), Some(offset)) = (be32(numbers, 0), be32(offsets, 0)) else {
        return false;
    };
    if number.cast_signed() != pair.0 {
        return false;
    }
    is_name(table, offset, &pair.1)
}

/// Whether these are the instances.
fn are_instances(bytes: &[u8], count: u32, pairs: &[(i32, Text)]) -> bool
    requires few { count < 2147483648 }
    requires room { 8 * count ≤ length bytes.now }
    requires as_many { length pairs.now ≡ count }
    ensures { IsTrue result ↔ (instances_in count bytes.now ≡ Some pairs.now) }
{
    let offsets = &bytes[4 * count as usize..];
    let table = &bytes[8 * count as usize..];
    for i in 0..count {
        let at = 4 * i as usize;
        if !is_pair(&bytes[at..], &offsets[at..], table, &pairs[i as usize]) {
            return false;
        }
    }
    true
}

impl DomainInstances {
    /// The instances of a record, so many, by the bytes behind their number. `None` exactly where it is above 2^31 - 1, the
    /// numbers and the offsets don't lie in the bytes, or an offset leads to no name that a zero byte ends.
    pub fn read(
        alloc: Global,
        count: u32,
        bytes: &[u8],
    ) -> Result<Option<DomainInstances>, NoMemory>
        ensures { IfOk result (λ found. found ≡ instances_in count bytes.now) }
    {
        if count >= 1 << 31 || bytes.len() < 8 * count as usize {
            return Ok(None);
        }
        if !have_names(bytes, count) {
            return Ok(None);
        }
        let bytes = Bytes::from_vec(Vec::from_slice(alloc, bytes)?);
        Ok(Some(DomainInstances { count, bytes }))
    }

    /// How many there are.
    pub fn len(&self) -> usize
        ensures { result ≡ length self.now }
    {
        self.count as usize
    }

    /// The number of the instance at a position from 0, and `None` exactly past the last. The names aren't looked at.
    pub fn number(&self, at: usize) -> Option<i32>
        ensures { result ≡ option_map (λ pair. pair.0) (slice_get self.now at) }
    {
        if at >= self.count as usize {
            return None;
        }
        let bytes = self.bytes.as_slice();
        number_in(&bytes[4 * at..])
    }

    /// The instance at a position from 0, its number and its name, and `None` exactly past the last.
    pub fn get(&self, at: usize) -> Option<(i32, &[u8])>
        ensures pair { MatchOption result (slice_get self.now at ≡ None) (λ found. slice_get self.now at ≡ Some (found.0, found.1.now)) }
        ensures text { IfSome result (λ found. IsText found.1.now) }
    {
        let count = self.count as usize;
        if at >= count {
            return None;
        }
        let bytes = self.bytes.as_slice();
        let offsets = &bytes[4 * count..];
        pair_at(&bytes[4 * at..], &offsets[4 * at..], &bytes[8 * count..])
    }

    /// Whether they are exactly these, in this order. It takes time for the names that are given, not for those in the table.
    pub fn are(&self, pairs: &[(i32, Text)]) -> bool
        ensures { IsTrue result ↔ (self.now ≡ pairs.now) }
    {
        if pairs.len() != self.count as usize {
            return false;
        }
        are_instances(self.bytes.as_slice(), self.count, pairs)
    }
}
