//! What tells the entries of a section apart, and the first that has the key of an earlier one.
ghost use Rattle.std.specs.Prelude.{◌≡◌, ◌-◌, ◌<◌, ◌≤◌, ◌^◌, ◌++◌, length, take, drop, IfOk, OnOk};
ghost use Rattle.mmv_layout.specs.Fields.{text_at};
ghost use Rattle.mmv_layout.specs.EntryFields.{name_text};
ghost use Rattle.mmv_layout.specs.Keys.{key_at, keys_before, ends_before, is_new_key, IsFirst};

use crate::entries::{indom_at, instance_at, metric_at, value_at};
use crate::entry_fields::{
    NAME_OFFSET, domain_in_instance, instance_in_value, item_in_metric, metric_in_value,
    number_in_instance, serial_in_indom,
};
use crate::fields::byte_at;
use crate::header::version_in;
use crate::names::name_start;
use crate::sizes::name_room;
use std::alloc::{AllocError, Global};
use std::collections::BTreeSet;

/// What tells entries of a section apart: a domain's serial; an instance's number or name in its domain; a metric's
/// item or name; a value's metric and instance.
#[derive(Clone, Copy)]
pub enum Key {
    Serial,
    Number,
    InstanceName,
    Item,
    MetricName,
    Place,
}

/// The keys of entries, one behind another, and where each ends.
#[derive(Drop)]
struct Keys {
    numbers: Vec<u64>,
    ends: Vec<usize>,
}

/// Writes the bytes at an offset before the first zero byte, `n` at most.
fn push_text(keys: &mut Vec<u64>, words: &[u64], at: u128, n: u32) -> Result<(), AllocError>
    requires { at < 2 ^ 100 }
    ensures { OnOk result (keys.new.items ≡ keys.old.items ++ text_at words.now at n) }
{
    for k in 0..n {
        let byte = byte_at(words, at + k as u128);
        if byte == 0 {
            return Ok(());
        }
        keys.push(byte as u64)?;
    }
    Ok(())
}

/// Writes the name of the name field at an offset.
#[tactic(auto, unfolding(crate::specs::EntryFields::name_text))]
fn push_name(keys: &mut Vec<u64>, words: &[u64], field: u128) -> Result<(), AllocError>
    requires { field < 2 ^ 90 }
    ensures { OnOk result (keys.new.items ≡ keys.old.items ++ name_text words.now field) }
{
    let room = name_room(version_in(words));
    push_text(keys, words, name_start(words, field), room)
}

/// Writes the key of an entry.
#[tactic(auto, unfolding(crate::specs::Keys::key_at))]
fn push_key(keys: &mut Vec<u64>, words: &[u64], key: Key, i: u32) -> Result<(), AllocError>
    ensures { OnOk result (keys.new.items ≡ keys.old.items ++ key_at words.now key i) }
{
    match key {
        Key::Serial => keys.push(serial_in_indom(words, indom_at(words, i)) as u64)?,
        Key::Number => {
            let at = instance_at(words, i);
            let number = number_in_instance(words, at) as u64;
            keys.extend_from_slice(&[domain_in_instance(words, at), number])?;
        }
        Key::InstanceName => {
            let at = instance_at(words, i);
            keys.push(domain_in_instance(words, at))?;
            push_name(keys, words, at + NAME_OFFSET as u128)?;
        }
        Key::Item => keys.push(item_in_metric(words, metric_at(words, i)) as u64)?,
        Key::MetricName => push_name(keys, words, metric_at(words, i))?,
        Key::Place => {
            let at = value_at(words, i);
            keys.extend_from_slice(&[metric_in_value(words, at), instance_in_value(words, at)])?;
        }
    }
    Ok(())
}

/// The keys of so many entries.
#[tactic(auto, using(crate::proofs::KeyLists::keys_none, crate::proofs::KeyLists::ends_none))]
fn keys_of(alloc: Global, words: &[u64], key: Key, count: u32) -> Result<Keys, AllocError>
    ensures numbers { IfOk result (λ keys. keys.numbers.items ≡ keys_before words.now key count) }
    ensures ends { IfOk result (λ keys. keys.ends.items ≡ ends_before words.now key count) }
{
    let mut numbers = Vec::new(alloc);
    let mut ends = Vec::new(alloc);
    for i in 0..count {
        push_key(&mut numbers, words, key, i)?;
        ends.push(numbers.len())?;
    }
    Ok(Keys { numbers, ends })
}

/// The numbers from one position up to another.
fn between(numbers: &[u64], start: usize, end: usize) -> &[u64]
    requires order { start ≤ end }
    requires within { end ≤ length numbers.now }
    ensures { result.now ≡ take (end - start) (drop start numbers.now) }
{
    &numbers[start..end]
}

/// The index of the first of so many entries that has the key of an earlier one, or their number.
pub fn first_again(alloc: Global, words: &[u64], key: Key, count: u32) -> Result<u32, AllocError>
    ensures { IfOk result (λ n. IsFirst count (is_new_key words.now key) n) }
{
    let keys = keys_of(alloc, words, key, count)?;
    let mut seen: BTreeSet<&[u64]> = BTreeSet::new(alloc);
    let mut start = 0;
    for i in 0..count {
        let end = keys.ends[i as usize];
        let part = between(keys.numbers.as_slice(), start, end);
        let is_new = seen.insert(part)?;
        if !is_new {
            return Ok(i);
        }
        start = end;
    }
    Ok(count)
}
