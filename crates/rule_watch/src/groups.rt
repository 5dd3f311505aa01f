//! The names of the metrics that rules speak of, each with a number, and of one row the values of each. A row is grouped once,
//! with a look-up for each value, and what asks for a metric's values goes by its number.
ghost use Rattle.std.specs.Prelude.{◌≡◌, ◌<◌, ◌≤◌, ◌||◌, ◌∷◌, [], ◌++◌, ℕ, if◌then◌else◌, nat_eq, map, length, bytes_eq, is_some, position, slice_get, IfOk, OnOk, List as Sequence};
ghost use Rattle.std.specs.List.{list_any};
ghost use Rattle.std.specs.Option.{option_copied};
ghost use Rattle.std.specs.Global.{Vec as Items};
ghost use Rattle.rule_watch.specs.Groups.{AreAllNumbers, AreGroups, Group, KeepsNumbers, group_at, groups_in, names_in};
ghost use Rattle.rule_watch.specs.Rows.{Row};
ghost use Rattle.rule_watch.specs.Watched.{AreValues};
ghost use Rattle.rule_watch.specs.Windows.{IsValue};

use indexmap::IndexSet;
use pcp_base::{NoMemory, Text};
use std::alloc::Global;
use std::marker::Model;

/// Names, each with a number from 0, and a group of values for each, with its instance.
#[derive(Drop)]
pub struct Groups {
    names: IndexSet<Vec<u8>>,
    groups: Vec<Vec<(i32, i128)>>,
}

impl Model for Groups {
    ghost use Rattle.std.specs.Prelude.{◌≤◌, length};
    ghost use Rattle.rule_watch.specs.Groups.{Grouped, groups_in, names_in};

    ghost Value = { Grouped };

    ghost view = { λ a. record { names = names_in a.names.keys; groups = groups_in a.groups.items } };

    ghost invariant = { λ a. length a.names.keys ≤ length a.groups.items };
}

// The number of a name.
fn number_of(names: &IndexSet<Vec<u8>>, name: &[u8]) -> Option<usize>
    ensures number { result ≡ position (bytes_eq name.now) (names_in names.now.keys) }
    ensures found { is_some result ≡ list_any (bytes_eq name.now) (names_in names.now.keys) }
{
    names.get_index_of(name)
}

// Takes the values out of all groups, whose memory stays.
fn clear_groups(groups: &mut [Vec<(i32, i128)>])
    ensures { (k : ℕ) → group_at (groups_in groups.new) k ≡ [] }
{
    for group in groups.iter_mut() {
        group.clear();
    }
}

// Puts a value behind the others of a group.
fn put_value(
    groups: &mut [Vec<(i32, i128)>],
    number: usize,
    value: (i32, i128),
) -> Result<(), NoMemory>
    requires { number < length groups.old }
    ensures { OnOk result ((k : ℕ) → group_at (groups_in groups.new) k ≡ (if nat_eq number k then group_at (groups_in groups.old) k ++ value ∷ [] else group_at (groups_in groups.old) k)) }
{
    groups[number].push(value)?;
    Ok(())
}

// Puts an entry of a row into the group of its name, if it has one.
fn put_entry(
    names: &IndexSet<Vec<u8>>,
    groups: &mut [Vec<(i32, i128)>],
    entry: &(Text, i32, i128),
) -> Result<(), NoMemory>
    requires room { length names.now.keys ≤ length groups.old }
    requires value { IsValue entry.now.2 }
    requires numbers { AreAllNumbers (groups_in groups.old) }
    ensures groups { OnOk result ((before : Row) → AreGroups (names_in names.now.keys) before (groups_in groups.old) → AreGroups (names_in names.now.keys) (before ++ entry.now ∷ []) (groups_in groups.new)) }
    ensures numbers { OnOk result (AreAllNumbers (groups_in groups.new)) }
{
    let Some(number) = number_of(names, entry.0.as_slice()) else {
        return Ok(());
    };
    put_value(groups, number, (entry.1, entry.2))?;
    Ok(())
}

// Puts the values of a row into empty groups.
fn put_row(
    names: &IndexSet<Vec<u8>>,
    groups: &mut [Vec<(i32, i128)>],
    row: &[(Text, i32, i128)],
) -> Result<(), NoMemory>
    requires room { length names.now.keys ≤ length groups.old }
    requires values { AreValues row.now }
    requires empty { (k : ℕ) → group_at (groups_in groups.old) k ≡ [] }
    ensures groups { OnOk result (AreGroups (names_in names.now.keys) row.now (groups_in groups.new)) }
    ensures numbers { OnOk result (AreAllNumbers (groups_in groups.new)) }
{
    for entry in row {
        put_entry(names, groups, entry)?;
    }
    Ok(())
}

// Groups the values of a row, in place of those before.
fn group_row(
    names: &IndexSet<Vec<u8>>,
    groups: &mut [Vec<(i32, i128)>],
    row: &[(Text, i32, i128)],
) -> Result<(), NoMemory>
    requires room { length names.now.keys ≤ length groups.old }
    requires values { AreValues row.now }
    ensures groups { OnOk result (AreGroups (names_in names.now.keys) row.now (groups_in groups.new)) }
    ensures numbers { OnOk result (AreAllNumbers (groups_in groups.new)) }
{
    clear_groups(groups);
    put_row(names, groups, row)
}

fn group_with(groups: &[Vec<(i32, i128)>], number: usize) -> Option<&Vec<(i32, i128)>>
    ensures { option_copied result ≡ slice_get groups.now number }
{
    groups.get(number)
}

impl Groups {
    /// No names.
    pub fn none(alloc: Global) -> Groups
        ensures { result.names ≡ [] }
    {
        Groups {
            names: IndexSet::new(alloc),
            groups: Vec::new(alloc),
        }
    }

    /// Whether a name is among them.
    pub fn has(&self, name: &[u8]) -> bool
        ensures { result ≡ list_any (bytes_eq name.now) self.now.names }
    {
        self.names.contains(name)
    }

    /// The number of a name, which gets one where it has none yet. The others keep theirs.
    pub fn add(&mut self, alloc: Global, name: &[u8]) -> Result<usize, NoMemory>
        ensures number { IfOk result (λ number. position (bytes_eq name.now) self.new.names ≡ Some number) }
        ensures keeps { OnOk result (KeepsNumbers self.old.names self.new.names) }
        ensures named { OnOk result ((other : Sequence ℕ) → list_any (bytes_eq other) self.new.names ≡ (list_any (bytes_eq other) self.old.names || bytes_eq other name.now)) }
    {
        if let Some(number) = number_of(&self.names, name) {
            return Ok(number);
        }
        let number = self.names.len();
        let copy = Vec::from_slice(alloc, name)?;
        self.groups.push(Vec::new(alloc))?;
        self.names.insert(copy)?;
        Ok(number)
    }

    /// Groups the values of a row, in place of those of the row before. The names stay.
    pub fn take(&mut self, row: &[(Text, i32, i128)]) -> Result<(), NoMemory>
        requires { AreValues row.now }
        ensures names { self.new.names ≡ self.old.names }
        ensures groups { OnOk result (AreGroups self.old.names row.now self.new.groups) }
        ensures numbers { OnOk result (AreAllNumbers self.new.groups) }
    {
        group_row(&self.names, &mut self.groups, row)?;
        Ok(())
    }

    /// The values of the metric with this number, in the row that was grouped last.
    pub fn values(&self, number: usize) -> &[(i32, i128)]
        ensures { result.now ≡ group_at self.now.groups number }
    {
        match group_with(&self.groups, number) {
            Some(group) => group.as_slice(),
            None => &[],
        }
    }
}
