//! The instances that hold of a domain, found by their numbers.
ghost use Rattle.std.specs.Prelude.{◌≡◌, ℤ, [], ◌++◌, None, true, IfOk, OnOk, MatchOption, slice_get, option_map, unwrap_or};
ghost use Rattle.std.specs.Ordering.{int_eq};
ghost use Rattle.std.specs.Option.{option_copied};
ghost use Rattle.indexmap.specs.IndexMap.{get};
ghost use Rattle.pm_print.specs.Rising.{rises};
ghost use Rattle.pm_print.specs.Sets.{name_in, position_in, instance_text, instance_part};

use crate::values::{put_signed, put_spelled};
use indexmap::IndexMap;
use pcp_base::NoMemory;
use pcp_model::DomainInstances;
use std::alloc::Global;
use std::marker::Model;

// Where the first instance with each number stands.
type Positions = IndexMap<i32, usize>;

/// The instances of a domain, and where the first with each number stands, unless their numbers rise.
#[derive(Drop)]
pub struct Instances<'a> {
    listed: Option<&'a DomainInstances>,
    positions: Option<Positions>,
}

impl<'a> Model for Instances<'a> {
    ghost use Rattle.std.specs.Prelude.{◌≡◌, ℤ, [], true, MatchOption, unwrap_or};
    ghost use Rattle.std.specs.Option.{option_copied};
    ghost use Rattle.std.specs.Ordering.{int_eq};
    ghost use Rattle.indexmap.specs.IndexMap.{get};
    ghost use Rattle.pm_print.specs.Holding.{Pairs};
    ghost use Rattle.pm_print.specs.Rising.{rises};
    ghost use Rattle.pm_print.specs.Sets.{position_in};

    ghost Value = { Pairs };

    ghost view = { λ a. unwrap_or (option_copied a.listed) [] };

    ghost invariant = { λ a. MatchOption a.positions (rises (unwrap_or (option_copied a.listed) []) ≡ true)
        (λ positions. (n : ℤ) → get int_eq positions n ≡ position_in 0 (unwrap_or (option_copied a.listed) []) n) };
}

// Whether the numbers rise.
fn rises(listed: &DomainInstances) -> bool
    ensures { result ≡ rises listed.now }
{
    let Some(first) = listed.number(0) else {
        return true;
    };
    let mut before = first;
    for at in 1..listed.len() {
        let Some(number) = listed.number(at) else {
            return true;
        };
        if number <= before {
            return false;
        }
        before = number;
    }
    true
}

// Where the first instance with each number stands.
fn positions_of(alloc: Global, listed: &DomainInstances) -> Result<Positions, NoMemory>
    ensures { IfOk result (λ positions. (n : ℤ) → get int_eq positions n ≡ position_in 0 listed.now n) }
{
    let mut positions = IndexMap::new(alloc);
    let mut at = listed.len();
    while at > 0 {
        at -= 1;
        if let Some(number) = listed.number(at) {
            positions.insert(number, at)?;
        }
    }
    Ok(positions)
}

// Where the instance with a number stands, by halves.
fn halved_place(listed: &DomainInstances, number: i32) -> Option<usize>
    requires { rises listed.now ≡ true }
    ensures { result ≡ position_in 0 listed.now number }
{
    let mut low = 0;
    let mut high = listed.len();
    while low < high {
        let middle = low + (high - low) / 2;
        let Some(found) = listed.number(middle) else {
            return None;
        };
        if found == number {
            return Some(middle);
        }
        if found < number {
            low = middle + 1;
        } else {
            high = middle;
        }
    }
    None
}

// Where the instance with a number stands: at a position that is tried first, or else it is looked for.
fn tried_place(listed: &DomainInstances, number: i32, tried: usize) -> Option<usize>
    requires { rises listed.now ≡ true }
    ensures { result ≡ position_in 0 listed.now number }
{
    match listed.number(tried) {
        Some(found) => {
            if found == number {
                return Some(tried);
            }
            halved_place(listed, number)
        }
        None => halved_place(listed, number),
    }
}

// Where the first instance with a number stands.
fn place_of(
    listed: &DomainInstances,
    positions: &Option<Positions>,
    number: i32,
    tried: usize,
) -> Option<usize>
    requires { MatchOption positions.now (rises listed.now ≡ true) (λ positions. (n : ℤ) → get int_eq positions n ≡ position_in 0 listed.now n) }
    ensures { result ≡ position_in 0 listed.now number }
{
    match positions {
        Some(positions) => positions.get(&number).copied(),
        None => tried_place(listed, number, tried),
    }
}

// The position and the name of the instance at a position.
fn name_at(listed: &DomainInstances, at: usize) -> Option<(usize, &[u8])>
    ensures { option_map (λ found. found.1.now) result ≡ option_map (λ pair. pair.1) (slice_get listed.now at) }
{
    match listed.get(at) {
        Some((_, name)) => Some((at, name)),
        None => None,
    }
}

impl<'a> Instances<'a> {
    /// No instances.
    pub fn none() -> Instances<'a>
        ensures { result ≡ [] }
    {
        Instances {
            listed: None,
            positions: None,
        }
    }

    /// These instances; of two with one number the first counts.
    pub fn of(alloc: Global, listed: &'a DomainInstances) -> Result<Instances<'a>, NoMemory>
        ensures { IfOk result (λ instances. instances ≡ listed.now) }
    {
        if rises(listed) {
            return Ok(Instances {
                listed: Some(listed),
                positions: None,
            });
        }
        let positions = positions_of(alloc, listed)?;
        Ok(Instances {
            listed: Some(listed),
            positions: Some(positions),
        })
    }

    // The name of the first instance with a number, and its position; one is tried first.
    fn name(&self, number: i32, tried: usize) -> Option<(usize, &[u8])>
        ensures { option_map (λ found. found.1.now) result ≡ name_in self.now number }
    {
        let Some(listed) = self.listed else {
            return None;
        };
        match place_of(listed, &self.positions, number, tried) {
            Some(at) => name_at(listed, at),
            None => None,
        }
    }

    /// `[INSTANCE]`: the name, or else `#` and the number; nothing for the null instance. A position is tried first, and
    /// the one to be tried next is answered: instances mostly come in the order of their domain.
    #[tactic(auto, unfolding(crate::specs::Sets::instance_part))]
    pub fn put_part(&self, out: &mut Vec<u8>, number: i32, tried: usize) -> Result<usize, NoMemory>
        ensures { OnOk result (out.new.items ≡ out.old.items ++ instance_part self.now number) }
    {
        if number == -1 {
            return Ok(tried);
        }
        out.push(b'[')?;
        let next = put_name(out, number, self.name(number, tried))?;
        out.push(b']')?;
        Ok(next)
    }
}

// A name as it is written, or else `#NUMBER`; and the position behind that of the name.
fn put_name(
    out: &mut Vec<u8>,
    number: i32,
    found: Option<(usize, &[u8])>,
) -> Result<usize, NoMemory>
    ensures { OnOk result (out.new.items ≡ out.old.items ++ instance_text (option_map (λ found. found.1.now) found.entry) number) }
{
    match found {
        Some((at, name)) => {
            put_spelled(out, name)?;
            Ok(at.saturating_add(1))
        }
        None => {
            out.push(b'#')?;
            put_signed(out, number as i64)?;
            Ok(0)
        }
    }
}
