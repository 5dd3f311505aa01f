//! The windows of a condition, one for each instance of its metric. A window for each instance of a row is made before the
//! first value is taken, so that whatever can be refused is refused while nothing has changed.
ghost use Rattle.std.specs.Prelude.{◌≡◌, ℤ, ◌∷◌, [], ◌++◌, IsSome, OnOk, if◌then◌else◌};
ghost use Rattle.std.specs.Ordering.{int_cmp, int_eq};
ghost use Rattle.std.specs.BTreeMap.{get};
ghost use Rattle.std.specs.List.{list_any, list_all};
ghost use Rattle.rule_watch.specs.Groups.{AreNumbers, numbers_of};
ghost use Rattle.rule_watch.specs.Holding.{compares, passes};
ghost use Rattle.rule_watch.specs.Rules.{IsCondition};
ghost use Rattle.rule_watch.specs.Watched.{AreOf, HasWindows, group_holds, kept};
ghost use Rattle.rule_watch.specs.Windows.{IsValue, last};

use crate::rule::{Comparison, Condition, Quantifier};
use crate::window::Window;
use pcp_base::NoMemory;
use std::alloc::Global;
use std::collections::BTreeMap;

/// The windows of a metric's instances.
pub type Windows = BTreeMap<i32, Window>;

// Makes a window for an instance, where there is none yet.
fn make_window(
    alloc: Global,
    windows: &mut Windows,
    condition: &Condition,
    instance: i32,
) -> Result<(), NoMemory>
    requires condition { IsCondition condition.now }
    requires serve { AreOf condition.now windows.old }
    ensures serve { AreOf condition.now windows.new }
    ensures same { (q : ℤ) → kept windows.new q ≡ kept windows.old q }
    ensures window { OnOk result (IsSome (get int_cmp windows.new instance)) }
    ensures keeps { (q : ℤ) → IsSome (get int_cmp windows.old q) → IsSome (get int_cmp windows.new q) }
{
    if windows.contains_key(&instance) {
        return Ok(());
    }
    let window = Window::new(alloc, condition.aggregate, condition.size)?;
    windows.insert(instance, window)?;
    Ok(())
}

/// Makes a window for each instance of a metric's values, where there is none yet. No value changes, also where memory is
/// refused.
pub fn make_windows(
    alloc: Global,
    windows: &mut Windows,
    condition: &Condition,
    values: &[(i32, i128)],
) -> Result<(), NoMemory>
    requires condition { IsCondition condition.now }
    requires serve { AreOf condition.now windows.old }
    ensures serve { AreOf condition.now windows.new }
    ensures same { (q : ℤ) → kept windows.new q ≡ kept windows.old q }
    ensures windows { OnOk result (HasWindows windows.new values.now) }
{
    for value in values {
        make_window(alloc, windows, condition, value.0)?;
    }
    Ok(())
}

// Puts the next value into an instance's window.
fn push_value(windows: &mut Windows, condition: &Condition, instance: i32, number: i128)
    requires serve { AreOf condition.now windows.old }
    requires window { IsSome (get int_cmp windows.old instance) }
    requires value { IsValue number }
    ensures serve { AreOf condition.now windows.new }
    ensures values { (q : ℤ) → kept windows.new q ≡ (if int_eq instance q then last condition.now.size (kept windows.old q ++ number ∷ []) else kept windows.old q) }
    ensures keeps { (q : ℤ) → IsSome (get int_cmp windows.old q) → IsSome (get int_cmp windows.new q) }
{
    let Some(window) = windows.get_mut(&instance) else {
        return;
    };
    window.push(number);
}

/// Puts a metric's values into the windows of their instances. It takes no memory.
pub fn push_values(windows: &mut Windows, condition: &Condition, values: &[(i32, i128)])
    requires serve { AreOf condition.now windows.old }
    requires windows { HasWindows windows.old values.now }
    requires values { AreNumbers values.now }
    ensures serve { AreOf condition.now windows.new }
    ensures values { (q : ℤ) → kept windows.new q ≡ last condition.now.size (kept windows.old q ++ numbers_of q values.now) }
{
    for value in values {
        push_value(windows, condition, value.0, value.1);
    }
}

// How a number compares with that of a condition.
fn compares(comparison: Comparison, told: &i128, number: &i128) -> bool
    ensures { result ≡ compares comparison told.now number.now }
{
    match comparison {
        Comparison::Below => *told < *number,
        Comparison::AtMost => *told <= *number,
        Comparison::Above => *told > *number,
        Comparison::AtLeast => *told >= *number,
        Comparison::Equal => *told == *number,
        Comparison::Unequal => *told != *number,
    }
}

// Whether an instance's window is full and compares as the condition says.
fn passes(windows: &Windows, condition: &Condition, instance: i32) -> bool
    requires condition { IsCondition condition.now }
    requires serve { AreOf condition.now windows.now }
    ensures { result ≡ passes condition.now (kept windows.now instance) }
{
    let Some(window) = windows.get(&instance) else {
        return false;
    };
    window.is_full() && compares(condition.comparison, &window.told(), &condition.number)
}

fn any_passes(windows: &Windows, condition: &Condition, values: &[(i32, i128)]) -> bool
    requires condition { IsCondition condition.now }
    requires serve { AreOf condition.now windows.now }
    ensures { result ≡ list_any (λ v. passes condition.now (kept windows.now v.0)) values.now }
{
    for value in values {
        if passes(windows, condition, value.0) {
            return true;
        }
    }
    false
}

fn all_pass(windows: &Windows, condition: &Condition, values: &[(i32, i128)]) -> bool
    requires condition { IsCondition condition.now }
    requires serve { AreOf condition.now windows.now }
    ensures { result ≡ list_all (λ v. passes condition.now (kept windows.now v.0)) values.now }
{
    for value in values {
        if !passes(windows, condition, value.0) {
            return false;
        }
    }
    true
}

/// Whether the condition holds at a row whose values of the metric were put into the windows.
pub fn holds(windows: &Windows, condition: &Condition, values: &[(i32, i128)]) -> bool
    requires condition { IsCondition condition.now }
    requires serve { AreOf condition.now windows.now }
    ensures { result ≡ group_holds (kept windows.now) values.now condition.now }
{
    match condition.quantifier {
        Quantifier::Any => any_passes(windows, condition, values),
        Quantifier::All => !values.is_empty() && all_pass(windows, condition, values),
    }
}
