//! The names of metrics and instances: in their fields in version 1, in strings in version 2.
ghost use Rattle.std.specs.Prelude.{◌≡◌, ◌<◌, ◌^◌, IfOk};
ghost use Rattle.mmv_layout.specs.EntryFields.{name_start, name_text};
ghost use Rattle.mmv_layout.specs.Entries.{name_leads, name_ends, is_passed_over, has_text, has_name};

use crate::entries::leads_to_string;
use crate::fields::{byte_at, has_zero, number64, text_at};
use crate::header::version_in;
use crate::sizes::{has_inline_names, name_room};
use pcp_base::{Text, is_name};
use std::alloc::{AllocError, Global};

/// Where the name of the name field at an offset begins: with the field, or at the offset that the field has.
#[tactic(auto, unfolding(crate::specs::EntryFields::name_start))]
pub fn name_start(words: &[u64], field: u128) -> u128
    requires { field < 2 ^ 90 }
    ensures start { result ≡ name_start words.now field }
    ensures bound { result < 2 ^ 90 }
{
    if has_inline_names(version_in(words)) {
        field
    } else {
        number64(words, field) as u128
    }
}

/// The name of the name field at an offset.
#[tactic(auto, unfolding(crate::specs::EntryFields::name_text))]
pub fn name_text(alloc: Global, words: &[u64], field: u128) -> Result<Text, AllocError>
    requires { field < 2 ^ 90 }
    ensures { IfOk result (λ name. name ≡ name_text words.now field) }
{
    text_at(
        alloc,
        words,
        name_start(words, field),
        name_room(version_in(words)),
    )
}

/// Whether the name field at an offset has its name: in itself in version 1, and else in a string, to which it leads.
#[tactic(auto, unfolding(crate::specs::Entries::name_leads))]
pub fn name_leads(words: &[u64], field: u128) -> bool
    ensures { result ≡ name_leads words.now field }
{
    has_inline_names(version_in(words)) || leads_to_string(words, number64(words, field) as u128)
}

/// Whether the name of the name field at an offset has a zero byte behind it.
#[tactic(auto, unfolding(crate::specs::Entries::name_ends))]
fn name_ends(words: &[u64], field: u128) -> bool
    requires { field < 2 ^ 90 }
    ensures { result ≡ name_ends words.now field }
{
    has_zero(
        words,
        name_start(words, field),
        name_room(version_in(words)),
    )
}

/// Whether the name field at an offset leads to no string, or to one without a zero byte: then its name isn't looked at.
#[tactic(auto, unfolding(crate::specs::Entries::is_passed_over))]
fn is_passed_over(words: &[u64], field: u128) -> bool
    requires { field < 2 ^ 90 }
    ensures { result ≡ is_passed_over words.now field }
{
    !has_inline_names(version_in(words)) && !(name_leads(words, field) && name_ends(words, field))
}

/// Whether the name field at an offset has a name that isn't empty.
#[tactic(auto, unfolding(crate::specs::Entries::has_text))]
pub fn has_text(words: &[u64], field: u128) -> bool
    requires { field < 2 ^ 90 }
    ensures { result ≡ has_text words.now field }
{
    is_passed_over(words, field)
        || name_ends(words, field) && byte_at(words, name_start(words, field)) != 0
}

/// Whether the name field at an offset has a name that keeps the rule for names.
#[tactic(auto, unfolding(crate::specs::Entries::has_name))]
pub fn has_name(alloc: Global, words: &[u64], field: u128) -> Result<bool, AllocError>
    requires { field < 2 ^ 90 }
    ensures { IfOk result (λ named. named ≡ has_name words.now field) }
{
    if is_passed_over(words, field) {
        return Ok(true);
    }
    if !name_ends(words, field) {
        return Ok(false);
    }
    let name = name_text(alloc, words, field)?;
    Ok(is_name(name.as_slice()))
}
