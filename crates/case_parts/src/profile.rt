//! A profile of instances.
use case_book::Words;
use pcp_base::{InDom, List, NoMemory};
use profile_filter::{DomainPart, Profile, TooMany};
use std::alloc::Global;

/// A profile, and the parts that the next `set` gives it.
#[derive(Drop)]
pub struct Filter {
    profile: Profile,
    parts: List<DomainPart>,
}

fn is_included(word: &str) -> Option<bool> {
    match word {
        "include" => Some(true),
        "exclude" => Some(false),
        _ => None,
    }
}

// A part: `DOMAIN include FIRST COUNT` or `DOMAIN exclude FIRST COUNT`.
fn part_of(alloc: Global, mut words: Words<'_>) -> Result<Option<DomainPart>, NoMemory> {
    let (Some(indom), Some(include)) = (words.hex(), is_included(words.next())) else {
        return Ok(None);
    };
    let (Some(first), Some(count)) = (words.signed(), words.signed()) else {
        return Ok(None);
    };
    let mut instances = List::empty(alloc);
    for offset in 0..count {
        instances.push(first.saturating_add(offset))?;
    }
    Ok(Some(DomainPart {
        indom: InDom::of_word(indom),
        include,
        instances,
    }))
}

impl Filter {
    pub fn new(alloc: Global) -> Filter {
        Filter {
            profile: Profile::all(alloc),
            parts: List::empty(alloc),
        }
    }

    fn set(&mut self, alloc: Global, global: bool) -> Result<String, NoMemory> {
        let parts = std::mem::replace(&mut self.parts, List::empty(alloc));
        match self.profile.set(global, parts) {
            Ok(()) => Ok(String::from_str(alloc, "set\n")?),
            Err(TooMany { count }) => Ok(format!(in alloc; "TooMany {count}\n")?),
        }
    }

    /// `profile part DOMAIN include|exclude FIRST COUNT`, for the next `profile set include|exclude`; and
    /// `profile includes DOMAIN INSTANCE`. A domain is its word in hexadecimal.
    pub fn call(
        &mut self,
        alloc: Global,
        mut words: Words<'_>,
    ) -> Result<Option<String>, NoMemory> {
        match words.next() {
            "part" => {
                let Some(part) = part_of(alloc, words)? else {
                    return Ok(None);
                };
                self.parts.push(part)?;
                Ok(Some(String::new(alloc)))
            }
            "set" => match is_included(words.rest()) {
                Some(global) => Ok(Some(self.set(alloc, global)?)),
                None => Ok(None),
            },
            "includes" => {
                let (Some(indom), Some(instance)) = (words.hex(), words.signed()) else {
                    return Ok(None);
                };
                let kept = self.profile.includes(InDom::of_word(indom), instance);
                let told = if kept { "yes\n" } else { "no\n" };
                Ok(Some(String::from_str(alloc, told)?))
            }
            _ => Ok(None),
        }
    }
}
