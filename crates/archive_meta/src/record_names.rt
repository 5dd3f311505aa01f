//! The descriptions of metrics.
ghost use Rattle.std.specs.Prelude.{◌≡◌, IfOk};
ghost use Rattle.archive_meta.specs.Decoding.{names_from, desc_in, description_in};

use crate::record_texts::first_name;
use pcp_base::{Desc, InDom, List, NoMemory, Pmid, Text, Units, be32};
use std::alloc::Global;

/// So many names, each behind its length, which make all of the bytes.
#[tactic(auto, unfolding(crate::specs::Decoding::names_from))]
fn names_from(alloc: Global, bytes: &[u8], count: u32) -> Result<Option<List<Text>>, NoMemory>
    ensures { IfOk result (λ found. found ≡ names_from count bytes.now) }
{
    let most = (count as usize).min(bytes.len() / 4);
    let mut names = List::from_vec(Vec::with_capacity(alloc, most)?);
    let mut at = 0;
    for _ in 0..count {
        match first_name(alloc, &bytes[at..])? {
            Some(name) => {
                at += 4 + name.as_slice().len();
                names.push(name)?;
            }
            None => return Ok(None),
        }
    }
    if at < bytes.len() {
        return Ok(None);
    }
    Ok(Some(names))
}

#[tactic(auto, unfolding(crate::specs::Decoding::desc_in))]
fn desc_in(payload: &[u8]) -> Option<Desc>
    ensures { result ≡ desc_in payload.now }
{
    Some(Desc {
        pmid: Pmid::of_word(be32(payload, 4)?),
        code: be32(payload, 8)?,
        indom: InDom::of_word(be32(payload, 12)?),
        semantics: be32(payload, 16)?,
        units: Units::of_word(be32(payload, 20)?),
    })
}

/// The description of a payload that begins as one, and its names.
#[tactic(auto, unfolding(crate::specs::Decoding::description_in))]
pub fn read_description(
    alloc: Global,
    payload: &[u8],
) -> Result<Option<(Desc, List<Text>)>, NoMemory>
    ensures { IfOk result (λ found. found ≡ description_in payload.now) }
{
    let Some(desc) = desc_in(payload) else {
        return Ok(None);
    };
    let Some(count) = be32(payload, 24) else {
        return Ok(None);
    };
    match names_from(alloc, &payload[28..], count)? {
        Some(names) => Ok(Some((desc, names))),
        None => Ok(None),
    }
}
