//! The instances of a domain.
ghost use Rattle.std.specs.Prelude.{◌≡◌, IfOk};
ghost use Rattle.archive_meta.specs.Decoding.{stamp_in, domain_in};

use pcp_base::{InDom, NoMemory, Stamp, be32};
use pcp_model::DomainInstances;
use std::alloc::Global;

/// The stamp of a payload that begins as a domain.
#[tactic(auto, unfolding(crate::specs::Decoding::stamp_in))]
pub fn stamp_in(payload: &[u8]) -> Option<Stamp>
    ensures { result ≡ stamp_in payload.now }
{
    let sec = be32(payload, 4)?;
    let usec = be32(payload, 8)?;
    Stamp::build(sec, usec)
}

/// The domain of a payload that begins as one: the moment from which on its instances are these.
#[tactic(auto, unfolding(crate::specs::Decoding::domain_in))]
pub fn read_domain(
    alloc: Global,
    payload: &[u8],
) -> Result<Option<(Stamp, InDom, DomainInstances)>, NoMemory>
    ensures { IfOk result (λ found. found ≡ domain_in payload.now) }
{
    let Some(stamp) = stamp_in(payload) else {
        return Ok(None);
    };
    let Some(indom) = be32(payload, 12) else {
        return Ok(None);
    };
    let Some(count) = be32(payload, 16) else {
        return Ok(None);
    };
    match DomainInstances::read(alloc, count, &payload[20..])? {
        Some(instances) => Ok(Some((stamp, InDom::of_word(indom), instances))),
        None => Ok(None),
    }
}
