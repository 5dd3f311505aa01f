//! One record of Meta.
ghost use Rattle.std.specs.Prelude.{◌≡◌, Some, IfOk, IfSome, MatchOption};
ghost use Rattle.pcp_base.specs.Time.{Moment, IsMoment};
ghost use Rattle.pcp_model.specs.declared.records.MetaRecord.{MetaRecord as Record};
ghost use Rattle.pcp_model.specs.Frame.{IsFrameable};
ghost use Rattle.pcp_model.specs.Records.{IsRecord};
ghost use Rattle.archive_meta.specs.Decoding.{record_in, stamped_in};
ghost use Rattle.archive_meta.specs.Stamped.{IsStamped};

use crate::record_domain::{read_domain, stamp_in};
use crate::record_names::read_description;
use pcp_base::{NoMemory, Stamp, be32};
use pcp_model::MetaRecord;
use std::alloc::Global;

#[tactic(auto, unfolding(crate::specs::Decoding::record_in))]
fn record_in(alloc: Global, payload: &[u8]) -> Result<Option<MetaRecord>, NoMemory>
    ensures { IfOk result (λ found. found ≡ record_in payload.now) }
{
    match be32(payload, 0) {
        None => Ok(None),
        Some(1) => match read_description(alloc, payload)? {
            Some((desc, names)) => Ok(Some(MetaRecord::Description(desc, names))),
            None => Ok(None),
        },
        Some(2) => match read_domain(alloc, payload)? {
            Some((stamp, indom, instances)) => {
                Ok(Some(MetaRecord::Domain(stamp, indom, instances)))
            }
            None => Ok(None),
        },
        Some(_) => Ok(Some(MetaRecord::Other)),
    }
}

/// The record that a payload is, and `None` exactly where it is none: its fields don't lie in it or don't fill it,
/// a number of instances is negative, a stamp is out of range, a name of the table has no end, or a description's
/// name has a zero byte. A record of another kind is not looked into.
pub fn read_record(alloc: Global, payload: &[u8]) -> Result<Option<MetaRecord>, NoMemory>
    requires { IsFrameable payload.now }
    // What is read is what the payload says.
    ensures found { IfOk result (λ found. IfSome found (IsRecord payload.now)) }
    // What the payload says is read.
    ensures only { (r : Record) → IsRecord payload.now r → IfOk result (λ found. found ≡ Some r) }
{
    record_in(alloc, payload)
}

#[tactic(auto, unfolding(crate::specs::Decoding::stamped_in))]
fn stamped_in(payload: &[u8]) -> Option<Stamp>
    ensures { result ≡ stamped_in payload.now }
{
    match be32(payload, 0) {
        Some(2) => stamp_in(payload),
        _ => None,
    }
}

/// The stamp of an instance domain's payload; `None` exactly where its first word isn't 2, or it holds no stamp in
/// range.
pub fn domain_stamp(payload: &[u8]) -> Option<Stamp>
    ensures { MatchOption result ((t : Moment) → IsStamped payload.now t → ⊥) (IsStamped payload.now) }
{
    stamped_in(payload)
}
