//! The records and what is kept beside them, as one: what is found, one record more, one less.
ghost use Rattle.std.specs.Prelude.{◌≡◌, ◌↔◌, ℕ, ℤ, ◌-◌, ◌<◌, ◌∷◌, [], ◌++◌, length, take, slice_get, List as Sequence, IsTrue, OnOk, OnErr, MatchOption};
ghost use Rattle.std.specs.Option.{option_copied};
ghost use Rattle.pcp_model.specs.declared.records.MetaRecord.TheVariants.{Other};
ghost use Rattle.pcp_model.specs.Described.{HoldsAt};
ghost use Rattle.pcp_model.specs.Records.{AreConsistent};
ghost use Rattle.archive_meta.specs.Said.{description_of, pairs_of};
ghost use Rattle.archive_meta.specs.Kept.{HasDescriptions, HasMoments, IsKept, IsState};
ghost use Rattle.archive_meta.specs.Woven.{with_other_records};

use crate::adding::{forget, note};
use crate::descriptions::{Descriptions, position_of};
use crate::moments::{Moments, last_moment};
use pcp_base::{InDom, List, NoMemory, Pmid, Stamp};
use pcp_model::{DomainInstances, MetaRecord};

/// The most records that are kept: their positions are below it. A Meta of less than 2^31 bytes has far fewer; more are
/// refused as want of memory.
const MOST: usize = 4_294_967_295;

/// The first record that describes a metric.
pub fn description_of<'a>(
    records: &'a List<MetaRecord>,
    descriptions: &Descriptions,
    pmid: Pmid,
) -> Option<&'a MetaRecord>
    requires { HasDescriptions descriptions.now records.now }
    ensures { option_copied result ≡ description_of pmid records.now }
{
    match position_of(descriptions, pmid) {
        Some(at) => records.get(at),
        None => None,
    }
}

/// The instances in the record at a position.
fn pairs_at(records: &List<MetaRecord>, at: usize) -> Option<&DomainInstances>
    ensures { option_copied result ≡ pairs_of (slice_get records.now at) }
{
    match records.get(at) {
        Some(MetaRecord::Domain(_, _, pairs)) => Some(pairs),
        Some(MetaRecord::Description(_, _)) | Some(MetaRecord::Other) | None => None,
    }
}

/// The instances of a domain at a moment.
pub fn domain_at<'a>(
    records: &'a List<MetaRecord>,
    moments: &Moments,
    indom: InDom,
    t: Stamp,
) -> Option<&'a DomainInstances>
    requires moments { HasMoments moments.now records.now }
    requires few { length records.now < 4294967296 }
    ensures { MatchOption (option_copied result) ((pairs : Sequence (ℤ × Sequence ℕ)) → HoldsAt records.now indom t pairs → ⊥) (HoldsAt records.now indom t) }
{
    match last_moment(moments, indom, t) {
        Some(at) => pairs_at(records, at),
        None => None,
    }
}

/// One record more among those that are kept; a refusal changes nothing that is told.
fn keep(
    records: &mut List<MetaRecord>,
    descriptions: &mut Descriptions,
    moments: &mut Moments,
    one: MetaRecord,
) -> Result<(), NoMemory>
    requires { IsKept records.old descriptions.old moments.old }
    ensures ok { OnOk result (records.new ≡ records.old ++ one ∷ []) }
    ensures err { OnErr result (records.new ≡ records.old) }
    ensures kept { OnOk result (IsKept records.new descriptions.new moments.new) }
    ensures still_kept { OnErr result (IsKept records.new descriptions.new moments.new) }
{
    let at = records.len();
    if at >= MOST {
        return Err(NoMemory);
    }
    records.push(one)?;
    match note(descriptions, moments, &records.as_slice()[at], at) {
        Ok(()) => Ok(()),
        Err(fault) => {
            records.pop();
            Err(fault)
        }
    }
}

/// One record less among those that are kept, the last.
fn discard(records: &mut List<MetaRecord>, descriptions: &mut Descriptions, moments: &mut Moments)
    requires { IsKept records.old descriptions.old moments.old }
    ensures rest { records.new ≡ take (length records.old - 1) records.old }
    ensures kept { IsKept records.new descriptions.new moments.new }
{
    let Some(one) = records.pop() else {
        return;
    };
    let at = records.len();
    forget(descriptions, moments, &one, at);
}

fn is_other(one: &MetaRecord) -> bool
    ensures { IsTrue result ↔ (one.now ≡ Other) }
{
    match one {
        MetaRecord::Description(_, _) | MetaRecord::Domain(_, _, _) => false,
        MetaRecord::Other => true,
    }
}

/// One record more, with its mark; a refusal changes nothing that is told.
pub fn push(
    records: &mut List<MetaRecord>,
    marks: &mut List<bool>,
    descriptions: &mut Descriptions,
    moments: &mut Moments,
    one: MetaRecord,
) -> Result<(), NoMemory>
    requires state { IsState records.old marks.old descriptions.old moments.old }
    requires consistent { AreConsistent (with_other_records marks.old records.old ++ one ∷ []) }
    ensures ok { OnOk result (with_other_records marks.new records.new ≡ with_other_records marks.old records.old ++ one ∷ []) }
    ensures err { OnErr result (with_other_records marks.new records.new ≡ with_other_records marks.old records.old) }
    ensures state { OnOk result (IsState records.new marks.new descriptions.new moments.new) }
    ensures still { OnErr result (IsState records.new marks.new descriptions.new moments.new) }
{
    if is_other(&one) {
        marks.push(false)?;
        return Ok(());
    }
    marks.push(true)?;
    match keep(records, descriptions, moments, one) {
        Ok(()) => Ok(()),
        Err(fault) => {
            marks.pop();
            Err(fault)
        }
    }
}

/// One record less, the last.
fn pop(
    records: &mut List<MetaRecord>,
    marks: &mut List<bool>,
    descriptions: &mut Descriptions,
    moments: &mut Moments,
)
    requires { IsState records.old marks.old descriptions.old moments.old }
    ensures rest { with_other_records marks.new records.new ≡ take (length marks.old - 1) (with_other_records marks.old records.old) }
    ensures size { length marks.new ≡ length marks.old - 1 }
    ensures state { IsState records.new marks.new descriptions.new moments.new }
{
    match marks.pop() {
        Some(true) => discard(records, descriptions, moments),
        Some(false) => (),
        None => (),
    }
}

/// Takes away the records behind the first so many.
pub fn cut(
    records: &mut List<MetaRecord>,
    marks: &mut List<bool>,
    descriptions: &mut Descriptions,
    moments: &mut Moments,
    count: usize,
)
    requires { IsState records.old marks.old descriptions.old moments.old }
    ensures rest { with_other_records marks.new records.new ≡ take count (with_other_records marks.old records.old) }
    ensures state { IsState records.new marks.new descriptions.new moments.new }
{
    let mut left = marks.len();
    while left > count {
        pop(records, marks, descriptions, moments);
        left -= 1;
    }
}
