//! The records that a result still needs, framed behind what a buffer holds.
ghost use Rattle.std.specs.Prelude.{◌≡◌, ◌+◌, ◌*◌, ◌≤◌, [], ◌∷◌, ◌++◌, None, length, map, min, OnOk, IfErr, MatchResult};
ghost use Rattle.std.specs.List.{AllByRecursion};
ghost use Rattle.pcp_model.specs.Frame.{frame};
ghost use Rattle.pcp_model.specs.Records.{description, domain, name_table};
ghost use Rattle.archive_meta.specs.Missing.{described_by, listed_from, framed_records, large_length, at_positions, IsSpelled, IsLarge, IsLargeOf, AreMade, IsRecordsFault};

use crate::facts::{Facts, RecordsFault};
use crate::record_writing::{put_description, put_domain};
use crate::state::MetaState;
use pcp_base::{Bytes, Desc, InDom, List, PmResult, Stamp, Text};
use pcp_model::put_word;
use std::alloc::Global;
use std::slice;

/// The most bytes that a framed record has.
const MOST: u64 = 16_777_216;

/// How many bytes a table of names has with this many in front, at most 2^64 - 1.
fn with_table(before: u64, pairs: &[(i32, Text)]) -> u64
    ensures { result ≡ min (before + length (name_table pairs.now)) 18446744073709551615 }
{
    let mut total = before;
    for (_, name) in pairs {
        total = total
            .saturating_add(name.as_slice().len() as u64)
            .saturating_add(1);
    }
    total
}

/// How long a framed description is, at most 2^64 - 1.
fn description_length(name: &Text) -> u64
    ensures { result ≡ min (40 + length name.now) 18446744073709551615 }
{
    (name.as_slice().len() as u64).saturating_add(40)
}

/// How long a framed domain is, at most 2^64 - 1.
fn domain_length(pairs: &[(i32, Text)]) -> u64
    ensures { result ≡ min (28 + 8 * length pairs.now + length (name_table pairs.now)) 18446744073709551615 }
{
    let head = (pairs.len() as u64).saturating_mul(8).saturating_add(28);
    with_table(head, pairs)
}

fn put_fact(out: &mut Vec<u8>, desc: &Desc, name: &Text) -> Result<(), RecordsFault>
    ensures bytes { OnOk result (out.new.items ≡ out.old.items ++ frame (description desc.now (name.now ∷ []))) }
    ensures fits { OnOk result (length (frame (description desc.now (name.now ∷ []))) ≤ 16777216) }
    ensures read { OnOk result (IsSpelled (described_by (desc.now, name.now))) }
    ensures fault { IfErr result (IsLarge (length (frame (description desc.now (name.now ∷ []))))) }
{
    let bytes = description_length(name);
    if bytes > MOST {
        return Err(RecordsFault::Large { bytes });
    }
    put_word(out, bytes as u32)?;
    put_description(out, desc, slice::from_ref(name))?;
    put_word(out, bytes as u32)?;
    Ok(())
}

fn put_listed(
    out: &mut Vec<u8>,
    t: Stamp,
    indom: InDom,
    pairs: &[(i32, Text)],
) -> Result<(), RecordsFault>
    ensures bytes { OnOk result (out.new.items ≡ out.old.items ++ frame (domain t indom pairs.now)) }
    ensures fits { OnOk result (length (frame (domain t indom pairs.now)) ≤ 16777216) }
    ensures read { OnOk result (IsSpelled (listed_from t (indom, pairs.now))) }
    ensures fault { IfErr result (IsLarge (length (frame (domain t indom pairs.now)))) }
{
    let bytes = domain_length(pairs);
    if bytes > MOST {
        return Err(RecordsFault::Large { bytes });
    }
    put_word(out, bytes as u32)?;
    put_domain(out, t, indom, pairs)?;
    put_word(out, bytes as u32)?;
    Ok(())
}

/// The descriptions of the facts at these positions.
fn put_facts(
    out: &mut Vec<u8>,
    metrics: &List<(Desc, Text)>,
    positions: &[usize],
) -> Result<(), RecordsFault>
    ensures bytes { OnOk result (out.new.items ≡ out.old.items ++ framed_records (map described_by (at_positions metrics.now positions.now))) }
    ensures fit { OnOk result (large_length (map described_by (at_positions metrics.now positions.now)) ≡ None) }
    ensures read { OnOk result (AllByRecursion IsSpelled (map described_by (at_positions metrics.now positions.now))) }
    ensures fault { IfErr result (IsLargeOf (map described_by (at_positions metrics.now positions.now))) }
{
    for position in positions {
        if let Some((desc, name)) = metrics.get(*position) {
            put_fact(out, desc, name)?;
        }
    }
    Ok(())
}

/// The domains at these positions, from a moment on.
fn put_domains(
    out: &mut Vec<u8>,
    t: Stamp,
    domains: &List<(InDom, List<(i32, Text)>)>,
    positions: &[usize],
) -> Result<(), RecordsFault>
    ensures bytes { OnOk result (out.new.items ≡ out.old.items ++ framed_records (map (listed_from t) (at_positions domains.now positions.now))) }
    ensures fit { OnOk result (large_length (map (listed_from t) (at_positions domains.now positions.now)) ≡ None) }
    ensures read { OnOk result (AllByRecursion IsSpelled (map (listed_from t) (at_positions domains.now positions.now))) }
    ensures fault { IfErr result (IsLargeOf (map (listed_from t) (at_positions domains.now positions.now))) }
{
    for position in positions {
        if let Some((indom, pairs)) = domains.get(*position) {
            put_listed(out, t, *indom, pairs.as_slice())?;
        }
    }
    Ok(())
}

impl MetaState {
    /// The framed records that a result needs and that are missing. Descriptions stand first, in the order of the sets:
    /// one for each metric with values that no record describes. Then come domains in the order of the sets: one for
    /// each domain of the facts of which no instances hold at the result's stamp, or others; a domain of no set comes
    /// last. `Large` comes exactly where one of these framed records would be above 16,777,216 bytes, with the length
    /// of the first such.
    pub fn records_for(
        &self,
        alloc: Global,
        answer: &PmResult,
        facts: &Facts,
    ) -> Result<Bytes, RecordsFault>
        ensures { MatchResult result (AreMade self.now facts.now answer.now) (IsRecordsFault self.now facts.now answer.now) }
    {
        let sets = answer.sets.as_slice();
        let described = self.missing_metrics(alloc, facts.metrics.as_slice(), sets)?;
        let listed = self.missing_domains(alloc, answer, facts)?;
        let mut out = Vec::new(alloc);
        put_facts(&mut out, &facts.metrics, described.as_slice())?;
        put_domains(&mut out, answer.stamp, &facts.domains, listed.as_slice())?;
        Ok(Bytes::from_vec(out))
    }
}
