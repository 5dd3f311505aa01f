//! What is made of a result before its first write, and each refusal before that.
ghost use Rattle.std.specs.Prelude.{◌≡◌, ◌<◌, ◌≤◌, ◌+◌, length, IfOk, IfErr, OnOk};
ghost use Rattle.std.specs.List.{AllByRecursion};
ghost use Rattle.pcp_base.specs.Results.{Fits};
ghost use Rattle.pcp_model.specs.Payload.{payload_length};
ghost use Rattle.archive_meta.specs.Facts.{FitSets, IsFirstChange};
ghost use Rattle.archive_meta.specs.Missing.{AreMade};
ghost use Rattle.logger_core.specs.Going.{AreSmall};
ghost use Rattle.logger_core.specs.LogSteps.{crosses};
ghost use Rattle.logger_core.specs.Logging.{IsLater, HasPlace, IsRefused, IsMadeOf};
ghost use Rattle.logger_core.specs.Preparing.{IsLengthFault, IsMetadataFault, IsStampFault, IsChangeFault, IsRoomFault};

use crate::ends::Ends;
use crate::fault::LogFault;
use crate::switching::crosses;
use archive_meta::{Facts, MetaState, RecordsFault};
use archive_volume::encode_sample;
use pcp_base::{Bytes, FileId, PmResult, Stamp};
use result_form::length;
use std::alloc::Global;

/// The most bytes that a record's payload has.
const MOST: u64 = 16_777_208;

/// The most bytes that Meta and the index have.
const LONGEST: u64 = 2_147_483_647;

/// The framed records of Meta that are missing, the framed record of the result, and whether it goes into the next volume.
#[derive(Drop)]
pub struct Made {
    pub records: Bytes,
    pub item: Bytes,
    pub crossing: bool,
}

/// How long the framed record is.
fn framed_length(answer: &PmResult) -> Result<u64, LogFault>
    ensures found { IfOk result (λ n. (payload_length answer.now ≤ 16777208) × (n ≡ payload_length answer.now + 8)) }
    ensures fault { IfErr result (IsLengthFault answer.now) }
{
    let size = length(answer);
    if size > MOST {
        return Err(LogFault::Large {
            bytes: size.saturating_add(8),
        });
    }
    Ok(size + 8)
}

/// The framed records of Meta that are missing.
fn missing_records(
    alloc: Global,
    meta: &MetaState,
    answer: &PmResult,
    facts: &Facts,
) -> Result<Bytes, LogFault>
    ensures made { IfOk result (AreMade meta.now facts.now answer.now) }
    ensures fault { IfErr result (IsMetadataFault meta.now answer.now facts.now) }
{
    match meta.records_for(alloc, answer, facts) {
        Ok(records) => Ok(records),
        Err(RecordsFault::Large { bytes }) => Err(LogFault::Large { bytes }),
        Err(RecordsFault::NoMemory) => Err(LogFault::NoMemory),
    }
}

/// Whether a moment is after the greatest stamp.
fn check_stamp(greatest: Option<Stamp>, stamp: Stamp) -> Result<(), LogFault>
    ensures later { OnOk result (IsLater greatest stamp) }
    ensures fault { IfErr result (IsStampFault greatest stamp) }
{
    let Some(last) = greatest else {
        return Ok(());
    };
    if stamp.microseconds() <= last.microseconds() {
        return Err(LogFault::NotLater { last });
    }
    Ok(())
}

/// Whether the facts are what is kept.
fn check_facts(meta: &MetaState, answer: &PmResult, facts: &Facts) -> Result<(), LogFault>
    ensures fit { OnOk result (FitSets meta.now facts.now.metrics answer.now.sets) }
    ensures fault { IfErr result (IsChangeFault meta.now answer.now facts.now) }
{
    match meta.fit(answer, facts) {
        Ok(()) => Ok(()),
        Err(change) => Err(LogFault::Changed { pmid: change.pmid }),
    }
}

/// Whether so many bytes have their place, and whether the record crosses the volume limit.
fn check_room(ends: &Ends, limit: u64, records: u64, item: u64) -> Result<bool, LogFault>
    requires small { AreSmall ends.now }
    requires few { item < 4294967296 }
    requires records { records < 9223372036854775808 }
    ensures place { OnOk result (HasPlace ends.now limit records item) }
    ensures crossing { IfOk result (λ b. b ≡ crosses limit ends.now.length item) }
    ensures fault { IfErr result (IsRoomFault ends.now limit records item) }
{
    if ends.meta + records > LONGEST {
        return Err(LogFault::Full {
            file: FileId::Meta,
            bytes: ends.meta + records,
        });
    }
    if ends.index + 40 > LONGEST {
        return Err(LogFault::Full {
            file: FileId::Index,
            bytes: ends.index + 40,
        });
    }
    let crossing = crosses(ends, limit, item);
    if !crossing {
        return Ok(false);
    }
    if ends.volume + 1 >= 10_000 {
        return Err(LogFault::Full {
            file: FileId::Volume(ends.volume + 1),
            bytes: 10_000,
        });
    }
    Ok(true)
}

/// All that is written of a result, or why it may not be logged.
pub(crate) fn prepare(
    alloc: Global,
    meta: &MetaState,
    ends: &Ends,
    limit: u64,
    answer: &PmResult,
    facts: &Facts,
) -> Result<Made, LogFault>
    requires some { 0 < length answer.now.sets }
    requires fits { AllByRecursion Fits answer.now.sets }
    requires small { AreSmall ends.now }
    ensures made { IfOk result (IsMadeOf meta.now ends.now limit answer.now facts.now) }
    ensures fault { IfErr result (IsRefused meta.now ends.now limit answer.now facts.now) }
{
    let size = framed_length(answer)?;
    let records = missing_records(alloc, meta, answer, facts)?;
    check_stamp(ends.greatest, answer.stamp)?;
    check_facts(meta, answer, facts)?;
    let crossing = check_room(ends, limit, records.len() as u64, size)?;
    let item = encode_sample(alloc, answer)?;
    Ok(Made {
        records,
        item,
        crossing,
    })
}
