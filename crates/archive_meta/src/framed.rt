//! One framed record.
ghost use Rattle.std.specs.Prelude.{◌≡◌, ◌<◌, length, IfOk, IfErr};
ghost use Rattle.archive_meta.specs.Framed.{RecordStands, IsRecordFault};

use crate::fault::MetaFault;
use crate::record::read_record;
use archive_frame::{Step, step_forward};
use pcp_model::MetaRecord;
use std::alloc::Global;

/// The record that is framed at a byte, and the byte behind its frame.
pub fn record_at(alloc: Global, bytes: &[u8], at: usize) -> Result<(MetaRecord, usize), MetaFault>
    requires { at < length bytes.now }
    ensures found { IfOk result (λ r. RecordStands bytes.now at r.1 r.0) }
    ensures fault { IfErr result (IsRecordFault bytes.now at) }
{
    match step_forward(bytes, at) {
        Ok(Step::Payload { from, to, next }) => match read_record(alloc, &bytes[from..to])? {
            Some(record) => Ok((record, next)),
            None => Err(MetaFault::Record { at: at as u64 }),
        },
        Ok(Step::End) => Err(MetaFault::Record { at: at as u64 }),
        Err(_) => Err(MetaFault::Record { at: at as u64 }),
    }
}
