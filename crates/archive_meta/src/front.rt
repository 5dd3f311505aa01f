//! Records of Meta up to a torn end.
ghost use Rattle.std.specs.Prelude.{◌≡◌, ◌↔◌, ◌≤◌, ℕ, [], ◌++◌, length, take, drop, List as Sequence, IsTrue, IfOk, IfErr, OnErr};
ghost use Rattle.pcp_model.specs.declared.records.MetaRecord.{MetaRecord as Record};
ghost use Rattle.pcp_model.specs.Frame.{IsTorn};
ghost use Rattle.pcp_model.specs.Records.{AreConsistent};
ghost use Rattle.archive_meta.specs.Records.{AreRecords, Adds, AreFound, HasFront, IsFrontFault, IsWholeEnd};

use crate::counting::room_for;
use crate::fault::MetaFault;
use crate::framed::record_at;
use crate::state::MetaState;
use pcp_base::be32;
use std::alloc::Global;

/// Whether what stands from a byte on is the beginning of a framed record that wasn't written whole: fewer than 4
/// bytes, or fewer than their length word says, which is in range. No bytes are.
fn is_torn_at(bytes: &[u8], at: usize) -> bool
    requires { at ≤ length bytes.now }
    ensures { IsTrue result ↔ IsTorn (drop at bytes.now) }
{
    let rest = &bytes[at..];
    let Some(word) = be32(rest, 0) else {
        return true;
    };
    if word < 12 || word > 16_777_216 {
        return false;
    }
    rest.len() < word as usize
}

impl MetaState {
    fn add_front(&mut self, alloc: Global, bytes: &[u8]) -> Result<usize, MetaFault>
        requires { AreConsistent self.old }
        ensures ok { IfOk result (λ end. (end ≤ length bytes.now) × Adds self.old (take end bytes.now) self.new × IsTorn (drop end bytes.now)) }
        ensures fault { IfErr result (IsFrontFault self.old bytes.now) }
    {
        let mut at = 0;
        while at < bytes.len() {
            if is_torn_at(bytes, at) {
                return Ok(at);
            }
            let (record, next) = record_at(alloc, bytes, at)?;
            self.add(record, at)?;
            at = next;
        }
        Ok(at)
    }

    /// The records of the bytes that follow Meta's label, up to the first that was not written whole, and where this
    /// begins: the end of the bytes where all are whole. A stop of the logger leaves such an end. `Record` names the first
    /// that is refused.
    pub fn read_whole(alloc: Global, bytes: &[u8]) -> Result<(MetaState, usize), MetaFault>
        // What was read is what the bytes before it are.
        ensures found { IfOk result (λ r. AreRecords (take r.1 bytes.now) r.0) }
        // No two descriptions of one metric differ.
        ensures consistent { IfOk result (λ r. AreConsistent r.0) }
        // Behind the place that is told stands nothing, or a record that wasn't written whole.
        ensures end { IfOk result (λ r. IsWholeEnd bytes.now r.1) }
        // What stands before such an end is read, unless memory runs out.
        ensures only { (records : Sequence Record) (end : ℕ) → HasFront bytes.now records end → AreFound (λ r all. (r.0 ≡ all) × (r.1 ≡ end)) records result }
        // A refusal is the first record that is bad, which is never the torn end, or want of memory.
        ensures fault { IfErr result (IsFrontFault [] bytes.now) }
    {
        let mut meta = MetaState::with_room(alloc, room_for(bytes))?;
        let end = meta.add_front(alloc, bytes)?;
        Ok((meta, end))
    }
}
