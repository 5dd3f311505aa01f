//! The reader of a label: its fields are looked at from the first byte to the last, and then its texts are taken.
ghost use Rattle.std.specs.Prelude.{◌≡◌, ◌⊎◌, ℕ, ℤ, ◌+◌, ◌<◌, ◌≤◌, negsuc, length, take, drop, Result, Ok, Err, Option, Some, None, IfOk, IfErr};
ghost use Rattle.pcp_model.specs.LabelFields.{LabelFields};
ghost use Rattle.pcp_model.specs.Labels.{IsLabel, BeginsLabel};
ghost use Rattle.archive_frame.specs.declared.fault.FrameFault.TheVariants.{NoMemory as Refused};
ghost use Rattle.archive_frame.specs.Heads.{IsMetaHead, IsMetaHeadFault, ends_early as ends_early_lem};
ghost use Rattle.archive_frame.specs.Labels.{IsLabelOf, IsWanted, IsFileNumber, IsMetaNumber, IsLabelFault, IsRead, IsMisfit, fields_said};

use crate::fault::FrameFault;
use crate::parts::{Wanted, misfit, number_at, text_at, wanted_at, word_up_to};
use crate::writing::LABEL;
use pcp_base::{Stamp, Text};
use pcp_model::Label;
use std::alloc::Global;

/// The length word, and the magic number of an archive of version 2.
const FRONT: [u8; 8] = [0, 0, 0, 132, 0x50, 0x05, 0x26, 0x02];

/// The length word again.
const BACK: [u8; 4] = [0, 0, 0, 132];

/// What a label says, its texts by their lengths.
#[derive(Clone, Copy)]
pub struct Said {
    pub pid: u32,
    pub start: Stamp,
    pub number: i32,
    pub host: usize,
    pub zone: usize,
}

/// What a label says, where it is one that is wanted, or the first byte that fits none.
fn look(bytes: &[u8], wanted: Wanted) -> Result<Said, FrameFault>
    ensures label { IfOk result (λ s. (s.host < 64) × (s.zone < 40) × (length bytes.now ≡ 132) × IsLabel bytes.now (fields_said bytes.now s) s.number) }
    ensures number { IfOk result (λ s. IsWanted wanted s.number) }
    ensures fault { IfErr result (IsMisfit (IsLabelOf (IsWanted wanted)) bytes.now) }
{
    wanted_at(bytes, 0, &FRONT)?;
    let pid = word_up_to(bytes, 8, u32::MAX)?;
    let sec = word_up_to(bytes, 12, 0x7fff_ffff)?;
    let usec = word_up_to(bytes, 16, 999_999)?;
    let number = number_at(bytes, wanted)?;
    let host = text_at(bytes, 24, 64)?;
    let zone = text_at(bytes, 88, 40)?;
    wanted_at(bytes, 128, &BACK)?;
    if bytes.len() > LABEL {
        return Err(misfit(LABEL));
    }
    let Some(start) = Stamp::build(sec, usec) else {
        // `word_up_to` took no word above a stamp's limits.
        unreachable!()
    };
    Ok(Said {
        pid,
        start,
        number: number.cast_signed(),
        host,
        zone,
    })
}

/// The label that is wanted, and its number.
fn read(alloc: Global, bytes: &[u8], wanted: Wanted) -> Result<(Label, i32), FrameFault>
    ensures found { IfOk result (λ read. IsLabel bytes.now read.0 read.1 × IsWanted wanted read.1) }
    ensures fault { IfErr result (IsLabelFault (IsLabelOf (IsWanted wanted)) bytes.now) }
{
    let said = look(bytes, wanted)?;
    let host = Text::clean_copy(alloc, &bytes[24..24 + said.host])?;
    let zone = Text::clean_copy(alloc, &bytes[88..88 + said.zone])?;
    let Some(label) = Label::build(said.pid, said.start, host, zone) else {
        // The texts come of fields of 64 and 40 bytes and end before a zero byte there.
        unreachable!()
    };
    Ok((label, said.number))
}

fn read_any(alloc: Global, bytes: &[u8]) -> Result<(Label, i32), FrameFault>
    ensures found { IfOk result (λ read. IsLabel bytes.now read.0 read.1 × IsFileNumber read.1) }
    ensures fault { IfErr result (IsLabelFault (IsLabelOf IsFileNumber) bytes.now) }
{
    read(alloc, bytes, Wanted::Any)
}

/// The label that these bytes are, and its number: -1 Meta's, -2 the index's, else the volume's. A refusal tells the
/// first byte that fits no label, which is where the bytes end if they are only a label's beginning, or for a label that
/// memory was refused. What follows a text's first zero byte isn't looked at.
pub fn read_label(alloc: Global, bytes: &[u8]) -> Result<(Label, i32), FrameFault>
    // What is read is what the bytes say.
    ensures found { IfOk result (λ read. IsLabel bytes.now read.0 read.1 × IsFileNumber read.1) }
    // What the bytes say is read, unless memory runs out.
    ensures only { (l : LabelFields) (number : ℤ) → IsFileNumber number → IsLabel bytes.now l number → IsRead l number result }
    // A refusal is `Label`, or of a label alone want of memory.
    ensures fault { IfErr result (IsLabelFault (IsLabelOf IsFileNumber) bytes.now) }
{
    read_any(alloc, bytes)
}

/// Whether this refusal says that the bytes end too early.
fn ends_early(bytes: &[u8], fault: FrameFault) -> bool
    ensures { result ≡ ends_early_lem (length bytes.now) fault }
{
    match fault {
        FrameFault::Label { at } => at == bytes.len() as u64,
        _ => false,
    }
}

/// What the refusal of a label of Meta says.
fn refused(bytes: &[u8], fault: FrameFault) -> Result<Option<Label>, FrameFault>
    requires { IsLabelFault (IsLabelOf IsMetaNumber) bytes.now fault }
    ensures found { IfOk result (IsMetaHead bytes.now) }
    ensures fault { IfErr result (IsMetaHeadFault bytes.now) }
{
    if ends_early(bytes, fault) {
        return Ok(None);
    }
    Err(fault)
}

fn meta_head(alloc: Global, bytes: &[u8]) -> Result<Option<Label>, FrameFault>
    ensures found { IfOk result (IsMetaHead bytes.now) }
    ensures fault { IfErr result (IsMetaHeadFault bytes.now) }
{
    match read(alloc, bytes, Wanted::Meta) {
        Ok((label, _number)) => Ok(Some(label)),
        Err(fault) => refused(bytes, fault),
    }
}

/// The label of Meta, with which those of the other files agree, where `bytes` are the file's first 132 bytes, or all
/// of a shorter file; `None` where they are fewer, and Meta's label may begin so. A refusal tells the first byte that
/// fits no label of Meta, or for a label that memory was refused.
pub fn read_meta_label(alloc: Global, bytes: &[u8]) -> Result<Option<Label>, FrameFault>
    // A label is answered of its own bytes alone, and `None` of a beginning of one.
    ensures found { IfOk result (IsMetaHead bytes.now) }
    // A label is read, unless memory runs out.
    ensures whole { (l : LabelFields) → IsLabel bytes.now l (negsuc 0) → (result ≡ Ok (Some l)) ⊎ (result ≡ Err Refused) }
    // Of a beginning of one `None` is answered.
    ensures part { (l : LabelFields) → BeginsLabel bytes.now l (negsuc 0) → result ≡ Ok None }
    // A refusal is `Label` at a byte that is there, or of a label alone want of memory.
    ensures fault { IfErr result (IsMetaHeadFault bytes.now) }
{
    meta_head(alloc, bytes)
}
