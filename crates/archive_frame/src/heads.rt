//! The first bytes of a file beside the label that has to stand there: how far they go on like it.
ghost use Rattle.std.specs.Prelude.{◌≡◌, ◌+◌, ◌<◌, ◌≤◌, ◌≤ℤ◌, negsuc, length, Ok, OnOk, IfOk, IfErr};
ghost use Rattle.pcp_base.specs.Texts.{IsText};
ghost use Rattle.pcp_model.specs.Labels.{HasText, IsLabel, BeginsLabel};
ghost use Rattle.archive_frame.specs.declared.heads.Head.TheVariants.{Whole as IsWhole, Part as IsPart};
ghost use Rattle.archive_frame.specs.Heads.{FieldStands, StopsIn, IsHead, IsHeadFault, told_at as told_at_lem};
ghost use Rattle.archive_frame.specs.Misfits.{IsFirstMisfit};

use crate::fault::FrameFault;
use crate::parts::{misfit, stands};
use crate::writing::label_bytes;
use pcp_model::Label;

/// How far a file's first bytes are the label that has to stand there.
#[derive(Clone, Copy)]
pub enum Head {
    /// They are this label.
    Whole,
    /// They are fewer bytes than a label, and this label begins with them.
    Part,
}

/// A text that has to stand in a field, ended by a zero byte; else the first byte that isn't its own.
fn text_stands(bytes: &[u8], at: usize, width: usize, text: &[u8]) -> Result<(), usize>
    requires within { at ≤ length bytes.now }
    requires fits { length text.now < width }
    requires clean { IsText text.now }
    ensures there { OnOk result (FieldStands (λ t. HasText width t text.now) width bytes.now at) }
    ensures stop { IfErr result (StopsIn (λ t. HasText width t text.now) width bytes.now at) }
{
    if let Err(stop) = stands(bytes, at, text) {
        return Err(stop);
    }
    if let Err(stop) = stands(bytes, at + text.len(), &[0]) {
        return Err(stop);
    }
    if bytes.len() - at < width {
        return Err(bytes.len());
    }
    Ok(())
}

/// The label that has to stand first in a file with this number; else the first byte that isn't its own.
fn label_stands(bytes: &[u8], label: &Label, number: i32) -> Result<(), usize>
    requires few { length bytes.now ≤ 132 }
    requires numbered { negsuc 1 ≤ℤ number }
    ensures label { OnOk result (IsLabel bytes.now label.now number) }
    ensures stop { IfErr result (IsFirstMisfit (λ t. IsLabel t label.now number) bytes.now) }
{
    let whole = label_bytes(label, number);
    if let Err(stop) = stands(bytes, 0, &whole[..24]) {
        return Err(stop);
    }
    if let Err(stop) = text_stands(bytes, 24, 64, label.host().as_slice()) {
        return Err(stop);
    }
    if let Err(stop) = text_stands(bytes, 88, 40, label.zone().as_slice()) {
        return Err(stop);
    }
    stands(bytes, 128, &[0, 0, 0, 132])
}

/// The byte at which this one is told: a field that differs from Meta's label is told at its first byte.
fn told_at(stop: usize) -> usize
    ensures { result ≡ told_at_lem stop }
{
    if 8 <= stop && stop < 12 {
        return 8;
    }
    if 12 <= stop && stop < 16 {
        return 12;
    }
    if 16 <= stop && stop < 20 {
        return 16;
    }
    if 24 <= stop && stop < 88 {
        return 24;
    }
    if 88 <= stop && stop < 128 {
        return 88;
    }
    stop
}

fn compared(bytes: &[u8], number: i32, label: &Label) -> Result<Head, FrameFault>
    requires few { length bytes.now ≤ 132 }
    requires numbered { negsuc 1 ≤ℤ number }
    ensures found { IfOk result (IsHead label.now number bytes.now) }
    ensures fault { IfErr result (IsHeadFault label.now number bytes.now) }
{
    if let Err(stop) = label_stands(bytes, label, number) {
        if stop == bytes.len() {
            return Ok(Head::Part);
        }
        return Err(misfit(told_at(stop)));
    }
    Ok(Head::Whole)
}

/// What stands where a file's label should, of the file with this number (-2 the index, else the volume's) beside Meta's
/// label: `bytes` are the file's first 132 bytes, or all of a shorter file. A refusal tells the first byte that fits no
/// label of this number, and where the process, the seconds, the microseconds, the host or the zone differ from Meta's, that field's
/// first byte.
pub fn read_label_of(bytes: &[u8], number: i32, label: &Label) -> Result<Head, FrameFault>
    requires few { length bytes.now ≤ 132 }
    requires numbered { negsuc 1 ≤ℤ number }
    // `Whole` and `Part` are answered of such bytes alone.
    ensures found { IfOk result (IsHead label.now number bytes.now) }
    // Of the whole label of this file `Whole` is answered.
    ensures whole { IsLabel bytes.now label.now number → result ≡ Ok IsWhole }
    // Of a beginning of it `Part` is answered.
    ensures part { BeginsLabel bytes.now label.now number → result ≡ Ok IsPart }
    // A refusal is `Label`, never want of memory.
    ensures fault { IfErr result (IsHeadFault label.now number bytes.now) }
{
    compared(bytes, number, label)
}
