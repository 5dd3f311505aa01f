//! The fields of a label, each looked at byte by byte: the first byte that fits none is told.
ghost use Rattle.std.specs.Prelude.{◌≡◌, ◌⊎◌, ℕ, ℤ, ◌+◌, ◌*◌, ◌<◌, ◌≤◌, length, take, drop, slice_index, IfOk, IfErr, OnOk, MatchResult, MatchOption};
ghost use Rattle.std.specs.Int.{w32, cast_signed};
ghost use Rattle.pcp_base.specs.Texts.{IsText, IsFirstZero};
ghost use Rattle.pcp_model.specs.Words.{word};
ghost use Rattle.pcp_model.specs.Labels.{HasText};
ghost use Rattle.archive_frame.specs.declared.fault.FrameFault.TheVariants.{Label as Misfit};
ghost use Rattle.archive_frame.specs.Heads.{FieldStands, StopsIn};
ghost use Rattle.archive_frame.specs.Labels.{IsUpTo, IsTextField, IsNumberField, IsNumberOf, IsWanted, IsFileNumber, IsMetaNumber, IsFieldFault};

use crate::fault::FrameFault;

/// Bytes that have to stand at an offset; else the first of them that doesn't.
pub fn stands(bytes: &[u8], at: usize, wanted: &[u8]) -> Result<(), usize>
    requires { at ≤ length bytes.now }
    ensures there { OnOk result (FieldStands (λ t. t ≡ wanted.now) (length wanted.now) bytes.now at) }
    ensures stop { IfErr result (StopsIn (λ t. t ≡ wanted.now) (length wanted.now) bytes.now at) }
{
    let rest = &bytes[at..];
    for (i, byte) in wanted.iter().enumerate() {
        if i >= rest.len() || rest[i] != *byte {
            return Err(at + i);
        }
    }
    Ok(())
}

/// The fault at this byte.
pub fn misfit(at: usize) -> FrameFault
    ensures { result ≡ Misfit at }
{
    FrameFault::Label { at: at as u64 }
}

/// Bytes that have to stand at an offset.
pub fn wanted_at(bytes: &[u8], at: usize, wanted: &[u8]) -> Result<(), FrameFault>
    requires { at ≤ length bytes.now }
    ensures there { OnOk result (FieldStands (λ t. t ≡ wanted.now) (length wanted.now) bytes.now at) }
    ensures fault { IfErr result (IsFieldFault (λ t. t ≡ wanted.now) (length wanted.now) bytes.now at) }
{
    match stands(bytes, at, wanted) {
        Ok(()) => Ok(()),
        Err(stop) => Err(misfit(stop)),
    }
}

/// A number with one byte more, where it is at most `most`.
fn with_byte(bytes: &[u8], at: usize, before: u32, most: u32) -> Result<u32, FrameFault>
    requires { before < 16777216 }
    ensures { MatchResult result
        (λ n. (at < length bytes.now) × (n ≡ before * 256 + slice_index bytes.now at) × (n ≤ most))
        (λ e. (e ≡ Misfit at) × ((length bytes.now ≤ at) ⊎ ((at < length bytes.now) × (most < before * 256 + slice_index bytes.now at)))) }
{
    if at >= bytes.len() {
        return Err(misfit(at));
    }
    let number = before * 256 + u32::from(bytes[at]);
    if number > most {
        return Err(misfit(at));
    }
    Ok(number)
}

/// The word at an offset, where it is at most `most`.
pub fn word_up_to(bytes: &[u8], at: usize, most: u32) -> Result<u32, FrameFault>
    requires { at ≤ length bytes.now }
    ensures word { IfOk result (λ n. (at + 4 ≤ length bytes.now) × (n ≤ most) × (take 4 (drop at bytes.now) ≡ word n)) }
    ensures fault { IfErr result (IsFieldFault (IsUpTo most) 4 bytes.now at) }
{
    let first = with_byte(bytes, at, 0, most / 16_777_216)?;
    let second = with_byte(bytes, at + 1, first, most / 65_536)?;
    let third = with_byte(bytes, at + 2, second, most / 256)?;
    let number = with_byte(bytes, at + 3, third, most)?;
    Ok(number)
}

/// The first zero byte.
fn first_zero(bytes: &[u8]) -> Option<usize>
    ensures { MatchOption result (IsText bytes.now) (IsFirstZero bytes.now) }
{
    bytes.iter().position(|byte| *byte == 0)
}

/// How long the text is whose field stands at an offset.
pub fn text_at(bytes: &[u8], at: usize, width: usize) -> Result<usize, FrameFault>
    requires within { at ≤ length bytes.now }
    requires wide { 0 < width }
    ensures text { IfOk result (λ n. (at + width ≤ length bytes.now) × (n < width) × HasText width (take width (drop at bytes.now)) (take n (drop at bytes.now))) }
    ensures fault { IfErr result (IsFieldFault (IsTextField width) width bytes.now at) }
{
    if bytes.len() - at < width {
        return Err(misfit(bytes.len()));
    }
    let field = &bytes[at..at + width];
    match first_zero(field) {
        Some(size) => Ok(size),
        None => Err(misfit(at + width - 1)),
    }
}

/// Which labels are looked for.
#[derive(Clone, Copy)]
pub enum Wanted {
    /// Those of all files.
    Any,
    /// Those of Meta.
    Meta,
}

/// The number of Meta, at byte 20.
fn meta_number(bytes: &[u8]) -> Result<u32, FrameFault>
    requires { 20 ≤ length bytes.now }
    ensures number { IfOk result (IsNumberOf IsMetaNumber bytes.now) }
    ensures fault { IfErr result (IsFieldFault (IsNumberField IsMetaNumber) 4 bytes.now 20) }
{
    wanted_at(bytes, 20, &[0xff, 0xff, 0xff, 0xff])?;
    Ok(u32::MAX)
}

/// The number of any file, at byte 20: a negative one is -1 or -2.
fn any_number(bytes: &[u8]) -> Result<u32, FrameFault>
    requires { 20 ≤ length bytes.now }
    ensures number { IfOk result (IsNumberOf IsFileNumber bytes.now) }
    ensures fault { IfErr result (IsFieldFault (IsNumberField IsFileNumber) 4 bytes.now 20) }
{
    if bytes.len() == 20 || bytes[20] < 0x80 {
        return word_up_to(bytes, 20, 0x7fff_ffff);
    }
    wanted_at(bytes, 20, &[0xff, 0xff, 0xff])?;
    if bytes.len() == 23 || bytes[23] < 0xfe {
        return Err(misfit(23));
    }
    Ok(0xffff_ff00 + u32::from(bytes[23]))
}

/// The number of such a file, at byte 20, as a word.
pub fn number_at(bytes: &[u8], wanted: Wanted) -> Result<u32, FrameFault>
    requires { 20 ≤ length bytes.now }
    ensures number { IfOk result (IsNumberOf (IsWanted wanted) bytes.now) }
    ensures fault { IfErr result (IsFieldFault (IsNumberField (IsWanted wanted)) 4 bytes.now 20) }
{
    match wanted {
        Wanted::Any => any_number(bytes),
        Wanted::Meta => meta_number(bytes),
    }
}
