//! The last lines of refusals that have a number or a name.
ghost use Rattle.std.specs.Prelude.{◌≡◌, IfOk, string_bytes};
ghost use Rattle.pm_words.specs.Refusals.{file_name, limit_name, line_of, peer_fault, rule_line, rule_status, script_line, script_status};
ghost use Rattle.pm_words.specs.declared.refusal.Refusal.TheVariants.{Changed, Clashes, ClockEnd, ClockFault, Compressed, Lacks, Limit, Live, NotArchive, NotLater, Nothing, Peer, Stands, UnsoundBoundary, UnsoundItems, UnsoundLate, Usage};

use crate::refusal::PeerFault;
use mmv_writer::LineFault;
use pcp_base::{Bytes, FileId, List, NoMemory, Pmid, Stamp};
use pm_print::line_fault_text;
use rule_watch::{RuleFault, RuleLineFault};
use run_script::{ScriptFault, ScriptLineFault};
use script_runs::LimitKind;
use std::alloc::{AllocError, Global};

pub(crate) fn usage_line(alloc: Global, at: usize) -> Result<Bytes, NoMemory>
    ensures { IfOk result (λ line. line ≡ line_of (Usage at)) }
{
    let line = format!(in alloc; "usage {at}\n")?;
    Ok(List::from_vec(line.into_bytes()))
}

pub(crate) fn script_status(fault: &ScriptLineFault) -> u8
    ensures { result ≡ script_status fault.now }
{
    match fault {
        ScriptLineFault::Line(_) => 2,
        ScriptLineFault::Regions => 7,
    }
}

// The line of a script's first fault.
pub(crate) fn script_line(alloc: Global, fault: &ScriptFault) -> Result<Bytes, NoMemory>
    ensures { IfOk result (λ line. line ≡ script_line fault.now.line fault.now.fault) }
{
    match &fault.fault {
        ScriptLineFault::Line(found) => line_fault_text(alloc, fault.line, found),
        ScriptLineFault::Regions => {
            let line = format!(in alloc; "limit regions 65\n")?;
            Ok(List::from_vec(line.into_bytes()))
        }
    }
}

pub(crate) fn rule_status(fault: &RuleLineFault) -> u8
    ensures { result ≡ rule_status fault.now }
{
    match fault {
        RuleLineFault::Grammar | RuleLineFault::Condition => 2,
        RuleLineFault::Many => 7,
    }
}

// The line of the first fault of a text of rules.
pub(crate) fn rule_line(alloc: Global, fault: &RuleFault) -> Result<Bytes, NoMemory>
    ensures { IfOk result (λ line. line ≡ rule_line fault.now.line fault.now.fault) }
{
    match &fault.fault {
        RuleLineFault::Grammar => line_fault_text(alloc, fault.line, &LineFault::Grammar),
        RuleLineFault::Condition => line_fault_text(alloc, fault.line, &LineFault::Condition),
        RuleLineFault::Many => {
            let line = format!(in alloc; "limit rules 65\n")?;
            Ok(List::from_vec(line.into_bytes()))
        }
    }
}

fn limit_name(what: LimitKind) -> &'static str
    ensures { result.now ≡ limit_name what }
{
    match what {
        LimitKind::Sets => "sets",
        LimitKind::Record => "record",
        LimitKind::Meta => "meta",
        LimitKind::Index => "index",
        LimitKind::Volume => "volume",
    }
}

pub(crate) fn limit_line(alloc: Global, what: LimitKind, number: u64) -> Result<Bytes, NoMemory>
    ensures { IfOk result (λ line. line ≡ line_of (Limit what number)) }
{
    let name = limit_name(what);
    let line = format!(in alloc; "limit {name} {number}\n")?;
    Ok(List::from_vec(line.into_bytes()))
}

pub(crate) fn not_later_line(alloc: Global, last: Stamp) -> Result<Bytes, NoMemory>
    ensures { IfOk result (λ line. line ≡ line_of (NotLater last)) }
{
    let sec = last.sec();
    let usec = last.usec();
    let line = format!(in alloc; "not later {sec} {usec}\n")?;
    Ok(List::from_vec(line.into_bytes()))
}

#[tactic(auto, unfolding(pm_print::specs::Sets::pmid_text))]
pub(crate) fn changed_line(alloc: Global, pmid: Pmid) -> Result<Bytes, NoMemory>
    ensures { IfOk result (λ line. line ≡ line_of (Changed pmid)) }
{
    let domain = pmid.domain();
    let cluster = pmid.cluster();
    let item = pmid.item();
    let line = format!(in alloc; "changed {domain}.{cluster}.{item}\n")?;
    Ok(List::from_vec(line.into_bytes()))
}

// A file's name in a line: `meta`, `index`, or the volume's number.
fn file_name(alloc: Global, file: FileId) -> Result<String, AllocError>
    ensures { IfOk result (λ name. string_bytes name ≡ file_name file) }
{
    match file {
        FileId::Meta => format!(in alloc; "meta"),
        FileId::Index => format!(in alloc; "index"),
        FileId::Volume(number) => format!(in alloc; "{number}"),
    }
}

pub(crate) fn compressed_line(alloc: Global, file: FileId) -> Result<Bytes, NoMemory>
    ensures { IfOk result (λ line. line ≡ line_of (Compressed file)) }
{
    let name = file_name(alloc, file)?;
    let name = name.as_str();
    let line = format!(in alloc; "compressed {name}\n")?;
    Ok(List::from_vec(line.into_bytes()))
}

pub(crate) fn misfit_line(alloc: Global, file: FileId, at: u64) -> Result<Bytes, NoMemory>
    ensures { IfOk result (λ line. line ≡ line_of (NotArchive file at)) }
{
    let name = file_name(alloc, file)?;
    let name = name.as_str();
    let line = format!(in alloc; "not archive {name} {at}\n")?;
    Ok(List::from_vec(line.into_bytes()))
}

pub(crate) fn stands_line(alloc: Global, file: FileId) -> Result<Bytes, NoMemory>
    ensures { IfOk result (λ line. line ≡ line_of (Stands file)) }
{
    let name = file_name(alloc, file)?;
    let name = name.as_str();
    let line = format!(in alloc; "stands {name}\n")?;
    Ok(List::from_vec(line.into_bytes()))
}

pub(crate) fn nothing_line(alloc: Global, stamp: Stamp) -> Result<Bytes, NoMemory>
    ensures { IfOk result (λ line. line ≡ line_of (Nothing stamp)) }
{
    let sec = stamp.sec();
    let usec = stamp.usec();
    let line = format!(in alloc; "nothing at {sec} {usec}\n")?;
    Ok(List::from_vec(line.into_bytes()))
}

pub(crate) fn unsound_items_line(
    alloc: Global,
    first: Stamp,
    second: Stamp,
) -> Result<Bytes, NoMemory>
    ensures { IfOk result (λ line. line ≡ line_of (UnsoundItems first second)) }
{
    let sec = first.sec();
    let usec = first.usec();
    let next_sec = second.sec();
    let next_usec = second.usec();
    let line = format!(in alloc; "unsound items {sec} {usec} {next_sec} {next_usec}\n")?;
    Ok(List::from_vec(line.into_bytes()))
}

pub(crate) fn unsound_boundary_line(
    alloc: Global,
    entry: u64,
    file: FileId,
    below: u64,
    above: u64,
) -> Result<Bytes, NoMemory>
    ensures { IfOk result (λ line. line ≡ line_of (UnsoundBoundary entry file below above)) }
{
    let name = file_name(alloc, file)?;
    let name = name.as_str();
    let line = format!(in alloc; "unsound boundary {entry} {name} {below} {above}\n")?;
    Ok(List::from_vec(line.into_bytes()))
}

pub(crate) fn unsound_late_line(alloc: Global, entry: u64, stamp: Stamp) -> Result<Bytes, NoMemory>
    ensures { IfOk result (λ line. line ≡ line_of (UnsoundLate entry stamp)) }
{
    let sec = stamp.sec();
    let usec = stamp.usec();
    let line = format!(in alloc; "unsound late {entry} {sec} {usec}\n")?;
    Ok(List::from_vec(line.into_bytes()))
}

pub(crate) fn live_line(alloc: Global, volume: u32) -> Result<Bytes, NoMemory>
    ensures { IfOk result (λ line. line ≡ line_of (Live volume)) }
{
    let line = format!(in alloc; "live {volume}\n")?;
    Ok(List::from_vec(line.into_bytes()))
}

pub(crate) fn clock_end_line(alloc: Global, left: u32) -> Result<Bytes, NoMemory>
    ensures { IfOk result (λ line. line ≡ line_of (ClockEnd left)) }
{
    let line = format!(in alloc; "clock end {left}\n")?;
    Ok(List::from_vec(line.into_bytes()))
}

pub(crate) fn clock_fault_line(alloc: Global, left: u32) -> Result<Bytes, NoMemory>
    ensures { IfOk result (λ line. line ≡ line_of (ClockFault left)) }
{
    let line = format!(in alloc; "clock fault {left}\n")?;
    Ok(List::from_vec(line.into_bytes()))
}

// Why a reply of a peer isn't taken.
fn peer_fault(alloc: Global, why: PeerFault) -> Result<String, AllocError>
    ensures { IfOk result (λ text. string_bytes text ≡ peer_fault why) }
{
    match why {
        PeerFault::Ended { bytes } => format!(in alloc; "ended {bytes}"),
        PeerFault::Length { length } => format!(in alloc; "length {length}"),
        PeerFault::Decode => format!(in alloc; "decode"),
        PeerFault::Code { code } => format!(in alloc; "code {code}"),
        PeerFault::OtherType => format!(in alloc; "type"),
        PeerFault::Shape => format!(in alloc; "shape"),
    }
}

pub(crate) fn peer_line(alloc: Global, reply: u64, why: PeerFault) -> Result<Bytes, NoMemory>
    ensures { IfOk result (λ line. line ≡ line_of (Peer reply why)) }
{
    let fault = peer_fault(alloc, why)?;
    let fault = fault.as_str();
    let line = format!(in alloc; "peer {reply} {fault}\n")?;
    Ok(List::from_vec(line.into_bytes()))
}

#[tactic(auto, unfolding(pm_print::specs::Sets::pmid_text))]
pub(crate) fn lacks_line(alloc: Global, source: u32, pmid: Pmid) -> Result<Bytes, NoMemory>
    ensures { IfOk result (λ line. line ≡ line_of (Lacks source pmid)) }
{
    let domain = pmid.domain();
    let cluster = pmid.cluster();
    let item = pmid.item();
    let line = format!(in alloc; "lacks {source} {domain}.{cluster}.{item}\n")?;
    Ok(List::from_vec(line.into_bytes()))
}

#[tactic(auto, unfolding(pm_print::specs::Sets::pmid_text))]
pub(crate) fn clash_line(alloc: Global, pmid: Pmid) -> Result<Bytes, NoMemory>
    ensures { IfOk result (λ line. line ≡ line_of (Clashes pmid)) }
{
    let domain = pmid.domain();
    let cluster = pmid.cluster();
    let item = pmid.item();
    let line = format!(in alloc; "clash {domain}.{cluster}.{item}\n")?;
    Ok(List::from_vec(line.into_bytes()))
}
