//! The refusals of all calls as one flat list, each with its exit status and its last line.
ghost use Rattle.std.specs.Prelude.{◌≡◌, IfNone, IfOk, IfSome, OnErr, OnOk};
ghost use Rattle.pm_words.specs.Refusals.{IsNumbered, Wrote, ending_refusal, full_refusal, line_of, status_of};

use crate::lines::{
    changed_line, clash_line, clock_end_line, clock_fault_line, compressed_line, lacks_line,
    limit_line, live_line, misfit_line, not_later_line, nothing_line, peer_line, rule_line,
    rule_status, script_line, script_status, stands_line, unsound_boundary_line,
    unsound_items_line, unsound_late_line, usage_line,
};
use archive_check::CheckFault;
use archive_reader::ReaderFault;
use archive_recovery::RecoverFault;
use logging_run::RunFault;
use mmv_layout::ImageFault;
use mmv_writer::{LineFault, TextFault};
use pcp_base::{Bytes, FileId, NoMemory, Pmid, Stamp};
use pcp_outside::{Sink, write_all};
use pm_print::{image_fault_text, line_fault_text};
use rule_watch::RuleFault;
use run_script::ScriptFault;
use script_runs::{Ending, LimitKind};
use std::alloc::Global;

/// Why a command ended before it was done.
#[derive(Clone, Copy)]
pub enum Refusal {
    /// The word at this index is bad, or is missing.
    Usage {
        at: usize,
    },
    /// The source failed.
    ReadFault,
    /// The source holds more than 16 MiB.
    InputLimit,
    /// The input is no image.
    Image(ImageFault),
    /// The input is no layout text.
    Line(TextFault),
    /// The input is no script.
    Script(ScriptFault),
    /// The input is no text of rules.
    Rules(RuleFault),
    /// The condition of this line of the script fails in its run.
    Condition {
        line: u32,
    },
    /// `number` is above the limit: so many metrics, bytes or volumes would be needed.
    Limit {
        what: LimitKind,
        number: u64,
    },
    /// A result isn't stamped after all that the archive has; this is the greatest stamp.
    NotLater {
        last: Stamp,
    },
    /// The archive describes the metric otherwise.
    Changed {
        pmid: Pmid,
    },
    /// The file stands under its name with `.xz` or `.gz` added.
    Compressed {
        file: FileId,
    },
    /// The file fits no archive from this byte on.
    NotArchive {
        file: FileId,
        at: u64,
    },
    /// Nothing that was asked for is there at this moment.
    Nothing {
        stamp: Stamp,
    },
    /// The archive isn't sound: an item is stamped before the one before it.
    UnsoundItems {
        first: Stamp,
        second: Stamp,
    },
    /// It isn't sound: the entry at this position of the index, counted from 0, says an offset of a file that is no record boundary; the
    /// boundaries next to it are these.
    UnsoundBoundary {
        entry: u64,
        file: FileId,
        below: u64,
        above: u64,
    },
    /// It isn't sound: a record before that entry's offsets is stamped so, after the entry.
    UnsoundLate {
        entry: u64,
        stamp: Stamp,
    },
    /// The number of `retire` is above the archive's current volume, which is this one, or the archive has no label (0).
    Live {
        volume: u32,
    },
    /// The disk failed.
    DiskFault,
    /// The clock's moments had ended, and so many samples were to come.
    ClockEnd {
        left: u32,
    },
    /// The clock failed, and so many samples were to come.
    ClockFault {
        left: u32,
    },
    /// A door failed.
    Accept,
    /// A reply of the peer, counted from 0, isn't one that may come there.
    Peer {
        reply: u64,
        why: PeerFault,
    },
    /// An item of the merge of two archives shows the metric with values, and that archive of the two, 1 or 2, doesn't describe it with a name,
    /// or has no name for an instance of it.
    Lacks {
        source: u32,
        pmid: Pmid,
    },
    /// An item of the merge shows the metric with an instance whose number has one name in the first archive and another in the second.
    Clashes {
        pmid: Pmid,
    },
    /// The file stands where an archive is to come to stand, under its name or under that with `.xz` or `.gz` added.
    Stands {
        file: FileId,
    },
    NoMemory,
}

/// Why a reply of a peer isn't taken.
#[derive(Clone, Copy)]
pub enum PeerFault {
    /// The replies end so many bytes into it.
    Ended { bytes: u64 },
    /// Its length is that of no PDU.
    Length { length: u64 },
    /// Its bytes are no PDU.
    Decode,
    /// It is an error with this code.
    Code { code: i32 },
    /// It is a PDU of another type than the one that is due.
    OtherType,
    /// It has the type that is due, and doesn't answer what was asked.
    Shape,
}

impl From<NoMemory> for Refusal {
    ghost use Rattle.pm_words.specs.declared.refusal.Refusal.TheVariants.{NoMemory as Stopped};

    ghost from_gives = { λ _ e. e ≡ Stopped };

    fn from(_error: NoMemory) -> Refusal {
        Refusal::NoMemory
    }
}

impl From<ReaderFault> for Refusal {
    ghost use Rattle.pm_words.specs.Refusals.{reader_refusal};

    ghost from_gives = { λ fault e. e ≡ reader_refusal fault };

    fn from(fault: ReaderFault) -> Refusal {
        match fault {
            ReaderFault::Compressed { file } => Refusal::Compressed { file },
            ReaderFault::NotArchive { file, at } => Refusal::NotArchive { file, at },
            ReaderFault::DiskFault => Refusal::DiskFault,
            ReaderFault::NoMemory => Refusal::NoMemory,
        }
    }
}

impl From<CheckFault> for Refusal {
    ghost use Rattle.pm_words.specs.Refusals.{check_refusal};

    ghost from_gives = { λ fault e. e ≡ check_refusal fault };

    fn from(fault: CheckFault) -> Refusal {
        match fault {
            CheckFault::Items { first, second } => Refusal::UnsoundItems { first, second },
            CheckFault::Boundary {
                entry,
                file,
                below,
                above,
            } => Refusal::UnsoundBoundary {
                entry,
                file,
                below,
                above,
            },
            CheckFault::Late { entry, stamp } => Refusal::UnsoundLate { entry, stamp },
            CheckFault::Reader(fault) => Refusal::from(fault),
        }
    }
}

// A file would be too long, or there would be too many volumes.
fn full_refusal(file: FileId, number: u64) -> Refusal
    ensures { result ≡ full_refusal file number }
{
    let what = match file {
        FileId::Meta => LimitKind::Meta,
        FileId::Index => LimitKind::Index,
        FileId::Volume(_) => LimitKind::Volume,
    };
    Refusal::Limit { what, number }
}

impl From<RunFault> for Refusal {
    ghost use Rattle.pm_words.specs.Refusals.{run_refusal};

    ghost from_gives = { λ fault e. e ≡ run_refusal fault };

    fn from(fault: RunFault) -> Refusal {
        match fault {
            RunFault::Compressed { file } => Refusal::Compressed { file },
            RunFault::NotArchive { file, at } => Refusal::NotArchive { file, at },
            RunFault::Large { bytes } => Refusal::Limit {
                what: LimitKind::Record,
                number: bytes,
            },
            RunFault::NotLater { last } => Refusal::NotLater { last },
            RunFault::Changed { pmid } => Refusal::Changed { pmid },
            RunFault::Full { file, bytes } => full_refusal(file, bytes),
            RunFault::NoMemory => Refusal::NoMemory,
            RunFault::DiskFault => Refusal::DiskFault,
        }
    }
}

impl From<RecoverFault> for Refusal {
    ghost use Rattle.pm_words.specs.Refusals.{recover_refusal};

    ghost from_gives = { λ fault e. e ≡ recover_refusal fault };

    fn from(fault: RecoverFault) -> Refusal {
        match fault {
            RecoverFault::Compressed { file } => Refusal::Compressed { file },
            RecoverFault::NotArchive { file, at } => Refusal::NotArchive { file, at },
            RecoverFault::DiskFault => Refusal::DiskFault,
            RecoverFault::NoMemory => Refusal::NoMemory,
        }
    }
}

/// The refusal of a run that ended so, if it is one.
pub fn of_ending(ending: Ending) -> Option<Refusal>
    ensures { result ≡ ending_refusal ending }
{
    match ending {
        Ending::Done => None,
        Ending::Condition { line } => Some(Refusal::Condition { line }),
        Ending::DiskFault => Some(Refusal::DiskFault),
        Ending::NotArchive { file, at } => Some(Refusal::NotArchive { file, at }),
        Ending::Compressed { file } => Some(Refusal::Compressed { file }),
        Ending::Limit { what, number } => Some(Refusal::Limit { what, number }),
        Ending::NoMemory => Some(Refusal::NoMemory),
        Ending::NotLater { last } => Some(Refusal::NotLater { last }),
        Ending::Changed { pmid } => Some(Refusal::Changed { pmid }),
        Ending::ClockEnd { left } => Some(Refusal::ClockEnd { left }),
        Ending::ClockFault { left } => Some(Refusal::ClockFault { left }),
    }
}

impl Refusal {
    /// The exit status: 1 to 3, 5 to 14, 16, 18 to 21 or 23. Of a sink that fails (4) nothing can be told.
    pub fn status(&self) -> u8
        ensures { result ≡ status_of self.now }
    {
        match self {
            Refusal::Usage { .. } => 1,
            Refusal::Image(_) | Refusal::Line(_) | Refusal::Condition { .. } => 2,
            Refusal::Script(fault) => script_status(&fault.fault),
            Refusal::Rules(fault) => rule_status(&fault.fault),
            Refusal::ReadFault => 3,
            Refusal::DiskFault => 5,
            Refusal::Compressed { .. } | Refusal::NotArchive { .. } => 6,
            Refusal::InputLimit | Refusal::Limit { .. } => 7,
            Refusal::ClockEnd { .. } => 8,
            Refusal::NoMemory => 9,
            Refusal::UnsoundItems { .. }
            | Refusal::UnsoundBoundary { .. }
            | Refusal::UnsoundLate { .. } => 10,
            Refusal::Nothing { .. } => 11,
            Refusal::NotLater { .. } => 12,
            Refusal::Changed { .. } => 13,
            Refusal::Live { .. } => 14,
            Refusal::Peer { .. } => 16,
            Refusal::Lacks { .. } => 18,
            Refusal::Clashes { .. } => 19,
            Refusal::ClockFault { .. } => 20,
            Refusal::Accept => 21,
            Refusal::Stands { .. } => 23,
        }
    }

    // The last line, where it is always the same.
    fn plain_line(&self) -> Option<&'static [u8]>
        ensures line { IfSome result (λ line. line.now ≡ line_of self.now) }
        ensures numbered { IfNone result (IsNumbered self.now) }
    {
        match self {
            Refusal::ReadFault => Some(b"read fault\n"),
            Refusal::InputLimit => Some(b"limit input 16777217\n"),
            Refusal::DiskFault => Some(b"disk fault\n"),
            Refusal::Accept => Some(b"accept fault\n"),
            Refusal::NoMemory => Some(b""),
            _ => None,
        }
    }

    // The last line, where making it takes memory.
    fn numbered_line(&self, alloc: Global) -> Result<Bytes, NoMemory>
        requires { IsNumbered self.now }
        ensures { IfOk result (λ line. line ≡ line_of self.now) }
    {
        match self {
            Refusal::Usage { at } => usage_line(alloc, *at),
            Refusal::Image(fault) => image_fault_text(alloc, fault),
            Refusal::Line(fault) => line_fault_text(alloc, fault.line, &fault.fault),
            Refusal::Script(fault) => script_line(alloc, fault),
            Refusal::Rules(fault) => rule_line(alloc, fault),
            Refusal::Condition { line } => {
                line_fault_text(alloc, *line as u64, &LineFault::Condition)
            }
            Refusal::Limit { what, number } => limit_line(alloc, *what, *number),
            Refusal::NotLater { last } => not_later_line(alloc, *last),
            Refusal::Changed { pmid } => changed_line(alloc, *pmid),
            Refusal::Compressed { file } => compressed_line(alloc, *file),
            Refusal::NotArchive { file, at } => misfit_line(alloc, *file, *at),
            Refusal::Nothing { stamp } => nothing_line(alloc, *stamp),
            Refusal::UnsoundItems { first, second } => unsound_items_line(alloc, *first, *second),
            Refusal::UnsoundBoundary {
                entry,
                file,
                below,
                above,
            } => unsound_boundary_line(alloc, *entry, *file, *below, *above),
            Refusal::UnsoundLate { entry, stamp } => unsound_late_line(alloc, *entry, *stamp),
            Refusal::Live { volume } => live_line(alloc, *volume),
            Refusal::ClockEnd { left } => clock_end_line(alloc, *left),
            Refusal::ClockFault { left } => clock_fault_line(alloc, *left),
            Refusal::Peer { reply, why } => peer_line(alloc, *reply, *why),
            Refusal::Lacks { source, pmid } => lacks_line(alloc, *source, *pmid),
            Refusal::Clashes { pmid } => clash_line(alloc, *pmid),
            Refusal::Stands { file } => stands_line(alloc, *file),
            // Their lines have no number.
            Refusal::ReadFault
            | Refusal::InputLimit
            | Refusal::DiskFault
            | Refusal::Accept
            | Refusal::NoMemory => unreachable!(),
        }
    }

    /// Writes the last line; where the sink fails, a front of it. Want of memory comes only where the line
    /// has a number, and then nothing is written.
    pub fn tell<O: Sink>(&self, alloc: Global, out: &mut O) -> Result<(), NoMemory>
        ensures wrote { O.tells → OnOk result (Wrote (O.faults out.old) (O.faults out.new) (O.written out.old) (O.written out.new) (line_of self.now)) }
        ensures nothing { O.tells → OnErr result (O.written out.new ≡ O.written out.old) }
        ensures numbered { OnErr result (IsNumbered self.now) }
    {
        if let Some(line) = self.plain_line() {
            let _ = write_all(out, line);
            return Ok(());
        }
        let line = self.numbered_line(alloc)?;
        let _ = write_all(out, line.as_slice());
        Ok(())
    }
}
