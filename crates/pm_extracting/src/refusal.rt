//! What is told of an extract that ended before all was merged.
ghost use Rattle.std.specs.Prelude.{◌≡◌, IfNone, IfSome, []};
ghost use Rattle.pm_extracting.specs.Refusals.{fault_refusal, front_of, merge_refusal, source_front, source_line};

use archive_check::CheckFault;
use archive_merge::MergeFault;
use archive_reader::ReaderFault;
use log_extract::ExtractFault;
use pm_words::Refusal;

// Why an item can't be described.
fn merge_refusal(fault: MergeFault) -> Refusal
    ensures { result ≡ merge_refusal fault }
{
    match fault {
        MergeFault::Lacks { source, pmid } => Refusal::Lacks { source, pmid },
        MergeFault::Clashes { pmid } => Refusal::Clashes { pmid },
        MergeFault::NoMemory => Refusal::NoMemory,
    }
}

/// The refusal that tells why an extract ended.
pub(crate) fn fault_refusal(fault: ExtractFault) -> Refusal
    ensures { result ≡ fault_refusal fault }
{
    match fault {
        ExtractFault::Source { fault, .. } => Refusal::from(fault),
        ExtractFault::Merge(fault) => merge_refusal(fault),
        ExtractFault::Archive(fault) => Refusal::from(fault),
    }
}

// The line that names a source.
fn source_line(number: u32) -> &'static [u8]
    ensures { result.now ≡ source_line number }
{
    if number == 1 {
        return b"source 1\n";
    }
    b"source 2\n"
}

// The line that names a source which isn't passed; of one for which memory was refused there is none.
fn source_front(number: u32, fault: &CheckFault) -> Option<&'static [u8]>
    ensures line { IfSome result (λ line. line.now ≡ source_front number fault.now) }
    ensures none { IfNone result (source_front number fault.now ≡ []) }
{
    match fault {
        CheckFault::Reader(ReaderFault::NoMemory) => None,
        _ => Some(source_line(number)),
    }
}

/// The line that stands before that of the refusal, where a source is to be named.
pub(crate) fn front_of(fault: &ExtractFault) -> Option<&'static [u8]>
    ensures line { IfSome result (λ line. line.now ≡ front_of fault.now) }
    ensures none { IfNone result (front_of fault.now ≡ []) }
{
    match fault {
        ExtractFault::Source { number, fault } => source_front(*number, fault),
        ExtractFault::Merge(_) | ExtractFault::Archive(_) => None,
    }
}
