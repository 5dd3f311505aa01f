//! How a run ends whose result isn't logged.
ghost use Rattle.std.specs.Prelude.{◌≡◌};
ghost use Rattle.script_runs.specs.Archives.{full_of};
ghost use Rattle.run_archive.specs.Endings.{ending_after};

use logger_core::LogFault;
use pcp_base::FileId;
use script_runs::{Ending, LimitKind};

fn ending_of_full(file: FileId, bytes: u64) -> Ending
    ensures { result ≡ full_of file bytes }
{
    let what = match file {
        FileId::Meta => LimitKind::Meta,
        FileId::Index => LimitKind::Index,
        FileId::Volume(_) => LimitKind::Volume,
    };
    Ending::Limit {
        what,
        number: bytes,
    }
}

/// How a run ends whose result is refused so.
pub fn ending_after(fault: LogFault) -> Ending
    ensures { result ≡ ending_after fault }
{
    match fault {
        LogFault::Large { bytes } => Ending::Limit {
            what: LimitKind::Record,
            number: bytes,
        },
        LogFault::NotLater { last } => Ending::NotLater { last },
        LogFault::Changed { pmid } => Ending::Changed { pmid },
        LogFault::Full { file, bytes } => ending_of_full(file, bytes),
        LogFault::NoMemory => Ending::NoMemory,
        // A run retires no volume, so that this is never answered.
        LogFault::Live { volume: _ } => Ending::DiskFault,
        LogFault::Closed => Ending::DiskFault,
        LogFault::DiskFault => Ending::DiskFault,
    }
}
