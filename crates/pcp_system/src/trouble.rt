//! Why a call of the system on a file failed.
use pcp_outside::FileId;
use std::alloc::{AllocError, Global};
use std::fmt::{self, Display, Formatter};
use std::io::{self, ErrorKind};

/// A call of the system.
#[derive(Clone, Copy, Debug)]
pub enum Call {
    List,
    Measure,
    Open,
    Lock,
    Read,
    Write,
    Sync,
    Cut,
}

impl Display for Call {
    fn fmt<W: fmt::Write>(&self, f: &mut Formatter<W>) -> fmt::Result {
        f.write_str(match self {
            Call::List => "list",
            Call::Measure => "measure",
            Call::Open => "open",
            Call::Lock => "lock",
            Call::Read => "read",
            Call::Write => "write",
            Call::Sync => "sync",
            Call::Cut => "cut",
        })
    }
}

/// The call that failed, the file that it was made on (`None`: their folder), and the system's reason.
#[derive(Clone, Copy)]
pub struct Trouble {
    pub call: Call,
    pub file: Option<FileId>,
    pub error: io::Error,
}

impl From<AllocError> for Trouble {
    fn from(_error: AllocError) -> Trouble {
        Trouble {
            call: Call::Open,
            file: None,
            error: io::Error::from(ErrorKind::OutOfMemory),
        }
    }
}

/// The answer of a call on a file.
pub(crate) fn of_file<T>(call: Call, file: FileId, answer: io::Result<T>) -> Result<T, Trouble> {
    match answer {
        Ok(value) => Ok(value),
        Err(error) => Err(Trouble {
            call,
            file: Some(file),
            error,
        }),
    }
}

/// The answer of a call on the files' folder.
pub(crate) fn of_folder<T>(call: Call, answer: io::Result<T>) -> Result<T, Trouble> {
    match answer {
        Ok(value) => Ok(value),
        Err(error) => Err(Trouble {
            call,
            file: None,
            error,
        }),
    }
}

/// A refusal of the disk's own.
pub(crate) fn refused(call: Call, file: FileId, reason: &str) -> Trouble {
    Trouble {
        call,
        file: Some(file),
        error: io::Error::other(reason),
    }
}

/// A line that says what failed: the name of a file, the system's reason, and its call.
pub(crate) fn line_of(
    alloc: Global,
    name: &str,
    error: &io::Error,
    call: Call,
) -> Result<String, AllocError> {
    let told = format!(in alloc; "{error}")?;
    let (first, rest) = parted(reason_in(told.as_str()));
    format!(in alloc; "{name}: {first}{rest} ({call})")
}

// What the system says of an error, without its number.
fn reason_in(told: &str) -> &str {
    match told.split_once(" (os error") {
        Some((reason, _)) => reason,
        None => told,
    }
}

// The first letter as it stands within a line, and the rest.
fn parted(reason: &str) -> (char, &str) {
    match reason.as_bytes().first() {
        Some(first) => (
            char::from(first.to_ascii_lowercase()),
            reason.get(1..).unwrap_or(""),
        ),
        None => ('?', ""),
    }
}
