//! The faults of a line and of a text.
ghost use Rattle.std.specs.Prelude.{◌≡◌, MatchResult};
ghost use Rattle.mmv_writer.specs.declared.fault.BuildFault.TheVariants.{NoMemory as NoMemoryToBuild};
ghost use Rattle.mmv_writer.specs.declared.line_fault.LineError.TheVariants.{Fault as LineStops, NoMemory as Refused};
ghost use Rattle.mmv_writer.specs.Reading.{stopped_by, on_line};

use crate::fault::BuildFault;
use pcp_base::NoMemory;
use std::error::Error;
use std::fmt;

/// Why a line isn't taken.
#[derive(Clone, Copy, Debug)]
pub enum LineFault {
    /// The bytes are no line, no line that may stand here, or a value whose content isn't of its metric's kind or in
    /// its range.
    Grammar,
    /// A row that the builder refuses.
    Build(BuildFault),
    /// A line that has its form and breaks a rule of scripts. Layout text has no such rule.
    Condition,
}

impl fmt::Display for LineFault {
    fn fmt<W: fmt::Write>(&self, f: &mut fmt::Formatter<W>) -> fmt::Result {
        match self {
            LineFault::Grammar => f.write_str("no line of layout text"),
            LineFault::Build(fault) => fmt::Display::fmt(fault, f),
            LineFault::Condition => f.write_str("a line that breaks a rule of scripts"),
        }
    }
}

impl Error for LineFault {}

/// The first fault of a text.
#[derive(Clone, Copy, Debug)]
pub struct TextFault {
    /// The line's number, from 1; that of the line after the last where the whole text is at fault.
    pub line: u64,
    pub fault: LineFault,
}

impl fmt::Display for TextFault {
    fn fmt<W: fmt::Write>(&self, f: &mut fmt::Formatter<W>) -> fmt::Result {
        fmt::Display::fmt(&self.fault, f)
    }
}

impl Error for TextFault {}

/// Why a line wasn't added.
#[derive(Clone, Copy, Debug)]
pub enum LineError {
    Fault(LineFault),
    /// Memory was refused.
    NoMemory,
}

impl fmt::Display for LineError {
    fn fmt<W: fmt::Write>(&self, f: &mut fmt::Formatter<W>) -> fmt::Result {
        match self {
            LineError::Fault(fault) => fmt::Display::fmt(fault, f),
            LineError::NoMemory => f.write_str("out of memory"),
        }
    }
}

impl Error for LineError {}

/// Why a text has no image.
#[derive(Clone, Copy, Debug)]
pub enum ReadTextError {
    Fault(TextFault),
    /// Memory was refused.
    NoMemory,
}

impl fmt::Display for ReadTextError {
    fn fmt<W: fmt::Write>(&self, f: &mut fmt::Formatter<W>) -> fmt::Result {
        match self {
            ReadTextError::Fault(fault) => fmt::Display::fmt(fault, f),
            ReadTextError::NoMemory => f.write_str("out of memory"),
        }
    }
}

impl Error for ReadTextError {}

impl From<NoMemory> for LineError {
    ghost from_gives = { λ _ e. e ≡ Refused };

    fn from(_error: NoMemory) -> LineError {
        LineError::NoMemory
    }
}

impl From<BuildFault> for LineError {
    ghost from_gives = { λ fault e. e ≡ stopped_by fault };

    fn from(fault: BuildFault) -> LineError {
        match fault {
            BuildFault::NoMemory => LineError::NoMemory,
            fault => LineError::Fault(LineFault::Build(fault)),
        }
    }
}

impl LineError {
    /// The same of the line with this number.
    pub fn on(self, line: u64) -> ReadTextError
        ensures { result ≡ on_line self line }
    {
        match self {
            LineError::Fault(fault) => ReadTextError::Fault(TextFault { line, fault }),
            LineError::NoMemory => ReadTextError::NoMemory,
        }
    }
}
