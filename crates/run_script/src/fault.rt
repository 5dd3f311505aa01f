//! The faults of a script.
ghost use Rattle.std.specs.Prelude.{◌≡◌};
ghost use Rattle.run_script.specs.declared.fault.LineStop.TheVariants.{NoMemory as Refused};
ghost use Rattle.run_script.specs.Faults.{no_line, broken_rule, stopped_by, on_line};

use mmv_writer::{LineError, LineFault};
use pcp_base::NoMemory;
use std::alloc::AllocError;
use std::error::Error;
use std::fmt;

/// Why a line of a script isn't taken.
#[derive(Clone, Copy, Debug)]
pub enum ScriptLineFault {
    /// The bytes are no line that may stand here, a row that an image's rules refuse, or a line that breaks a rule of scripts.
    Line(LineFault),
    /// The line has a region's form, and 64 regions stand before it.
    Regions,
}

impl fmt::Display for ScriptLineFault {
    fn fmt<W: fmt::Write>(&self, f: &mut fmt::Formatter<W>) -> fmt::Result {
        match self {
            ScriptLineFault::Line(fault) => fmt::Display::fmt(fault, f),
            ScriptLineFault::Regions => f.write_str("more than 64 regions"),
        }
    }
}

impl Error for ScriptLineFault {}

/// The first fault of a script.
#[derive(Clone, Copy, Debug)]
pub struct ScriptFault {
    /// The line's number, from 1; that of the line after the last where the script ends too early.
    pub line: u64,
    pub fault: ScriptLineFault,
}

impl fmt::Display for ScriptFault {
    fn fmt<W: fmt::Write>(&self, f: &mut fmt::Formatter<W>) -> fmt::Result {
        fmt::Display::fmt(&self.fault, f)
    }
}

impl Error for ScriptFault {}

/// Why a script wasn't read.
#[derive(Clone, Copy, Debug)]
pub enum ReadScriptError {
    Fault(ScriptFault),
    /// Memory was refused.
    NoMemory,
}

impl fmt::Display for ReadScriptError {
    fn fmt<W: fmt::Write>(&self, f: &mut fmt::Formatter<W>) -> fmt::Result {
        match self {
            ReadScriptError::Fault(fault) => fmt::Display::fmt(fault, f),
            ReadScriptError::NoMemory => f.write_str("out of memory"),
        }
    }
}

impl Error for ReadScriptError {}

/// Why a line wasn't taken.
#[derive(Clone, Copy)]
pub enum LineStop {
    Fault(ScriptLineFault),
    NoMemory,
}

impl From<NoMemory> for LineStop {
    ghost from_gives = { λ _ e. e ≡ Refused };

    fn from(_error: NoMemory) -> LineStop {
        LineStop::NoMemory
    }
}

impl From<AllocError> for LineStop {
    ghost from_gives = { λ _ e. e ≡ Refused };

    fn from(_error: AllocError) -> LineStop {
        LineStop::NoMemory
    }
}

impl From<LineError> for LineStop {
    ghost from_gives = { λ error e. e ≡ stopped_by error };

    fn from(error: LineError) -> LineStop {
        match error {
            LineError::Fault(fault) => LineStop::Fault(ScriptLineFault::Line(fault)),
            LineError::NoMemory => LineStop::NoMemory,
        }
    }
}

impl LineStop {
    /// A line that is none, or that may not stand here.
    pub fn grammar() -> LineStop
        ensures { result ≡ no_line }
    {
        LineStop::Fault(ScriptLineFault::Line(LineFault::Grammar))
    }

    /// A line that breaks a rule of scripts.
    pub fn condition() -> LineStop
        ensures { result ≡ broken_rule }
    {
        LineStop::Fault(ScriptLineFault::Line(LineFault::Condition))
    }

    /// The same of the line with this number.
    pub fn on(self, line: u64) -> ReadScriptError
        ensures { result ≡ on_line self line }
    {
        match self {
            LineStop::Fault(fault) => ReadScriptError::Fault(ScriptFault { line, fault }),
            LineStop::NoMemory => ReadScriptError::NoMemory,
        }
    }
}
