//! The faults of a text of rules.
ghost use Rattle.std.specs.Prelude.{◌≡◌};
ghost use Rattle.rule_watch.specs.Faults.{on_line};

use pcp_base::NoMemory;
use std::error::Error;
use std::fmt;
use text_lines::TakeFault;

/// Why a line is refused: it isn't a rule, its label stands before it, or 64 rules do; the first of these that is so.
#[derive(Clone, Copy, Debug)]
pub enum RuleLineFault {
    Grammar,
    Condition,
    Many,
}

impl fmt::Display for RuleLineFault {
    fn fmt<W: fmt::Write>(&self, f: &mut fmt::Formatter<W>) -> fmt::Result {
        f.write_str(match self {
            RuleLineFault::Grammar => "no rule",
            RuleLineFault::Condition => "a label that stands before",
            RuleLineFault::Many => "more than 64 rules",
        })
    }
}

impl Error for RuleLineFault {}

/// The first fault of a text of rules.
#[derive(Clone, Copy, Debug)]
pub struct RuleFault {
    /// The line's number, from 1.
    pub line: u64,
    pub fault: RuleLineFault,
}

impl fmt::Display for RuleFault {
    fn fmt<W: fmt::Write>(&self, f: &mut fmt::Formatter<W>) -> fmt::Result {
        fmt::Display::fmt(&self.fault, f)
    }
}

impl Error for RuleFault {}

/// Why rules weren't read.
#[derive(Clone, Copy, Debug)]
pub enum ReadRulesError {
    Fault(RuleFault),
    /// Memory was refused.
    NoMemory,
}

impl fmt::Display for ReadRulesError {
    fn fmt<W: fmt::Write>(&self, f: &mut fmt::Formatter<W>) -> fmt::Result {
        match self {
            ReadRulesError::Fault(fault) => fmt::Display::fmt(fault, f),
            ReadRulesError::NoMemory => f.write_str("out of memory"),
        }
    }
}

impl Error for ReadRulesError {}

/// Why a line wasn't taken.
#[derive(Clone, Copy)]
pub enum LineStop {
    Fault(RuleLineFault),
    NoMemory,
}

impl From<NoMemory> for LineStop {
    ghost use Rattle.rule_watch.specs.declared.fault.LineStop.TheVariants.{NoMemory as Refused};

    ghost from_gives = { λ _ e. e ≡ Refused };

    fn from(_error: NoMemory) -> LineStop {
        LineStop::NoMemory
    }
}

impl From<TakeFault> for LineStop {
    ghost use Rattle.rule_watch.specs.Faults.{stopped_by};

    ghost from_gives = { λ error e. e ≡ stopped_by error };

    fn from(error: TakeFault) -> LineStop {
        match error {
            TakeFault::NoLine => LineStop::Fault(RuleLineFault::Grammar),
            TakeFault::NoMemory => LineStop::NoMemory,
        }
    }
}

impl LineStop {
    /// The same of the line with this number.
    pub fn on(self, line: u64) -> ReadRulesError
        ensures { result ≡ on_line self line }
    {
        match self {
            LineStop::Fault(fault) => ReadRulesError::Fault(RuleFault { line, fault }),
            LineStop::NoMemory => ReadRulesError::NoMemory,
        }
    }
}
