//! The configuration of a logger as its groups, and the call that reads it (pmlogger(1)).

ghost use Rattle.std.specs.Prelude.{◌≡◌, ℕ, ◌↔◌, ◌<◌, ◌≤◌, List as Sequence, IfOk, IfErr, IsTrue};
ghost use Rattle.log_schedule.specs.Configuration.{IsConfiguration, IsFault};
ghost use Rattle.log_schedule.specs.Refusals.{IsReadAs, IsRefusal};
ghost use Rattle.log_schedule.specs.declared.config.ConfigFault.TheVariants.{NoMemory as Refused, Grammar as Ungrammatical};
ghost use Rattle.log_schedule.specs.declared.config.Group.{Group as Grouped};

use crate::found::Found;
use crate::stage::Stage;
use pcp_base::{List, NoMemory, Text};
use std::alloc::Global;
use std::error::Error;
use std::fmt;

/// The groups of a logger, one for each statement, in order (pmlogger(1)).
#[derive(Drop)]
pub struct Config {
    pub groups: List<Group>,
}

/// The metrics of one statement, and how often they are logged: `interval` is in milliseconds, and
/// `None` stands for `once`.
#[derive(Drop)]
pub struct Group {
    pub interval: Option<u64>,
    pub names: List<Text>,
}

/// Why a configuration wasn't read.
#[derive(Clone, Copy, Debug)]
pub enum ConfigFault {
    /// The first byte that no statement has there; `at` is the text's length where the text ends too early.
    Grammar { at: u64 },
    /// Memory was refused.
    NoMemory,
}

impl fmt::Display for ConfigFault {
    fn fmt<W: fmt::Write>(&self, f: &mut fmt::Formatter<W>) -> fmt::Result {
        f.write_str(match self {
            ConfigFault::Grammar { .. } => "a byte belongs to no statement",
            ConfigFault::NoMemory => "out of memory",
        })
    }
}

impl Error for ConfigFault {}

impl From<NoMemory> for ConfigFault {
    ghost from_gives = { λ _ e. e ≡ Refused };

    fn from(_error: NoMemory) -> ConfigFault {
        ConfigFault::NoMemory
    }
}

impl Config {
    /// Reads statements `log mandatory on INTERVAL { NAMES }` (pmlogger(1)); the fault is the first byte that
    /// no statement has there.
    pub fn read(alloc: Global, text: &[u8]) -> Result<Config, ConfigFault>
        // What is read is a configuration of these groups.
        ensures read { IfOk result (λ config. IsConfiguration text.now config.groups) }
        // Each configuration is read, as its groups and no others.
        ensures all { (groups : Sequence Grouped) → IsConfiguration text.now groups → IsReadAs groups result }
        // A fault is the first.
        ensures fault { IfErr result (IsRefusal text.now) }
    {
        let mut found = Found::empty(alloc);
        let mut stage = Stage::Between;
        for (at, byte) in text.iter().enumerate() {
            let Some((next, act)) = stage.take(*byte) else {
                return Err(fault(at));
            };
            found.change(act, *byte)?;
            stage = next;
        }
        if !stage.is_between() {
            return Err(fault(text.len()));
        }
        Ok(Config {
            groups: found.into_groups(),
        })
    }
}

// The fault at this offset.
fn fault(at: usize) -> ConfigFault
    ensures { result ≡ Ungrammatical at }
{
    ConfigFault::Grammar { at: at as u64 }
}
