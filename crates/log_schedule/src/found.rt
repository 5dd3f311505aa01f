//! What has been read so far of a configuration.

ghost use Rattle.std.specs.Prelude.{◌≡◌, ◌<◌, [], ◌∷◌, ◌++◌, OnOk, None};
ghost use Rattle.log_schedule.specs.Scanning.{after_act, with_statement, with_name};

use crate::config::Group;
use crate::stage::Act;
use pcp_base::{Bytes, List, NoMemory, Text};
use std::alloc::Global;
use std::marker::Model;
use std::mem;

/// What has been read of a configuration: its whole groups, and of the statement begun the interval, the
/// whole names and the last name.
#[derive(Drop)]
pub struct Found {
    alloc: Global,
    groups: List<Group>,
    interval: Option<u64>,
    names: List<Text>,
    name: Bytes,
}

impl Model for Found {
    ghost use Rattle.log_schedule.specs.Scanning.{Found as Content};
    ghost use Rattle.pcp_base.specs.Texts.{IsText};

    ghost Value = { Content };

    ghost view = { λ a. record { groups = a.groups; interval = a.interval; names = a.names; name = a.name } };

    ghost invariant = { λ a. IsText a.name };
}

impl Found {
    /// What has been read before the first byte: nothing.
    pub fn empty(alloc: Global) -> Found
        ensures { result ≡ record { groups = []; interval = None; names = []; name = [] } }
    {
        Found {
            alloc,
            groups: List::empty(alloc),
            interval: None,
            names: List::empty(alloc),
            name: Bytes::empty(alloc),
        }
    }

    /// The whole groups.
    pub fn into_groups(self) -> List<Group>
        ensures { result ≡ self.groups }
    {
        self.groups
    }

    /// Does what a byte does at its stage: `act`, with this byte.
    pub fn change(&mut self, act: Act, byte: u8) -> Result<(), NoMemory>
        requires { 0 < byte }
        ensures { OnOk result (self.new ≡ after_act act byte self.old) }
    {
        match act {
            Act::Keep => Ok(()),
            Act::Interval(interval) => {
                self.interval = interval;
                Ok(())
            }
            Act::Begin => self.begin(byte),
            Act::Add => self.add(byte),
            Act::Name => self.end_name(),
            Act::Statement => self.end_statement(),
            Act::Last => {
                self.end_name()?;
                self.end_statement()
            }
        }
    }

    // Begins a name with the byte.
    fn begin(&mut self, byte: u8) -> Result<(), NoMemory>
        requires { 0 < byte }
        ensures { OnOk result (self.new ≡ record self.old { name = byte ∷ [] }) }
    {
        self.name = Bytes::empty(self.alloc);
        self.add(byte)
    }

    // Adds the byte to the name begun.
    fn add(&mut self, byte: u8) -> Result<(), NoMemory>
        requires { 0 < byte }
        ensures { OnOk result (self.new ≡ record self.old { name = self.old.name ++ byte ∷ [] }) }
    {
        self.name.push(byte)
    }

    // Puts the name begun behind the whole names.
    fn end_name(&mut self) -> Result<(), NoMemory>
        ensures { OnOk result (self.new ≡ with_name self.old) }
    {
        let name = Text::clean_copy(self.alloc, self.name.as_slice())?;
        self.names.push(name)
    }

    // Makes a group of the interval and the whole names, and leaves no name.
    fn end_statement(&mut self) -> Result<(), NoMemory>
        ensures { OnOk result (self.new ≡ with_statement self.old) }
    {
        let names = mem::replace(&mut self.names, List::empty(self.alloc));
        self.groups.push(Group {
            interval: self.interval,
            names,
        })
    }
}
