//! Configurations of a logger, and when their groups are due.
use case_book::Words;
use log_schedule::{Config, ConfigFault, Group, Groups};
use pcp_base::{NoMemory, Stamp};
use std::alloc::Global;

/// The configuration that was read last, and its groups once they are started.
#[derive(Drop)]
pub struct Schedule {
    config: Option<Config>,
    groups: Option<Groups>,
}

fn write_group(out: &mut String, group: &Group) -> Result<(), NoMemory> {
    match group.interval {
        Some(interval) => write!(out, "{interval} msec")?,
        None => out.push_str("once")?,
    }
    for name in group.names.as_slice() {
        out.push(' ')?;
        case_book::write_text(out, name.as_slice())?;
    }
    out.push('\n')?;
    Ok(())
}

fn write_stamp(out: &mut String, stamp: Option<Stamp>) -> Result<(), NoMemory> {
    match stamp {
        Some(stamp) => {
            let (sec, usec) = (stamp.sec(), stamp.usec());
            write!(out, "{sec} {usec}\n")?;
        }
        None => out.push_str("none\n")?,
    }
    Ok(())
}

impl Schedule {
    pub fn new() -> Schedule {
        Schedule {
            config: None,
            groups: None,
        }
    }

    fn read(&mut self, alloc: Global, text: &str) -> Result<Option<String>, NoMemory> {
        let Some(bytes) = case_book::read_text(alloc, text)? else {
            return Ok(None);
        };
        let mut out = String::new(alloc);
        match Config::read(alloc, &bytes) {
            Ok(config) => {
                for group in config.groups.as_slice() {
                    write_group(&mut out, group)?;
                }
                self.config = Some(config);
            }
            Err(ConfigFault::Grammar { at }) => {
                write!(&mut out, "fault at {at}\n")?;
            }
            Err(ConfigFault::NoMemory) => return Err(NoMemory),
        }
        Ok(Some(out))
    }

    fn start(&mut self, alloc: Global, now: Stamp) -> Result<bool, NoMemory> {
        match self.config.as_ref() {
            Some(config) => {
                self.groups = Some(Groups::start(alloc, config, now)?);
                Ok(true)
            }
            None => Ok(false),
        }
    }

    fn pass(&mut self, now: Stamp) -> bool {
        match self.groups.as_mut() {
            Some(groups) => {
                groups.passed(now);
                true
            }
            None => false,
        }
    }

    // What is told of a group: `due` at a moment, or `next`.
    fn tell(
        &self,
        alloc: Global,
        group: u32,
        now: Option<Stamp>,
    ) -> Result<Option<String>, NoMemory> {
        let Some(groups) = self.groups.as_ref() else {
            return Ok(None);
        };
        if group as usize >= groups.len() {
            return Ok(None);
        }
        let mut out = String::new(alloc);
        match now {
            Some(now) => out.push_str(if groups.is_due(group, now) {
                "yes\n"
            } else {
                "no\n"
            })?,
            None => write_stamp(&mut out, groups.next(group))?,
        }
        Ok(Some(out))
    }

    /// `schedule config TEXT`; `start SEC USEC` and `passed SEC USEC` of its groups; `due GROUP SEC USEC` and
    /// `next GROUP`, groups counted from 0.
    pub fn call(
        &mut self,
        alloc: Global,
        mut words: Words<'_>,
    ) -> Result<Option<String>, NoMemory> {
        let done = match words.next() {
            "config" => return self.read(alloc, words.rest()),
            "start" => match words.stamp() {
                Some(now) => self.start(alloc, now)?,
                None => false,
            },
            "passed" => match words.stamp() {
                Some(now) => self.pass(now),
                None => false,
            },
            "due" => {
                let (Some(group), Some(now)) = (words.number(), words.stamp()) else {
                    return Ok(None);
                };
                return self.tell(alloc, group, Some(now));
            }
            "next" => match words.number() {
                Some(group) => return self.tell(alloc, group, None),
                None => false,
            },
            _ => false,
        };
        Ok(if done { Some(String::new(alloc)) } else { None })
    }
}
