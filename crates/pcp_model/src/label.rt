//! What an archive label says: process, start, host and time zone, each in its range.
ghost use Rattle.std.specs.Prelude.{◌≡◌, ◌≤◌, ◌<◌, ◌⊎◌, length, MatchOption};
ghost use Rattle.pcp_base.specs.Texts.{IsText};
ghost use Rattle.pcp_model.specs.LabelFields.{FitsLabel};

use pcp_base::{Stamp, Text};
use std::marker::Model;

/// What the first record of each file of an archive says (LOGARCHIVE(5)): the logger's process number, the
/// archive's start, and the host and time zone that it was written for, of at most 63 and 39 bytes.
#[derive(Drop)]
pub struct Label {
    pid: u32,
    start: Stamp,
    host: Text,
    zone: Text,
}

impl Model for Label {
    ghost use Rattle.pcp_model.specs.LabelFields.{LabelFields, FitsLabel};

    ghost Value = { LabelFields };

    ghost view = { λ a. record { pid = a.pid; start = a.start; host = a.host; zone = a.zone } };

    ghost invariant = { λ a. FitsLabel record { pid = a.pid; start = a.start; host = a.host; zone = a.zone } };
}

impl Label {
    /// The label of these values; `None` exactly where `host` is above 63 bytes or `zone` above 39.
    pub fn build(pid: u32, start: Stamp, host: Text, zone: Text) -> Option<Label>
        ensures { MatchOption result ((63 < length host) ⊎ (39 < length zone))
            (λ l. FitsLabel l × (l ≡ record { pid = pid; start = start; host = host; zone = zone })) }
    {
        if host.as_slice().len() > 63 || zone.as_slice().len() > 39 {
            return None;
        }
        Some(Label {
            pid,
            start,
            host,
            zone,
        })
    }

    /// The logger's process number.
    pub fn pid(&self) -> u32
        ensures { result ≡ self.now.pid }
    {
        self.pid
    }

    /// When the archive begins.
    pub fn start(&self) -> Stamp
        ensures { result ≡ self.now.start }
    {
        self.start
    }

    /// The host that was logged, at most 63 bytes (LOGARCHIVE(5)).
    pub fn host(&self) -> &Text
        ensures value { result.now ≡ self.now.host }
        ensures fits { FitsLabel self.now }
    {
        &self.host
    }

    /// The host's time zone, at most 39 bytes (LOGARCHIVE(5)).
    pub fn zone(&self) -> &Text
        ensures value { result.now ≡ self.now.zone }
        ensures fits { FitsLabel self.now }
    {
        &self.zone
    }
}
