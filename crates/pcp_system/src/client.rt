//! What a client sends, or a server, and how long it is waited for.
ghost use Rattle.std.specs.Prelude.{◌≡◌, ◌≤◌, [], length, IfOk, OnOk};
ghost use Rattle.pcp_outside.specs.Causes.{HasCause};

use crate::connection::Connection;
use pcp_outside::{Failed, Source};
use std::io::{self, ErrorKind, Read};
use std::time::Duration;

/// How long a client is waited for, or a server, before its connection is closed.
#[derive(Clone, Copy)]
pub struct Patience {
    /// The next byte of a PDU that it has begun, and that it takes some of what is sent to it.
    pub begun: Duration,
    /// The first byte of a PDU.
    pub idle: Duration,
}

impl Default for Patience {
    /// pmcd(1) waits 5 seconds for a client in the middle of a PDU. One that is silent holds one of the few doors, so after 10 minutes,
    /// longer than any logger's interval in practice, another client gets it.
    fn default() -> Patience {
        Patience {
            begun: Duration::from_secs(5),
            idle: Duration::from_secs(600),
        }
    }
}

// What is taken of a client that goes on sending once its session has ended, so that it reads the last reply before the connection is
// reset: a PDU's greatest length, in reads that wait a second each at most.
const LAST_READS: usize = 16;

const LAST_WAIT_SECONDS: u64 = 1;

// How far a PDU has come in: the bytes of its length word so far, and how many of its bytes are left behind this word.
#[derive(Clone, Copy)]
struct Framing {
    seen: u32,
    word: u32,
    left: u32,
}

impl Framing {
    fn is_between(&self) -> bool {
        self.seen == 0 && self.left == 0
    }

    fn follow_all(&mut self, bytes: &[u8]) {
        for byte in bytes {
            self.follow(*byte);
        }
    }

    fn follow(&mut self, byte: u8) {
        if self.left > 0 {
            self.left -= 1;
            return;
        }
        self.word = (self.word << 8) | u32::from(byte);
        self.seen = self.seen.saturating_add(1);
        if self.seen >= 4 {
            self.left = self.word.saturating_sub(4);
            self.seen = 0;
            self.word = 0;
        }
    }
}

/// A source over a connection to a client or a server. It tells no content.
#[derive(Drop)]
pub struct ClientSource {
    connection: Connection,
    patience: Patience,
    framing: Framing,
    is_between: bool,
    faults: u64,
}

impl ClientSource {
    pub(crate) fn new(connection: Connection, patience: Patience) -> io::Result<ClientSource>
        ensures { IfOk result (λ source. ⟦<ClientSource as Source>⟧.faults source ≡ 0) }
    {
        connection.set_read_timeout(patience.idle)?;
        Ok(ClientSource {
            connection,
            patience,
            framing: Framing {
                seen: 0,
                word: 0,
                left: 0,
            },
            is_between: true,
            faults: 0,
        })
    }

    // Waits for the next byte as long as its place asks.
    fn read(&mut self, buffer: &mut [u8]) -> io::Result<usize>
        ensures within { IfOk result (λ n. n ≤ length buffer.old) }
        ensures kept { self.new.faults ≡ self.old.faults }
    {
        let is_between = self.framing.is_between();
        if is_between != self.is_between {
            let wait = if is_between {
                self.patience.idle
            } else {
                self.patience.begun
            };
            self.connection.set_read_timeout(wait)?;
            self.is_between = is_between;
        }
        let count = self.connection.read(buffer)?;
        self.framing.follow_all(&buffer[..count]);
        Ok(count)
    }

    /// Says that nothing more is sent, and takes some of what still comes in, so that the client can read all replies.
    pub(crate) fn part(self) {
        let mut connection = self.connection;
        let wait = Duration::from_secs(LAST_WAIT_SECONDS);
        if connection.end_writing().is_err() || connection.set_read_timeout(wait).is_err() {
            return;
        }
        let mut buffer = [0u8; 4096];
        for _ in 0..LAST_READS {
            match connection.read(&mut buffer) {
                Ok(0) | Err(_) => return,
                Ok(_) => {}
            }
        }
    }
}

impl Source for ClientSource {
    ghost tells = { ⊥ };

    ghost left = { λ _. [] };

    ghost faults = { λ s. s.faults };

    /// A read that a signal interrupts is tried again; who keeps silent too long is a fault.
    fn take(&mut self, buffer: &mut [u8]) -> Result<usize, Failed> {
        for _ in 0..u64::MAX {
            match self.read(buffer) {
                Ok(count) => return Ok(count),
                Err(error) if error.kind() == ErrorKind::Interrupted => {}
                Err(_) => break,
            }
        }
        self.faults = self.faults.saturating_add(1);
        Err(Failed)
    }
}
