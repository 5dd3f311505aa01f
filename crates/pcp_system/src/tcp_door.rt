//! A door over a listener of the system; it tells no connections, and keeps no report.
ghost use Rattle.std.specs.Prelude.{◌≡◌, [], IfOk, OnOk};
ghost use Rattle.pcp_outside.specs.Causes.{HasCause};

use crate::adapters::WriterSink;
use crate::client::{ClientSource, Patience};
use crate::connection::Connection;
use crate::descriptors::stream_above;
use crate::keepalive::keep_alive;
use crate::times::SystemClock;
use pcp_outside::{Door, Failed, SessionEnd, Source};
use std::alloc::{Alloc, Global};
use std::net::{TcpListener, TcpStream};
use std::time::Duration;
use std::{io, thread, time};

// After so many milliseconds `accept` is tried again: a client hardly notices, and the processor has little to do meanwhile.
const PAUSE_MILLIS: u64 = 100;

// The numbers of errors (errno(3)) that say nothing against the listener. Those of the network were pending on the connection
// (accept(2)): EPERM, ENONET, EPROTO, ENOPROTOOPT, EOPNOTSUPP, ENETDOWN, ENETUNREACH, ECONNABORTED, ECONNRESET, ETIMEDOUT, EHOSTDOWN
// and EHOSTUNREACH. The others are wants that pass: EINTR, EAGAIN, ENOMEM, ENFILE, EMFILE and ENOBUFS.
const PASSING: [i32; 18] = [
    1, 64, 71, 92, 95, 100, 101, 103, 104, 110, 112, 113, 4, 11, 12, 23, 24, 105,
];

/// A door through which a listener's connections come in; several doors may share one listener. It tells no connections.
#[derive(Drop)]
pub struct TcpDoor<'a, R: time::Clock + Alloc<A = Global>> {
    listener: &'a TcpListener,
    system: &'a R,
    patience: Patience,
    faults: u64,
}

impl<'a, R: time::Clock + Alloc<A = Global>> TcpDoor<'a, R> {
    pub fn new(listener: &'a TcpListener, system: &'a R) -> Self
        ensures { ⟦<TcpDoor<'a, R> as Door>⟧.faults result ≡ 0 }
    {
        TcpDoor {
            listener,
            system,
            patience: Patience::default(),
            faults: 0,
        }
    }

    /// A door that waits for its clients as it is told.
    pub fn with_patience(listener: &'a TcpListener, system: &'a R, patience: Patience) -> Self
        ensures { ⟦<TcpDoor<'a, R> as Door>⟧.faults result ≡ 0 }
    {
        TcpDoor {
            listener,
            system,
            patience,
            faults: 0,
        }
    }
}

fn pause<R: time::Clock>(system: &R) {
    thread::sleep(system, Duration::from_millis(PAUSE_MILLIS));
}

fn is_passing(error: &io::Error) -> bool {
    match error.raw_os_error() {
        Some(number) => PASSING.contains(&number),
        None => false,
    }
}

/// The next connection. What says nothing against the listener is tried again after a pause.
fn accept<R: time::Clock>(listener: &TcpListener, system: &R) -> io::Result<TcpStream> {
    for _ in 0..u64::MAX {
        match listener.accept() {
            Ok((stream, _)) => return Ok(stream),
            Err(error) if is_passing(&error) => pause(system),
            Err(error) => return Err(error),
        }
    }
    Err(io::Error::from(io::ErrorKind::Other))
}

/// The two ends of a connection, whose small pieces are sent at once. A client that gives no sign of life is noticed by the system.
pub(crate) fn ends_of(
    alloc: Global,
    stream: TcpStream,
    patience: Patience,
) -> io::Result<(ClientSource, Connection)>
    ensures { IfOk result (λ ends. ⟦<ClientSource as Source>⟧.faults ends.0 ≡ 0) }
{
    let stream = stream_above(stream)?;
    stream.set_nodelay(true)?;
    keep_alive(&stream)?;
    stream.set_write_timeout(Some(patience.begun))?;
    let (input, out) = Connection::pair(alloc, stream)?;
    Ok((ClientSource::new(input, patience)?, out))
}

/// The two ends of the next connection of which they can be had. One that was given up meanwhile is passed over.
fn ends_of_next<R: time::Clock + Alloc<A = Global>>(
    listener: &TcpListener,
    system: &R,
    patience: Patience,
) -> io::Result<(ClientSource, Connection)>
    ensures { IfOk result (λ ends. ⟦<ClientSource as Source>⟧.faults ends.0 ≡ 0) }
{
    for _ in 0..u64::MAX {
        match ends_of(system.alloc(), accept(listener, system)?, patience) {
            Ok(ends) => return Ok(ends),
            Err(_) => pause(system),
        }
    }
    Err(io::Error::from(io::ErrorKind::Other))
}

impl<'a, R: time::Clock + Alloc<A = Global>> Door for TcpDoor<'a, R> {
    type In = ClientSource;

    type Out = WriterSink<Connection>;

    type Time = SystemClock<'a, R>;

    ghost tells = { ⊥ };

    ghost left = { λ _. [] };

    ghost given = { λ _. [] };

    ghost reports = { λ _. [] };

    ghost faults = { λ d. d.faults };

    ghost told = { λ tells. absurd tells };

    /// Waits for a connection as long as the system does, and fails only where the listener itself can't be used.
    fn next(
        &mut self,
    ) -> Result<(ClientSource, WriterSink<Connection>, SystemClock<'a, R>), Failed> {
        match ends_of_next(self.listener, self.system, self.patience) {
            Ok((input, out)) => Ok((input, WriterSink::new(out), SystemClock::new(self.system))),
            Err(_) => {
                self.faults = self.faults.saturating_add(1);
                Err(Failed)
            }
        }
    }

    /// Parts from the client, and closes the connection, whose ends are dropped here. The report is kept nowhere, and this never fails.
    fn ended(
        &mut self,
        input: ClientSource,
        _out: WriterSink<Connection>,
        _time: SystemClock<'a, R>,
        _end: SessionEnd,
    ) -> Result<(), Failed> {
        input.part();
        Ok(())
    }
}
