//! The command `serve PORT COUNT` of the program `pcp`: clients come in over loopback, through four
//! doors of one listener. Only pcp and tests use it.
ghost use Rattle.std.specs.Prelude.{◌≡◌, ◌⊎◌, None, map, string_bytes};
ghost use Rattle.pcp_shell.specs.Ports.{port_of};

use crate::ports::{no_port, port_of, without_port};
use pcp_outside::{Free, Sink, Source, write_all};
use pcp_system::{TcpDoor, listener_above};
use pm_serving::run_serve;
use std::alloc::{Alloc, Global};
use std::io;
use std::net::{Ipv4Addr, Net, TcpListener, TcpStream};
use std::sync::Wait;
use std::thread::Threads;
use std::time::Clock;

// Listens at a port of 127.0.0.1.
fn listen<R: Net<Listener = TcpListener, Stream = TcpStream>>(
    rt: &R,
    port: u16,
) -> io::Result<TcpListener> {
    listener_above(TcpListener::bind(rt, (Ipv4Addr::LOCALHOST, port))?)
}

// Serves the clients that come in at a listener, through four doors.
fn serve_at<R: Threads + Wait + Clock + Alloc<A = Global> + Send + Sync>(
    rt: &R,
    listener: &TcpListener,
    words: &[String],
    input: &mut impl Source,
    out: &mut impl Sink,
) -> u8 {
    let Ok(rest) = without_port(rt.alloc(), words) else {
        return 9;
    };
    let mut doors = [
        TcpDoor::new(listener, rt),
        TcpDoor::new(listener, rt),
        TcpDoor::new(listener, rt),
        TcpDoor::new(listener, rt),
    ];
    let mut served = None;
    run_serve(
        rt,
        rt.alloc(),
        &rest,
        input,
        out,
        &mut doors,
        &Free,
        &mut served,
    )
}

/// Serves clients at PORT of 127.0.0.1, and answers the exit status: 1 where PORT is no port, 22 where listening fails, and else
/// that of `run_serve`.
pub fn serve_clients<R>(
    rt: &R,
    words: &[String],
    input: &mut impl Source,
    out: &mut impl Sink,
) -> u8
where
    R: Net<Listener = TcpListener, Stream = TcpStream>
        + Threads
        + Wait
        + Clock
        + Alloc<A = Global>
        + Send
        + Sync,
    ensures no_port { port_of (map string_bytes words.now) ≡ None → (result ≡ 1) ⊎ (result ≡ 9) }
{
    let Some(port) = port_of(words) else {
        return no_port(rt.alloc(), out);
    };
    let Ok(listener) = listen(rt, port) else {
        let _ = write_all(out, b"listen fault\n");
        return 22;
    };
    serve_at(rt, &listener, words, input, out)
}
