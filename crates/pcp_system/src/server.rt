//! A connection to a server, whose two ends tell no content.
ghost use Rattle.std.specs.Prelude.{◌≡◌, IfOk};

use crate::adapters::WriterSink;
use crate::client::{ClientSource, Patience};
use crate::connection::Connection;
use crate::tcp_door::ends_of;
use pcp_outside::{Sink, Source};
use std::alloc::{Alloc, Global};
use std::io;
use std::net::{Ipv4Addr, Net, SocketAddr, TcpListener, TcpStream};
use std::time::Duration;

const CONNECT_SECONDS: u64 = 5;

// How long a server is waited for in the middle of a reply, and where it takes nothing of a request.
const BEGUN_SECONDS: u64 = 5;

const REPLY_SECONDS: u64 = 60;

/// Connects to a port of 127.0.0.1, within 5 seconds: the source of the server's replies, and the sink of what is asked. The server is
/// waited for as pmcd(1) waits for a client in the middle of a PDU, 5 seconds, and for a reply a minute.
pub fn connect<R: Net<Listener = TcpListener, Stream = TcpStream> + Alloc<A = Global>>(
    rt: &R,
    port: u16,
) -> io::Result<(ClientSource, WriterSink<Connection>)>
    ensures replies { IfOk result (λ ends. ⟦<ClientSource as Source>⟧.faults ends.0 ≡ 0) }
    ensures requests { IfOk result (λ ends. ⟦<WriterSink<Connection> as Sink>⟧.faults ends.1 ≡ 0) }
{
    let address = SocketAddr::from((Ipv4Addr::LOCALHOST, port));
    let stream = TcpStream::connect_timeout(rt, &address, Duration::from_secs(CONNECT_SECONDS))?;
    let patience = Patience {
        begun: Duration::from_secs(BEGUN_SECONDS),
        idle: Duration::from_secs(REPLY_SECONDS),
    };
    let (replies, requests) = ends_of(rt.alloc(), stream, patience)?;
    Ok((replies, WriterSink::new(requests)))
}
