//! A logger and its peer, beside each other over loopback: a server, or who ends in the middle of a reply.
use crate::shared::{ADDS, BY_TURNS, Held, is_served, words_of};
use pcp_base::{FileId, List};
use pcp_memory::{MemDisk, MemSink};
use pcp_outside::{Free, Turn};
use pcp_system::{ClientSource, Connection, WriterSink, connect};
use pm_pulling::pull;
use std::alloc::{Alloc, Global};
use std::io::{Read, Write};
use std::net::{Net, Shutdown, TcpListener, TcpStream};
use std::test::Fail;
use std::time::Clock;
use std::{io, thread};

// The greeting, PMNS_IDS, DESC, INSTANCE, a RESULT that shows 3, and 20 bytes of a second one.
const REPLIES: &[u8] =
    b"\x00\x00\x00\x10\x00\x00\x70\x00\x00\x00\x00\x00\x00\x00\x00\x00\x00\x00\x00\x18\x00\x00\x70\x0d\
\x00\x00\x00\x00\x00\x00\x00\x00\x00\x00\x00\x01\x11\x80\x04\x04\x00\x00\x00\x20\x00\x00\x70\x05\
\x00\x00\x00\x00\x11\x80\x04\x04\x00\x00\x00\x01\x11\x80\x04\x01\x00\x00\x00\x01\x00\x10\x00\x00\
\x00\x00\x00\x20\x00\x00\x70\x07\x00\x00\x00\x00\x11\x80\x04\x01\x00\x00\x00\x01\x00\x00\x00\x00\
\x00\x00\x00\x01\x61\x00\x00\x00\x00\x00\x00\x2c\x00\x00\x70\x01\x00\x00\x00\x00\x00\x00\x00\x64\
\x00\x00\x00\x00\x00\x00\x00\x01\x11\x80\x04\x04\x00\x00\x00\x01\x00\x00\x00\x00\x00\x00\x00\x00\
\x00\x00\x00\x03\x00\x00\x00\x2c\x00\x00\x70\x01\x00\x00\x00\x00\x00\x00\x00\x65\x00\x00\x00\x00";

// The length of a record, and what stands between its stamp and the last byte of its value.
const LENGTH: &[u8] = b"\x00\x00\x00\x28";

const SET: &[u8] =
    b"\x00\x00\x00\x01\x11\x80\x04\x04\x00\x00\x00\x01\x00\x00\x00\x00\x00\x00\x00\x00\x00\x00\x00";

// Whether the records behind the label of a volume show these values, at whatever moments.
fn are_logged(volume: &[u8], values: &[u8]) -> bool {
    let records = volume.get(132..).unwrap_or(&[]);
    for (record, value) in records.chunks(40).zip(values) {
        let is_one = record.get(..4) == Some(LENGTH)
            && record.get(12..35) == Some(SET)
            && record.get(35) == Some(value)
            && record.get(36..) == Some(LENGTH);
        if !is_one {
            return false;
        }
    }
    records.len() == values.len().saturating_mul(40)
}

// The call alone: whoever calls this has nothing to do with its contract.
fn call_pull<T: Turn>(
    alloc: Global,
    words: &[String],
    replies: &mut ClientSource,
    requests: &mut WriterSink<Connection>,
    out: &mut MemSink,
    disk: &mut MemDisk,
    turn: &T,
) -> u8 {
    pull(alloc, words, replies, requests, out, disk, turn)
}

// Whether a pull of two samples answers this and tells this, and these values are logged.
fn is_pulled<R: Net<Listener = TcpListener, Stream = TcpStream> + Alloc<A = Global>, T: Turn>(
    rt: &R,
    port: u16,
    turn: &T,
    (status, told): (u8, &[u8]),
    values: &[u8],
) -> io::Result<bool> {
    let alloc = rt.alloc();
    let words = words_of(alloc, "pull 2 1048576 mmv.app.per")?;
    let (mut replies, mut requests) = connect(rt, port)?;
    let mut out = MemSink::new(alloc, List::empty(alloc));
    let mut disk = MemDisk::new(alloc, List::empty(alloc));
    let answer = call_pull(
        alloc,
        &words,
        &mut replies,
        &mut requests,
        &mut out,
        &mut disk,
        turn,
    );
    let volume = disk.bytes(FileId::Volume(0));
    Ok(answer == status && out.bytes() == told && are_logged(volume, values))
}

// Two samples of a server, one before its writer adds and one behind that; then the writer goes on to its end.
fn is_pulled_live<R: Net<Listener = TcpListener, Stream = TcpStream> + Clock + Alloc<A = Global>>(
    rt: &R,
    port: u16,
    held: &Held<'_, R>,
) -> io::Result<bool> {
    let is_pulled = is_pulled(rt, port, held, (0, b"logged 2\n"), &[3, 8]);
    held.turn(0, 2);
    is_pulled
}

// Sends all replies to a client and nothing more, and tells whether it asks for two samples.
fn is_asked(alloc: Global, listener: &TcpListener) -> io::Result<bool> {
    let (mut client, _) = listener.accept()?;
    client.write_all(REPLIES)?;
    client.shutdown(Shutdown::Write)?;
    let mut asked = Vec::new(alloc);
    client.read_to_end(&mut asked)?;
    Ok(asked.len() == 156)
}

// The samples of a server are logged as its region stands at each of them.
#[test]
fn pulled_live(rt: HostRuntime) -> Result<(), Fail> {
    let held = Held::new(&rt, &BY_TURNS);
    let listener = TcpListener::bind(&rt, "127.0.0.1:0")?;
    let port = listener.local_addr()?.port();
    let (is_logged, is_served) = thread::join(
        &rt,
        || is_pulled_live(&rt, port, &held),
        || is_served(&rt, &listener, "serve 1", ADDS, b"served 1\n", &held),
    );
    assert!(rt; is_logged?);
    assert!(rt; is_served? && held.is_well());
    Ok(())
}

// What was logged before a peer ends in the middle of a reply stands.
#[test]
fn peer_ends(rt: HostRuntime) -> Result<(), Fail> {
    let listener = TcpListener::bind(&rt, "127.0.0.1:0")?;
    let port = listener.local_addr()?.port();
    let (is_logged, is_asked) = thread::join(
        &rt,
        || is_pulled(&rt, port, &Free, (16, b"peer 5 ended 20\n"), &[3]),
        || is_asked(rt.alloc(), &listener),
    );
    assert!(rt; is_logged?);
    assert!(rt; is_asked?);
    Ok(())
}
