//! Clients that come in over loopback; and doors in memory, with calls of the source, of the sink and of the doors that fail.
use crate::shared::{ADDS, BY_TURNS, HITS, Held, is_served, words_of};
use pcp_base::List;
use pcp_memory::{MemDoor, MemSink, MemSource};
use pcp_outside::{Free, Turn};
use pm_serving::run_serve;
use std::alloc::{Alloc, AllocError, Global};
use std::io::{Read, Write};
use std::net::{Net, Shutdown, SocketAddr, TcpListener, TcpStream};
use std::sync::Wait;
use std::test::Fail;
use std::thread::Threads;
use std::time::Clock;
use std::{io, thread};

// CREDS, then PROFILE, FETCH, DESC_REQ, INSTANCE_REQ, PMNS_NAMES, PMNS_CHILD and PMNS_TRAVERSE.
const ASKED: &[u8] =
    b"\x00\x00\x00\x14\x00\x00\x70\x0c\x00\x00\x00\x00\x00\x00\x00\x01\x01\x02\x00\x00\x00\x00\x00\x30\
\x00\x00\x70\x02\x00\x00\x00\x00\x00\x00\x00\x00\x00\x00\x00\x00\x00\x00\x00\x01\x00\x00\x00\x00\
\x11\x80\x04\x01\x00\x00\x00\x01\x00\x00\x00\x01\x00\x00\x00\x00\x00\x00\x00\x00\x00\x00\x00\x20\
\x00\x00\x70\x03\x00\x00\x00\x00\x00\x00\x00\x00\x00\x00\x00\x00\x00\x00\x00\x00\x00\x00\x00\x01\
\x11\x80\x04\x04\x00\x00\x00\x10\x00\x00\x70\x04\x00\x00\x00\x00\x11\x80\x04\x04\x00\x00\x00\x14\
\x00\x00\x70\x06\x00\x00\x00\x00\x11\x80\x04\x01\xff\xff\xff\xff\x00\x00\x00\x24\x00\x00\x70\x0e\
\x00\x00\x00\x00\x00\x00\x00\x00\x00\x00\x00\x01\x00\x00\x00\x0b\x6d\x6d\x76\x2e\x61\x70\x70\x2e\
\x70\x65\x72\x00\x00\x00\x00\x14\x00\x00\x70\x0f\x00\x00\x00\x00\x00\x00\x00\x03\x6d\x6d\x76\x00\
\x00\x00\x00\x14\x00\x00\x70\x10\x00\x00\x00\x00\x00\x00\x00\x03\x6d\x6d\x76\x00";

// The greeting, and the RESULT up to its stamp.
const FRONT: &[u8] =
    b"\x00\x00\x00\x10\x00\x00\x70\x00\x00\x00\x00\x00\x00\x00\x00\x00\x00\x00\x00\x2c\x00\x00\x70\x01\
\x00\x00\x00\x00";

// The RESULT's set up to its value's last byte.
const SET: &[u8] =
    b"\x00\x00\x00\x01\x11\x80\x04\x04\x00\x00\x00\x01\x00\x00\x00\x00\x00\x00\x00\x00\x00\x00\x00";

// All other replies.
const REST: &[u8] =
    b"\x00\x00\x00\x20\x00\x00\x70\x05\x00\x00\x00\x00\x11\x80\x04\x04\x00\x00\x00\x01\x11\x80\x04\x01\
\x00\x00\x00\x01\x00\x10\x00\x00\x00\x00\x00\x20\x00\x00\x70\x07\x00\x00\x00\x00\x11\x80\x04\x01\
\x00\x00\x00\x01\x00\x00\x00\x00\x00\x00\x00\x01\x61\x00\x00\x00\x00\x00\x00\x18\x00\x00\x70\x0d\
\x00\x00\x00\x00\x00\x00\x00\x00\x00\x00\x00\x01\x11\x80\x04\x04\x00\x00\x00\x1c\x00\x00\x70\x0e\
\x00\x00\x00\x00\x00\x00\x00\x00\x00\x00\x00\x01\x00\x00\x00\x03\x61\x70\x70\x00\x00\x00\x00\x24\
\x00\x00\x70\x0e\x00\x00\x00\x00\x00\x00\x00\x00\x00\x00\x00\x01\x00\x00\x00\x0b\x6d\x6d\x76\x2e\
\x61\x70\x70\x2e\x70\x65\x72\x00";

// CREDS and DESC_REQ, which are answered by 48 bytes with the greeting.
const KNOWN: &[u8] =
    b"\x00\x00\x00\x14\x00\x00\x70\x0c\x00\x00\x00\x00\x00\x00\x00\x01\x01\x02\x00\x00\x00\x00\x00\x10\
\x00\x00\x70\x04\x00\x00\x00\x00\x11\x80\x04\x04";

// Sends all requests, and tells whether all replies come, with this value.
fn ask_all<R: Net<Stream = TcpStream>>(
    rt: &R,
    alloc: Global,
    address: SocketAddr,
    value: u8,
) -> io::Result<bool> {
    let mut client = TcpStream::connect(rt, address)?;
    client.write_all(ASKED)?;
    client.shutdown(Shutdown::Write)?;
    let mut told = Vec::new(alloc);
    client.read_to_end(&mut told)?;
    Ok(
        told.get(..28) == Some(FRONT)
            && told.get(36..59) == Some(SET)
            && told.get(59) == Some(&value)
            && told.get(60..) == Some(REST),
    )
}

// Whether all is answered as it must be, where each time the writer is before a step: before it adds, and behind that.
fn ask_live<R: Net<Stream = TcpStream> + Clock>(
    rt: &R,
    alloc: Global,
    address: SocketAddr,
    held: &Held<'_, R>,
) -> io::Result<bool> {
    let mut is_told = true;
    for (step, value) in [(0, 3), (1, 8)] {
        held.turn(0, step);
        is_told &= ask_all(rt, alloc, address, value)?;
    }
    held.turn(0, 2);
    Ok(is_told)
}

// Whether 48 bytes come in at most 1,000,000 tries.
fn is_answered(client: &mut TcpStream) -> bool {
    let mut buffer = [0u8; 64];
    let mut had = 0usize;
    for _ in 0..1_000_000 {
        match client.read(&mut buffer) {
            Ok(0) => return false,
            Ok(count) => had = had.saturating_add(count),
            Err(_) => thread::yield_now(),
        }
        if had >= 48 {
            return true;
        }
    }
    false
}

// Whether a second client is answered while a first one, which was answered, has its connection open.
fn ask_beside<R: Net<Stream = TcpStream>>(rt: &R, address: SocketAddr) -> io::Result<bool> {
    let mut first = TcpStream::connect(rt, address)?;
    let mut second = TcpStream::connect(rt, address)?;
    first.write_all(KNOWN)?;
    let mut told = [0u8; 48];
    first.read_exact(&mut told)?;
    second.write_all(KNOWN)?;
    second.set_nonblocking(true)?;
    Ok(is_answered(&mut second))
}

// Asks by two clients: beside each other where the script has no step, else one after the other beside its steps.
fn ask<R: Net<Stream = TcpStream> + Clock>(
    rt: &R,
    alloc: Global,
    address: SocketAddr,
    steps: &[u8],
    held: &Held<'_, R>,
) -> io::Result<bool> {
    if steps.is_empty() {
        ask_beside(rt, address)
    } else {
        ask_live(rt, alloc, address, held)
    }
}

// Whether two clients are answered beside these steps, one after the other or beside each other, none of which is too late, and the
// call tells that it served them.
fn are_answered<R>(rt: &R, alloc: Global, steps: &[u8]) -> Result<bool, Fail>
where
    R: Net<Listener = TcpListener, Stream = TcpStream>
        + Threads
        + Wait
        + Clock
        + Alloc<A = Global>
        + Send
        + Sync,
{
    let held = Held::new(rt, &BY_TURNS);
    let listener = TcpListener::bind(rt, "127.0.0.1:0")?;
    let address = listener.local_addr()?;
    let (is_told, is_done) = thread::join(
        rt,
        || ask(rt, alloc, address, steps, &held),
        || is_served(rt, &listener, "serve 2", steps, b"served 2\n", &held),
    );
    Ok(is_told? && is_done? && held.is_well())
}

#[test]
fn two_sessions(rt: HostRuntime) -> Result<(), Fail> {
    assert!(rt; are_answered(&rt, rt.alloc(), b"")?);
    Ok(())
}

// Clients are answered each kind of request while the writer of the script is between two of its steps: before it adds, and then behind
// that, by what it added.
#[test]
fn served_live(rt: HostRuntime) -> Result<(), Fail> {
    assert!(rt; are_answered(&rt, rt.alloc(), ADDS)?);
    Ok(())
}

// Which calls of the source, of the sink and of each door fail, and the status and the output that come of it. The script comes by the
// first call of the source, and its end by the second one; any of the four doors may give the one connection.
const FAULTS: [(&[u64], &[u64], &[u64], u8, &[u8]); 5] = [
    (&[], &[], &[], 0, b"served 1\n"),
    (&[1], &[], &[], 3, b"read fault\n"),
    (&[2], &[], &[], 3, b"read fault\n"),
    (&[], &[1], &[], 4, b""),
    (&[], &[], &[1], 21, b"accept fault\n"),
];

// A door of one connection, over which nothing comes.
fn door_of(alloc: Global, fails: &[u64]) -> Result<MemDoor, AllocError> {
    let mut connections = Vec::new(alloc);
    connections.push((List::empty(alloc), List::empty(alloc)))?;
    let fails = List::from_vec(fails.to_vec(alloc)?);
    Ok(MemDoor::new(alloc, List::from_vec(connections), fails))
}

// The call alone, over doors in memory: whoever calls this has nothing to do with its contract.
fn run<R: Threads + Wait + Alloc<A = Global> + Sync>(
    rt: &R,
    words: &[String],
    input: &mut MemSource,
    out: &mut MemSink,
    doors: &mut [MemDoor; 4],
) -> u8 {
    let mut served = None;
    run_serve(rt, rt.alloc(), words, input, out, doors, &Free, &mut served)
}

// What the call answers and writes where these calls fail.
fn is_told<R: Threads + Wait + Alloc<A = Global> + Sync>(
    rt: &R,
    fault: &(&[u64], &[u64], &[u64], u8, &[u8]),
) -> Result<bool, AllocError> {
    let alloc = rt.alloc();
    let (source_fails, sink_fails, door_fails, status, told) = fault;
    let words = words_of(alloc, "serve 1")?;
    let script = List::from_vec(HITS.to_vec(alloc)?);
    let mut input = MemSource::new(script, List::from_vec(source_fails.to_vec(alloc)?));
    let mut out = MemSink::new(alloc, List::from_vec(sink_fails.to_vec(alloc)?));
    let mut doors = [
        door_of(alloc, door_fails)?,
        door_of(alloc, door_fails)?,
        door_of(alloc, door_fails)?,
        door_of(alloc, door_fails)?,
    ];
    let answer = run(rt, &words, &mut input, &mut out, &mut doors);
    Ok(answer == *status && out.bytes() == *told)
}

#[test]
fn outside_fails(rt: HostRuntime) -> Result<(), Fail> {
    for fault in &FAULTS {
        let is_told = is_told(&rt, fault)?;
        assert!(rt; is_told, "{}", fault.3);
    }
    Ok(())
}
