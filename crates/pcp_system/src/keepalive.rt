//! A connection whose client the system looks after (SO_KEEPALIVE of socket(7)).
use libc::net::{SO_KEEPALIVE, SOL_SOCKET, setsockopt};
use std::io;
use std::net::TcpStream;
use std::os::fd::AsRawFd;

// An `int` of 1, as the system has it.
const ON: [u8; 16] = [1, 0, 0, 0, 0, 0, 0, 0, 0, 0, 0, 0, 0, 0, 0, 0];

pub(crate) fn keep_alive(stream: &TcpStream) -> io::Result<()> {
    let set = unsafe { setsockopt(stream.as_raw_fd(), SOL_SOCKET, SO_KEEPALIVE, &ON, 4) };
    if set < 0 {
        return Err(io::Error::other("keeping the connection alive"));
    }
    Ok(())
}
