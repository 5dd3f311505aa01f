//! A client's connection, which the source and the sink of its session share.
use std::alloc::Global;
use std::io::{self, Read, Write};
use std::net::{Shutdown, TcpStream};
use std::sync::Arc;
use std::time::Duration;

/// One of the two ends of a connection, which is closed when both are gone. They share its descriptor, so a client costs one.
#[derive(Drop)]
pub struct Connection {
    stream: Arc<TcpStream, Global>,
}

impl Connection {
    /// Both ends of a connection.
    pub(crate) fn pair(alloc: Global, stream: TcpStream) -> io::Result<(Connection, Connection)> {
        let stream = Arc::new(alloc, stream)?;
        let other = stream.clone()?;
        Ok((Connection { stream }, Connection { stream: other }))
    }

    pub(crate) fn set_read_timeout(&self, wait: Duration) -> io::Result<()> {
        self.stream.set_read_timeout(Some(wait))
    }

    /// Says that nothing more is sent.
    pub(crate) fn end_writing(&self) -> io::Result<()> {
        self.stream.shutdown(Shutdown::Write)
    }
}

impl Read for Connection {
    fn read(&mut self, buffer: &mut [u8]) -> io::Result<usize> {
        let mut from: &TcpStream = &self.stream;
        from.read(buffer)
    }
}

impl Write for Connection {
    fn write(&mut self, bytes: &[u8]) -> io::Result<usize> {
        let mut to: &TcpStream = &self.stream;
        to.write(bytes)
    }

    fn flush(&mut self) -> io::Result<()> {
        Ok(())
    }
}
