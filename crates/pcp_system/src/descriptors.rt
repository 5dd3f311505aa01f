//! The numbers of descriptors: 0 to 2 stand for the standard streams, whoever has opened them.
use std::fs::{File, Files, OpenOptions};
use std::io;
use std::net::{TcpListener, TcpStream};
use std::os::fd::{AsRawFd, IntoRawFd};

// The number of standard error.
const LAST_STANDARD: i32 = 2;

/// Opens those of the standard streams that the program was started without on the null device, so that no file gets their numbers.
/// What is written there is lost, and nothing is read.
pub fn open_standard<R: Files<File = File>>(files: &R) -> io::Result<()> {
    for _ in 0..3 {
        let opened = OpenOptions::new()
            .read(true)
            .write(true)
            .open(files, "/dev/null")?;
        if opened.as_raw_fd() > LAST_STANDARD {
            return Ok(());
        }
        opened.into_raw_fd();
    }
    Ok(())
}

/// The file by a number above those of the standard streams.
pub(crate) fn file_above(opened: File) -> io::Result<File> {
    if opened.as_raw_fd() > LAST_STANDARD {
        return Ok(opened);
    }
    opened.try_clone()
}

/// The connection by a number above those of the standard streams.
pub(crate) fn stream_above(stream: TcpStream) -> io::Result<TcpStream> {
    if stream.as_raw_fd() > LAST_STANDARD {
        return Ok(stream);
    }
    stream.try_clone()
}

/// The listener by a number above those of the standard streams.
pub fn listener_above(listener: TcpListener) -> io::Result<TcpListener> {
    if listener.as_raw_fd() > LAST_STANDARD {
        return Ok(listener);
    }
    listener.try_clone()
}
