//! The terminal that standard error is, written to without a wait.
ghost use Rattle.std.specs.Prelude.{◌≤◌, length, IfOk};

use crate::descriptors::file_above;
use std::alloc::Global;
use std::fmt::Display;
use std::fs::{File, Files, OpenOptions};
use std::io::{self, ErrorKind, IsTerminal, Print, Write};
use std::os::fd::AsRawFd;

/// The terminal of standard error, opened once more, so that not to wait for it is a setting of this object alone. A line that the
/// terminal doesn't take at once, since it was stopped (Ctrl-S) say, is lost. Where standard error is no terminal, or can't be opened
/// once more, each line is.
#[derive(Drop)]
pub struct Screen {
    alloc: Global,
    opened: Option<File>,
}

impl Screen {
    pub fn new<R: Files<File = File>>(
        alloc: Global,
        files: &R,
        standard: &impl IsTerminal,
    ) -> Screen {
        let opened = if standard.is_terminal() {
            opened_anew(files).ok()
        } else {
            None
        };
        Screen { alloc, opened }
    }

    fn put(&self, bytes: &[u8]) -> io::Result<usize>
        ensures bound { IfOk result (λ n. n ≤ length bytes.now) }
    {
        match &self.opened {
            Some(opened) => {
                let mut to = opened;
                to.write(bytes)
            }
            None => Err(io::Error::from(ErrorKind::Unsupported)),
        }
    }
}

fn opened_anew<R: Files<File = File>>(files: &R) -> io::Result<File> {
    let opened = file_above(
        OpenOptions::new()
            .write(true)
            .open(files, "/proc/self/fd/2")?,
    )?;
    if os::set_nonblocking(opened.as_raw_fd(), true) < 0 {
        return Err(io::Error::from(ErrorKind::Unsupported));
    }
    Ok(opened)
}

impl IsTerminal for Screen {
    fn is_terminal(&self) -> bool {
        self.opened.is_some()
    }
}

impl Print for Screen {
    fn print<D: Display + Drop>(&self, value: D) -> io::Result<()> {
        let text = format!(in self.alloc; "{value}")?;
        self.write_all(text.as_bytes())
    }

    fn println<D: Display + Drop>(&self, value: D) -> io::Result<()> {
        let text = format!(in self.alloc; "{value}\n")?;
        self.write_all(text.as_bytes())
    }

    /// Writes in one call to the system; what that doesn't take is lost.
    fn write_all(&self, bytes: &[u8]) -> io::Result<()> {
        if self.put(bytes)? < bytes.len() {
            return Err(io::Error::from(ErrorKind::WouldBlock));
        }
        Ok(())
    }

    fn write_some(&self, bytes: &[u8]) -> io::Result<usize> {
        self.put(bytes)
    }
}
