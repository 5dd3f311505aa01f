//! Sources and sinks over the system's readers and writers; they tell no content.
ghost use Rattle.std.specs.Prelude.{◌≡◌, ◌<◌, ◌≤◌, [], length, IfOk, OnOk};
ghost use Rattle.pcp_outside.specs.Causes.{HasCause};

use crate::trouble::{Call, line_of};
use pcp_outside::{Failed, Sink, Source};
use std::alloc::{AllocError, Global};
use std::io::{self, ErrorKind, Read, Write};

/// A source over a reader of the system. It tells no content.
#[derive(Drop)]
pub struct ReaderSource<R: Read + Drop> {
    reader: R,
    trouble: Option<io::Error>,
    faults: u64,
}

impl<R: Read + Drop> ReaderSource<R> {
    pub fn new(reader: R) -> Self
        ensures { ⟦<ReaderSource<R> as Source>⟧.faults result ≡ 0 }
    {
        ReaderSource {
            reader,
            trouble: None,
            faults: 0,
        }
    }

    /// Why the last call that failed did, of a reader that has this name.
    pub fn why(&self, alloc: Global, name: &str) -> Result<Option<String>, AllocError> {
        match &self.trouble {
            Some(error) => Ok(Some(line_of(alloc, name, error, Call::Read)?)),
            None => Ok(None),
        }
    }
}

impl<R: Read + Drop> Source for ReaderSource<R> {
    ghost tells = { ⊥ };

    ghost left = { λ _. [] };

    ghost faults = { λ s. s.faults };

    /// A read that a signal interrupts is tried again.
    fn take(&mut self, buffer: &mut [u8]) -> Result<usize, Failed> {
        for _ in 0..u64::MAX {
            match self.reader.read(buffer) {
                Ok(count) => return Ok(count),
                Err(error) if error.kind() == ErrorKind::Interrupted => {}
                Err(error) => {
                    self.trouble = Some(error);
                    break;
                }
            }
        }
        self.faults = self.faults.saturating_add(1);
        Err(Failed)
    }
}

/// A sink over a writer of the system. It tells no content.
#[derive(Drop)]
pub struct WriterSink<W: Write + Drop> {
    writer: W,
    trouble: Option<io::Error>,
    faults: u64,
}

impl<W: Write + Drop> WriterSink<W> {
    pub fn new(writer: W) -> Self
        ensures { ⟦<WriterSink<W> as Sink>⟧.faults result ≡ 0 }
    {
        WriterSink {
            writer,
            trouble: None,
            faults: 0,
        }
    }

    /// Why the last call that failed did, of a writer that has this name.
    pub fn why(&self, alloc: Global, name: &str) -> Result<Option<String>, AllocError> {
        match &self.trouble {
            Some(error) => Ok(Some(line_of(alloc, name, error, Call::Write)?)),
            None => Ok(None),
        }
    }
}

impl<W: Write + Drop> Sink for WriterSink<W> {
    ghost tells = { ⊥ };

    ghost written = { λ _. [] };

    ghost faults = { λ s. s.faults };

    /// A write that a signal interrupts is tried again; one that takes no byte of some is a fault. What was
    /// written is flushed.
    fn put(&mut self, bytes: &[u8]) -> Result<usize, Failed> {
        for _ in 0..u64::MAX {
            match write_once(&mut self.writer, bytes) {
                Ok(count) => return Ok(count),
                Err(error) if error.kind() == ErrorKind::Interrupted => {}
                Err(error) => {
                    self.trouble = Some(error);
                    break;
                }
            }
        }
        self.faults = self.faults.saturating_add(1);
        Err(Failed)
    }
}

// Writes and flushes a front of the bytes, at least one of some.
fn write_once<W: Write>(writer: &mut W, bytes: &[u8]) -> io::Result<usize>
    ensures within { IfOk result (λ n. n ≤ length bytes.now) }
    ensures progress { IfOk result (λ n. 0 < length bytes.now → 0 < n) }
{
    let count = writer.write(bytes)?;
    if count == 0 && !bytes.is_empty() {
        return Err(io::Error::from(ErrorKind::WriteZero));
    }
    match writer.flush() {
        Ok(()) => Ok(count),
        Err(error) if error.kind() == ErrorKind::Interrupted => Ok(count),
        Err(error) => Err(error),
    }
}
