//! A file that is read on and on is taken from the system in large pieces.
ghost use Rattle.std.specs.Prelude.{◌≤◌, length};

use pcp_outside::FileId;
use std::alloc::Global;
use std::fs::File;
use std::io::{self, ErrorKind};
use std::os::unix::fs::FileExt;

// As many bytes are read ahead at most: a page of them costs less than a call, and more would only fill memory.
const MOST: usize = 262_144;

/// A file that is read. A first read takes what is asked for alone. While reads go on where the last one ended, each call to the
/// system takes as much again as they have had.
#[derive(Drop)]
pub(crate) struct ReadAhead {
    file: FileId,
    opened: File,
    // Bytes of the file from this offset on.
    from: u64,
    bytes: Vec<u8>,
    // Where the last read ended, and how many bytes the reads had that went on so.
    end: u64,
    had: usize,
}

impl ReadAhead {
    pub(crate) fn new(alloc: Global, file: FileId, opened: File) -> ReadAhead {
        ReadAhead {
            file,
            opened,
            from: 0,
            bytes: Vec::new(alloc),
            end: 0,
            had: 0,
        }
    }

    pub(crate) fn file(&self) -> FileId {
        self.file
    }

    /// Fills the buffer with the file's bytes from an offset on.
    pub(crate) fn read(&mut self, at: u64, buffer: &mut [u8]) -> io::Result<()> {
        if at != self.end {
            self.had = 0;
        }
        let held = self.copy_held(at, buffer);
        self.take(at.saturating_add(held as u64), &mut buffer[held..])?;
        self.end = at.saturating_add(buffer.len() as u64);
        self.had = self.had.saturating_add(buffer.len()).min(MOST);
        Ok(())
    }

    // Copies what is held of the bytes from an offset on, and tells how many.
    fn copy_held(&self, at: u64, buffer: &mut [u8]) -> usize
        ensures within { result ≤ length buffer.new }
    {
        let held = match at.checked_sub(self.from) {
            Some(skipped) => behind(&self.bytes, skipped),
            None => &[],
        };
        let count = held.len().min(buffer.len());
        buffer[..count].copy_from_slice(&held[..count]);
        count
    }

    // Takes bytes from the system, and further ones where reads go on. Without memory for these it takes none.
    fn take(&mut self, at: u64, buffer: &mut [u8]) -> io::Result<()> {
        if buffer.is_empty() {
            return Ok(());
        }
        let wanted = buffer.len().saturating_add(self.had).min(MOST);
        self.bytes.clear();
        if wanted <= buffer.len() || self.bytes.resize(wanted, 0).is_err() {
            return self.opened.read_exact_at(buffer, at);
        }
        let count = match fill(&self.opened, at, &mut self.bytes, buffer.len()) {
            Ok(count) => count,
            Err(error) => {
                self.bytes.clear();
                return Err(error);
            }
        };
        self.bytes.truncate(count);
        self.from = at;
        copy_front(&self.bytes, buffer);
        Ok(())
    }
}

fn behind(bytes: &[u8], skipped: u64) -> &[u8] {
    match usize::try_from(skipped) {
        Ok(skipped) => bytes.get(skipped..).unwrap_or(&[]),
        Err(_) => &[],
    }
}

fn copy_front(from: &[u8], buffer: &mut [u8]) {
    let count = from.len().min(buffer.len());
    buffer[..count].copy_from_slice(&from[..count]);
}

// Reads so many bytes or more from an offset on, and tells how many.
fn fill(opened: &File, at: u64, room: &mut [u8], least: usize) -> io::Result<usize> {
    let mut count = 0;
    for _ in 0..u64::MAX {
        if count >= least {
            return Ok(count);
        }
        let Some(left) = room.get_mut(count..) else {
            break;
        };
        match opened.read_at(left, at.saturating_add(count as u64)) {
            Ok(0) => return Err(io::Error::from(ErrorKind::UnexpectedEof)),
            Ok(more) => count = count.saturating_add(more),
            Err(error) if error.kind() == ErrorKind::Interrupted => {}
            Err(error) => return Err(error),
        }
    }
    Err(io::Error::from(ErrorKind::Other))
}
