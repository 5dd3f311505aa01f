//! A disk over the files of the system; it tells no content.
ghost use Rattle.std.specs.Prelude.{◌≡◌, ◌<◌, ◌≤◌, ◌⊎◌, IsErr, OnOk, None as Nothing};
ghost use Rattle.pcp_model.specs.Disk.{empty_disk, CrashImage};
ghost use Rattle.pcp_outside.specs.Causes.{HasCause, shown_count};

use crate::archive_files::ArchiveFiles;
use crate::trouble::{Trouble, line_of};
use pcp_outside::{Disk, Failed, FileId};
use std::alloc::{AllocError, Global};
use std::fs::{File, Files};
use std::io::ErrorKind;

/// The files `BASE.meta`, `BASE.index`, `BASE.0` and so on of the system. It tells no content. What they hold is listed at the first
/// call, and then kept by the disk's own changes. A disk that writes holds the lock on `BASE.meta` (flock(2)), which keeps other such
/// disks from the archive: from the first call on where Meta is there, and else from the first change on, which fails where the files
/// aren't as they were told before. A file once changed stays open, so that a sync is told of what couldn't be written. Where a sync
/// fails, each later append, sync and cut does.
#[derive(Drop)]
pub struct FileDisk<'a, R: Files<File = File>> {
    alloc: Global,
    archive: ArchiveFiles<'a, R>,
    // Why the first call that failed did.
    trouble: Option<Trouble>,
    faults: u64,
}

impl<'a, R: Files<File = File>> FileDisk<'a, R> {
    /// The archive whose files' names begin with this path, to be changed.
    pub fn new(alloc: Global, files: &'a R, base: String) -> Self
        ensures { ⟦<FileDisk<'a, R> as Disk>⟧.faults result ≡ 0 }
    {
        FileDisk {
            alloc,
            archive: ArchiveFiles::new(alloc, files, base, true),
            trouble: None,
            faults: 0,
        }
    }

    /// The archive whose files' names begin with this path, of which each append, sync and cut fails.
    pub fn for_reading(alloc: Global, files: &'a R, base: String) -> Self
        ensures { ⟦<FileDisk<'a, R> as Disk>⟧.faults result ≡ 0 }
    {
        FileDisk {
            alloc,
            archive: ArchiveFiles::new(alloc, files, base, false),
            trouble: None,
            faults: 0,
        }
    }

    /// Whether one of its files is also one of another archive's, under whatever name: one number on one device. Nothing is opened, nothing
    /// is kept of it, and where the system doesn't tell, the answer is no.
    pub fn shares_file(&self, other: &FileDisk<'a, R>) -> Result<bool, AllocError> {
        match self.archive.shares_file(&other.archive) {
            Ok(shares) => Ok(shares),
            Err(trouble) if trouble.error.kind() == ErrorKind::OutOfMemory => Err(AllocError),
            Err(_) => Ok(false),
        }
    }

    /// Why the first call that failed did: the file, the system's reason, and the call of the system.
    pub fn why(&self) -> Result<Option<String>, AllocError> {
        let Some(trouble) = &self.trouble else {
            return Ok(None);
        };
        let name = match trouble.file {
            Some(file) => self.archive.name_of(file)?,
            None => self.archive.folder()?,
        };
        let line = line_of(self.alloc, name.as_str(), &trouble.error, trouble.call)?;
        Ok(Some(line))
    }
}

// The answer of a call to the system, as the trait has it: each trouble is one fault more, and the first one is kept.
fn counted<T: Drop>(
    faults: &mut u64,
    first: &mut Option<Trouble>,
    answer: Result<T, Trouble>,
) -> Result<T, Failed>
    ensures quiet { OnOk result (faults.new ≡ faults.old) }
    ensures cause { HasCause faults.old faults.new result }
{
    match answer {
        Ok(value) => Ok(value),
        Err(trouble) => {
            if first.is_none() {
                *first = Some(trouble);
            }
            *faults = faults.saturating_add(1);
            Err(Failed)
        }
    }
}

impl<'a, R: Files<File = File>> Disk for FileDisk<'a, R> {
    ghost tells = { ⊥ };

    ghost held = { λ _. empty_disk };

    ghost wrapped_file = { λ _. Nothing };

    ghost taken = { λ _. 0 };

    ghost moment = { λ _. 0 };

    ghost left_since = { λ _ _ c. CrashImage empty_disk c };

    ghost faults = { λ d. d.faults };

    ghost counts_now = { λ _ _ _ _ image. image };

    ghost only_now = { λ _ _ image. image };

    fn len(&mut self, file: FileId) -> Result<u64, Failed> {
        let answer = self.archive.len(file);
        counted(&mut self.faults, &mut self.trouble, answer)
    }

    fn volumes(&mut self) -> Result<u32, Failed> {
        let answer = self.archive.volumes();
        counted(&mut self.faults, &mut self.trouble, answer)
    }

    fn wrapped(&mut self) -> Result<Option<FileId>, Failed> {
        let answer = self.archive.wrapped();
        counted(&mut self.faults, &mut self.trouble, answer)
    }

    fn read(&mut self, file: FileId, at: u64, buffer: &mut [u8]) -> Result<(), Failed> {
        let answer = self.archive.read(file, at, buffer);
        counted(&mut self.faults, &mut self.trouble, answer)
    }

    fn append(&mut self, file: FileId, bytes: &[u8]) -> Result<(), Failed> {
        let answer = self.archive.append(file, bytes);
        counted(&mut self.faults, &mut self.trouble, answer)
    }

    fn sync(&mut self, file: FileId) -> Result<(), Failed> {
        let answer = self.archive.sync(file);
        counted(&mut self.faults, &mut self.trouble, answer)
    }

    fn cut(&mut self, file: FileId, len: u64) -> Result<(), Failed> {
        let answer = self.archive.cut(file, len);
        counted(&mut self.faults, &mut self.trouble, answer)
    }
}
