//! The files of an archive in the system's folder.
ghost use Rattle.std.specs.Prelude.{◌≡◌, IfOk, IfSome};

use crate::archive_names::{named, wrapped_name};
use crate::descriptors::file_above;
use crate::listing::Listing;
use crate::read_ahead::ReadAhead;
use crate::trouble::{Call, Trouble, of_file, of_folder, refused};
use pcp_outside::FileId;
use std::alloc::{AllocError, Global};
use std::fs::{File, Files, OpenOptions, TryLockError};
use std::io::{self, ErrorKind, Read, Write};
use std::os::unix::fs::MetadataExt;

/// Which file of the system one is, under whatever name: its number on its device.
#[derive(Clone, Copy, PartialEq)]
struct Node {
    device: u64,
    number: u64,
}

// So often a folder whose files grow is listed again: a logger waits for its disk between any two appends.
const MOST_LISTINGS: u32 = 20;

/// The files `BASE.meta`, `BASE.index`, `BASE.0` and so on, as the system's folder lists them at the first call. One that is no regular
/// file is a fault. Files that aren't there cost no call to the system.
#[derive(Drop)]
pub(crate) struct ArchiveFiles<'a, R: Files<File = File>> {
    alloc: Global,
    files: &'a R,
    base: String,
    writes: bool,
    // Held from the first call on where Meta was there, and else from the first change on.
    lock: Option<File>,
    listing: Listing,
    is_listed: bool,
    // Where a change is written, each file once it was changed, and one volume with its number.
    meta: Option<File>,
    index: Option<File>,
    volume: Option<(u32, File)>,
    reader: Option<ReadAhead>,
    // Whether the names of all files made by this object are surely in their folder.
    has_sure_names: bool,
    // Whether a sync failed. The system may forget what it couldn't write, so no later sync shows that it stands.
    is_lost: bool,
}

impl<'a, R: Files<File = File>> ArchiveFiles<'a, R> {
    pub(crate) fn new(alloc: Global, files: &'a R, base: String, writes: bool) -> Self {
        ArchiveFiles {
            alloc,
            files,
            base,
            writes,
            lock: None,
            listing: Listing::new(alloc),
            is_listed: false,
            meta: None,
            index: None,
            volume: None,
            reader: None,
            has_sure_names: false,
            is_lost: false,
        }
    }

    pub(crate) fn name_of(&self, file: FileId) -> Result<String, AllocError> {
        let base = self.base.as_str();
        match file {
            FileId::Meta => format!(in self.alloc; "{base}.meta"),
            FileId::Index => format!(in self.alloc; "{base}.index"),
            FileId::Volume(number) => format!(in self.alloc; "{base}.{number}"),
        }
    }

    // The folder of the files, with a slash at its end, and what their names in it begin with.
    fn place(&self) -> Result<(String, &str), AllocError> {
        match self.base.as_str().rsplit_once('/') {
            Some((folder, stem)) => Ok((format!(in self.alloc; "{folder}/")?, stem)),
            None => Ok((format!(in self.alloc; "./")?, self.base.as_str())),
        }
    }

    /// The folder of the files, with a slash at its end.
    pub(crate) fn folder(&self) -> Result<String, AllocError> {
        Ok(self.place()?.0)
    }

    // The names in the folder, each ended by a zero byte.
    fn names(&self) -> Result<Vec<u8>, Trouble> {
        match self.files.open_dir(self.folder()?.as_str()) {
            Ok(mut folder) => of_folder(Call::List, read_names(self.alloc, &mut folder)),
            Err(error) if error.kind() == ErrorKind::NotFound => Ok(Vec::new(self.alloc)),
            Err(error) => of_folder(Call::List, Err(error)),
        }
    }

    // How long a file is that is missing or a regular file.
    fn measure(&self, file: FileId) -> Result<u64, Trouble> {
        match self.files.metadata(self.name_of(file)?.as_str()) {
            Ok(found) if found.is_file() => Ok(found.len()),
            Ok(_) => Err(refused(Call::Measure, file, "not a regular file")),
            Err(error) if error.kind() == ErrorKind::NotFound => Ok(0),
            Err(error) => of_file(Call::Measure, file, Err(error)),
        }
    }

    fn node_of(&self, file: FileId) -> Result<Option<Node>, Trouble> {
        match self.files.metadata(self.name_of(file)?.as_str()) {
            Ok(found) => Ok(Some(Node {
                device: found.dev(),
                number: found.ino(),
            })),
            Err(error) if error.kind() == ErrorKind::NotFound => Ok(None),
            Err(error) => of_file(Call::Measure, file, Err(error)),
        }
    }

    // Which files of the system are there under its names.
    fn nodes(&self) -> Result<Vec<Node>, Trouble> {
        let stem = self.place()?.1.as_bytes();
        let names = self.names()?;
        let mut nodes = Vec::new(self.alloc);
        for name in names.as_slice().split(|byte| *byte == 0) {
            let Some(file) = named(stem, name) else {
                continue;
            };
            add_node(&mut nodes, self.node_of(file)?)?;
        }
        Ok(nodes)
    }

    /// Whether one of the files that are there is also one of another archive's, under whatever name.
    pub(crate) fn shares_file(&self, other: &Self) -> Result<bool, Trouble> {
        let others = other.nodes()?;
        let nodes = self.nodes()?;
        Ok(nodes.iter().any(|node| others.contains(node)))
    }

    fn list(&self) -> Result<Listing, Trouble> {
        let stem = self.place()?.1.as_bytes();
        let names = self.names()?;
        let mut listing = Listing::new(self.alloc);
        listing.set(FileId::Meta, self.measure(FileId::Meta)?)?;
        listing.set(FileId::Index, self.measure(FileId::Index)?)?;
        for name in names.as_slice().split(|byte| *byte == 0) {
            if let Some(FileId::Volume(number)) = named(stem, name) {
                let file = FileId::Volume(number);
                listing.set(file, self.measure(file)?)?;
            }
            if let Some(file) = wrapped_name(stem, name) {
                listing.add_wrapped(file);
            }
        }
        Ok(listing)
    }

    // The files as they stood at one moment, though a program may write them meanwhile: two listings, one behind the other, are equal.
    // Where they never are, the last one.
    fn list_of_a_moment(&self) -> Result<Listing, Trouble> {
        let mut listing = self.list()?;
        for _ in 0..MOST_LISTINGS {
            let again = self.list()?;
            if again == listing {
                break;
            }
            listing = again;
        }
        Ok(listing)
    }

    // Lists the folder where that isn't done. Where the files may be changed and Meta is there, the lock comes before.
    fn look(&mut self) -> Result<(), Trouble> {
        if self.is_listed {
            return Ok(());
        }
        self.listing = if self.writes {
            self.list_to_change()?
        } else {
            self.list_of_a_moment()?
        };
        self.is_listed = true;
        Ok(())
    }

    // The files, with the lock where Meta is there. Files that are listed without it may be those that another program makes at this
    // moment, which such a listing shows half: the lock is asked for again, and the folder is listed behind it.
    fn list_to_change(&mut self) -> Result<Listing, Trouble> {
        self.lock_where_there()?;
        let listing = self.list()?;
        if self.lock.is_some() || listing == Listing::new(self.alloc) {
            return Ok(listing);
        }
        self.lock_where_there()?;
        self.list()
    }

    fn lock_where_there(&mut self) -> Result<(), Trouble> {
        if self.lock.is_none() {
            self.measure(FileId::Meta)?;
            self.lock = self.lock_existing()?;
        }
        Ok(())
    }

    // The file, or `None` where it is missing.
    fn open(&self, how: &OpenOptions, file: FileId) -> Result<Option<File>, Trouble> {
        match how.open(self.files, self.name_of(file)?.as_str()) {
            Ok(opened) => Ok(Some(of_file(Call::Open, file, file_above(opened))?)),
            Err(error) if error.kind() == ErrorKind::NotFound => Ok(None),
            Err(error) => of_file(Call::Open, file, Err(error)),
        }
    }

    // The file, opened for appends; made where it is missing.
    fn open_or_make(&mut self, file: FileId) -> Result<File, Trouble> {
        if let Some(opened) = self.open(OpenOptions::new().append(true), file)? {
            return Ok(opened);
        }
        self.has_sure_names = false;
        let made = OpenOptions::new()
            .append(true)
            .create_new(true)
            .open(self.files, self.name_of(file)?.as_str());
        let made = of_file(Call::Open, file, made)?;
        of_file(Call::Open, file, file_above(made))
    }

    // Meta with the lock on it, where Meta is there. A file that may be read alone can be locked too.
    fn lock_existing(&self) -> Result<Option<File>, Trouble> {
        let opened = match self.open(OpenOptions::new().append(true), FileId::Meta) {
            Err(trouble) if is_denied(&trouble) => self.open(
                OpenOptions::new().read(true),
                FileId::Meta,
            )?,
            answer => answer?,
        };
        match opened {
            Some(opened) => Ok(Some(locked(opened)?)),
            None => Ok(None),
        }
    }

    fn may_change(&self, call: Call, file: FileId) -> Result<(), Trouble> {
        if !self.writes {
            return Err(refused(call, file, "this command changes no archive"));
        }
        if self.is_lost {
            return Err(refused(call, file, "a sync failed before"));
        }
        Ok(())
    }

    // What comes before each change: the lock, and where it is new, that the files are still those that were told.
    fn begin_change(&mut self, call: Call, file: FileId) -> Result<(), Trouble> {
        self.may_change(call, file)?;
        self.look()?;
        if self.lock.is_none() {
            let opened = locked(self.open_or_make(FileId::Meta)?)?;
            if self.list()? != self.listing {
                return Err(refused(
                    Call::Lock,
                    FileId::Meta,
                    "another program has changed this archive",
                ));
            }
            self.lock = Some(opened);
        }
        Ok(())
    }

    // Takes out what is kept open of a file to be changed.
    fn take_kept(&mut self, file: FileId) -> Option<File> {
        match file {
            FileId::Meta => self.meta.take(),
            FileId::Index => self.index.take(),
            FileId::Volume(number) => {
                let (kept, opened) = self.volume.take()?;
                if kept == number {
                    return Some(opened);
                }
                self.volume = Some((kept, opened));
                None
            }
        }
    }

    // Keeps a file open. Of two volumes the earlier is synced now.
    fn keep(&mut self, file: FileId, opened: File) -> Result<(), Trouble> {
        match file {
            FileId::Meta => self.meta = Some(opened),
            FileId::Index => self.index = Some(opened),
            FileId::Volume(number) => {
                let before = self.volume.take();
                self.volume = Some((number, opened));
                if let Some((earlier, before)) = before {
                    self.sure(FileId::Volume(earlier), before.sync_data())?;
                }
            }
        }
        Ok(())
    }

    // The answer of a sync. From one that failed on nothing is changed or sure any more.
    fn sure(&mut self, file: FileId, answer: io::Result<()>) -> Result<(), Trouble> {
        if answer.is_err() {
            self.is_lost = true;
        }
        of_file(Call::Sync, file, answer)
    }

    // Makes the names of the files sure.
    fn sure_names(&mut self) -> Result<(), Trouble> {
        if self.has_sure_names {
            return Ok(());
        }
        let folder = self.folder()?;
        match sync_folder(self.files, folder.as_str()) {
            Ok(()) => self.has_sure_names = true,
            Err(error) => {
                self.is_lost = true;
                return of_folder(Call::Sync, Err(error));
            }
        }
        Ok(())
    }

    // Lets go what was read ahead of a file that changes.
    fn forget(&mut self, file: FileId) {
        let is_read = match &self.reader {
            Some(reader) => reader.file() == file,
            None => false,
        };
        if is_read {
            self.reader = None;
        }
    }

    fn reader_of(&mut self, file: FileId) -> Result<ReadAhead, Trouble> {
        if let Some(reader) = self.reader.take() {
            if reader.file() == file {
                return Ok(reader);
            }
        }
        match self.open(OpenOptions::new().read(true), file)? {
            Some(opened) => Ok(ReadAhead::new(self.alloc, file, opened)),
            None => Err(refused(Call::Open, file, "the file is gone")),
        }
    }

    // The file as it is kept open for changes, or `None` where it is missing.
    fn writer_of(&mut self, file: FileId) -> Result<Option<File>, Trouble> {
        match self.take_kept(file) {
            Some(kept) => Ok(Some(kept)),
            None => self.open(OpenOptions::new().append(true), file),
        }
    }

    pub(crate) fn len(&mut self, file: FileId) -> Result<u64, Trouble> {
        self.look()?;
        Ok(self.listing.len_of(file))
    }

    pub(crate) fn volumes(&mut self) -> Result<u32, Trouble> {
        self.look()?;
        Ok(self.listing.volumes())
    }

    pub(crate) fn wrapped(&mut self) -> Result<Option<FileId>, Trouble> {
        self.look()?;
        Ok(self.listing.wrapped())
    }

    pub(crate) fn read(&mut self, file: FileId, at: u64, buffer: &mut [u8]) -> Result<(), Trouble> {
        if buffer.is_empty() {
            return Ok(());
        }
        self.look()?;
        let mut reader = self.reader_of(file)?;
        let answer = of_file(Call::Read, file, reader.read(at, buffer));
        self.reader = Some(reader);
        answer
    }

    pub(crate) fn append(&mut self, file: FileId, bytes: &[u8]) -> Result<(), Trouble> {
        self.begin_change(Call::Write, file)?;
        self.forget(file);
        self.is_listed = false;
        let mut opened = match self.take_kept(file) {
            Some(kept) => kept,
            None => self.open_or_make(file)?,
        };
        let answer = of_file(Call::Write, file, opened.write_all(bytes));
        self.keep(file, opened)?;
        answer?;
        let len = self.listing.len_of(file).saturating_add(bytes.len() as u64);
        self.listing.set(file, len)?;
        self.is_listed = true;
        Ok(())
    }

    pub(crate) fn sync(&mut self, file: FileId) -> Result<(), Trouble> {
        self.may_change(Call::Sync, file)?;
        self.look()?;
        if self.listing.len_of(file) == 0 {
            return Ok(());
        }
        let Some(opened) = self.writer_of(file)? else {
            return Err(refused(Call::Sync, file, "the file is gone"));
        };
        self.sure(file, opened.sync_data())?;
        self.keep(file, opened)?;
        self.sure_names()
    }

    pub(crate) fn cut(&mut self, file: FileId, len: u64) -> Result<(), Trouble> {
        self.begin_change(Call::Cut, file)?;
        self.forget(file);
        self.is_listed = false;
        match self.writer_of(file)? {
            Some(opened) => {
                let answer = match of_file(Call::Cut, file, opened.set_len(len)) {
                    Ok(()) => self.sure(file, opened.sync_all()),
                    Err(trouble) => Err(trouble),
                };
                self.keep(file, opened)?;
                answer?;
            }
            None if len > 0 => return Err(refused(Call::Cut, file, "the file is gone")),
            None => {}
        }
        self.listing.set(file, len)?;
        self.is_listed = true;
        Ok(())
    }
}

fn add_node(nodes: &mut Vec<Node>, node: Option<Node>) -> Result<(), AllocError> {
    if let Some(node) = node {
        nodes.push(node)?;
    }
    Ok(())
}

fn is_denied(trouble: &Trouble) -> bool {
    let kind = trouble.error.kind();
    kind == ErrorKind::PermissionDenied || kind == ErrorKind::ReadOnlyFilesystem
}

// Meta with the lock on it (flock(2)), which goes with the file when it is closed.
fn locked(opened: File) -> Result<File, Trouble> {
    match opened.try_lock() {
        Ok(()) => Ok(opened),
        Err(TryLockError::WouldBlock) => Err(refused(
            Call::Lock,
            FileId::Meta,
            "another program is writing this archive",
        )),
        Err(TryLockError::Error(error)) => of_file(Call::Lock, FileId::Meta, Err(error)),
    }
}

fn sync_folder<R: Files<File = File>>(files: &R, folder: &str) -> io::Result<()> {
    File::open(files, folder)?.sync_all()
}

// All that a folder tells. Each read asks for 4,096 bytes: one that has no room for the next name fails, and
// so many have room for any.
fn read_names<D: Read>(alloc: Global, folder: &mut D) -> io::Result<Vec<u8>>
    ensures all { IfOk result (λ names. IfSome (D.remaining folder.old) (λ told. names.items ≡ told)) }
{
    let mut names = Vec::new(alloc);
    let mut piece = [0u8; 4096];
    for _ in 0..u64::MAX {
        match folder.read(&mut piece) {
            Ok(0) => return Ok(names),
            Ok(count) => names.extend_from_slice(&piece[..count])?,
            Err(error) if error.kind() == ErrorKind::Interrupted => {}
            Err(error) => return Err(error),
        }
    }
    Err(io::Error::from(ErrorKind::Other))
}
