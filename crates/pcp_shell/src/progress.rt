//! What a recording has logged and made sure so far, or what was pulled, counted at its disk and told before each sample.
ghost use Rattle.std.specs.Prelude.{◌≡◌};

use pcp_outside::{Disk, Failed, FileId, LOGGER, Turn};
use std::io::{IsTerminal, Print};
use std::mem;
use std::sync::atomic::{AtomicU64, Ordering};

/// What is sure of what was logged: how many results, and how many bytes of all files.
#[derive(Drop)]
pub struct Progress {
    results: AtomicU64,
    bytes: AtomicU64,
}

impl Progress {
    pub fn new() -> Progress {
        Progress {
            results: AtomicU64::new(0),
            bytes: AtomicU64::new(0),
        }
    }
}

/// What was appended and isn't sure yet: so many bytes of each kind of file, and so many results. A volume is made sure before the next
/// one is begun.
#[derive(Drop)]
struct Unsure {
    meta: u64,
    index: u64,
    volume: u64,
    results: u64,
}

impl Unsure {
    fn nothing() -> Unsure {
        Unsure {
            meta: 0,
            index: 0,
            volume: 0,
            results: 0,
        }
    }

    fn append(&mut self, file: FileId, bytes: u64) {
        match file {
            FileId::Meta => self.meta = self.meta.saturating_add(bytes),
            FileId::Index => self.index = self.index.saturating_add(bytes),
            FileId::Volume(_) => self.volume = self.volume.saturating_add(bytes),
        }
    }

    // A file is sure: how many results and how many bytes came with it.
    fn sync(&mut self, file: FileId) -> (u64, u64) {
        match file {
            FileId::Meta => (0, mem::replace(&mut self.meta, 0)),
            FileId::Index => (0, mem::replace(&mut self.index, 0)),
            FileId::Volume(_) => (
                mem::replace(&mut self.results, 0),
                mem::replace(&mut self.volume, 0),
            ),
        }
    }
}

/// A disk at which it is counted what is appended, and of that what is made sure.
#[derive(Drop)]
pub struct CountedDisk<'a, D: Disk + Drop> {
    disk: D,
    // One more than the greatest number of a volume that isn't empty: what is appended first to a volume is its label.
    volumes: u32,
    unsure: Unsure,
    progress: &'a Progress,
}

impl<'a, D: Disk + Drop> CountedDisk<'a, D> {
    pub fn new(disk: D, progress: &'a Progress) -> CountedDisk<'a, D> {
        CountedDisk {
            disk,
            volumes: 0,
            unsure: Unsure::nothing(),
            progress,
        }
    }

    /// The disk below.
    pub fn into_disk(self) -> D {
        self.disk
    }

    // Counts what was appended; each result is appended at once.
    fn count(&mut self, file: FileId, bytes: usize)
        ensures { self.new.disk ≡ self.old.disk }
    {
        self.unsure.append(file, bytes as u64);
        let FileId::Volume(number) = file else {
            return;
        };
        if number < self.volumes {
            self.unsure.results = self.unsure.results.saturating_add(1);
        } else {
            self.volumes = number.saturating_add(1);
        }
    }

    // What was appended to a file is sure from now on.
    fn count_sure(&mut self, file: FileId)
        ensures { self.new.disk ≡ self.old.disk }
    {
        let (results, bytes) = self.unsure.sync(file);
        self.progress.results.fetch_add(results, Ordering::SeqCst);
        self.progress.bytes.fetch_add(bytes, Ordering::SeqCst);
    }
}

impl<'a, D: Disk + Drop> Disk for CountedDisk<'a, D> {
    ghost tells = { D.tells };

    ghost held = { λ d. D.held d.disk };

    ghost wrapped_file = { λ d. D.wrapped_file d.disk };

    ghost taken = { λ d. D.taken d.disk };

    ghost moment = { λ d. D.moment d.disk };

    ghost left_since = { λ d. D.left_since d.disk };

    ghost faults = { λ d. D.faults d.disk };

    ghost counts_now = { λ d. D.counts_now d.disk };

    ghost only_now = { λ d. D.only_now d.disk };

    fn len(&mut self, file: FileId) -> Result<u64, Failed> {
        self.disk.len(file)
    }

    fn volumes(&mut self) -> Result<u32, Failed> {
        let volumes = self.disk.volumes()?;
        self.volumes = volumes;
        Ok(volumes)
    }

    fn wrapped(&mut self) -> Result<Option<FileId>, Failed> {
        self.disk.wrapped()
    }

    fn read(&mut self, file: FileId, at: u64, buffer: &mut [u8]) -> Result<(), Failed> {
        self.disk.read(file, at, buffer)
    }

    fn append(&mut self, file: FileId, bytes: &[u8]) -> Result<(), Failed> {
        self.disk.append(file, bytes)?;
        self.count(file, bytes.len());
        Ok(())
    }

    fn sync(&mut self, file: FileId) -> Result<(), Failed> {
        self.disk.sync(file)?;
        self.count_sure(file);
        Ok(())
    }

    fn cut(&mut self, file: FileId, len: u64) -> Result<(), Failed> {
        self.disk.cut(file, len)?;
        if let (FileId::Volume(number), 0) = (file, len) {
            self.volumes = self.volumes.min(number);
        }
        Ok(())
    }
}

/// How many samples are told on a screen: none where it is no terminal, or where there is only one.
pub fn samples_told<P: IsTerminal>(samples: u32, screen: &P) -> Option<u32> {
    if samples > 1 && screen.is_terminal() {
        return Some(samples);
    }
    None
}

/// Turns of which some are told on a screen: before each of so many samples its number, and what was logged and made sure before it. Where
/// there is no such number nothing is told, and where the screen fails nothing else changes.
#[derive(Drop)]
pub struct ToldTurn<'a, T: Turn + Drop, P: Print> {
    turn: T,
    screen: &'a P,
    samples: Option<u32>,
    progress: &'a Progress,
}

impl<'a, T: Turn + Drop, P: Print> ToldTurn<'a, T, P> {
    pub fn new(turn: T, screen: &'a P, samples: Option<u32>, progress: &'a Progress) -> Self {
        ToldTurn {
            turn,
            screen,
            samples,
            progress,
        }
    }

    fn tell(&self, step: u64, samples: u32) {
        let number = step.saturating_add(1);
        let results = self.progress.results.load(Ordering::SeqCst);
        let bytes = self.progress.bytes.load(Ordering::SeqCst);
        let _ = println!(self.screen;
            "sample {number} of {samples}: results {results}, bytes {bytes}"
        );
    }
}

impl<'a, T: Turn + Drop, P: Print> Turn for ToldTurn<'a, T, P> {
    fn turn(&self, who: u32, step: u64) {
        self.turn.turn(who, step);
        if who != LOGGER {
            return;
        }
        if let Some(samples) = self.samples {
            self.tell(step, samples);
        }
    }
}
