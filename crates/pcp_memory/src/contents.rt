//! What the files of a disk in memory hold.
ghost use Rattle.std.specs.Prelude.{◌≡◌, ◌++◌, ◌+◌, ◌≤◌, ℕ, [], take, length, OnOk, OnErr};
ghost use Rattle.pcp_memory.specs.Volumes.{HasNumbers};

use pcp_base::{FileId, NoMemory};
use std::alloc::Global;
use std::collections::BTreeMap;

/// What the files of a disk in memory read as.
#[derive(Drop)]
pub struct Contents {
    pub meta: Vec<u8>,
    pub index: Vec<u8>,
    pub volumes: BTreeMap<u32, Vec<u8>>,
    ghost numbered: { HasNumbers volumes },
}

impl Contents {
    ghost use Rattle.pcp_model.specs.Disk.{contents_of};
    ghost use Rattle.pcp_memory.specs.Contents.{files_of, Sets};
    ghost use Rattle.pcp_outside.specs.Devices.{IsNumbered, IsVolumes};
    ghost use Rattle.pcp_base.specs.declared.file.FileId.{FileId as File};

    pub fn empty(alloc: Global) -> Self
        ensures { (file : File) → files_of result file ≡ [] }
    {
        Contents {
            meta: Vec::new(alloc),
            index: Vec::new(alloc),
            volumes: BTreeMap::new(alloc),
        }
    }

    /// The bytes of a file.
    pub fn bytes(&self, file: FileId) -> &[u8]
        ensures { result.now ≡ files_of self.now file }
    {
        match file {
            FileId::Meta => self.meta.as_slice(),
            FileId::Index => self.index.as_slice(),
            FileId::Volume(number) => match self.volumes.get(&number) {
                Some(bytes) => bytes.as_slice(),
                None => &[],
            },
        }
    }

    /// Puts bytes behind a file's end; without memory all files read as before.
    pub fn extend(&mut self, alloc: Global, file: FileId, bytes: &[u8]) -> Result<(), NoMemory>
        requires { IsNumbered file }
        ensures ok { OnOk result (Sets file (files_of self.old file ++ bytes.now) self.old self.new) }
        ensures err { OnErr result ((g : File) → files_of self.new g ≡ files_of self.old g) }
    {
        match file {
            FileId::Meta => self.meta.extend_from_slice(bytes)?,
            FileId::Index => self.index.extend_from_slice(bytes)?,
            FileId::Volume(number) => {
                let volume = self.volumes.entry(number)?.or_insert(Vec::new(alloc));
                volume.extend_from_slice(bytes)?;
            }
        }
        Ok(())
    }

    /// Keeps the first bytes of a file.
    pub fn truncate(&mut self, file: FileId, len: usize)
        ensures { Sets file (take len (files_of self.old file)) self.old self.new }
    {
        match file {
            FileId::Meta => self.meta.truncate(len),
            FileId::Index => self.index.truncate(len),
            FileId::Volume(number) => {
                if let Some(volume) = self.volumes.get_mut(&number) {
                    volume.truncate(len);
                }
            }
        }
    }

    /// One more than the greatest number of a volume that isn't empty, or 0.
    pub fn volumes(&self) -> u32
        ensures last { (k : ℕ) → result ≡ k + 1 → files_of self.now (File.Volume k) ≡ [] → ⊥ }
        ensures past { (k : ℕ) → result ≤ k → files_of self.now (File.Volume k) ≡ [] }
    {
        let mut most = 0;
        for (number, bytes) in &self.volumes {
            if !bytes.is_empty() {
                most = most.max(*number + 1);
            }
        }
        most
    }
}
