//! A disk in memory, which keeps a record of its changes and so tells the images of every moment.
ghost use Rattle.std.specs.Prelude.{◌≡◌, ◌≤◌, ◌<◌, ◌+◌, ◌++◌, [], ◌∷◌, ℕ, true, length, take, drop, count_by, find, None, IfOk, OnOk, OnErr, IsErr, is_err, is_some};
ghost use Rattle.std.specs.Prelude.{◌⊎◌};
ghost use Rattle.pcp_outside.specs.Causes.{HasCause, shown_count};
ghost use Rattle.pcp_outside.specs.Devices.{IsNumbered, taken_after};
ghost use Rattle.pcp_model.specs.Written.{same_file};
ghost use Rattle.pcp_memory.specs.Memory.{is_listed};
ghost use Rattle.std.specs.Option.{option_copied};
ghost use Rattle.pcp_base.specs.declared.file.FileId.{FileId as File};
ghost use Rattle.pcp_model.specs.Disk.{Held, CrashImage, bytes_of, contents_of, nothing_held};
ghost use Rattle.pcp_outside.specs.Devices.{Becomes};
ghost use Rattle.pcp_memory.specs.Record.{IsKept, IsHeld, held_after_change, held_after, first_wrapped, is_append_of, is_sync_of, begun, fault_of, looked, done_after, DoesPart, is_possible, may_keep, kept_length, kept_of};

use crate::contents::Contents;
use crate::memory_streams::is_among;
use crate::plans::{Call, Counts, Fault, ask};
use pcp_base::{Bytes, FileId, List, NoMemory};
use pcp_outside::{Disk, Failed, is_before};
use std::alloc::Global;
use std::marker::Model;

/// A change of a disk in memory, by a call that was done.
#[derive(Drop)]
pub enum DiskChange {
    Append(FileId, Bytes),
    Sync(FileId),
    Cut(FileId, u64),
}

/// A call that was asked of a disk in memory, whether or not it was done.
#[derive(Clone, Copy)]
pub enum Asked {
    Append(FileId),
    Sync(FileId),
    Cut(FileId),
}

/// A disk in memory. It keeps its calls, and so tells what a crash at each moment might have left.
#[derive(Drop)]
pub struct MemDisk {
    alloc: Global,
    contents: Contents,
    calls: List<DiskChange>,
    asked: List<Asked>,
    fails: List<u64>,
    plan: List<Fault>,
    counts: Counts,
    faults: u64,
    taken: u64,
    wrapped: Option<FileId>,
}

impl Model for MemDisk {
    ghost use Rattle.pcp_memory.specs.Record.{DiskState, IsKept};

    ghost Value = { DiskState };

    ghost view = { λ d. record { calls = d.calls; asked = d.asked; fails = d.fails; plan = d.plan; counts = d.counts; faults = d.faults; taken = d.taken; wrapped = d.wrapped } };

    ghost invariant = { λ d. IsKept d.contents d.calls };
}

impl MemDisk {
    /// An empty disk. Of its appends, syncs and cuts, counted together from 1, those with the listed numbers
    /// fail and do nothing. So does one that gets no memory, be it for the record that the disk keeps.
    pub fn new(alloc: Global, fails: List<u64>) -> Self
        ensures { result ≡ begun [] fails [] None }
    {
        MemDisk::begin(alloc, fails, List::empty(alloc), None)
    }

    /// An empty disk of whose calls these fail; of two faults of one call the first counts. An append, a sync or a cut
    /// that gets no memory fails too and does nothing, be it for the record that the disk keeps.
    pub fn plan(alloc: Global, faults: List<Fault>) -> Self
        ensures { result ≡ begun [] [] faults None }
    {
        MemDisk::begin(alloc, List::empty(alloc), faults, None)
    }

    fn begin(alloc: Global, fails: List<u64>, plan: List<Fault>, wrapped: Option<FileId>) -> Self
        ensures { result ≡ begun [] fails plan wrapped }
    {
        MemDisk {
            alloc,
            contents: Contents::empty(alloc),
            calls: List::empty(alloc),
            asked: List::empty(alloc),
            fails,
            plan,
            counts: Counts::none(),
            faults: 0,
            taken: 0,
            wrapped,
        }
    }

    // Counts a call that changes no file, and refuses it where it is planned to fail.
    fn look(&mut self, call: Call) -> Result<(), Failed>
        ensures after { self.new ≡ looked call self.old }
        ensures planned { is_err result ≡ is_some (fault_of self.old call) }
        ensures quiet { OnOk result (self.new.faults ≡ self.old.faults) }
        ensures cause { HasCause self.old.faults self.new.faults result }
    {
        match ask(&self.plan, &mut self.counts, call) {
            None => Ok(()),
            Some(_) => Err(raise(&mut self.faults)),
        }
    }

    /// The bytes of a file.
    pub fn bytes(&self, file: FileId) -> &[u8]
        ensures { result.now ≡ bytes_of (held_after self.now.calls file) }
    {
        self.contents.bytes(file)
    }

    /// Lets this file stand under its name with `.xz` added, besides those that do already.
    pub fn wrap(&mut self, file: FileId)
        ensures { self.new ≡ record self.old { wrapped = first_wrapped self.old.wrapped file } }
    {
        let is_first = match self.wrapped {
            None => true,
            Some(found) => is_before(file, found),
        };
        if is_first {
            self.wrapped = Some(file);
        }
    }

    /// How many volume bytes reads have taken; 2^64 - 1 where it is more.
    pub fn taken(&self) -> u64
        ensures { result ≡ self.now.taken }
    {
        self.taken
    }

    /// How many appends and how many syncs of a file were asked for, done or not. One for whose record there
    /// was no memory isn't counted.
    pub fn calls(&self, file: FileId) -> (u64, u64)
        ensures appends { result.0 ≡ count_by (is_append_of file) self.now.asked }
        ensures syncs { result.1 ≡ count_by (is_sync_of file) self.now.asked }
    {
        let asked = self.asked.as_slice();
        let appends = asked.iter().filter(|call| is_append(**call, file)).count();
        let syncs = asked.iter().filter(|call| is_sync(**call, file)).count();
        (appends as u64, syncs as u64)
    }

    /// How many calls have changed the files: a moment is one of the numbers up to it, from 0.
    pub fn moments(&self) -> usize
        ensures { result ≡ length self.now.calls }
    {
        self.calls.len()
    }

    /// What a file held after the first `moment` calls that changed the disk: how many of its bytes were sure,
    /// and all of them.
    pub fn holdings_at(
        &self,
        alloc: Global,
        moment: usize,
        file: FileId,
    ) -> Result<(usize, Bytes), NoMemory>
        requires { moment ≤ length self.now.calls }
        ensures { IfOk result (λ found. IsHeld (held_after (take moment self.now.calls) file) found.0 found.1) }
    {
        let mut sure = 0;
        let mut bytes = Vec::new(alloc);
        for call in &self.calls.as_slice()[..moment] {
            sure = replay(call, file, sure, &mut bytes)?;
        }
        Ok((sure, List::from_vec(bytes)))
    }

    // How many bytes of a file are sure, and all of them.
    fn held_now(&self, alloc: Global, file: FileId) -> Result<(usize, Bytes), NoMemory>
        ensures { IfOk result (λ found. IsHeld (held_after self.now.calls file) found.0 found.1) }
    {
        self.holdings_at(alloc, self.moments(), file)
    }

    // Whether a length lies between a file's sure bytes and its length.
    fn is_possible(&self, alloc: Global, file: FileId, len: u64) -> Result<bool, NoMemory>
        ensures { IfOk result (λ is. is ≡ is_possible (held_after self.now.calls) file len) }
    {
        let (sure, bytes) = self.held_now(alloc, file)?;
        Ok(sure as u64 <= len && len <= bytes.len() as u64)
    }

    /// Whether a crash may leave these lengths: each lies between the file's sure bytes and its length.
    pub fn may_keep(&self, alloc: Global, keep: &List<(FileId, u64)>) -> Result<bool, NoMemory>
        ensures { IfOk result (λ may. may ≡ may_keep keep.now (held_after self.now.calls)) }
    {
        for entry in keep.as_slice() {
            if !self.is_possible(alloc, entry.0, entry.1)? {
                return Ok(false);
            }
        }
        Ok(true)
    }

    /// The disk that a crash leaves, whose bytes are all sure: of each file that is listed as many bytes, and of the
    /// others the sure ones. No call of it is to fail.
    pub fn crash(&self, alloc: Global, keep: &List<(FileId, u64)>) -> Result<MemDisk, NoMemory>
        requires { may_keep keep.now (held_after self.now.calls) ≡ true }
        ensures kept { IfOk result (λ d. (file : File) → held_after d.calls file ≡ kept_of keep.now (held_after self.now.calls) file) }
        ensures image { IfOk result (λ d. CrashImage (held_after self.now.calls) (contents_of (held_after d.calls))) }
        ensures begins { IfOk result (λ d. d ≡ begun d.calls [] [] self.now.wrapped) }
    {
        let mut image = MemDisk::begin(alloc, List::empty(alloc), List::empty(alloc), self.wrapped);
        self.leave(alloc, keep, FileId::Meta, &mut image)?;
        self.leave(alloc, keep, FileId::Index, &mut image)?;
        for number in 0..self.contents.volumes() {
            self.leave(alloc, keep, FileId::Volume(number), &mut image)?;
        }
        Ok(image)
    }

    // Puts what a crash leaves of a file into an image that has nothing of it yet.
    fn leave(
        &self,
        alloc: Global,
        keep: &List<(FileId, u64)>,
        file: FileId,
        image: &mut MemDisk,
    ) -> Result<(), NoMemory>
        requires numbered { IsNumbered file }
        requires may { may_keep keep.now (held_after self.now.calls) ≡ true }
        requires fresh { held_after image.old.calls file ≡ nothing_held }
        ensures rest { OnOk result (image.new ≡ record image.old { calls = image.new.calls }) }
        ensures laid { OnOk result (Becomes file (kept_of keep.now (held_after self.now.calls) file) (held_after image.old.calls) (held_after image.new.calls)) }
    {
        let (sure, bytes) = self.held_now(alloc, file)?;
        let count = count_kept(keep.as_slice(), file, sure as u64) as usize;
        image.lay(file, &bytes.as_slice()[..count])
    }

    // Puts bytes behind a file's end, and makes all of it sure.
    fn lay(&mut self, file: FileId, bytes: &[u8]) -> Result<(), NoMemory>
        requires { IsNumbered file }
        ensures { OnOk result (self.new ≡ record self.old { calls = (self.old.calls ++ DiskChange.Append file bytes.now ∷ []) ++ DiskChange.Sync file ∷ [] }) }
    {
        do_append(self.alloc, &mut self.contents, &mut self.calls, file, bytes)?;
        do_sync(&self.contents, &mut self.calls, file)
    }
}

fn find_kept(keep: &[(FileId, u64)], file: FileId) -> Option<&(FileId, u64)>
    ensures { option_copied result ≡ find (λ entry. same_file entry.0 file) keep.now }
{
    keep.iter().find(|entry| same(entry.0, file))
}

// How many bytes of a file a crash keeps, of which this many are sure.
fn count_kept(keep: &[(FileId, u64)], file: FileId, sure: u64) -> u64
    ensures { result ≡ kept_length keep.now file sure }
{
    match find_kept(keep, file) {
        Some(entry) => entry.1,
        None => sure,
    }
}

// Does a call again to what one file held.
fn replay(
    call: &DiskChange,
    file: FileId,
    sure: usize,
    bytes: &mut Vec<u8>,
) -> Result<usize, NoMemory>
    ensures { (h : Held) → IsHeld h sure bytes.old.items → IfOk result (λ sure_then. IsHeld (held_after_change file h call.now) sure_then bytes.new.items) }
{
    match call {
        DiskChange::Append(found, more) => {
            if same(*found, file) {
                bytes.extend_from_slice(more.as_slice())?;
            }
            Ok(sure)
        }
        DiskChange::Sync(found) => Ok(if same(*found, file) {
            bytes.len()
        } else {
            sure
        }),
        DiskChange::Cut(found, len) => {
            if !same(*found, file) {
                return Ok(sure);
            }
            bytes.truncate(*len as usize);
            Ok(sure.min(*len as usize))
        }
    }
}

impl Disk for MemDisk {
    ghost use Rattle.pcp_outside.specs.Devices.{length_of, IsVolumes, Appends, Syncs, Cuts, Elapses};
    ghost use Rattle.pcp_memory.specs.Record.{LeftSince, Refuses, counts_now_of, only_now_of};

    ghost tells = { Unit {0} };

    ghost held = { λ d. held_after d.calls };

    ghost wrapped_file = { λ d. d.wrapped };

    ghost taken = { λ d. d.taken };

    ghost moment = { λ d. length d.calls };

    ghost left_since = { λ d. LeftSince d.calls };

    ghost faults = { λ d. d.faults };

    ghost counts_now = { λ d t c le image. counts_now_of d.calls t c le image };

    ghost only_now = { λ d c left. only_now_of d.calls c left };

    fn len(&mut self, file: FileId) -> Result<u64, Failed>
        requires { IsNumbered file }
        ensures value { IfOk result (λ n. n ≡ shown_count (length_of (held_after self.old.calls file))) }
        ensures after { self.new ≡ looked Call.Len self.old }
        ensures planned { is_err result ≡ is_some (fault_of self.old Call.Len) }
        ensures quiet { OnOk result (self.new.faults ≡ self.old.faults) }
        ensures cause { HasCause self.old.faults self.new.faults result }
        ensures time { Elapses (length self.old.calls) (length self.new.calls) (LeftSince self.old.calls) (LeftSince self.new.calls) (held_after self.new.calls) }
    {
        self.look(Call::Len)?;
        Ok(self.contents.bytes(file).len() as u64)
    }

    fn volumes(&mut self) -> Result<u32, Failed>
        ensures value { IfOk result (IsVolumes (held_after self.old.calls)) }
        ensures after { self.new ≡ looked Call.Volumes self.old }
        ensures planned { is_err result ≡ is_some (fault_of self.old Call.Volumes) }
        ensures quiet { OnOk result (self.new.faults ≡ self.old.faults) }
        ensures cause { HasCause self.old.faults self.new.faults result }
        ensures time { Elapses (length self.old.calls) (length self.new.calls) (LeftSince self.old.calls) (LeftSince self.new.calls) (held_after self.new.calls) }
    {
        self.look(Call::Volumes)?;
        Ok(self.contents.volumes())
    }

    fn wrapped(&mut self) -> Result<Option<FileId>, Failed>
        ensures value { IfOk result (λ found. found ≡ self.old.wrapped) }
        ensures after { self.new ≡ looked Call.Wrapped self.old }
        ensures planned { is_err result ≡ is_some (fault_of self.old Call.Wrapped) }
        ensures quiet { OnOk result (self.new.faults ≡ self.old.faults) }
        ensures cause { HasCause self.old.faults self.new.faults result }
        ensures time { Elapses (length self.old.calls) (length self.new.calls) (LeftSince self.old.calls) (LeftSince self.new.calls) (held_after self.new.calls) }
    {
        self.look(Call::Wrapped)?;
        Ok(self.wrapped)
    }

    fn read(&mut self, file: FileId, at: u64, buffer: &mut [u8]) -> Result<(), Failed>
        requires numbered { IsNumbered file }
        requires within { at + length buffer.old ≤ length_of (held_after self.old.calls file) }
        ensures bytes { OnOk result (buffer.new ≡ take (length buffer.old) (drop at (bytes_of (held_after self.old.calls file)))) }
        ensures counted { OnOk result (self.new ≡ record (looked Call.Read self.old) { taken = taken_after file (length buffer.old) self.old.taken }) }
        ensures refused { OnErr result (self.new ≡ looked Call.Read self.old) }
        ensures same { OnErr result (buffer.new ≡ buffer.old) }
        ensures planned { is_err result ≡ is_some (fault_of self.old Call.Read) }
        ensures quiet { OnOk result (self.new.faults ≡ self.old.faults) }
        ensures cause { HasCause self.old.faults self.new.faults result }
        ensures time { Elapses (length self.old.calls) (length self.new.calls) (LeftSince self.old.calls) (LeftSince self.new.calls) (held_after self.new.calls) }
    {
        self.look(Call::Read)?;
        let start = at as usize;
        let bytes = &self.contents.bytes(file)[start..start + buffer.len()];
        buffer.copy_from_slice(bytes);
        self.taken = count_taken(file, self.taken, bytes.len() as u64);
        Ok(())
    }

    fn append(&mut self, file: FileId, bytes: &[u8]) -> Result<(), Failed>
        requires { IsNumbered file }
        ensures done { OnOk result (self.new ≡ done_after (DiskChange.Append file bytes.now) self.old) }
        ensures refused { OnErr result (Refuses (DiskChange.Append file bytes.now) self.old self.new) }
        ensures listed { is_listed self.old.fails (length self.old.asked + 1) ≡ true → IsErr result }
        ensures planned { is_some (fault_of self.old Call.Append) ≡ true → IsErr result }
        ensures held { Appends file bytes.now (held_after self.old.calls) (held_after self.new.calls) result }
        ensures cause { HasCause self.old.faults self.new.faults result }
        ensures time { Elapses (length self.old.calls) (length self.new.calls) (LeftSince self.old.calls) (LeftSince self.new.calls) (held_after self.new.calls) }
    {
        let fault = ask(&self.plan, &mut self.counts, Call::Append);
        if let Err(Failed) = admit(&mut self.asked, &self.fails, Asked::Append(file)) {
            return Err(raise(&mut self.faults));
        }
        match append_part(
            self.alloc,
            &mut self.contents,
            &mut self.calls,
            file,
            bytes,
            fault,
        ) {
            Ok(()) => Ok(()),
            Err(Failed) => Err(raise(&mut self.faults)),
        }
    }

    fn sync(&mut self, file: FileId) -> Result<(), Failed>
        requires { IsNumbered file }
        ensures done { OnOk result (self.new ≡ done_after (DiskChange.Sync file) self.old) }
        ensures refused { OnErr result (Refuses (DiskChange.Sync file) self.old self.new) }
        ensures listed { is_listed self.old.fails (length self.old.asked + 1) ≡ true → IsErr result }
        ensures planned { is_some (fault_of self.old Call.Sync) ≡ true → IsErr result }
        ensures held { Syncs file (held_after self.old.calls) (held_after self.new.calls) result }
        ensures cause { HasCause self.old.faults self.new.faults result }
        ensures time { Elapses (length self.old.calls) (length self.new.calls) (LeftSince self.old.calls) (LeftSince self.new.calls) (held_after self.new.calls) }
    {
        let fault = ask(&self.plan, &mut self.counts, Call::Sync);
        if let Err(Failed) = admit(&mut self.asked, &self.fails, Asked::Sync(file)) {
            return Err(raise(&mut self.faults));
        }
        match sync_part(&self.contents, &mut self.calls, file, fault) {
            Ok(()) => Ok(()),
            Err(Failed) => Err(raise(&mut self.faults)),
        }
    }

    fn cut(&mut self, file: FileId, len: u64) -> Result<(), Failed>
        requires numbered { IsNumbered file }
        requires within { len ≤ length_of (held_after self.old.calls file) }
        ensures done { OnOk result (self.new ≡ done_after (DiskChange.Cut file len) self.old) }
        ensures refused { OnErr result (Refuses (DiskChange.Cut file len) self.old self.new) }
        ensures listed { is_listed self.old.fails (length self.old.asked + 1) ≡ true → IsErr result }
        ensures planned { is_some (fault_of self.old Call.Cut) ≡ true → IsErr result }
        ensures held { Cuts file len (held_after self.old.calls) (held_after self.new.calls) result }
        ensures cause { HasCause self.old.faults self.new.faults result }
        ensures time { Elapses (length self.old.calls) (length self.new.calls) (LeftSince self.old.calls) (LeftSince self.new.calls) (held_after self.new.calls) }
    {
        let fault = ask(&self.plan, &mut self.counts, Call::Cut);
        if let Err(Failed) = admit(&mut self.asked, &self.fails, Asked::Cut(file)) {
            return Err(raise(&mut self.faults));
        }
        match cut_part(&mut self.contents, &mut self.calls, file, len, fault) {
            Ok(()) => Ok(()),
            Err(Failed) => Err(raise(&mut self.faults)),
        }
    }
}

// The count of volume bytes taken, after a read of this many.
fn count_taken(file: FileId, taken: u64, count: u64) -> u64
    ensures { result ≡ taken_after file count taken }
{
    match file {
        FileId::Volume(_) => taken.saturating_add(count),
        FileId::Meta | FileId::Index => taken,
    }
}

fn is_append(call: Asked, file: FileId) -> bool
    ensures { result ≡ is_append_of file call }
{
    match call {
        Asked::Append(found) => same(found, file),
        Asked::Sync(_) | Asked::Cut(_) => false,
    }
}

fn is_sync(call: Asked, file: FileId) -> bool
    ensures { result ≡ is_sync_of file call }
{
    match call {
        Asked::Sync(found) => same(found, file),
        Asked::Append(_) | Asked::Cut(_) => false,
    }
}

fn same(a: FileId, b: FileId) -> bool
    ensures { result ≡ same_file a b }
{
    match (a, b) {
        (FileId::Meta, FileId::Meta) | (FileId::Index, FileId::Index) => true,
        (FileId::Volume(first), FileId::Volume(second)) => first == second,
        _ => false,
    }
}

// Counts a fault.
fn raise(faults: &mut u64) -> Failed
    ensures { faults.new ≡ shown_count (faults.old + 1) }
{
    *faults = faults.saturating_add(1);
    Failed
}

// Notes that a call was asked for, and refuses one whose number is listed.
fn admit(asked: &mut List<Asked>, fails: &List<u64>, call: Asked) -> Result<(), Failed>
    ensures listed { is_listed fails.now (length asked.old + 1) ≡ true → IsErr result }
    ensures ok { OnOk result (asked.new ≡ asked.old ++ call ∷ []) }
    ensures err { OnErr result ((asked.new ≡ asked.old ++ call ∷ []) ⊎ (asked.new ≡ asked.old)) }
{
    if asked.push(call).is_err() {
        return Err(Failed);
    }
    if is_among(fails, asked.len() as u64) {
        return Err(Failed);
    }
    Ok(())
}

// Puts bytes behind a file's end, and notes it. Without memory nothing is changed.
fn do_append(
    alloc: Global,
    contents: &mut Contents,
    calls: &mut List<DiskChange>,
    file: FileId,
    bytes: &[u8],
) -> Result<(), NoMemory>
    requires numbered { IsNumbered file }
    requires kept { IsKept contents.old calls.old }
    ensures kept { IsKept contents.new calls.new }
    ensures ok { OnOk result (calls.new ≡ calls.old ++ DiskChange.Append file bytes.now ∷ []) }
    ensures err { OnErr result (calls.new ≡ calls.old) }
{
    let noted = List::from_vec(Vec::from_slice(alloc, bytes)?);
    calls.push(DiskChange::Append(file, noted))?;
    match contents.extend(alloc, file, bytes) {
        Ok(()) => Ok(()),
        Err(refused) => {
            let _undone = calls.pop();
            Err(refused)
        }
    }
}

fn do_sync(contents: &Contents, calls: &mut List<DiskChange>, file: FileId) -> Result<(), NoMemory>
    requires kept { IsKept contents.now calls.old }
    ensures kept { IsKept contents.now calls.new }
    ensures ok { OnOk result (calls.new ≡ calls.old ++ DiskChange.Sync file ∷ []) }
    ensures err { OnErr result (calls.new ≡ calls.old) }
{
    calls.push(DiskChange::Sync(file))?;
    Ok(())
}

fn do_cut(
    contents: &mut Contents,
    calls: &mut List<DiskChange>,
    file: FileId,
    len: u64,
) -> Result<(), NoMemory>
    requires kept { IsKept contents.old calls.old }
    ensures kept { IsKept contents.new calls.new }
    ensures ok { OnOk result (calls.new ≡ calls.old ++ DiskChange.Cut file len ∷ []) }
    ensures err { OnErr result (calls.new ≡ calls.old) }
{
    calls.push(DiskChange::Cut(file, len))?;
    contents.truncate(file, len as usize);
    Ok(())
}

// The first bytes, as many as a fault keeps.
fn kept_front(bytes: &[u8], kept: u32) -> &[u8]
    ensures { result.now ≡ take kept bytes.now }
{
    match bytes.get(..kept as usize) {
        Some(front) => front,
        None => bytes,
    }
}

// Appends, or by a fault that is planned only the first bytes, or none.
fn append_part(
    alloc: Global,
    contents: &mut Contents,
    calls: &mut List<DiskChange>,
    file: FileId,
    bytes: &[u8],
    fault: Option<u32>,
) -> Result<(), Failed>
    requires numbered { IsNumbered file }
    requires kept { IsKept contents.old calls.old }
    ensures kept { IsKept contents.new calls.new }
    ensures ok { OnOk result (calls.new ≡ calls.old ++ DiskChange.Append file bytes.now ∷ []) }
    ensures planned { OnOk result (fault ≡ None) }
    ensures err { OnErr result (DoesPart fault (DiskChange.Append file bytes.now) calls.old calls.new) }
{
    match fault {
        None => match do_append(alloc, contents, calls, file, bytes) {
            Ok(()) => Ok(()),
            Err(NoMemory) => Err(Failed),
        },
        Some(0) => Err(Failed),
        Some(kept) => match do_append(alloc, contents, calls, file, kept_front(bytes, kept)) {
            Ok(()) => Err(Failed),
            Err(NoMemory) => Err(Failed),
        },
    }
}

// Syncs; by a fault that is planned the same, or nothing.
fn sync_part(
    contents: &Contents,
    calls: &mut List<DiskChange>,
    file: FileId,
    fault: Option<u32>,
) -> Result<(), Failed>
    requires kept { IsKept contents.now calls.old }
    ensures kept { IsKept contents.now calls.new }
    ensures ok { OnOk result (calls.new ≡ calls.old ++ DiskChange.Sync file ∷ []) }
    ensures planned { OnOk result (fault ≡ None) }
    ensures err { OnErr result (DoesPart fault (DiskChange.Sync file) calls.old calls.new) }
{
    match fault {
        None => match do_sync(contents, calls, file) {
            Ok(()) => Ok(()),
            Err(NoMemory) => Err(Failed),
        },
        Some(0) => Err(Failed),
        Some(_) => match do_sync(contents, calls, file) {
            Ok(()) => Err(Failed),
            Err(NoMemory) => Err(Failed),
        },
    }
}

// Cuts; by a fault that is planned the same, or nothing.
fn cut_part(
    contents: &mut Contents,
    calls: &mut List<DiskChange>,
    file: FileId,
    len: u64,
    fault: Option<u32>,
) -> Result<(), Failed>
    requires kept { IsKept contents.old calls.old }
    ensures kept { IsKept contents.new calls.new }
    ensures ok { OnOk result (calls.new ≡ calls.old ++ DiskChange.Cut file len ∷ []) }
    ensures planned { OnOk result (fault ≡ None) }
    ensures err { OnErr result (DoesPart fault (DiskChange.Cut file len) calls.old calls.new) }
{
    match fault {
        None => match do_cut(contents, calls, file, len) {
            Ok(()) => Ok(()),
            Err(NoMemory) => Err(Failed),
        },
        Some(0) => Err(Failed),
        Some(_) => match do_cut(contents, calls, file, len) {
            Ok(()) => Err(Failed),
            Err(NoMemory) => Err(Failed),
        },
    }
}
