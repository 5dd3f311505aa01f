//! What a logger keeps, and its calls.
ghost use Rattle.std.specs.Prelude.{◌≡◌, ◌≢◌, ◌<◌, ◌≤◌, [], ◌∷◌, true, false, length, take, ℕ, List as Sequence, None, Some, Err, Ok, IfOk, IfErr, MatchOption, OnErr, OnOk};
ghost use Rattle.pcp_model.specs.Disk.{IsEmpty, contents_of};
ghost use Rattle.pcp_model.specs.declared.records.MetaRecord.{MetaRecord as Record};
ghost use Rattle.logger_core.specs.declared.ends.Ends.{Ends as Numbers};
ghost use Rattle.pcp_outside.specs.Devices.{LeavesOnly};
ghost use Rattle.logger_core.specs.declared.fault.LogFault.TheVariants.{Closed, Live, NoMemory as Refused, DiskFault};
ghost use Rattle.std.specs.List.{AllByRecursion};
ghost use Rattle.pcp_base.specs.Results.{Fits};
ghost use Rattle.pcp_base.specs.declared.result.Item.TheVariants.{Sample};
ghost use Rattle.archive_meta.specs.Enough.{AreEnough};
ghost use Rattle.logger_core.specs.Grouping.{MayBeAsked, AreAllEnough, AreLogged, AreLoggable, AreWritten, BeginsRun, GroupMayAnswer, LeavesFirst, Told, samples_of};
ghost use Rattle.logger_core.specs.Held.{AreRuns, AreRunsBounded, IsJudgedBy, JudgeMayAnswer, RunWritten, after_runs, counts_of};
ghost use Rattle.logger_core.specs.Holding.{GroupStops, HoldMayAnswer, IsHeldBy, ending_at};
ghost use Rattle.logger_core.specs.Logging.{IsLogged, IsLoggable, IsPrepared, PrepareMayAnswer, LogMayAnswer};
ghost use Rattle.logger_core.specs.Runs.{SurvivesWith};
ghost use Rattle.logger_core.specs.Writing.{IsBounded};
ghost use Rattle.logger_core.specs.Created.{HasNoItem, IsCreated, first_ends};
ghost use Rattle.logger_core.specs.Going.{AreSmall, IsFlushed, IsReachable, IsVolumeSure, all_acknowledged, counting_all};
ghost use Rattle.logger_core.specs.Meant.{Meant, IsAt, IsLogger, SurvivesOf};
ghost use Rattle.logger_core.specs.Passing.{HasPassedFirst};
ghost use Rattle.logger_core.specs.Refusals.{FlushMayAnswer, CreateMayAnswer};
ghost use Rattle.logger_core.specs.Reopening.{IsLeft, IsReopened, SameFiles, ends_of};
ghost use Rattle.logger_core.specs.Retiring.{HasRetiredSome, IsRetiring, RetireMayAnswer, held_without, retired};
ghost use Rattle.pcp_base.specs.declared.file.FileId.{FileId as File};

use crate::creating::write_labels;
use crate::ends::Ends;
use crate::extending::extend;
use crate::fault::LogFault;
use crate::flushing::{flush_files, sync_volume};
use crate::groups::{Group, Judged, hold, hold_all, is_memory, let_go};
use crate::logging::write_item;
use crate::opening::ends_of;
use crate::preparing::{Made, prepare};
use crate::retiring::empty_volumes;
use crate::writing::write_runs;
use archive_meta::{Facts, MetaState};
use archive_recovery::Archive;
use pcp_base::{Duplicate, List, NoMemory, PmResult};
use pcp_model::Label;
use pcp_outside::Disk;
use std::alloc::Global;
use std::marker::Model;

/// A logger of one archive (pmlogger(1)). Between its calls the disk holds all that it logged; each call that reaches the files
/// is handed the disk, which nobody else has changed since.
#[derive(Drop)]
pub struct Logger {
    label: Label,
    meta: MetaState,
    ends: Ends,
    limit: u64,
    closed: bool,
}

impl Model for Logger {
    ghost use Rattle.logger_core.specs.Meant.{Kept};
    ghost use Rattle.logger_core.specs.Going.{IsReachable};

    ghost Value = { Kept };

    ghost view = { λ a. record { label = a.label; records = a.meta; ends = a.ends; limit = a.limit; closed = a.closed } };

    ghost invariant = { λ a. IsReachable a.ends a.limit };
}

/// The same label.
fn copy_of(alloc: Global, label: &Label) -> Result<Label, NoMemory>
    ensures { IfOk result (λ l. l ≡ label.now) }
{
    let host = label.host().copy(alloc)?;
    let zone = label.zone().copy(alloc)?;
    match Label::build(label.pid(), label.start(), host, zone) {
        Some(copy) => Ok(copy),
        // Both texts are as long as they were.
        None => Err(NoMemory),
    }
}

/// Where the files of a new archive end.
fn first_ends() -> Ends
    ensures { result ≡ first_ends }
{
    Ends {
        meta: 132,
        index: 132,
        volume: 0,
        length: 132,
        greatest: None,
        entry: None,
        logged: 0,
        acknowledged: 0,
    }
}

/// The logger of a new archive.
fn new_logger(label: Label, meta: MetaState, limit: u64) -> Logger
    requires { limit ≤ 1073741824 }
    ensures { result ≡ record { label = label; records = meta; ends = first_ends; limit = limit; closed = false } }
{
    Logger {
        label,
        meta,
        ends: first_ends(),
        limit,
        closed: false,
    }
}

/// The logger of an archive that was left so, whose files end there.
fn logger_of(archive: Archive, ends: Ends, limit: u64) -> Option<Logger>
    requires small { AreSmall ends }
    requires limited { limit ≤ 1073741824 }
    ensures { MatchOption result (archive.label ≡ None) (λ l. (Some l.label ≡ archive.label) × (l.records ≡ archive.meta) × (l.ends ≡ ends) × (l.limit ≡ limit) × (l.closed ≡ false)) }
{
    let label = archive.label?;
    Some(Logger {
        label,
        meta: archive.meta,
        ends,
        limit,
        closed: false,
    })
}

/// The refusal, if there is one.
fn answer_of(refused: Option<(u32, LogFault)>) -> Result<(), (u32, LogFault)>
    ensures none { OnOk result (refused ≡ None) }
    ensures some { IfErr result (λ e. refused ≡ Some e) }
{
    match refused {
        None => Ok(()),
        Some(refusal) => Err(refusal),
    }
}

impl Logger {
    /// A logger of a new archive, over files that hold nothing: the labels of Meta, of the index and of the first volume are
    /// appended and synced. `volume` is the volume limit, 1,024 to 1,073,741,824 bytes.
    pub fn create<D: Disk>(
        alloc: Global,
        disk: &mut D,
        label: &Label,
        volume: u64,
    ) -> Result<Logger, LogFault>
        requires limit { (1024 ≤ volume) × (volume ≤ 1073741824) }
        // The labels stand, synced, and nothing else; the logger keeps the archive that they are.
        ensures created { D.tells → IsEmpty (contents_of (D.held disk.old)) → IfOk result (λ l. IsCreated label.now volume l (D.held disk.new)) }
        // The logger may log: no call of it has failed at the disk.
        ensures open_ { IfOk result (λ l. (l.limit ≡ volume) × (l.closed ≡ false)) }
        // A crash at any moment leaves files without an item.
        ensures any_moment { D.tells → IsEmpty (contents_of (D.held disk.old)) → LeavesOnly D.moment D.left_since disk.old disk.new HasNoItem }
        // A refusal is a fault of the disk, whose count then rose, or want of memory.
        ensures fault { IfErr result (λ e. CreateMayAnswer (D.faults disk.old) (D.faults disk.new) e) }
        // The disk was not touched where memory ran out.
        ensures untouched { IfErr result (λ e. e ≡ Refused → disk.new ≡ disk.old) }
        ensures later { D.faults disk.old ≤ D.faults disk.new }
        ensures quiet { OnOk result (D.faults disk.new ≡ D.faults disk.old) }
    {
        let copy = copy_of(alloc, label)?;
        let meta = MetaState::empty(alloc);
        match write_labels(disk, &copy) {
            Ok(()) => Ok(new_logger(copy, meta, volume)),
            Err(_) => Err(LogFault::DiskFault),
        }
    }

    /// A logger that goes on with an archive as recovery left it, which has a label: every item is acknowledged. `volume` is the
    /// volume limit, 1,024 to 1,073,741,824 bytes. It takes no memory of its own; `NoMemory` comes exactly where a file has 2^63
    /// bytes or more, or the volume a number of 2^31 or more, and no other refusal does.
    pub fn reopen<D: Disk>(disk: &mut D, archive: Archive, volume: u64) -> Result<Logger, LogFault>
        requires limit { (1024 ≤ volume) × (volume ≤ 1073741824) }
        requires labelled { archive.label ≢ None }
        // The logger keeps the archive that recovery left.
        ensures reopened { D.tells → IsLeft archive (D.held disk.old) → IfOk result (λ l. IsReopened volume l (D.held disk.new)) }
        // A crash at any moment leaves the files as they are.
        ensures any_moment { D.tells → IsLeft archive (D.held disk.old) → LeavesOnly D.moment D.left_since disk.old disk.new (SameFiles (D.held disk.old)) }
        ensures untouched { disk.new ≡ disk.old }
        // It is refused exactly where a file is so long.
        ensures fault { IfErr result (λ e. (e ≡ Refused) × (AreSmall (ends_of archive) → ⊥)) }
        // What it keeps is what was told.
        ensures told { IfOk result (λ l. (Some l.label ≡ archive.label) × (l.records ≡ archive.meta) × (l.ends ≡ ends_of archive) × (l.limit ≡ volume) × (l.closed ≡ false)) }
    {
        let _ = disk;
        let Some(ends) = ends_of(&archive) else {
            return Err(LogFault::NoMemory);
        };
        match logger_of(archive, ends, volume) {
            Some(logger) => Ok(logger),
            None => Err(LogFault::NoMemory),
        }
    }

    /// How many items there are, or were in volumes that were retired: those found at opening, and those logged since.
    pub fn logged(&self) -> u64
        ensures { result ≡ self.now.ends.logged }
    {
        self.ends.logged
    }

    /// How many items are acknowledged: those found at opening, and those acknowledged since.
    pub fn acknowledged(&self) -> u64
        ensures { result ≡ self.now.ends.acknowledged }
    {
        self.ends.acknowledged
    }

    /// Where the files end.
    pub(crate) fn ends(&self) -> Ends
        ensures value { result ≡ self.now.ends }
        ensures small { AreSmall self.now.ends }
    {
        self.ends
    }

    /// Makes every logged item sure, and then puts an entry behind the index where one is due: `Ok` acknowledges them all. No
    /// memory is taken.
    pub fn flush<D: Disk>(&mut self, disk: &mut D) -> Result<(), LogFault>
        // The files are those after a flush, and every item is acknowledged.
        ensures done { D.tells → (m : Meant) → IsLogger m self.old (D.held disk.old) → OnOk result (IsFlushed m self.old self.new (D.held disk.new)) }
        // After Ok it may be called again, with the same volume limit.
        ensures open_ { OnOk result ((self.new.limit ≡ self.old.limit) × (self.new.closed ≡ false)) }
        // A crash at any moment leaves the first items, all acknowledged ones among them, each described.
        ensures any_moment { D.tells → (m : Meant) → IsLogger m self.old (D.held disk.old) → LeavesOnly D.moment D.left_since disk.old disk.new (SurvivesOf m) }
        // The volume that is written is wholly sure.
        ensures sure { D.tells → OnOk result (IsVolumeSure self.new.ends.volume (D.held disk.new)) }
        // Closed comes exactly after a fault of the disk, and then nothing is touched.
        ensures closed { self.old.closed ≡ true → (result ≡ Err Closed) × (self.new ≡ self.old) × (disk.new ≡ disk.old) }
        // Which refusal it is; a fault of the disk closes the logger.
        ensures fault { IfErr result (λ e. FlushMayAnswer self.old self.new (D.faults disk.old) (D.faults disk.new) e) }
        ensures later { D.faults disk.old ≤ D.faults disk.new }
        // Every refusal but a fault of the disk leaves the disk untouched.
        ensures untouched { IfErr result (λ e. e ≢ DiskFault → disk.new ≡ disk.old) }
        ensures quiet { OnOk result (D.faults disk.new ≡ D.faults disk.old) }
    {
        if self.closed {
            return Err(LogFault::Closed);
        }
        match flush_files(disk, &self.ends) {
            Ok(ends) => {
                self.ends = ends;
                Ok(())
            }
            Err(_) => {
                self.closed = true;
                Err(LogFault::DiskFault)
            }
        }
    }

    /// Makes every logged item sure, and puts no entry behind the index: `Ok` acknowledges them all. No memory is taken.
    pub fn sync<D: Disk>(&mut self, disk: &mut D) -> Result<(), LogFault>
        // The files are as they were, and every item is acknowledged.
        ensures done { D.tells → (m : Meant) → IsLogger m self.old (D.held disk.old) → OnOk result (IsLogger (all_acknowledged m) self.new (D.held disk.new)) }
        // Nothing of the logger changes but how many are acknowledged.
        ensures counted { OnOk result (self.new ≡ counting_all self.old) }
        // After Ok it may be called again, with the same volume limit.
        ensures open_ { OnOk result ((self.new.limit ≡ self.old.limit) × (self.new.closed ≡ false)) }
        // A crash at any moment leaves the first items, all acknowledged ones among them, each described.
        ensures any_moment { D.tells → (m : Meant) → IsLogger m self.old (D.held disk.old) → LeavesOnly D.moment D.left_since disk.old disk.new (SurvivesOf m) }
        // The volume that is written is wholly sure.
        ensures sure { D.tells → OnOk result (IsVolumeSure self.new.ends.volume (D.held disk.new)) }
        // Closed comes exactly after a fault of the disk, and then nothing is touched.
        ensures closed { self.old.closed ≡ true → (result ≡ Err Closed) × (self.new ≡ self.old) × (disk.new ≡ disk.old) }
        // Which refusal it is; a fault of the disk closes the logger.
        ensures fault { IfErr result (λ e. FlushMayAnswer self.old self.new (D.faults disk.old) (D.faults disk.new) e) }
        ensures later { D.faults disk.old ≤ D.faults disk.new }
        // Every refusal but a fault of the disk leaves the disk untouched.
        ensures untouched { IfErr result (λ e. e ≢ DiskFault → disk.new ≡ disk.old) }
        ensures quiet { OnOk result (D.faults disk.new ≡ D.faults disk.old) }
    {
        if self.closed {
            return Err(LogFault::Closed);
        }
        match sync_volume(disk, &self.ends) {
            Ok(ends) => {
                self.ends = ends;
                Ok(())
            }
            Err(_) => {
                self.closed = true;
                Err(LogFault::DiskFault)
            }
        }
    }

    /// Retires the volumes below a number, which is at most that of the volume that is written: the lowest first, each is cut to
    /// empty, but for those that are. Metadata and the index's entries stay. The items of these volumes still count as logged and
    /// acknowledged, the next result is still compared with the greatest stamp of before, and for the index an item still stands. No memory
    /// is taken. Every refusal but `DiskFault` leaves all as it was.
    pub fn retire<D: Disk>(&mut self, disk: &mut D, below: u32) -> Result<(), LogFault>
        // The volumes below that number hold nothing, and each other file what it held.
        ensures emptied { D.tells → OnOk result ((file : File) → D.held disk.new file ≡ held_without (D.held disk.old) below file) }
        // The logger goes on with what is left.
        ensures done { D.tells → (m : Meant) → IsLogger m self.old (D.held disk.old) → OnOk result (IsLogger (retired m below) self.new (D.held disk.new)) }
        // It is as it was: `logged`, `acknowledged` and the greatest stamp don't fall.
        ensures same { OnOk result (self.new ≡ self.old) }
        // Ok comes only where the logger isn't closed and the number not above the volume that is written.
        ensures open_ { OnOk result ((self.old.closed ≡ false) × (below ≤ self.old.ends.volume)) }
        // A crash at any moment leaves some of the lowest of those volumes empty and no other; of the items that are left it has the first
        // ones, all acknowledged ones among them, each described.
        ensures any_moment { D.tells → (m : Meant) → IsLogger m self.old (D.held disk.old) → LeavesOnly D.moment D.left_since disk.old disk.new (IsRetiring m below (D.held disk.old)) }
        // Where the disk failed some of the lowest of those volumes are empty, and no other.
        ensures failed { D.tells → IfErr result (λ e. e ≡ DiskFault → HasRetiredSome below (D.held disk.old) (D.held disk.new)) }
        // Closed comes exactly after a fault of the disk, and then nothing is touched.
        ensures closed { self.old.closed ≡ true → (result ≡ Err Closed) × (self.new ≡ self.old) × (disk.new ≡ disk.old) }
        // Live comes exactly where the number is above the volume that is written, and then nothing is touched.
        ensures live { self.old.closed ≡ false → self.old.ends.volume < below → (result ≡ Err (Live self.old.ends.volume)) × (self.new ≡ self.old) × (disk.new ≡ disk.old) }
        // Which refusal it is; a fault of the disk closes the logger.
        ensures fault { IfErr result (λ e. RetireMayAnswer self.old self.new below (D.faults disk.old) (D.faults disk.new) e) }
        ensures later { D.faults disk.old ≤ D.faults disk.new }
        // Every refusal but a fault of the disk leaves the disk untouched.
        ensures untouched { IfErr result (λ e. e ≢ DiskFault → disk.new ≡ disk.old) }
        ensures quiet { OnOk result (D.faults disk.new ≡ D.faults disk.old) }
    {
        if self.closed {
            return Err(LogFault::Closed);
        }
        if below > self.ends.volume {
            return Err(LogFault::Live {
                volume: self.ends.volume,
            });
        }
        match empty_volumes(disk, below) {
            Ok(()) => Ok(()),
            Err(_) => {
                self.closed = true;
                Err(LogFault::DiskFault)
            }
        }
    }

    /// All that is written of a result; the metadata know of it then.
    fn prepared(
        &mut self,
        alloc: Global,
        answer: &PmResult,
        facts: &Facts,
    ) -> Result<Made, LogFault>
        requires some { 0 < length answer.now.sets }
        requires fits { AllByRecursion Fits answer.now.sets }
        ensures made { IfOk result (IsPrepared self.old self.new answer.now facts.now) }
        ensures bounded { IfOk result (IsBounded self.old.ends) }
        ensures small { AreSmall self.old.ends }
        ensures limited { self.old.limit ≤ 1073741824 }
        ensures closed { self.old.closed ≡ true → (result ≡ Err Closed) × (self.new ≡ self.old) }
        ensures fault { IfErr result (PrepareMayAnswer self.old self.new answer.now facts.now) }
    {
        let is_closed = self.closed;
        if is_closed {
            return Err(LogFault::Closed);
        }
        let made = prepare(alloc, &self.meta, &self.ends, self.limit, answer, facts)?;
        extend(&mut self.meta, alloc, made.records.as_slice())?;
        Ok(made)
    }

    /// Logs a result: the metadata that are missing are appended and synced, and then the result's record. Where it would pass
    /// the volume limit, the next volume is opened first. `facts` describe each metric with values, and list its domain with
    /// every instance shown. A refusal other than `DiskFault` leaves everything as it was.
    pub fn log<D: Disk>(
        &mut self,
        alloc: Global,
        disk: &mut D,
        answer: &PmResult,
        facts: &Facts,
    ) -> Result<(), LogFault>
        requires some { 0 < length answer.now.sets }
        requires fits { AllByRecursion Fits answer.now.sets }
        // The result is the last item, and the files are those after it. It isn't acknowledged: earlier items are where the next
        // volume was opened.
        ensures done { D.tells → AreEnough facts.now answer.now.sets → (m : Meant) → IsLogger m self.old (D.held disk.old) → OnOk result (IsLogged m self.old self.new answer.now facts.now (D.held disk.new)) }
        // Ok comes only for a result that may be logged.
        ensures loggable { OnOk result ((self.old.closed ≡ false) × IsLoggable self.old.records self.old.ends self.old.limit answer.now facts.now) }
        // After Ok it may be called again, with the same volume limit.
        ensures open_ { OnOk result ((self.new.limit ≡ self.old.limit) × (self.new.closed ≡ false)) }
        // A crash at any moment leaves the first items, perhaps the new one too, all acknowledged ones among them, each described.
        ensures any_moment { D.tells → AreEnough facts.now answer.now.sets → (m : Meant) → IsLogger m self.old (D.held disk.old) → LeavesOnly D.moment D.left_since disk.old disk.new (SurvivesWith m (Sample answer.now ∷ [])) }
        // Closed comes exactly after a fault of the disk, and then nothing is touched.
        ensures closed { self.old.closed ≡ true → (result ≡ Err Closed) × (self.new ≡ self.old) × (disk.new ≡ disk.old) }
        // Each refusal has its cause; all but a fault of the disk leave the logger as it was, and that one closes it.
        ensures fault { IfErr result (λ e. LogMayAnswer self.old self.new answer.now facts.now (D.faults disk.old) (D.faults disk.new) e) }
        // Every refusal but a fault of the disk leaves the disk untouched.
        ensures untouched { IfErr result (λ e. e ≢ DiskFault → disk.new ≡ disk.old) }
        ensures later { D.faults disk.old ≤ D.faults disk.new }
        ensures quiet { OnOk result (D.faults disk.new ≡ D.faults disk.old) }
    {
        let made = self.prepared(alloc, answer, facts)?;
        match write_item(disk, &self.label, &self.ends, &made, answer) {
            Ok(ends) => {
                self.ends = ends;
                Ok(())
            }
            Err(_) => {
                self.closed = true;
                Err(LogFault::DiskFault)
            }
        }
    }

    /// Judges a result where the files will end once a group is written, and holds it in that. A refusal leaves all as it was.
    pub(crate) fn hold(
        &mut self,
        alloc: Global,
        group: &mut Group,
        answer: &PmResult,
        facts: &Facts,
    ) -> Result<(), LogFault>
        requires some { 0 < length answer.now.sets }
        requires fits { AllByRecursion Fits answer.now.sets }
        requires small { AreSmall group.old.planned }
        requires few { counts_of group.old.runs < 4294967295 }
        ensures held { OnOk result (IsHeldBy self.old self.new group.old group.new answer.now facts.now) }
        ensures reachable { IsReachable self.old.ends self.old.limit }
        ensures closed { self.old.closed ≡ true → result ≡ Err Closed }
        ensures fault { IfErr result (HoldMayAnswer (record { kept = self.old; runs = group.old.runs; planned = group.old.planned }) answer.now facts.now) }
        ensures still { OnErr result ((self.new ≡ self.old) × (group.new ≡ group.old)) }
    {
        let closed = self.closed;
        if closed {
            return Err(LogFault::Closed);
        }
        hold(&mut self.meta, alloc, group, self.limit, answer, facts)
    }

    /// Writes the runs of a group, which then holds none. Where the disk fails it keeps them, the logger is closed, and the error is how
    /// many results the runs hold that were written whole.
    pub(crate) fn write_group<D: Disk>(
        &mut self,
        disk: &mut D,
        group: &mut Group,
    ) -> Result<(), (u32, LogFault)>
        requires bounded { AreRunsBounded self.old.ends group.old.runs }
        requires few { counts_of group.old.runs < 4294967296 }
        ensures ok { D.tells → (m : Meant) (limit : ℕ) (pending : Sequence Told) (now : Sequence Record) (after : Numbers) → IsAt m self.old.ends (D.held disk.old) → m.contents.label ≡ self.old.label → AreRuns m.contents.records self.old.ends limit group.old.runs pending now after → AreAllEnough pending
            → OnOk result (RunWritten m self.old.ends self.new.ends limit group.old.runs pending now (D.held disk.new)) }
        ensures any_moment { D.tells → (m : Meant) (limit : ℕ) (pending : Sequence Told) (now : Sequence Record) (after : Numbers) → IsAt m self.old.ends (D.held disk.old) → m.contents.label ≡ self.old.label → AreRuns m.contents.records self.old.ends limit group.old.runs pending now after → AreAllEnough pending
            → LeavesOnly D.moment D.left_since disk.old disk.new (SurvivesWith m (samples_of pending)) }
        ensures written { D.tells → (m : Meant) (limit : ℕ) (pending : Sequence Told) (now : Sequence Record) (after : Numbers) → IsAt m self.old.ends (D.held disk.old) → m.contents.label ≡ self.old.label → AreRuns m.contents.records self.old.ends limit group.old.runs pending now after → AreAllEnough pending
            → IfErr result (λ e. e.1 ≡ DiskFault → AreWritten m self.old.ends.volume limit pending e.0 (D.held disk.new)) }
        ensures passed { D.tells → (m : Meant) (limit : ℕ) (pending : Sequence Told) (now : Sequence Record) (after : Numbers) → IsAt m self.old.ends (D.held disk.old) → m.contents.label ≡ self.old.label → AreRuns m.contents.records self.old.ends limit group.old.runs pending now after → AreAllEnough pending
            → IfErr result (λ e. e.1 ≡ DiskFault → HasPassedFirst D.Disk m self.old.ends.volume limit pending e.0 disk.old disk.new) }
        ensures begins { (records : Sequence Record) (limit : ℕ) (pending : Sequence Told) (now : Sequence Record) (after : Numbers) → AreRuns records self.old.ends limit group.old.runs pending now after → IfErr result (λ e. e.1 ≡ DiskFault → BeginsRun records self.old.ends limit pending e.0) }
        ensures emptied { OnOk result ((self.old.closed ≡ false) × (self.new ≡ ending_at (after_runs self.old.ends group.old.runs) self.old) × (group.new ≡ record { runs = []; planned = group.old.planned })) }
        ensures closed { self.old.closed ≡ true → (result ≡ Err (0, Closed)) × (self.new ≡ self.old) × (group.new ≡ group.old) × (disk.new ≡ disk.old) }
        ensures fault { IfErr result (λ e. GroupStops self.old self.new group.old group.new (D.faults disk.old) (D.faults disk.new) e.0 e.1) }
        ensures nothing { group.old.runs ≡ [] → self.old.closed ≡ false → (result ≡ Ok tt) × (disk.new ≡ disk.old) }
        ensures later { D.faults disk.old ≤ D.faults disk.new }
        ensures quiet { OnOk result (D.faults disk.new ≡ D.faults disk.old) }
    {
        if self.closed {
            return Err((0, LogFault::Closed));
        }
        match write_runs(disk, &self.label, &self.ends, group.runs.as_slice()) {
            Ok(ends) => {
                self.ends = ends;
                let_go(&mut group.runs);
                Ok(())
            }
            Err(k) => {
                self.closed = true;
                Err((k, LogFault::DiskFault))
            }
        }
    }

    /// Judges the results of a group, each where the ones before it leave the files; the metadata know of those that are held then.
    fn judged(
        &mut self,
        alloc: Global,
        all: &[(PmResult, Facts)],
    ) -> Result<Judged, (u32, LogFault)>
        requires few { length all.now ≤ 64 }
        requires each { AllByRecursion MayBeAsked all.now }
        ensures judged { IfOk result (IsJudgedBy self.old self.new all.now) }
        ensures small { AreSmall self.old.ends }
        ensures closed { self.old.closed ≡ true → (result ≡ Err (0, Closed)) × (self.new ≡ self.old) }
        ensures fault { IfErr result (λ e. JudgeMayAnswer self.old self.new e.0 e.1) }
    {
        let was_closed = self.closed;
        if was_closed {
            return Err((0, LogFault::Closed));
        }
        let count = self.meta.count();
        let mut group = Group {
            runs: List::empty(alloc),
            planned: self.ends,
        };
        match hold_all(&mut self.meta, alloc, &mut group, self.limit, all) {
            Ok(()) => Ok(Judged {
                group,
                refused: None,
            }),
            Err(refusal) => {
                if is_memory(&refusal.1) {
                    self.meta.cut(count);
                    return Err((0, LogFault::NoMemory));
                }
                Ok(Judged {
                    group,
                    refused: Some(refusal),
                })
            }
        }
    }

    /// Logs several results, at most 64, one behind another. They are cut into runs: a run ends before the result whose record
    /// would open the next volume. For each run all metadata that are missing are appended and synced, and then all records are
    /// appended. `Closed` and `NoMemory` come before the first write, with 0, and change nothing. `DiskFault` closes the logger, and
    /// its number counts the results of the runs that were written whole: of the next run some bytes may stand behind them. Every
    /// other refusal tells the position of its result in the group, from 0: the results before it are logged, and no other. Each
    /// result and its facts are as for `log`.
    pub fn log_all<D: Disk>(
        &mut self,
        alloc: Global,
        disk: &mut D,
        group: &List<(PmResult, Facts)>,
    ) -> Result<(), (u32, LogFault)>
        requires few { length group.now ≤ 64 }
        requires each { AllByRecursion MayBeAsked group.now }
        // The files and the items are those after all results, logged one behind another.
        ensures done { D.tells → AreAllEnough group.now → (m : Meant) → IsLogger m self.old (D.held disk.old) → OnOk result (AreLogged m self.old self.new group.now (D.held disk.new)) }
        // Ok comes only for results that may be logged, each where it comes.
        ensures loggable { OnOk result ((self.old.closed ≡ false) × AreLoggable self.old.records self.old.ends self.old.limit group.now self.new.records self.new.ends) }
        // After Ok it may be called again, with the same volume limit.
        ensures open_ { OnOk result ((self.new.limit ≡ self.old.limit) × (self.new.closed ≡ false)) }
        // A crash at any moment leaves the first items, perhaps some of the new ones too, all acknowledged ones among them, each described.
        ensures any_moment { D.tells → AreAllEnough group.now → (m : Meant) → IsLogger m self.old (D.held disk.old) → LeavesOnly D.moment D.left_since disk.old disk.new (SurvivesWith m (samples_of group.now)) }
        // Closed comes exactly after a fault of the disk, and then nothing is touched.
        ensures closed { self.old.closed ≡ true → (result ≡ Err (0, Closed)) × (self.new ≡ self.old) × (disk.new ≡ disk.old) }
        // Each refusal has its cause, and its result may not be logged where it comes; a fault of the disk comes where a run began,
        // and closes the logger.
        ensures fault { IfErr result (λ e. GroupMayAnswer self.old self.new group.now (D.faults disk.old) (D.faults disk.new) e.0 e.1) }
        // The results before the refused one are logged; where the disk failed those before that run are written, and no more than a
        // beginning of what that run would leave.
        ensures first { D.tells → AreAllEnough group.now → (m : Meant) → IsLogger m self.old (D.held disk.old) → IfErr result (λ e. LeavesFirst m self.old self.new group.now (D.held disk.new) e.0 e.1) }
        // A crash at any moment of a call that refuses a result leaves none of it, and none behind it.
        ensures refused { D.tells → AreAllEnough group.now → (m : Meant) → IsLogger m self.old (D.held disk.old) → IfErr result (λ e. e.1 ≢ DiskFault → LeavesOnly D.moment D.left_since disk.old disk.new (SurvivesWith m (samples_of (take e.0 group.now)))) }
        // A refusal of the first result that isn't a fault of the disk leaves the disk untouched.
        ensures untouched { IfErr result (λ e. e.0 ≡ 0 → e.1 ≢ DiskFault → disk.new ≡ disk.old) }
        ensures later { D.faults disk.old ≤ D.faults disk.new }
        ensures quiet { OnOk result (D.faults disk.new ≡ D.faults disk.old) }
    {
        let judged = self.judged(alloc, group.as_slice())?;
        let runs = judged.group.runs.as_slice();
        match write_runs(disk, &self.label, &self.ends, runs) {
            Ok(ends) => {
                self.ends = ends;
                answer_of(judged.refused)
            }
            Err(k) => {
                self.closed = true;
                Err((k, LogFault::DiskFault))
            }
        }
    }
}
