//! A logger that holds results, to write several of them with one append.
ghost use Rattle.std.specs.Prelude.{◌≡◌, ◌≢◌, ◌<◌, ◌≤◌, ◌+◌, ◌↔◌, [], ◌∷◌, false, true, length, List as Sequence, IsTrue, Err, Ok, IfErr, OnErr, OnOk};
ghost use Rattle.std.specs.List.{AllByRecursion};
ghost use Rattle.pcp_base.specs.Results.{Fits};
ghost use Rattle.pcp_model.specs.Disk.{Holdings};
ghost use Rattle.pcp_outside.specs.Devices.{LeavesOnly};
ghost use Rattle.archive_meta.specs.Enough.{AreEnough};
ghost use Rattle.logger_core.specs.declared.fault.LogFault.TheVariants.{Closed, DiskFault};
ghost use Rattle.logger_core.specs.Going.{IsFlushed, IsVolumeSure, all_acknowledged, counting_all};
ghost use Rattle.logger_core.specs.Grouping.{Told, AreLoggable, samples_of};
ghost use Rattle.logger_core.specs.Held.{counts_of};
ghost use Rattle.logger_core.specs.Holding.{HasRoomBeside, HoldMayAnswer, HoldsMore, IsHolding, IsStopped, WriteMayAnswer, written_back};
ghost use Rattle.logger_core.specs.Logging.{IsLoggable};
ghost use Rattle.logger_core.specs.Meant.{Meant, IsLogger, SurvivesOf};
ghost use Rattle.logger_core.specs.Passing.{HasPassedRuns};
ghost use Rattle.logger_core.specs.Refusals.{FlushMayAnswer};
ghost use Rattle.logger_core.specs.Runs.{SurvivesWith};

use crate::fault::LogFault;
use crate::groups::{Group, count_of, items_length};
use crate::logger::Logger;
use archive_meta::Facts;
use pcp_base::{List, PmResult};
use pcp_outside::Disk;
use result_form::length;
use std::alloc::Global;
use std::marker::Model;

/// The most bytes that the records of held results take, where more than one is held.
const MOST: u64 = 4_194_304;

/// A logger, and the results that it holds to be written together, at most 64: each was judged where the ones before it leave the
/// files. The disk holds none of them before `write`.
#[derive(Drop)]
pub struct Batch {
    logger: Logger,
    group: Group,
}

impl Model for Batch {
    ghost use Rattle.logger_core.specs.Holding.{HeldBack, IsBatch};

    ghost Value = { HeldBack };

    ghost view = { λ a. record { kept = a.logger; runs = a.group.runs; planned = a.group.planned } };

    ghost invariant = { λ a. IsBatch a.logger a.group.runs a.group.planned };
}

impl Batch {
    /// A logger that holds nothing.
    pub fn of(logger: Logger, alloc: Global) -> Batch
        // It is that logger, with nothing to be written.
        ensures same { result ≡ record { kept = logger; runs = []; planned = logger.ends } }
        ensures holding { (m : Meant) (held : Holdings) → IsLogger m logger held → IsHolding m result [] m held }
    {
        let planned = logger.ends();
        Batch {
            logger,
            group: Group {
                runs: List::empty(alloc),
                planned,
            },
        }
    }

    /// How many results are held, at most 64.
    pub fn held(&self) -> u32
        ensures value { result ≡ counts_of self.now.runs }
        ensures few { result ≤ 64 }
        ensures none { result ≡ 0 → self.now.runs ≡ [] }
    {
        count_of(self.group.runs.as_slice())
    }

    /// Whether a result has its place beside what is held: none is held, or fewer than 64 are, and their records with this one's take
    /// at most 4,194,304 bytes.
    pub fn has_room(&self, answer: &PmResult) -> bool
        ensures { IsTrue result ↔ HasRoomBeside self.now.runs answer.now }
    {
        let runs = self.group.runs.as_slice();
        if runs.is_empty() {
            return true;
        }
        let more = length(answer).saturating_add(8);
        count_of(runs) < 64 && items_length(runs).saturating_add(more) <= MOST
    }

    /// Judges a result where the files will end once all that is held is written, and holds it. Nothing is written. `facts` are as for
    /// `Logger::log`. A refusal, for want of memory too, leaves all as it was.
    pub fn hold(&mut self, alloc: Global, answer: &PmResult, facts: &Facts) -> Result<(), LogFault>
        requires some { 0 < length answer.now.sets }
        requires fits { AllByRecursion Fits answer.now.sets }
        requires room { counts_of self.old.runs < 64 }
        // It stands behind those that are held, as one result that is logged behind them.
        ensures held { (m : Meant) (pending : Sequence Told) (o : Meant) (held : Holdings) → IsHolding m self.old pending o held → AreEnough facts.now answer.now.sets → OnOk result (HoldsMore m self.old self.new pending answer.now facts.now o held) }
        // Ok comes only for a result that may be logged where the files will end.
        ensures loggable { OnOk result ((self.old.kept.closed ≡ false) × IsLoggable self.old.kept.records self.old.planned self.old.kept.limit answer.now facts.now) }
        // The metadata that are known and the planned ends go on by it.
        ensures planned { OnOk result (AreLoggable self.old.kept.records self.old.planned self.old.kept.limit ((answer.now, facts.now) ∷ []) self.new.kept.records self.new.planned) }
        // One more is held, and where the files end now stays.
        ensures counted { OnOk result ((counts_of self.new.runs ≡ counts_of self.old.runs + 1) × (self.new.kept.ends ≡ self.old.kept.ends) × (self.new.kept.label ≡ self.old.kept.label) × (self.new.kept.limit ≡ self.old.kept.limit) × (self.new.kept.closed ≡ false)) }
        // Closed comes exactly after a fault of the disk.
        ensures closed { self.old.kept.closed ≡ true → (result ≡ Err Closed) × (self.new ≡ self.old) }
        // Each refusal has its cause where the files will end.
        ensures fault { IfErr result (HoldMayAnswer self.old answer.now facts.now) }
        // Every refusal leaves all as it was.
        ensures still { OnErr result (self.new ≡ self.old) }
    {
        self.logger.hold(alloc, &mut self.group, answer, facts)
    }

    /// Writes all that is held, one run after another: for each run the metadata that are missing are appended and synced, and then all
    /// its records are appended. `Ok` leaves nothing held; the results are logged then, and not acknowledged but where the next volume was
    /// opened behind them. No memory is taken. After `DiskFault` the logger is closed, and the number counts the results of the runs that
    /// were written whole.
    pub fn write<D: Disk>(&mut self, disk: &mut D) -> Result<(), (u32, LogFault)>
        // The disk holds what was to be written: all that was meant is there, and nothing is held.
        ensures done { D.tells → (m : Meant) (pending : Sequence Told) (o : Meant) → IsHolding m self.old pending o (D.held disk.old) → OnOk result (IsHolding o self.new [] o (D.held disk.new)) }
        // Nothing is held then, and the files end where it was planned.
        ensures emptied { OnOk result (self.new ≡ written_back self.old) }
        // A crash at any moment leaves the first items, perhaps some of the held ones too, all acknowledged ones among them, each described.
        ensures any_moment { D.tells → (m : Meant) (pending : Sequence Told) (o : Meant) → IsHolding m self.old pending o (D.held disk.old) → LeavesOnly D.moment D.left_since disk.old disk.new (SurvivesWith m (samples_of pending)) }
        // Where the disk failed the results before a run are written, and no more than that run behind them.
        ensures failed { D.tells → (m : Meant) (pending : Sequence Told) (o : Meant) → IsHolding m self.old pending o (D.held disk.old) → IfErr result (λ e. e.1 ≡ DiskFault → IsStopped m self.old pending (D.held disk.new) e.0) }
        // Before that run the disk held exactly what the results before it lead to.
        ensures passed { D.tells → (m : Meant) (pending : Sequence Told) (o : Meant) → IsHolding m self.old pending o (D.held disk.old) → IfErr result (λ e. e.1 ≡ DiskFault → HasPassedRuns D.Disk m self.old pending e.0 disk.old disk.new) }
        // Closed comes exactly after a fault of the disk, and then nothing is touched.
        ensures closed { self.old.kept.closed ≡ true → (result ≡ Err (0, Closed)) × (self.new ≡ self.old) × (disk.new ≡ disk.old) }
        // Where nothing is held nothing is done.
        ensures idle { self.old.runs ≡ [] → self.old.kept.closed ≡ false → (result ≡ Ok tt) × (self.new ≡ self.old) × (disk.new ≡ disk.old) }
        // A refusal is a fault of the disk, which closes the logger.
        ensures fault { IfErr result (λ e. WriteMayAnswer self.old self.new (D.faults disk.old) (D.faults disk.new) e.0 e.1) }
        // Ok comes only of a logger that isn't closed.
        ensures open_ { OnOk result ((self.old.kept.closed ≡ false) × (self.new.kept.closed ≡ false)) }
        ensures later { D.faults disk.old ≤ D.faults disk.new }
        ensures quiet { OnOk result (D.faults disk.new ≡ D.faults disk.old) }
        // Every refusal but a fault of the disk leaves the disk untouched.
        ensures untouched { IfErr result (λ e. e.1 ≢ DiskFault → disk.new ≡ disk.old) }
    {
        self.logger.write_group(disk, &mut self.group)
    }

    /// Makes every logged item sure, and then puts an entry behind the index where one is due, as `Logger::flush`: `Ok` acknowledges
    /// them all. Nothing is held.
    pub fn flush<D: Disk>(&mut self, disk: &mut D) -> Result<(), LogFault>
        requires idle { self.old.runs ≡ [] }
        // The files are those after a flush, and every item is acknowledged.
        ensures done { D.tells → (m : Meant) → IsLogger m self.old.kept (D.held disk.old) → OnOk result (IsFlushed m self.old.kept self.new.kept (D.held disk.new)) }
        // Nothing is held then either.
        ensures none { (self.new.runs ≡ []) × (self.new.planned ≡ self.new.kept.ends) }
        // After Ok it may be called again, with the same volume limit.
        ensures open_ { OnOk result ((self.new.kept.limit ≡ self.old.kept.limit) × (self.new.kept.closed ≡ false)) }
        // A crash at any moment leaves the first items, all acknowledged ones among them, each described.
        ensures any_moment { D.tells → (m : Meant) → IsLogger m self.old.kept (D.held disk.old) → LeavesOnly D.moment D.left_since disk.old disk.new (SurvivesOf m) }
        // The volume that is written is wholly sure.
        ensures sure { D.tells → OnOk result (IsVolumeSure self.new.kept.ends.volume (D.held disk.new)) }
        // Closed comes exactly after a fault of the disk, and then nothing is touched.
        ensures closed { self.old.kept.closed ≡ true → (result ≡ Err Closed) × (self.new ≡ self.old) × (disk.new ≡ disk.old) }
        // Which refusal it is; a fault of the disk closes the logger.
        ensures fault { IfErr result (λ e. FlushMayAnswer self.old.kept self.new.kept (D.faults disk.old) (D.faults disk.new) e) }
        ensures later { D.faults disk.old ≤ D.faults disk.new }
        // Every refusal but a fault of the disk leaves the disk untouched.
        ensures untouched { IfErr result (λ e. e ≢ DiskFault → disk.new ≡ disk.old) }
        ensures quiet { OnOk result (D.faults disk.new ≡ D.faults disk.old) }
    {
        let result = self.logger.flush(disk);
        self.group.planned = self.logger.ends();
        result
    }

    /// Makes every logged item sure, and puts no entry behind the index, as `Logger::sync`: `Ok` acknowledges them all. Nothing is held.
    pub fn sync<D: Disk>(&mut self, disk: &mut D) -> Result<(), LogFault>
        requires idle { self.old.runs ≡ [] }
        // The files are as they were, and every item is acknowledged.
        ensures done { D.tells → (m : Meant) → IsLogger m self.old.kept (D.held disk.old) → OnOk result (IsLogger (all_acknowledged m) self.new.kept (D.held disk.new)) }
        // Nothing of the logger changes but how many are acknowledged.
        ensures counted { OnOk result (self.new.kept ≡ counting_all self.old.kept) }
        // Nothing is held then either.
        ensures none { (self.new.runs ≡ []) × (self.new.planned ≡ self.new.kept.ends) }
        // After Ok it may be called again, with the same volume limit.
        ensures open_ { OnOk result ((self.new.kept.limit ≡ self.old.kept.limit) × (self.new.kept.closed ≡ false)) }
        // A crash at any moment leaves the first items, all acknowledged ones among them, each described.
        ensures any_moment { D.tells → (m : Meant) → IsLogger m self.old.kept (D.held disk.old) → LeavesOnly D.moment D.left_since disk.old disk.new (SurvivesOf m) }
        // The volume that is written is wholly sure.
        ensures sure { D.tells → OnOk result (IsVolumeSure self.new.kept.ends.volume (D.held disk.new)) }
        // Closed comes exactly after a fault of the disk, and then nothing is touched.
        ensures closed { self.old.kept.closed ≡ true → (result ≡ Err Closed) × (self.new ≡ self.old) × (disk.new ≡ disk.old) }
        // Which refusal it is; a fault of the disk closes the logger.
        ensures fault { IfErr result (λ e. FlushMayAnswer self.old.kept self.new.kept (D.faults disk.old) (D.faults disk.new) e) }
        ensures later { D.faults disk.old ≤ D.faults disk.new }
        // Every refusal but a fault of the disk leaves the disk untouched.
        ensures untouched { IfErr result (λ e. e ≢ DiskFault → disk.new ≡ disk.old) }
        ensures quiet { OnOk result (D.faults disk.new ≡ D.faults disk.old) }
    {
        let result = self.logger.sync(disk);
        self.group.planned = self.logger.ends();
        result
    }
}
