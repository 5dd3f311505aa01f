//! A run, and its calls.
ghost use Rattle.std.specs.Prelude.{◌≡◌, ◌≢◌, ◌⊎◌, ◌+◌, ◌<◌, ◌≤◌, ◌++◌, ◌∷◌, [], ℕ, length, List as Sequence, Err, Ok, IfErr, IfOk, OnErr, OnOk};
ghost use Rattle.std.specs.List.{AllByRecursion};
ghost use Rattle.pcp_base.specs.Results.{Fits};
ghost use Rattle.pcp_model.specs.Archive.{Readable};
ghost use Rattle.pcp_model.specs.Disk.{CrashImage, IsSettled, contents_of};
ghost use Rattle.pcp_outside.specs.Causes.{Rose, shown_count};
ghost use Rattle.pcp_outside.specs.Devices.{LeavesOnly};
ghost use Rattle.archive_meta.specs.Enough.{AreEnough};
ghost use Rattle.logging_session.specs.Keeping.{IsClosed, IsFailed, IsWorking, held_in, lost_in};
ghost use Rattle.logging_session.specs.Written.{Report};
ghost use Rattle.logging_run.specs.declared.fault.RunFault.TheVariants.{DiskFault as Failing};
ghost use Rattle.logging_run.specs.Closing.{Close, Ran};
ghost use Rattle.logging_run.specs.Handing.{Handed};
ghost use Rattle.logging_run.specs.Recovering.{IsOfRecovery};
ghost use Rattle.logging_run.specs.Refusals.{MayRefuse};
ghost use Rattle.logging_run.specs.Running.{Fails, IsAllSure, Rests, Runs, Stops};

use crate::fault::{RunFault, refusal, unrecovered};
use crate::label::run_label;
use archive_meta::Facts;
use archive_recovery::recover;
use logging_session::Session;
use pcp_base::PmResult;
use pcp_outside::Disk;
use std::alloc::Global;
use std::marker::Model;

/// A run of a logger over any files (pmlogger(1)): what a remote logger samples, or what is taken out of archives, is logged into one archive.
/// Each call that reaches the files is handed the disk, which nobody else has changed since.
#[derive(Drop)]
pub struct Run {
    session: Session,
}

impl Model for Run {
    ghost use Rattle.logging_session.specs.Keeping.{Carried};

    ghost Value = { Carried };

    ghost view = { λ a. a.session };
}

impl Run {
    /// Recovers the files, and begins a run over what is left. Where that has no label the first result makes the archive, labelled pid 1, host
    /// localhost, zone UTC and the result's moment. `volume` is the volume limit, 1,024 to 1,073,741,824 bytes. Refusals are those of recovery:
    /// after all but `DiskFault` the files are as they were.
    pub fn begin<D: Disk>(alloc: Global, disk: &mut D, volume: u64) -> Result<Run, RunFault>
        requires limit { (1024 ≤ volume) × (volume ≤ 1073741824) }
        ensures begun { IfOk result (λ run. Runs D.Disk volume [] run disk.old disk.new × (held_in run.place ≡ 0)) }
        ensures unrecovered { D.tells → IfErr result (λ e. Ran D.Disk volume [] disk.old disk.new (Close.unrecovered e)) }
        // Where the files aren't readable nothing is written.
        ensures unread { D.tells → (Readable (contents_of (D.held disk.old)) → ⊥) → LeavesOnly D.moment D.left_since disk.old disk.new (CrashImage (D.held disk.old)) }
        ensures kinds { IfErr result IsOfRecovery }
        ensures cause { IfErr result (λ e. e ≡ Failing → Rose (D.faults disk.old) (D.faults disk.new)) }
        ensures later { D.faults disk.old ≤ D.faults disk.new }
        ensures quiet { OnOk result (D.faults disk.new ≡ D.faults disk.old) }
    {
        let label = run_label(alloc)?;
        match recover(alloc, disk) {
            Ok(archive) => Ok(Run {
                session: Session::begin(archive, label, volume),
            }),
            Err(fault) => Err(unrecovered(fault)),
        }
    }

    /// How many results it logged.
    pub fn logged(&self) -> u64
        ensures value { result ≡ self.now.logged }
    {
        self.session.logged()
    }

    /// How many of the results that were logged last are lost, since the disk failed; the first of them may stand. 0 unless it failed.
    pub fn lost(&self) -> u32
        ensures value { result ≡ lost_in self.now.place }
        ensures few { result ≤ self.now.logged }
    {
        self.session.lost()
    }

    /// Makes place for a result beside those that are held: where it has none they are written.
    fn make_place<D: Disk>(&mut self, disk: &mut D, answer: &PmResult) -> Result<(), RunFault>
        requires working { IsWorking self.old }
        ensures done { (limit : ℕ) (handed : Sequence Handed) (start : D) → Runs D.Disk limit handed self.old start disk.old → OnOk result (Runs D.Disk limit handed self.new start disk.new) }
        ensures failed { (limit : ℕ) (handed : Sequence Handed) (start : D) → Runs D.Disk limit handed self.old start disk.old → OnErr result (Fails D.Disk limit handed self.new start disk.new) }
        ensures kinds { IfErr result (λ e. e ≡ Failing) }
        ensures working { OnOk result (IsWorking self.new) }
        ensures room { OnOk result (held_in self.new.place < 64) }
        ensures held { held_in self.new.place ≤ held_in self.old.place }
        ensures lost { lost_in self.new.place ≤ held_in self.old.place }
        ensures same { self.new.logged ≡ self.old.logged }
        ensures cause { OnErr result (Rose (D.faults disk.old) (D.faults disk.new)) }
        ensures later { D.faults disk.old ≤ D.faults disk.new }
        ensures quiet { OnOk result (D.faults disk.new ≡ D.faults disk.old) }
    {
        if self.session.has_room(answer) {
            return Ok(());
        }
        if let Err(_) = self.session.write(disk) {
            return Err(RunFault::DiskFault);
        }
        Ok(())
    }

    /// Logs a result, which is held to be written with others; where it has no place beside those that are held they are written first. `facts`
    /// describe each metric with values, and list its domain with every instance shown. After a refusal nothing else has changed but that the
    /// archive may have been opened for the result; after `NoMemory` and `DiskFault` nothing more may be logged.
    pub fn log_held<D: Disk>(
        &mut self,
        alloc: Global,
        disk: &mut D,
        answer: &PmResult,
        facts: &Facts,
    ) -> Result<(), RunFault>
        requires some { 0 < length answer.now.sets }
        requires fits { AllByRecursion Fits answer.now.sets }
        requires working { IsWorking self.old }
        ensures done { AreEnough facts.now answer.now.sets → (limit : ℕ) (handed : Sequence Handed) (start : D) → Runs D.Disk limit handed self.old start disk.old
            → OnOk result (Runs D.Disk limit (handed ++ Handed.held (record { result = answer.now; facts = facts.now }) ∷ []) self.new start disk.new) }
        ensures stops { AreEnough facts.now answer.now.sets → (limit : ℕ) (handed : Sequence Handed) (start : D) → Runs D.Disk limit handed self.old start disk.old
            → IfErr result (Stops D.Disk limit handed (record { result = answer.now; facts = facts.now }) self.new start disk.new) }
        ensures working { OnOk result (IsWorking self.new) }
        ensures unfailed { IfErr result (λ e. e ≢ Failing → IsFailed self.new → ⊥) }
        ensures counted { OnOk result (self.new.logged ≡ shown_count (self.old.logged + 1)) }
        // Only this one is held beside those that were; what isn't logged isn't. Only what was held may be lost.
        ensures held { held_in self.new.place ≤ held_in self.old.place + 1 }
        ensures unheld { OnErr result (held_in self.new.place ≤ held_in self.old.place) }
        ensures lost { lost_in self.new.place ≤ held_in self.old.place }
        ensures cause { IfErr result (MayRefuse (record { result = answer.now; facts = facts.now }) self.new (D.faults disk.old) (D.faults disk.new)) }
        ensures later { D.faults disk.old ≤ D.faults disk.new }
        ensures quiet { OnOk result (D.faults disk.new ≡ D.faults disk.old) }
        ensures still { IfErr result (λ e. e ≢ Failing → D.faults disk.new ≡ D.faults disk.old) }
    {
        self.make_place(disk, answer)?;
        if let Err(fault) = self.session.log(alloc, disk, answer, facts) {
            return Err(refusal(fault));
        }
        Ok(())
    }

    /// Makes all that was logged sure, and puts no entry behind the index.
    fn make_sure<D: Disk>(&mut self, disk: &mut D) -> Result<(), RunFault>
        requires working { IsWorking self.old }
        ensures done { (limit : ℕ) (handed : Sequence Handed) (r : Report) (start : D) → Runs D.Disk limit (handed ++ Handed.held r ∷ []) self.old start disk.old
            → OnOk result (Runs D.Disk limit (handed ++ Handed.sure r ∷ []) self.new start disk.new) }
        ensures settled { D.tells → (limit : ℕ) (handed : Sequence Handed) (start : D) → Runs D.Disk limit handed self.old start disk.old → OnOk result (IsSettled (D.held disk.new)) }
        ensures failed { (limit : ℕ) (handed : Sequence Handed) (start : D) → Runs D.Disk limit handed self.old start disk.old → OnErr result (Fails D.Disk limit handed self.new start disk.new) }
        ensures kinds { IfErr result (λ e. e ≡ Failing) }
        ensures working { OnOk result (IsWorking self.new) }
        ensures held { held_in self.new.place ≡ 0 }
        ensures lost { lost_in self.new.place ≤ held_in self.old.place }
        ensures same { self.new.logged ≡ self.old.logged }
        ensures cause { OnErr result (Rose (D.faults disk.old) (D.faults disk.new)) }
        ensures later { D.faults disk.old ≤ D.faults disk.new }
        ensures quiet { OnOk result (D.faults disk.new ≡ D.faults disk.old) }
    {
        if let Err(_) = self.session.sync(disk) {
            return Err(RunFault::DiskFault);
        }
        Ok(())
    }

    /// Logs a result, and makes it sure with all that was logged before: once it answers `Ok` a crash takes nothing of what was logged. No entry is
    /// put behind the index but where a volume is full. Refusals are those of `log_held`.
    pub fn log_sure<D: Disk>(
        &mut self,
        alloc: Global,
        disk: &mut D,
        answer: &PmResult,
        facts: &Facts,
    ) -> Result<(), RunFault>
        requires some { 0 < length answer.now.sets }
        requires fits { AllByRecursion Fits answer.now.sets }
        requires working { IsWorking self.old }
        ensures done { AreEnough facts.now answer.now.sets → (limit : ℕ) (handed : Sequence Handed) (start : D) → Runs D.Disk limit handed self.old start disk.old
            → OnOk result (Runs D.Disk limit (handed ++ Handed.sure (record { result = answer.now; facts = facts.now }) ∷ []) self.new start disk.new) }
        // From then on a crash takes nothing of what was logged.
        ensures sure { D.tells → AreEnough facts.now answer.now.sets → (limit : ℕ) (handed : Sequence Handed) (start : D) → Runs D.Disk limit handed self.old start disk.old
            → OnOk result (IsAllSure D.Disk (handed ++ Handed.sure (record { result = answer.now; facts = facts.now }) ∷ []) start disk.new) }
        ensures stops { AreEnough facts.now answer.now.sets → (limit : ℕ) (handed : Sequence Handed) (start : D) → Runs D.Disk limit handed self.old start disk.old
            → IfErr result (Stops D.Disk limit handed (record { result = answer.now; facts = facts.now }) self.new start disk.new) }
        ensures working { OnOk result (IsWorking self.new) }
        ensures unfailed { IfErr result (λ e. e ≢ Failing → IsFailed self.new → ⊥) }
        ensures counted { OnOk result (self.new.logged ≡ shown_count (self.old.logged + 1)) }
        // Nothing is held any more. Only this one and what was held may be lost.
        ensures held { OnOk result (held_in self.new.place ≡ 0) }
        ensures unheld { OnErr result (held_in self.new.place ≤ held_in self.old.place) }
        ensures lost { lost_in self.new.place ≤ held_in self.old.place + 1 }
        ensures cause { IfErr result (MayRefuse (record { result = answer.now; facts = facts.now }) self.new (D.faults disk.old) (D.faults disk.new)) }
        ensures later { D.faults disk.old ≤ D.faults disk.new }
        ensures quiet { OnOk result (D.faults disk.new ≡ D.faults disk.old) }
        ensures still { IfErr result (λ e. e ≢ Failing → D.faults disk.new ≡ D.faults disk.old) }
    {
        self.log_held(alloc, disk, answer, facts)?;
        self.make_sure(disk)
    }

    /// Ends a run, and answers how many results it logged: what was logged is flushed, and where nothing was, nothing is done. Once the disk has
    /// failed, in this call or before, the answer is `DiskFault`; where it had failed before nothing is done.
    pub fn finish<D: Disk>(&mut self, disk: &mut D) -> Result<u64, RunFault>
        ensures done { D.tells → (limit : ℕ) (handed : Sequence Handed) (start : D) → Rests D.Disk limit handed self.old start disk.old → OnOk result (Ran D.Disk limit handed start disk.new Close.flushed) }
        ensures failed { (limit : ℕ) (handed : Sequence Handed) (start : D) → Rests D.Disk limit handed self.old start disk.old → OnErr result (Fails D.Disk limit handed self.new start disk.new) }
        ensures counted { IfOk result (λ n. n ≡ self.old.logged) }
        ensures kinds { IfErr result (λ e. e ≡ Failing) }
        ensures closed { IsFailed self.old → (result ≡ Err Failing) × (self.new ≡ self.old) × (disk.new ≡ disk.old) }
        ensures idle { self.old.logged ≡ 0 → (IsFailed self.old → ⊥) → (result ≡ Ok 0) × (self.new ≡ self.old) × (disk.new ≡ disk.old) }
        ensures lost { (IsFailed self.old → ⊥) → lost_in self.new.place ≤ held_in self.old.place }
        ensures cause { OnErr result (IsClosed self.old ⊎ Rose (D.faults disk.old) (D.faults disk.new)) }
        ensures later { D.faults disk.old ≤ D.faults disk.new }
        ensures quiet { OnOk result (D.faults disk.new ≡ D.faults disk.old) }
    {
        if let Err(_) = self.session.close(disk) {
            return Err(RunFault::DiskFault);
        }
        Ok(self.session.logged())
    }
}
