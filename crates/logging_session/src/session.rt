//! A session, and its calls.
ghost use Rattle.std.specs.Prelude.{◌≡◌, ◌≢◌, ◌⊎◌, ◌+◌, ◌<◌, ◌≤◌, ◌++◌, ◌∷◌, [], length, List as Sequence, true, false, Err, Ok, IfErr, MatchResult, OnErr, OnOk};
ghost use Rattle.std.specs.List.{AllByRecursion};
ghost use Rattle.pcp_base.specs.Results.{Fits};
ghost use Rattle.pcp_model.specs.Disk.{Files as AllFiles, Holdings, IsSettled, contents_of};
ghost use Rattle.pcp_outside.specs.Causes.{shown_count};
ghost use Rattle.pcp_outside.specs.Devices.{LeavesOnly};
ghost use Rattle.archive_meta.specs.Enough.{AreEnough};
ghost use Rattle.logger_core.specs.declared.fault.LogFault.TheVariants.{Closed, DiskFault, NoMemory as Refused};
ghost use Rattle.logger_core.specs.Reopening.{IsLeft};
ghost use Rattle.logging_session.specs.Answers.{ComesBackBy, CountsAll, CountsOn, FlushMayAnswer, LogFails, LogMayAnswer, MayTake, OpenMayAnswer, TakeFails, TakeMayAnswer};
ghost use Rattle.logging_session.specs.Course.{HasKept, HasNotClosed, HasNotFlushed, HasNotLogged, HasPassedHeld};
ghost use Rattle.logging_session.specs.Events.{Event, behind, closing, opening, sure_event, with_report};
ghost use Rattle.logging_session.specs.Keeping.{AreWhole, IsClosed, IsFailed, IsFound, IsLabelled, IsLost, IsOpen, IsWorking, Keeps, HasRoomIn, held_in, lost_in};

use crate::opening::open;
use crate::place::Place;
use crate::sure::{make_batch_sure, write_held};
use archive_frame::Label;
use archive_meta::Facts;
use archive_recovery::Archive;
use logger_core::{Batch, LogFault};
use pcp_base::{PmResult, Stamp};
use pcp_outside::Disk;
use std::alloc::Global;
use std::marker::Model;
use std::mem;

/// A session of one archive (pmlogger(1)). What it logs is judged at once, and held until it is written with what else is held: so several
/// results take one append. Between its calls the disk holds all that it logged but what it holds; each call that reaches the files is handed
/// the disk, which nobody else has changed since.
#[derive(Drop)]
pub struct Session {
    label: Label,
    limit: u64,
    logged: u64,
    place: Place,
}

impl Model for Session {
    ghost use Rattle.logging_session.specs.Keeping.{Carried, IsSession};

    ghost Value = { Carried };

    ghost view = { λ a. record { label = a.label; limit = a.limit; logged = a.logged; place = a.place } };

    ghost invariant = { λ a. IsSession a.limit a.logged a.place };
}

impl Session {
    /// A session over what recovery left. Where that has no label, the first result makes an archive with this one, whose moment is then the
    /// result's. `volume` is the volume limit, 1,024 to 1,073,741,824 bytes.
    pub fn begin(archive: Archive, label: Label, volume: u64) -> Session
        requires limit { (1024 ≤ volume) × (volume ≤ 1073741824) }
        ensures begun { (held : Holdings) → IsLeft archive held → Keeps (contents_of held) [] result held }
        ensures same { (result.label ≡ label) × (result.limit ≡ volume) × (result.logged ≡ 0) }
        ensures found { IsFound result }
    {
        Session {
            label,
            limit: volume,
            logged: 0,
            place: Place::Found(archive),
        }
    }

    /// How many results it logged.
    pub fn logged(&self) -> u64
        ensures value { result ≡ self.now.logged }
        // No more are held.
        ensures held { held_in self.now.place ≤ result }
    {
        self.logged
    }

    /// Opens the archive, which is as recovery left it.
    fn open_found<D: Disk>(
        &mut self,
        alloc: Global,
        disk: &mut D,
        stamp: Stamp,
    ) -> Result<(), LogFault>
        requires found { IsFound self.old }
        ensures done { D.tells → (left : AllFiles) (events : Sequence Event) → Keeps left events self.old (D.held disk.old)
            → OnOk result (Keeps left (opening stamp events) self.new (D.held disk.new)) }
        ensures any_moment { D.tells → (left : AllFiles) (events : Sequence Event) → Keeps left events self.old (D.held disk.old)
            → LeavesOnly D.moment D.left_since disk.old disk.new (ComesBackBy events left) }
        ensures refused { D.tells → (left : AllFiles) (events : Sequence Event) → Keeps left events self.old (D.held disk.old)
            → IfErr result (λ e. e ≢ DiskFault → Keeps left events self.new (D.held disk.new)) }
        ensures counts { D.tells → (left : AllFiles) (events : Sequence Event) → Keeps left events self.old (D.held disk.old) → OnOk result (CountsAll self.new.place) }
        ensures held { OnOk result (held_in self.new.place ≡ held_in self.old.place) }
        ensures labelled { IsLabelled self.old → disk.new ≡ disk.old }
        ensures untouched { IfErr result (λ e. e ≢ DiskFault → disk.new ≡ disk.old) }
        ensures open_ { OnOk result (IsOpen self.new) }
        ensures cause { IfErr result (OpenMayAnswer self.old self.new (D.faults disk.old) (D.faults disk.new)) }
        ensures same { (self.new.label ≡ self.old.label) × (self.new.limit ≡ self.old.limit) × (self.new.logged ≡ self.old.logged) }
        ensures later { D.faults disk.old ≤ D.faults disk.new }
        ensures quiet { OnOk result (D.faults disk.new ≡ D.faults disk.old) }
    {
        let Place::Found(archive) = mem::replace(&mut self.place, Place::Failed(0)) else {
            // It is as recovery left it.
            unreachable!()
        };
        match open(alloc, disk, archive, &self.label, stamp, self.limit) {
            Ok(logger) => {
                self.place = Place::Open(Batch::of(logger, alloc));
                Ok(())
            }
            Err(fault) => match fault {
                LogFault::NoMemory => {
                    self.place = Place::Lost;
                    Err(fault)
                }
                _ => Err(fault),
            },
        }
    }

    /// Opens the archive for a result of this moment, where it isn't open.
    fn open_for<D: Disk>(
        &mut self,
        alloc: Global,
        disk: &mut D,
        stamp: Stamp,
    ) -> Result<(), LogFault>
        ensures done { D.tells → (left : AllFiles) (events : Sequence Event) → Keeps left events self.old (D.held disk.old)
            → OnOk result (Keeps left (opening stamp events) self.new (D.held disk.new)) }
        ensures any_moment { D.tells → (left : AllFiles) (events : Sequence Event) → Keeps left events self.old (D.held disk.old)
            → LeavesOnly D.moment D.left_since disk.old disk.new (ComesBackBy events left) }
        ensures refused { D.tells → (left : AllFiles) (events : Sequence Event) → Keeps left events self.old (D.held disk.old)
            → IfErr result (λ e. e ≢ DiskFault → Keeps left events self.new (D.held disk.new)) }
        ensures closed { IsClosed self.old → (result ≡ Err Closed) × (self.new ≡ self.old) × (disk.new ≡ disk.old) }
        ensures stays { IsOpen self.old → (result ≡ Ok tt) × (self.new ≡ self.old) × (disk.new ≡ disk.old) }
        ensures counts { IsFound self.old → D.tells → (left : AllFiles) (events : Sequence Event) → Keeps left events self.old (D.held disk.old) → OnOk result (CountsAll self.new.place) }
        ensures held { OnOk result (held_in self.new.place ≡ held_in self.old.place) }
        ensures labelled { IsLabelled self.old → disk.new ≡ disk.old }
        ensures untouched { IfErr result (λ e. e ≢ DiskFault → disk.new ≡ disk.old) }
        ensures open_ { OnOk result (IsWorking self.old × IsOpen self.new) }
        ensures cause { IfErr result (OpenMayAnswer self.old self.new (D.faults disk.old) (D.faults disk.new)) }
        ensures same { (self.new.label ≡ self.old.label) × (self.new.limit ≡ self.old.limit) × (self.new.logged ≡ self.old.logged) }
        ensures later { D.faults disk.old ≤ D.faults disk.new }
        ensures quiet { OnOk result (D.faults disk.new ≡ D.faults disk.old) }
    {
        match &self.place {
            Place::Found(_) => self.open_found(alloc, disk, stamp),
            Place::Open(_) => Ok(()),
            Place::Lost => Err(LogFault::Closed),
            Place::Failed(_) => Err(LogFault::Closed),
        }
    }

    /// How many results are held to be written, at most 64.
    pub fn held(&self) -> u32
        ensures value { result ≡ held_in self.now.place }
        ensures few { result ≤ 64 }
    {
        match &self.place {
            Place::Open(batch) => batch.held(),
            Place::Found(_) | Place::Lost | Place::Failed(_) => 0,
        }
    }

    /// How many results that were held are lost, since the disk failed: the last ones of those that were logged, of which the first may stand.
    /// 0 unless it failed.
    pub fn lost(&self) -> u32
        ensures value { result ≡ lost_in self.now.place }
        ensures few { result ≤ self.now.logged }
    {
        match &self.place {
            Place::Failed(lost) => *lost,
            Place::Found(_) | Place::Open(_) | Place::Lost => 0,
        }
    }

    /// Whether a result may be held beside those that are: none is, or fewer than 64 are and their records take at most 4 MiB with its own.
    pub fn has_room(&self, answer: &PmResult) -> bool
        ensures yes { result ≡ true → HasRoomIn self.now.place answer.now }
        ensures no { result ≡ false → HasRoomIn self.now.place answer.now → ⊥ }
        ensures few { result ≡ true → held_in self.now.place < 64 }
    {
        match &self.place {
            Place::Open(batch) => batch.has_room(answer),
            Place::Found(_) | Place::Lost | Place::Failed(_) => true,
        }
    }

    /// Hands a result to the archive, which is open: it is judged, and held.
    fn take(&mut self, alloc: Global, answer: &PmResult, facts: &Facts) -> Result<(), LogFault>
        requires some { 0 < length answer.now.sets }
        requires fits { AllByRecursion Fits answer.now.sets }
        requires open_ { IsOpen self.old }
        requires room { held_in self.old.place < 64 }
        ensures done { AreEnough facts.now answer.now.sets → (left : AllFiles) (events : Sequence Event) (held : Holdings) → Keeps left events self.old held
            → OnOk result (Keeps left (events ++ Event.logged (record { result = answer.now; facts = facts.now }) ∷ []) self.new held) }
        ensures fault { AreEnough facts.now answer.now.sets → (left : AllFiles) (events : Sequence Event) (held : Holdings) → (k : Keeps left events self.old held)
            → IfErr result (TakeFails k.stand self.old.limit (record { result = answer.now; facts = facts.now })) }
        ensures counts { OnOk result (CountsOn (record { result = answer.now; facts = facts.now }) self.old.place self.new.place) }
        ensures holds { OnOk result (held_in self.new.place ≡ held_in self.old.place + 1) }
        ensures loggable { OnOk result (MayTake self.old.place (record { result = answer.now; facts = facts.now })) }
        ensures open_ { OnOk result (IsOpen self.new) }
        ensures cause { IfErr result (TakeMayAnswer (record { result = answer.now; facts = facts.now }) self.old self.new) }
        ensures counted { OnOk result (self.new.logged ≡ shown_count (self.old.logged + 1)) }
        ensures uncounted { OnErr result (self.new.logged ≡ self.old.logged) }
        ensures same { (self.new.label ≡ self.old.label) × (self.new.limit ≡ self.old.limit) }
    {
        let Place::Open(batch) = &mut self.place else {
            // It is open.
            unreachable!()
        };
        match batch.hold(alloc, answer, facts) {
            Ok(()) => {
                self.logged = self.logged.saturating_add(1);
                Ok(())
            }
            Err(fault) => Err(fault),
        }
    }

    /// Logs a result: the first one opens the archive. It is judged where those before it leave the files, and held to be written; nothing is
    /// written but a new archive's labels. `facts` describe each metric with values, and list its domain with every instance shown.
    pub fn log<D: Disk>(
        &mut self,
        alloc: Global,
        disk: &mut D,
        answer: &PmResult,
        facts: &Facts,
    ) -> Result<(), LogFault>
        requires some { 0 < length answer.now.sets }
        requires fits { AllByRecursion Fits answer.now.sets }
        requires room { held_in self.old.place < 64 }
        // The result is the last event; each event stands in the files once all is written that is held.
        ensures done { D.tells → AreEnough facts.now answer.now.sets → (left : AllFiles) (events : Sequence Event) → Keeps left events self.old (D.held disk.old)
            → OnOk result (Keeps left (with_report events (record { result = answer.now; facts = facts.now })) self.new (D.held disk.new)) }
        // A crash at any moment leaves the first ones of the items so far, all acknowledged ones among them.
        ensures any_moment { D.tells → (left : AllFiles) (events : Sequence Event) → Keeps left events self.old (D.held disk.old)
            → LeavesOnly D.moment D.left_since disk.old disk.new (ComesBackBy events left) }
        // What stands after each refusal: what was opened for the result stays open.
        ensures fault { D.tells → AreEnough facts.now answer.now.sets → (left : AllFiles) (events : Sequence Event) → Keeps left events self.old (D.held disk.old)
            → IfErr result (LogFails left events (record { result = answer.now; facts = facts.now }) self.old self.new (D.held disk.new)) }
        // Event by event: it was opened, and then it took the result.
        ensures went { D.tells → AreEnough facts.now answer.now.sets → (left : AllFiles) (events : Sequence Event) (start : D) → HasKept D.Disk left events start self.old disk.old
            → MatchResult result (λ _. HasKept D.Disk left (with_report events (record { result = answer.now; facts = facts.now })) start self.new disk.new) (HasNotLogged D.Disk left events (record { result = answer.now; facts = facts.now }) start self.old self.new disk.new) }
        // Where the disk failed, to make the archive, it held what the events lead to before.
        ensures passed { D.tells → (left : AllFiles) (events : Sequence Event) (start : D) → HasKept D.Disk left events start self.old disk.old → IfErr result (λ e. e ≡ DiskFault → HasPassedHeld D.Disk left events start self.new disk.new) }
        // Where it is open nothing is written; else nothing is touched by a refusal but to make the archive, where there was none, which then
        // stays open.
        ensures unwritten { IsOpen self.old → disk.new ≡ disk.old }
        ensures untouched { IfErr result (λ e. e ≢ DiskFault → (IsOpen self.old ⊎ IsLost self.new ⊎ IsLabelled self.old) → disk.new ≡ disk.old) }
        // A closed session answers so, and touches nothing.
        ensures closed { IsClosed self.old → (result ≡ Err Closed) × (self.new ≡ self.old) × (disk.new ≡ disk.old) }
        // It isn't acknowledged: as many are as before, or all earlier ones where the next volume is to be opened for it.
        ensures counts { D.tells → (left : AllFiles) (events : Sequence Event) → Keeps left events self.old (D.held disk.old)
            → OnOk result (CountsOn (record { result = answer.now; facts = facts.now }) self.old.place self.new.place) }
        // One more is held.
        ensures holds { OnOk result (held_in self.new.place ≡ held_in self.old.place + 1) }
        ensures unheld { OnErr result (held_in self.new.place ≤ held_in self.old.place) }
        // Of an open session Ok comes only for a result that may be logged.
        ensures loggable { OnOk result (MayTake self.old.place (record { result = answer.now; facts = facts.now })) }
        ensures open_ { OnOk result (IsWorking self.old × IsOpen self.new) }
        ensures cause { IfErr result (LogMayAnswer (record { result = answer.now; facts = facts.now }) self.old self.new (D.faults disk.old) (D.faults disk.new)) }
        ensures counted { OnOk result (self.new.logged ≡ shown_count (self.old.logged + 1)) }
        ensures uncounted { OnErr result (self.new.logged ≡ self.old.logged) }
        ensures same { (self.new.label ≡ self.old.label) × (self.new.limit ≡ self.old.limit) }
        ensures later { D.faults disk.old ≤ D.faults disk.new }
        ensures quiet { OnOk result (D.faults disk.new ≡ D.faults disk.old) }
        ensures still { IfErr result (λ e. e ≢ DiskFault → D.faults disk.new ≡ D.faults disk.old) }
    {
        self.open_for(alloc, disk, answer.stamp)?;
        self.take(alloc, answer, facts)
    }

    /// Writes all that is held, and takes no memory: for each volume that it goes into all metadata with one append, and then all records with
    /// one. It is not acknowledged. Where nothing is held nothing is done.
    pub fn write<D: Disk>(&mut self, disk: &mut D) -> Result<(), LogFault>
        // The same events stand, each of them in the files.
        ensures done { D.tells → (left : AllFiles) (events : Sequence Event) → Keeps left events self.old (D.held disk.old) → OnOk result (Keeps left events self.new (D.held disk.new)) }
        ensures any_moment { D.tells → (left : AllFiles) (events : Sequence Event) → Keeps left events self.old (D.held disk.old)
            → LeavesOnly D.moment D.left_since disk.old disk.new (ComesBackBy events left) }
        ensures went { D.tells → (left : AllFiles) (events : Sequence Event) (start : D) → HasKept D.Disk left events start self.old disk.old
            → MatchResult result (λ _. HasKept D.Disk left events start self.new disk.new) (HasNotFlushed D.Disk left events start self.old self.new disk.new) }
        // Where the disk failed it held, at some moment, exactly what the events lead to without the results that are lost.
        ensures passed { D.tells → (left : AllFiles) (events : Sequence Event) (start : D) → HasKept D.Disk left events start self.old disk.old → IfErr result (λ e. e ≡ DiskFault → HasPassedHeld D.Disk left events start self.new disk.new) }
        ensures closed { IsClosed self.old → (result ≡ Err Closed) × (self.new ≡ self.old) × (disk.new ≡ disk.old) }
        ensures idle { IsWorking self.old → held_in self.old.place ≡ 0 → (result ≡ Ok tt) × (self.new ≡ self.old) × (disk.new ≡ disk.old) }
        ensures none { OnOk result (held_in self.new.place ≡ 0) }
        ensures working { OnOk result (IsWorking self.old × IsWorking self.new) }
        ensures open_ { OnOk result (IsOpen self.old → IsOpen self.new) }
        ensures cause { IfErr result (FlushMayAnswer self.old self.new (D.faults disk.old) (D.faults disk.new)) }
        // Where the disk fails at least one is lost.
        ensures loses { IfErr result (λ e. e ≡ DiskFault → 0 < lost_in self.new.place) }
        ensures same { (self.new.label ≡ self.old.label) × (self.new.limit ≡ self.old.limit) × (self.new.logged ≡ self.old.logged) }
        ensures later { D.faults disk.old ≤ D.faults disk.new }
        ensures quiet { OnOk result (D.faults disk.new ≡ D.faults disk.old) }
        ensures untouched { IfErr result (λ e. e ≢ DiskFault → disk.new ≡ disk.old) }
    {
        match &mut self.place {
            Place::Found(_) => Ok(()),
            Place::Open(batch) => match write_held(batch, disk) {
                Ok(()) => Ok(()),
                Err(lost) => {
                    self.place = Place::Failed(lost);
                    Err(LogFault::DiskFault)
                }
            },
            Place::Lost => Err(LogFault::Closed),
            Place::Failed(_) => Err(LogFault::Closed),
        }
    }

    /// Writes all that is held, makes all that was logged sure, and where that is wanted puts an entry behind the index where one is due: `Ok`
    /// acknowledges it. Before the archive is open nothing is done.
    fn make_sure<D: Disk>(&mut self, disk: &mut D, puts_entry: bool) -> Result<(), LogFault>
        ensures done { D.tells → (left : AllFiles) (events : Sequence Event) → Keeps left events self.old (D.held disk.old) → OnOk result (Keeps left (behind events (sure_event puts_entry)) self.new (D.held disk.new)) }
        ensures settled { D.tells → (left : AllFiles) (events : Sequence Event) → Keeps left events self.old (D.held disk.old) → OnOk result (IsSettled (D.held disk.new)) }
        ensures any_moment { D.tells → (left : AllFiles) (events : Sequence Event) → Keeps left events self.old (D.held disk.old)
            → LeavesOnly D.moment D.left_since disk.old disk.new (ComesBackBy events left) }
        ensures passed { D.tells → (left : AllFiles) (events : Sequence Event) (start : D) → HasKept D.Disk left events start self.old disk.old → IfErr result (λ e. e ≡ DiskFault → HasPassedHeld D.Disk left events start self.new disk.new) }
        ensures closed { IsClosed self.old → (result ≡ Err Closed) × (self.new ≡ self.old) × (disk.new ≡ disk.old) }
        ensures idle { IsFound self.old → (result ≡ Ok tt) × (self.new ≡ self.old) × (disk.new ≡ disk.old) }
        // Nothing is held any more.
        ensures none { OnOk result (held_in self.new.place ≡ 0) }
        ensures working { OnOk result (IsWorking self.old × IsWorking self.new) }
        ensures open_ { OnOk result (IsOpen self.old → IsOpen self.new) }
        ensures cause { IfErr result (FlushMayAnswer self.old self.new (D.faults disk.old) (D.faults disk.new)) }
        ensures same { (self.new.label ≡ self.old.label) × (self.new.limit ≡ self.old.limit) × (self.new.logged ≡ self.old.logged) }
        ensures later { D.faults disk.old ≤ D.faults disk.new }
        ensures quiet { OnOk result (D.faults disk.new ≡ D.faults disk.old) }
        ensures untouched { IfErr result (λ e. e ≢ DiskFault → disk.new ≡ disk.old) }
    {
        match &mut self.place {
            Place::Found(_) => Ok(()),
            Place::Open(batch) => match make_batch_sure(batch, disk, puts_entry) {
                Ok(()) => Ok(()),
                Err(lost) => {
                    self.place = Place::Failed(lost);
                    Err(LogFault::DiskFault)
                }
            },
            Place::Lost => Err(LogFault::Closed),
            Place::Failed(_) => Err(LogFault::Closed),
        }
    }

    /// Writes all that is held, makes all that was logged sure, and puts an entry behind the index where one is due: `Ok` acknowledges it. Before
    /// the archive is open nothing is done.
    pub fn flush<D: Disk>(&mut self, disk: &mut D) -> Result<(), LogFault>
        ensures done { D.tells → (left : AllFiles) (events : Sequence Event) → Keeps left events self.old (D.held disk.old) → OnOk result (Keeps left (behind events Event.flushed) self.new (D.held disk.new)) }
        ensures settled { D.tells → (left : AllFiles) (events : Sequence Event) → Keeps left events self.old (D.held disk.old) → OnOk result (IsSettled (D.held disk.new)) }
        ensures any_moment { D.tells → (left : AllFiles) (events : Sequence Event) → Keeps left events self.old (D.held disk.old)
            → LeavesOnly D.moment D.left_since disk.old disk.new (ComesBackBy events left) }
        ensures went { D.tells → (left : AllFiles) (events : Sequence Event) (start : D) → HasKept D.Disk left events start self.old disk.old
            → MatchResult result (λ _. HasKept D.Disk left (behind events Event.flushed) start self.new disk.new) (HasNotFlushed D.Disk left events start self.old self.new disk.new) }
        // Where the disk failed it held, at some moment, exactly what the events lead to without the results that are lost.
        ensures passed { D.tells → (left : AllFiles) (events : Sequence Event) (start : D) → HasKept D.Disk left events start self.old disk.old → IfErr result (λ e. e ≡ DiskFault → HasPassedHeld D.Disk left events start self.new disk.new) }
        ensures closed { IsClosed self.old → (result ≡ Err Closed) × (self.new ≡ self.old) × (disk.new ≡ disk.old) }
        // Before the archive is open nothing is done.
        ensures idle { IsFound self.old → (result ≡ Ok tt) × (self.new ≡ self.old) × (disk.new ≡ disk.old) }
        // Nothing is held any more.
        ensures none { OnOk result (held_in self.new.place ≡ 0) }
        ensures working { OnOk result (IsWorking self.old × IsWorking self.new) }
        ensures open_ { OnOk result (IsOpen self.old → IsOpen self.new) }
        ensures cause { IfErr result (FlushMayAnswer self.old self.new (D.faults disk.old) (D.faults disk.new)) }
        ensures same { (self.new.label ≡ self.old.label) × (self.new.limit ≡ self.old.limit) × (self.new.logged ≡ self.old.logged) }
        ensures later { D.faults disk.old ≤ D.faults disk.new }
        ensures quiet { OnOk result (D.faults disk.new ≡ D.faults disk.old) }
        ensures untouched { IfErr result (λ e. e ≢ DiskFault → disk.new ≡ disk.old) }
    {
        self.make_sure(disk, true)
    }

    /// Writes all that is held, makes all that was logged sure, and puts no entry behind the index: `Ok` acknowledges it. Before the archive is
    /// open nothing is done.
    pub fn sync<D: Disk>(&mut self, disk: &mut D) -> Result<(), LogFault>
        ensures done { D.tells → (left : AllFiles) (events : Sequence Event) → Keeps left events self.old (D.held disk.old) → OnOk result (Keeps left (behind events Event.synced) self.new (D.held disk.new)) }
        ensures settled { D.tells → (left : AllFiles) (events : Sequence Event) → Keeps left events self.old (D.held disk.old) → OnOk result (IsSettled (D.held disk.new)) }
        ensures any_moment { D.tells → (left : AllFiles) (events : Sequence Event) → Keeps left events self.old (D.held disk.old)
            → LeavesOnly D.moment D.left_since disk.old disk.new (ComesBackBy events left) }
        ensures went { D.tells → (left : AllFiles) (events : Sequence Event) (start : D) → HasKept D.Disk left events start self.old disk.old
            → MatchResult result (λ _. HasKept D.Disk left (behind events Event.synced) start self.new disk.new) (HasNotFlushed D.Disk left events start self.old self.new disk.new) }
        // Where the disk failed it held, at some moment, exactly what the events lead to without the results that are lost.
        ensures passed { D.tells → (left : AllFiles) (events : Sequence Event) (start : D) → HasKept D.Disk left events start self.old disk.old → IfErr result (λ e. e ≡ DiskFault → HasPassedHeld D.Disk left events start self.new disk.new) }
        ensures closed { IsClosed self.old → (result ≡ Err Closed) × (self.new ≡ self.old) × (disk.new ≡ disk.old) }
        // Before the archive is open nothing is done.
        ensures idle { IsFound self.old → (result ≡ Ok tt) × (self.new ≡ self.old) × (disk.new ≡ disk.old) }
        // Nothing is held any more.
        ensures none { OnOk result (held_in self.new.place ≡ 0) }
        ensures working { OnOk result (IsWorking self.old × IsWorking self.new) }
        ensures open_ { OnOk result (IsOpen self.old → IsOpen self.new) }
        ensures cause { IfErr result (FlushMayAnswer self.old self.new (D.faults disk.old) (D.faults disk.new)) }
        ensures same { (self.new.label ≡ self.old.label) × (self.new.limit ≡ self.old.limit) × (self.new.logged ≡ self.old.logged) }
        ensures later { D.faults disk.old ≤ D.faults disk.new }
        ensures quiet { OnOk result (D.faults disk.new ≡ D.faults disk.old) }
        ensures untouched { IfErr result (λ e. e ≢ DiskFault → disk.new ≡ disk.old) }
    {
        self.make_sure(disk, false)
    }

    /// Whether the disk failed.
    fn has_failed(&self) -> bool
        ensures yes { result ≡ true → IsFailed self.now }
        ensures no { result ≡ false → IsFailed self.now → ⊥ }
    {
        match &self.place {
            Place::Failed(_) => true,
            _ => false,
        }
    }

    /// The end of a session: a flush, or where nothing was logged nothing.
    pub fn close<D: Disk>(&mut self, disk: &mut D) -> Result<(), LogFault>
        ensures done { D.tells → (left : AllFiles) (events : Sequence Event) → Keeps left events self.old (D.held disk.old) → OnOk result (Keeps left (closing events) self.new (D.held disk.new)) }
        ensures settled { D.tells → (left : AllFiles) (events : Sequence Event) → Keeps left events self.old (D.held disk.old) → OnOk result (IsSettled (D.held disk.new)) }
        // Recovery changes nothing of what it leaves.
        ensures whole { D.tells → (left : AllFiles) (events : Sequence Event) → Keeps left events self.old (D.held disk.old) → AreWhole left → OnOk result (AreWhole (contents_of (D.held disk.new))) }
        ensures any_moment { D.tells → (left : AllFiles) (events : Sequence Event) → Keeps left events self.old (D.held disk.old)
            → LeavesOnly D.moment D.left_since disk.old disk.new (ComesBackBy events left) }
        ensures went { D.tells → (left : AllFiles) (events : Sequence Event) (start : D) → HasKept D.Disk left events start self.old disk.old
            → MatchResult result (λ _. HasKept D.Disk left (closing events) start self.new disk.new) (HasNotClosed D.Disk left events start self.old disk.new) }
        // Where the disk failed it held, at some moment, exactly what the events lead to without the results that are lost.
        ensures passed { D.tells → (left : AllFiles) (events : Sequence Event) (start : D) → HasKept D.Disk left events start self.old disk.old → IfErr result (λ e. e ≡ DiskFault → HasPassedHeld D.Disk left events start self.new disk.new) }
        ensures failed { IsFailed self.old → (result ≡ Err Closed) × (self.new ≡ self.old) × (disk.new ≡ disk.old) }
        // Where nothing was logged nothing is done.
        ensures idle { self.old.logged ≡ 0 → (IsFailed self.old → ⊥) → (result ≡ Ok tt) × (self.new ≡ self.old) × (disk.new ≡ disk.old) }
        ensures open_ { OnOk result (IsFailed self.new → ⊥) }
        // Nothing is held any more.
        ensures none { OnOk result (held_in self.new.place ≡ 0) }
        ensures stays { OnOk result (IsOpen self.old → IsOpen self.new) }
        ensures cause { IfErr result (FlushMayAnswer self.old self.new (D.faults disk.old) (D.faults disk.new)) }
        ensures same { (self.new.label ≡ self.old.label) × (self.new.limit ≡ self.old.limit) × (self.new.logged ≡ self.old.logged) }
        ensures later { D.faults disk.old ≤ D.faults disk.new }
        ensures quiet { OnOk result (D.faults disk.new ≡ D.faults disk.old) }
        ensures untouched { IfErr result (λ e. e ≢ DiskFault → disk.new ≡ disk.old) }
    {
        if self.has_failed() {
            return Err(LogFault::Closed);
        }
        if self.logged == 0 {
            return Ok(());
        }
        self.flush(disk)
    }
}
