//! A volume that a worker counts, piece by piece.
ghost use Rattle.std.specs.Prelude.{◌≡◌, ◌||◌, ℕ, List, ◌+◌, ◌-◌, ◌≤◌, true, nat_eq, nat_le, length, min, drop, IfOk};
ghost use Rattle.pcp_model.specs.Disk.{Files};
ghost use Rattle.pcp_base.specs.Time.{Moment};
ghost use Rattle.pcp_model.specs.declared.records.MetaRecord.{MetaRecord};
ghost use Rattle.pcp_model.specs.Frame.{IsTorn};
ghost use Rattle.log_summary.specs.declared.job.Progress.TheVariants.{Open as IsOpen};
ghost use Rattle.log_summary.specs.Jobs.{Counts, IsPiece, IsRead, IsReadOf, IsReadOn, IsSame, IsCountedOn, IsWithin};
ghost use Rattle.log_summary.specs.Volumes.{SoFar, IsBroken};

use crate::piece::{Piece, Want};
use crate::table::Table;
use crate::walking::{Stop, count_whole};
use archive_meta::MetaState;
use pcp_base::{NoMemory, Stamp};
use pcp_outside::Turn;

/// How many bytes of a volume are read at a time, at most.
const PIECE: u64 = 2_097_152;

/// How far a volume is counted.
#[derive(Clone, Copy)]
pub enum Progress {
    /// More of it is to be read.
    Open,
    /// All its items are counted.
    Done,
    /// At this offset its items break off.
    Broken(u64),
    /// Memory was refused.
    Refused,
}

/// A volume that a worker counts.
#[derive(Drop)]
pub struct Job {
    /// The worker's number, from 0.
    pub worker: u32,
    /// The volume's number.
    pub number: u32,
    /// Whether no volume follows, so that a record that isn't whole is the archive's end.
    pub is_last: bool,
    /// How many bytes the volume has.
    pub end: u64,
    /// Whether its worker hasn't taken its turn.
    pub is_new: bool,
    /// The offset up to which its items are counted.
    pub at: u64,
    /// The bytes behind them, as far as they were read.
    pub bytes: Vec<u8>,
    pub table: Table,
    pub progress: Progress,
}

impl Job {
    /// Whether more of the volume is to be counted.
    pub fn is_open(&self) -> bool
        ensures { result ≡ true → self.now.progress ≡ IsOpen }
    {
        match self.progress {
            Progress::Open => true,
            Progress::Done | Progress::Broken(_) | Progress::Refused => false,
        }
    }
}

// How many bytes of the volume are read next: a piece, unless fewer are left.
fn piece_of(job: &Job) -> u64
    ensures { result ≡ min 2097152 (job.now.end - job.now.at - length job.now.bytes.items) }
{
    let left = job.end.saturating_sub(job.at);
    let unread = left.saturating_sub(job.bytes.len() as u64);
    unread.min(PIECE)
}

/// What is to be read next of a volume.
pub fn want_of(job: &Job) -> Want
    ensures { (files : Files) → IsReadOf files job.now → IsWithin files result }
{
    let number = job.number;
    let Some(at) = job.at.checked_add(job.bytes.len() as u64) else {
        return Want {
            number,
            at: job.at,
            count: 0,
        };
    };
    let count = piece_of(job);
    Want { number, at, count }
}

// Whether the bytes of a piece are the ones behind what was read.
fn follows(job: &Job, piece: &Piece) -> bool
    ensures { result ≡ true → (piece.now.number ≡ job.now.number) × (piece.now.at ≡ job.now.at + length job.now.bytes.items) }
{
    if piece.number != job.number {
        return false;
    }
    match piece.at.checked_sub(job.at) {
        Some(read) => read == job.bytes.len() as u64,
        None => false,
    }
}

/// Puts a piece behind what was read of a volume, if it is what follows there.
pub fn with_piece(job: Job, piece: Piece) -> Result<Job, NoMemory>
    ensures on { IfOk result (IsReadOn job) }
    ensures read { (files : Files) → IsReadOf files job → IsPiece files piece → IfOk result (IsReadOf files) }
{
    if !follows(&job, &piece) {
        return Ok(job);
    }
    let mut job = job;
    if job.bytes.is_empty() {
        job.bytes = piece.bytes;
        return Ok(job);
    }
    job.bytes.extend_from_slice(piece.bytes.as_slice())?;
    Ok(job)
}

// The bytes from one of them on.
fn rest_of(bytes: Vec<u8>, at: usize) -> Vec<u8>
    requires { at ≤ length bytes.items }
    ensures { result.items ≡ drop at bytes.items }
{
    let mut rest = bytes;
    let left = rest.len() - at;
    rest.copy_within(at.., 0);
    rest.truncate(left);
    rest
}

// Whether all bytes of a volume behind an offset were read, where these were.
fn is_all(end: u64, at: u64, bytes: &Vec<u8>) -> bool
    ensures { result ≡ nat_le (end - at) (length bytes.now.items) }
{
    end.saturating_sub(at) <= bytes.len() as u64
}

// Whether a volume ends where no whole record follows.
fn ends_well(is_last: bool, end: u64, at: u64) -> bool
    ensures { result ≡ (is_last || nat_eq at end) }
{
    if is_last {
        return true;
    }
    at == end
}

// A job whose whole records are counted up to one of the bytes that were read, behind which no whole record follows. What is
// left goes in front of the next piece, or the volume ends.
fn counted_to(job: Job, at: usize) -> Job
    requires { at ≤ length job.bytes.items }
    ensures same { IsSame job result }
    ensures counts { (bytes : List ℕ) (records : List MetaRecord) (from to : Moment) → IsRead bytes job → SoFar bytes records from to (job.at + at) job.table → IsTorn (drop at job.bytes.items) → Counts bytes records from to result }
{
    let mut job = job;
    let Some(offset) = job.at.checked_add(at as u64) else {
        job.progress = Progress::Refused;
        return job;
    };
    if !is_all(job.end, job.at, &job.bytes) {
        job.at = offset;
        job.bytes = rest_of(job.bytes, at);
        job.progress = Progress::Open;
        return job;
    }
    if ends_well(job.is_last, job.end, offset) {
        job.progress = Progress::Done;
    } else {
        job.progress = Progress::Broken(offset);
    }
    job
}

// A job whose items break off at one of the bytes that were read.
fn broken_at(job: Job, at: usize) -> Job
    ensures same { IsSame job result }
    ensures counts { (bytes : List ℕ) (records : List MetaRecord) (from to : Moment) → IsRead bytes job → IsBroken bytes job.is_last (job.at + at) → Counts bytes records from to result }
{
    let mut job = job;
    job.progress = match job.at.checked_add(at as u64) {
        Some(offset) => Progress::Broken(offset),
        None => Progress::Refused,
    };
    job
}

// A worker takes its turn, unless it has.
fn take_turn<T: Turn>(job: &Job, turn: &T) {
    if job.is_new {
        turn.turn(job.worker, u64::from(job.number));
    }
}

/// A worker counts the items that stand whole in what was read of its volume. Before the first piece it takes its turn.
pub fn count_piece<T: Turn>(meta: &MetaState, from: Stamp, to: Stamp, job: Job, turn: &T) -> Job
    ensures { IsCountedOn meta.now from to job result }
{
    if !job.is_open() {
        return job;
    }
    take_turn(&job, turn);
    let mut job = job;
    job.is_new = false;
    match count_whole(job.bytes.as_slice(), meta, from, to, &mut job.table) {
        Ok(Stop::Torn(at)) => counted_to(job, at),
        Ok(Stop::Wrong(at)) => broken_at(job, at),
        Err(_) => {
            job.progress = Progress::Refused;
            job
        }
    }
}
