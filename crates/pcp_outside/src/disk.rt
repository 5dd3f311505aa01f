//! The trait `Disk`: what a disk may do, and what a crash leaves of each of its calls.
ghost use Rattle.std.specs.Prelude.{◌≡◌, ◌≤◌, ◌+◌, ℕ, length, take, drop, IfOk, OnOk, Option};
ghost use Rattle.pcp_model.specs.Disk.{CrashImage};
ghost use Rattle.pcp_outside.specs.Causes.{HasCause};
ghost use Rattle.pcp_outside.specs.Devices.{IsNumbered, AppendsSure, LeavesOnly, comes_before, holdings_after_append};

use crate::failed::Failed;
use pcp_base::FileId;

/// The files of one archive. A file that is missing is an empty one.
pub trait Disk {
    ghost use Rattle.pcp_model.specs.Disk.{Files, Holdings, bytes_of};
    ghost use Rattle.pcp_outside.specs.Causes.{shown_count};
    ghost use Rattle.pcp_outside.specs.Devices.{length_of, IsVolumes, Appends, Syncs, Cuts, Counts, Elapses};
    ghost use Rattle.pcp_base.specs.declared.file.FileId.{FileId as File};

    /// Whether the object tells its content; one over the system doesn't.
    ghost tells: { Type 0 };

    /// What each file holds: the bytes that are surely on the disk, and the rest.
    ghost held: { Self → Holdings };

    /// The first archive file that stands under its name with `.xz` or `.gz` added.
    ghost wrapped_file: { Self → Option File };

    /// How many volume bytes reads have taken.
    ghost taken: { Self → ℕ };

    /// The moment, as a number that doesn't fall.
    ghost moment: { Self → ℕ };

    /// What a crash at some moment from that one on might have left, during a call or between two.
    ghost left_since: { Self → ℕ → Files → Type 0 };

    /// How many of its calls have failed; the number never falls.
    ghost faults: { Self → ℕ };

    /// How many bytes the file holds; 2^64 - 1 where it holds more.
    fn len(&mut self, file: FileId) -> Result<u64, Failed>
        requires { IsNumbered file }
        ensures length { tells → IfOk result (λ n. n ≡ shown_count (length_of (held self.old file))) }
        ensures held { tells → held self.new ≡ held self.old }
        ensures wrapped { tells → wrapped_file self.new ≡ wrapped_file self.old }
        ensures taken { tells → taken self.new ≡ taken self.old }
        ensures time { Elapses (moment self.old) (moment self.new) (left_since self.old) (left_since self.new) (held self.new) }
        ensures quiet { OnOk result (faults self.new ≡ faults self.old) }
        ensures cause { HasCause (faults self.old) (faults self.new) result };

    /// One more than the greatest number of a volume that isn't empty, or 0.
    fn volumes(&mut self) -> Result<u32, Failed>
        ensures count { tells → IfOk result (IsVolumes (held self.old)) }
        ensures held { tells → held self.new ≡ held self.old }
        ensures wrapped { tells → wrapped_file self.new ≡ wrapped_file self.old }
        ensures taken { tells → taken self.new ≡ taken self.old }
        ensures time { Elapses (moment self.old) (moment self.new) (left_since self.old) (left_since self.new) (held self.new) }
        ensures quiet { OnOk result (faults self.new ≡ faults self.old) }
        ensures cause { HasCause (faults self.old) (faults self.new) result };

    /// The first archive file, in the order Meta, Index, Volume(0) upwards, that stands under its name with
    /// `.xz` or `.gz` added.
    fn wrapped(&mut self) -> Result<Option<FileId>, Failed>
        ensures first { tells → IfOk result (λ found. found ≡ wrapped_file self.old) }
        ensures held { tells → held self.new ≡ held self.old }
        ensures wrapped { tells → wrapped_file self.new ≡ wrapped_file self.old }
        ensures taken { tells → taken self.new ≡ taken self.old }
        ensures time { Elapses (moment self.old) (moment self.new) (left_since self.old) (left_since self.new) (held self.new) }
        ensures quiet { OnOk result (faults self.new ≡ faults self.old) }
        ensures cause { HasCause (faults self.old) (faults self.new) result };

    /// Fills the buffer with the file's bytes from offset `at` on. After a failure the buffer's content isn't said.
    fn read(&mut self, file: FileId, at: u64, buffer: &mut [u8]) -> Result<(), Failed>
        requires numbered { IsNumbered file }
        requires within { tells → at + length buffer.old ≤ length_of (held self.old file) }
        ensures bytes { tells → OnOk result (buffer.new ≡ take (length buffer.old) (drop at (bytes_of (held self.old file)))) }
        ensures held { tells → held self.new ≡ held self.old }
        ensures wrapped { tells → wrapped_file self.new ≡ wrapped_file self.old }
        ensures taken { tells → Counts file (length buffer.old) (taken self.old) (taken self.new) result }
        ensures time { Elapses (moment self.old) (moment self.new) (left_since self.old) (left_since self.new) (held self.new) }
        ensures quiet { OnOk result (faults self.new ≡ faults self.old) }
        ensures cause { HasCause (faults self.old) (faults self.new) result };

    /// Puts bytes behind the file's end. Where it fails it may have put any front of them there.
    fn append(&mut self, file: FileId, bytes: &[u8]) -> Result<(), Failed>
        requires { IsNumbered file }
        ensures held { tells → Appends file bytes.now (held self.old) (held self.new) result }
        ensures wrapped { tells → wrapped_file self.new ≡ wrapped_file self.old }
        ensures taken { tells → taken self.new ≡ taken self.old }
        ensures time { Elapses (moment self.old) (moment self.new) (left_since self.old) (left_since self.new) (held self.new) }
        ensures quiet { OnOk result (faults self.new ≡ faults self.old) }
        ensures cause { HasCause (faults self.old) (faults self.new) result };

    /// Makes all bytes of the file sure. Where it fails it has happened or not.
    fn sync(&mut self, file: FileId) -> Result<(), Failed>
        requires { IsNumbered file }
        ensures held { tells → Syncs file (held self.old) (held self.new) result }
        ensures wrapped { tells → wrapped_file self.new ≡ wrapped_file self.old }
        ensures taken { tells → taken self.new ≡ taken self.old }
        ensures time { Elapses (moment self.old) (moment self.new) (left_since self.old) (left_since self.new) (held self.new) }
        ensures quiet { OnOk result (faults self.new ≡ faults self.old) }
        ensures cause { HasCause (faults self.old) (faults self.new) result };

    /// Keeps the first `len` bytes of the file, at once and surely. Where it fails it has happened or not.
    fn cut(&mut self, file: FileId, len: u64) -> Result<(), Failed>
        requires numbered { IsNumbered file }
        requires within { tells → len ≤ length_of (held self.old file) }
        ensures held { tells → Cuts file len (held self.old) (held self.new) result }
        ensures wrapped { tells → wrapped_file self.new ≡ wrapped_file self.old }
        ensures taken { tells → taken self.new ≡ taken self.old }
        ensures time { Elapses (moment self.old) (moment self.new) (left_since self.old) (left_since self.new) (held self.new) }
        ensures quiet { OnOk result (faults self.new ≡ faults self.old) }
        ensures cause { HasCause (faults self.old) (faults self.new) result };

    /// This moment is one of those since an earlier one.
    ghost counts_now: { (disk : Self) (t : ℕ) (c : Files) → t ≤ moment disk → CrashImage (held disk) c → left_since disk t c };

    /// Since this moment there is no other.
    ghost only_now: { (disk : Self) (c : Files) → left_since disk (moment disk) c → CrashImage (held disk) c };
}

/// Puts bytes behind a file's end and makes all of the file sure. Where it fails some front of the bytes may
/// stand there, and the file may be sure or not.
pub fn append_synced<D: Disk>(disk: &mut D, file: FileId, bytes: &[u8]) -> Result<(), Failed>
    requires { IsNumbered file }
    ensures held { D.tells → AppendsSure file bytes.now (D.held disk.old) (D.held disk.new) result }
    ensures wrapped { D.tells → D.wrapped_file disk.new ≡ D.wrapped_file disk.old }
    ensures taken { D.tells → D.taken disk.new ≡ D.taken disk.old }

    // A crash at any moment of it leaves some front of the bytes behind what was sure, and the other files alone.
    ensures any_moment { D.tells → LeavesOnly D.moment D.left_since disk.old disk.new (CrashImage (holdings_after_append file bytes.now (D.held disk.old))) }
    ensures cause { HasCause (D.faults disk.old) (D.faults disk.new) result }
{
    disk.append(file, bytes)?;
    disk.sync(file)
}

/// Whether a file is named before another: Meta, Index, then the volumes upwards.
pub fn is_before(a: FileId, b: FileId) -> bool
    ensures { result ≡ comes_before a b }
{
    match (a, b) {
        (FileId::Meta, FileId::Index | FileId::Volume(_)) => true,
        (FileId::Index, FileId::Volume(_)) => true,
        (FileId::Volume(first), FileId::Volume(second)) => first < second,
        _ => false,
    }
}
