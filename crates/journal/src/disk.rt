//! A file as the journal sees it: what a read returns, and what a crash may leave.
ghost use Rattle.std.specs.Prelude.{◌≡◌, ◌≤◌, List, ℕ, length, take, OnOk};
ghost use Rattle.journal.specs.declared.disk.DiskError.TheVariants.{OutOfMemory};
ghost use Rattle.journal.specs.Disk.{Only, Follows, Torn, Cut, Holds, Elapses, LeavesOnly, HasCause};
ghost use Rattle.journal.specs.Groups.{recovered};
ghost use Rattle.journal.specs.Promises.{AreLeft, AreLeftIn};
ghost use Rattle.journal.specs.Reading.{HasFirst};

use std::alloc::{AllocError, AllocFailed};
use thiserror::Error;

/// Why a call of a disk, or of a journal on it, failed.
#[derive(Clone, Copy, Debug, PartialEq, Eq, Error)]
pub enum DiskError {
    /// Memory ran out.
    #[error("out of memory")]
    OutOfMemory,
    /// A call of the disk failed.
    #[error("the disk failed")]
    Failed,
    /// The file has 2^60 bytes or more.
    #[error("the journal is full")]
    Full,
}

impl From<AllocError> for DiskError {
    ghost from_gives = { λ _ e. e ≡ OutOfMemory };

    fn from(_: AllocError) -> Self {
        DiskError::OutOfMemory
    }
}

impl<T: Drop> From<AllocFailed<T>> for DiskError {
    ghost from_gives = { λ _ e. e ≡ OutOfMemory };

    fn from(_: AllocFailed<T>) -> Self {
        DiskError::OutOfMemory
    }
}

/// One file on a disk, with a clock: contracts speak of what a crash may leave at each moment.
///
/// Of its groups some are promised. That no crash breaks a promise is a condition of each call that changes the file:
/// it holds before the call is made, so also where a run is cut off, hangs or goes on for ever.
pub trait Disk {
    /// The bytes that a read returns.
    ghost seen: { Self → List ℕ };

    /// What a crash at this moment may leave.
    ghost may_leave: { Self → List ℕ → Type 0 };

    /// The moment, as a number that does not fall.
    ghost moment: { Self → ℕ };

    /// What a crash at some moment from that one on might have left, during a call or between two.
    ghost left_since: { Self → ℕ → List ℕ → Type 0 };

    /// The groups that were promised: whatever crashes from then on leaves them, and maybe more.
    ghost promised: { Self → List (List ℕ) };

    /// How often the disk has failed.
    ghost faults: { Self → ℕ };

    /// Promises the groups that a read stands for, in which there are so many things by their owner's count. It does
    /// nothing to the file; whoever keeps that in parts may begin the next one.
    fn promise(&mut self, count: u64)
        requires { AreLeft (recovered (seen self.old)) (may_leave self.old) }
        ensures promised { promised self.new ≡ recovered (seen self.old) }
        ensures seen { seen self.new ≡ seen self.old }
        ensures crash { (c : List ℕ) → may_leave self.new c → may_leave self.old c }
        ensures time { Elapses (moment self.old) (moment self.new) (left_since self.old) (left_since self.new) (may_leave self.new) }
        ensures faults { faults self.new ≡ faults self.old };

    /// Writes over what is there, and past the end. Until a sync, a crash may leave any bytes in the range.
    fn write_at(&mut self, at: usize, bytes: &[u8]) -> Result<(), DiskError>
        requires inside { at ≤ length (seen self.old) }
        // No crash in the course of it breaks a promise.
        requires kept { AreLeftIn (Torn at (length bytes.now)) (promised self.old) (may_leave self.old) }
        ensures promised { promised self.new ≡ promised self.old }
        ensures written { OnOk result (Holds (seen self.old) at bytes.now (seen self.new)) }
        ensures crash { Follows (Torn at (length bytes.now)) (may_leave self.old) (may_leave self.new) }
        ensures time { Elapses (moment self.old) (moment self.new) (left_since self.old) (left_since self.new) (may_leave self.new) }
        ensures cause { HasCause (faults self.old) (faults self.new) result };

    /// Cuts the file to a length.
    fn cut(&mut self, len: usize) -> Result<(), DiskError>
        requires inside { len ≤ length (seen self.old) }
        requires kept { AreLeftIn (Cut len) (promised self.old) (may_leave self.old) }
        ensures promised { promised self.new ≡ promised self.old }
        ensures cut { OnOk result (seen self.new ≡ take len (seen self.old)) }
        ensures crash { Follows (Cut len) (may_leave self.old) (may_leave self.new) }
        ensures time { Elapses (moment self.old) (moment self.new) (left_since self.old) (left_since self.new) (may_leave self.new) }
        ensures cause { HasCause (faults self.old) (faults self.new) result };

    /// After it, a crash leaves what a read returns.
    fn sync(&mut self) -> Result<(), DiskError>
        ensures promised { promised self.new ≡ promised self.old }
        ensures durable { OnOk result (Only (seen self.old) (may_leave self.new)) }
        ensures seen { seen self.new ≡ seen self.old }
        ensures crash { (c : List ℕ) → may_leave self.new c → may_leave self.old c }
        ensures time { Elapses (moment self.old) (moment self.new) (left_since self.old) (left_since self.new) (may_leave self.new) }
        ensures cause { HasCause (faults self.old) (faults self.new) result };

    /// This moment is one of those since an earlier one.
    ghost counts_now: { (file : Self) (t : ℕ) (c : List ℕ) → t ≤ moment file → may_leave file c → left_since file t c };

    /// Since this moment there is no other.
    ghost only_now: { (file : Self) (c : List ℕ) → left_since file (moment file) c → may_leave file c };

    /// A crash at this moment may leave what a read returns.
    ghost leaves: { (file : Self) → may_leave file (seen file) };

    /// Whatever a crash at this moment leaves begins with the groups that were promised.
    ghost keeps: { (file : Self) → AreLeft (promised file) (may_leave file) };
}

/// Promises all groups of a file that a crash leaves as it reads. Their owner counts so many things in them.
pub(crate) fn promise_all<D: Disk>(disk: &mut D, count: u64)
    requires durable { Only (D.seen disk.old) (D.may_leave disk.old) }
    ensures promised { D.promised disk.new ≡ recovered (D.seen disk.old) }
    ensures seen { D.seen disk.new ≡ D.seen disk.old }
    ensures durable { Only (D.seen disk.new) (D.may_leave disk.new) }
    ensures any_moment { LeavesOnly D.moment D.left_since disk.old disk.new (λ c. c ≡ D.seen disk.old) }
    ensures faults { D.faults disk.new ≡ D.faults disk.old }
{
    disk.promise(count);
}

/// Writes, and waits until that is on the disk.
pub(crate) fn write_through<D: Disk>(disk: &mut D, at: usize, bytes: &[u8]) -> Result<(), DiskError>
    requires inside { at ≤ length (D.seen disk.old) }
    requires durable { Only (D.seen disk.old) (D.may_leave disk.old) }
    requires kept { (c : List ℕ) → Torn at (length bytes.now) (D.seen disk.old) c → HasFirst (D.promised disk.old) c }
    ensures promised { D.promised disk.new ≡ D.promised disk.old }
    ensures written { OnOk result (Holds (D.seen disk.old) at bytes.now (D.seen disk.new)) }
    ensures durable { OnOk result (Only (D.seen disk.new) (D.may_leave disk.new)) }
    ensures any_moment { LeavesOnly D.moment D.left_since disk.old disk.new (Torn at (length bytes.now) (D.seen disk.old)) }
    ensures cause { HasCause (D.faults disk.old) (D.faults disk.new) result }
{
    disk.write_at(at, bytes)?;
    disk.sync()
}

/// Cuts, and waits until that is on the disk.
pub(crate) fn cut_through<D: Disk>(disk: &mut D, len: usize) -> Result<(), DiskError>
    requires inside { len ≤ length (D.seen disk.old) }
    requires durable { Only (D.seen disk.old) (D.may_leave disk.old) }
    requires kept { (c : List ℕ) → Cut len (D.seen disk.old) c → HasFirst (D.promised disk.old) c }
    ensures promised { D.promised disk.new ≡ D.promised disk.old }
    ensures cut { OnOk result (D.seen disk.new ≡ take len (D.seen disk.old)) }
    ensures durable { OnOk result (Only (D.seen disk.new) (D.may_leave disk.new)) }
    ensures any_moment { LeavesOnly D.moment D.left_since disk.old disk.new (Cut len (D.seen disk.old)) }
    ensures cause { HasCause (D.faults disk.old) (D.faults disk.new) result }
{
    disk.cut(len)?;
    disk.sync()
}
