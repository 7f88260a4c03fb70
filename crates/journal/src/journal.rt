//! A file that was read and is not yet changed, and a journal that groups are appended to.
ghost use Rattle.std.specs.Prelude.{◌≡◌, ◌<◌, ◌≤◌, ◌^◌, ◌++◌, [], ◌∷◌, length, IfOk, IfErr};
ghost use Rattle.journal.specs.Disk.{Only, LeavesOnly};
ghost use Rattle.journal.specs.Groups.{recovered, blocks, behind, at_rest, lists, AreTorn, IsSettled, IsBeforeOrAfter, IsMending, IsAppending};

use crate::disk::promise_all;
use crate::gated::{GatedFile, repair};
use crate::torn::KeepsTorn;
use crate::{Disk, DiskError};
use std::alloc::Global;
use std::marker::Model;

/// A file that was read and is unchanged. All its groups are promised: they may have been told in an earlier run. To a
/// contract it is its disk.
#[derive(Drop)]
pub struct Found<D: Disk> {
    disk: D,
    end: usize,
}

impl<D: Disk> Model for Found<D> {
    ghost Value = { D };

    ghost view = { λ found. found.disk };

    ghost invariant = { λ found. (found.end ≡ length (blocks (recovered (D.seen found.disk))))
        × Only (D.seen found.disk) (D.may_leave found.disk)
        × (D.promised found.disk ≡ recovered (D.seen found.disk)) };
}

/// An open journal, all of it on the disk and promised. To a contract it is its disk.
#[derive(Drop)]
pub struct Journal<D: Disk> {
    file: GatedFile<D>,
}

impl<D: Disk> Model for Journal<D> {
    ghost Value = { D };

    ghost view = { λ journal. journal.file.disk };

    ghost invariant = { λ journal. IsSettled D.seen D.may_leave journal.file
        × (D.promised journal.file.disk ≡ recovered (D.seen journal.file.disk)) };
}

impl<D: Disk> Found<D> {
    /// A file whose groups reach so far. They are promised.
    pub(crate) fn new(disk: D, end: usize) -> Found<D>
        requires end { end ≡ length (blocks (recovered (D.seen disk))) }
        requires durable { Only (D.seen disk) (D.may_leave disk) }
        ensures { D.seen result ≡ D.seen disk }
    {
        let mut disk = disk;
        // Whoever reads it has not counted yet.
        promise_all(&mut disk, 0);
        Found { disk, end }
    }

    /// Cuts off what stands behind the groups, and makes it a journal. It takes evidence that what a crash has torn is
    /// kept. A crash at any moment leaves the same groups, and an `Err` hands the disk back.
    pub fn mend<T: KeepsTorn>(self, kept: &T::Kept) -> Result<Journal<D>, (DiskError, D)>
        requires kept { AreTorn (D.seen self) (T.bytes kept.now) }
        ensures at_rest { IfOk result (λ journal. D.seen journal ≡ at_rest (recovered (D.seen self))) }
        ensures same { IfOk result (λ journal. recovered (D.seen journal) ≡ recovered (D.seen self)) }
        ensures promised_err { IfErr result (λ e. D.promised e.1 ≡ recovered (D.seen self)) }
        ensures any_moment { IfOk result (λ journal. LeavesOnly D.moment D.left_since self journal
            (λ c. recovered c ≡ recovered (D.seen self))) }
        ensures any_moment_err { IfErr result (λ e. LeavesOnly D.moment D.left_since self e.1
            (λ c. recovered c ≡ recovered (D.seen self))) }
        ensures torn { IfOk result (λ journal. LeavesOnly D.moment D.left_since self journal
            (IsMending (D.seen self))) }
        ensures torn_err { IfErr result (λ e. LeavesOnly D.moment D.left_since self e.1
            (IsMending (D.seen self))) }
        ensures later { IfOk result (λ journal. D.faults self ≤ D.faults journal) }
        ensures failed { IfErr result (λ e. e.0 ≡ DiskError.Failed → D.faults self < D.faults e.1) }
        ensures full { IfErr result (λ e. e.0 ≡ DiskError.Full → ⊥) }
    {
        let _evidence = kept;
        let Found { mut disk, end } = self;
        match repair(&mut disk, end) {
            Ok(()) => Ok(Journal {
                file: GatedFile { disk, size: end },
            }),
            Err(error) => Err((error, disk)),
        }
    }

    /// The disk, which is as it was read.
    pub fn into_disk(self) -> D
        ensures same { result ≡ self }
        ensures durable { Only (D.seen result) (D.may_leave result) }
        ensures promised { D.promised result ≡ recovered (D.seen result) }
    {
        let Found { disk, end: _ } = self;
        disk
    }
}

impl<D: Disk> Journal<D> {
    /// Adds a group, with which there are so many things by their owner's count. With the journal that comes back it is
    /// acknowledged: it is on the disk and promised, and from then on each crash leaves a file that has it. At `Err`,
    /// which hands the disk back, read the file again.
    pub fn append(
        self,
        alloc: Global,
        group: &[u8],
        count: u64,
    ) -> Result<Journal<D>, (DiskError, D)>
        requires { length group.now ≤ 2 ^ 49 }
        ensures acknowledged { IfOk result (λ journal.
            recovered (D.seen journal) ≡ recovered (D.seen self) ++ group.now ∷ []) }
        ensures promised_err { IfErr result (λ e. D.promised e.1 ≡ recovered (D.seen self)) }
        // A crash at any moment of the call leaves the groups from before it, with the new one whole or without.
        ensures any_moment { IfOk result (λ journal. LeavesOnly D.moment D.left_since self journal
            (IsBeforeOrAfter (recovered (D.seen self)) group.now)) }
        ensures any_moment_err { IfErr result (λ e. LeavesOnly D.moment D.left_since self e.1
            (IsBeforeOrAfter (recovered (D.seen self)) group.now)) }
        // What stands behind them is what this call writes, torn or whole.
        ensures torn { IfOk result (λ journal. LeavesOnly D.moment D.left_since self journal
            (IsAppending (recovered (D.seen self)) group.now)) }
        ensures torn_err { IfErr result (λ e. LeavesOnly D.moment D.left_since self e.1
            (IsAppending (recovered (D.seen self)) group.now)) }
        // It does not give up by itself.
        ensures failed { IfErr result (λ e. e.0 ≡ DiskError.Failed → D.faults self < D.faults e.1) }
        ensures full { IfErr result (λ e. e.0 ≡ DiskError.Full → 2 ^ 60 ≤ length (D.seen self)) }
    {
        let Journal { mut file } = self;
        match file.append(alloc, group) {
            Ok(()) => {
                promise_all(&mut file.disk, count);
                Ok(Journal { file })
            }
            Err(error) => {
                let GatedFile { disk, size: _ } = file;
                Err((error, disk))
            }
        }
    }

    /// Its disk, which has promised all its groups.
    pub fn disk(&self) -> &D
        ensures same { result.now ≡ self.now }
        ensures promised { D.promised result.now ≡ recovered (D.seen result.now) }
    {
        &self.file.disk
    }

    /// The disk: a crash leaves it as it reads.
    pub fn into_disk(self) -> D
        ensures same { result ≡ self }
        ensures durable { Only (D.seen result) (D.may_leave result) }
        ensures promised { D.promised result ≡ recovered (D.seen result) }
    {
        let Journal { file } = self;
        let GatedFile { disk, size: _ } = file;
        disk
    }
}
