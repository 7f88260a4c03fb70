//! Appending behind a closed gate, and mending a file's end.
//!
//! A closed gate stands behind the last group, on the disk before anything is written behind it, and is opened by a
//! write of its own once what is behind it is on the disk.
ghost use Rattle.std.specs.Prelude.{◌≡◌, ◌⊎◌, ◌+◌, ◌<◌, ◌≤◌, ◌^◌, ◌++◌, [], ◌∷◌, List, ℕ, length, IfOk, OnOk, OnErr, IsErrOf};
ghost use Rattle.journal.specs.Disk.{Only, LeavesOnly};
ghost use Rattle.journal.specs.Groups.{recovered, block, blocks, at_rest, behind_gate, IsSettled, IsBeforeOrAfter, IsMending, IsAppending};

use crate::disk::{cut_through, write_through};
use crate::groups::{CLOSED, OPEN, push_head};
use crate::{Disk, DiskError};
use std::alloc::{AllocError, Global};

/// The most bytes that a group may have.
pub const MAX_GROUP: usize = 1 << 49;

const MAX_SIZE: usize = 1 << 60;

/// A disk, and where the closed gate behind its groups stands.
#[derive(Drop)]
pub(crate) struct GatedFile<D: Disk> {
    pub(crate) disk: D,
    pub(crate) size: usize,
}

/// What an append writes behind the gate of a group: its head, the group, and the next closed gate.
pub fn behind_gate(alloc: Global, group: &[u8]) -> Result<Vec<u8>, AllocError>
    ensures { IfOk result (λ bytes. bytes.items ≡ behind_gate group.now) }
{
    let mut bytes = Vec::with_capacity(alloc, group.len().saturating_add(18))?;
    push_head(&mut bytes, group.len())?;
    bytes.extend_from_slice(group)?;
    bytes.push(CLOSED)?;
    Ok(bytes)
}

/// A group behind an open gate and its head, as a reader finds it.
#[tactic(auto, unfolding(crate::specs::Groups::block))]
pub fn open_block(alloc: Global, group: &[u8]) -> Result<Vec<u8>, AllocError>
    ensures { IfOk result (λ bytes. bytes.items ≡ block group.now) }
{
    let mut bytes = Vec::with_capacity(alloc, group.len().saturating_add(18))?;
    bytes.push(OPEN)?;
    push_head(&mut bytes, group.len())?;
    bytes.extend_from_slice(group)?;
    Ok(bytes)
}

impl<D: Disk> GatedFile<D> {
    /// Adds a group. At `Ok` it is on the disk: from then on each crash leaves a file that has it.
    pub(crate) fn append(&mut self, alloc: Global, group: &[u8]) -> Result<(), DiskError>
        requires settled { IsSettled D.seen D.may_leave self.old }
        requires short { length group.now ≤ 2 ^ 49 }

        ensures promised { D.promised self.new.disk ≡ D.promised self.old.disk }
        ensures acknowledged { OnOk result (IsSettled D.seen D.may_leave self.new
            × (recovered (D.seen self.new.disk) ≡ recovered (D.seen self.old.disk) ++ group.now ∷ [])) }

        // A crash at any moment of the call leaves the groups from before it, with the new one whole or without.
        ensures any_moment { LeavesOnly D.moment D.left_since self.old.disk self.new.disk
            (IsBeforeOrAfter (recovered (D.seen self.old.disk)) group.now) }
        ensures torn { LeavesOnly D.moment D.left_since self.old.disk self.new.disk
            (IsAppending (recovered (D.seen self.old.disk)) group.now) }

        // It does not give up by itself.
        ensures failed { IsErrOf result DiskError.Failed → D.faults self.old.disk < D.faults self.new.disk }
        ensures full { IsErrOf result DiskError.Full → 2 ^ 60 ≤ self.old.size }
    {
        if self.size >= MAX_SIZE {
            return Err(DiskError::Full);
        }
        let bytes = behind_gate(alloc, group)?;
        write_through(&mut self.disk, self.size + 1, &bytes)?;
        write_through(&mut self.disk, self.size, &[OPEN])?;
        self.size += bytes.len();
        Ok(())
    }
}

/// Cuts off what stands behind the groups, and writes a closed gate there.
pub(crate) fn repair<D: Disk>(disk: &mut D, end: usize) -> Result<(), DiskError>
    requires end { end ≡ length (blocks (recovered (D.seen disk.old))) }
    requires durable { Only (D.seen disk.old) (D.may_leave disk.old) }
    ensures promised { D.promised disk.new ≡ D.promised disk.old }
    ensures at_rest { OnOk result (D.seen disk.new ≡ at_rest (recovered (D.seen disk.old))) }
    ensures same { OnOk result (recovered (D.seen disk.new) ≡ recovered (D.seen disk.old)) }
    ensures durable { OnOk result (Only (D.seen disk.new) (D.may_leave disk.new)) }
    ensures any_moment { LeavesOnly D.moment D.left_since disk.old disk.new
        (λ c. recovered c ≡ recovered (D.seen disk.old)) }
    ensures torn { LeavesOnly D.moment D.left_since disk.old disk.new (IsMending (D.seen disk.old)) }
    ensures later { D.faults disk.old ≤ D.faults disk.new }
    ensures failed { IsErrOf result DiskError.Failed → D.faults disk.old < D.faults disk.new }
    ensures full { IsErrOf result DiskError.Full → ⊥ }
{
    // The cut has to be on the disk first: behind a gate that is torn open, what was there would count.
    cut_through(disk, end)?;
    write_through(disk, end, &[CLOSED])?;
    Ok(())
}
