//! A disk in memory that a crash may tear: it keeps its calls, so that what a crash leaves can be made of them.
ghost use Rattle.std.specs.Prelude.{◌≡◌, ◌≤◌, length, take, drop, IfOk};
ghost use Rattle.journal.specs.Calls.{Keeps, seen_after, left_after, left_during, failures, counts, only};
ghost use Rattle.journal.proofs.CallLaws.{may_be_read, still_left};
ghost use Rattle.journal_tests.specs.DiskCalls.{calls_of, promised_in};

use crate::tearing::{Dice, tear, write_over};
use ghost_list::GhostList;
use journal::{Disk, DiskError};
use std::alloc::{AllocError, Global};
use std::collections::LinkedList;

/// A call of a disk, and whether it succeeded.
#[derive(Drop)]
pub enum DiskCall {
    Write {
        at: usize,
        bytes: Vec<u8>,
        is_done: bool,
    },
    Cut {
        len: usize,
        is_done: bool,
    },
    Sync {
        is_done: bool,
    },
}

/// A disk in memory.
#[derive(Drop)]
pub struct TearingDisk {
    alloc: Global,
    /// What a read returns.
    bytes: Vec<u8>,
    first: Vec<u8>,
    /// The newest first.
    calls: LinkedList<DiskCall>,
    /// The call before which there are so many is refused, and none after it.
    refused: Option<usize>,
    // What a read returned when it was promised last. No memory holds it.
    promised: GhostList<Vec<u8>>,
    ghost same: { bytes.items ≡ seen_after (calls_of first.items calls) },
    ghost kept: { Keeps (calls_of first.items calls) (promised_in promised.items) },
}

impl TearingDisk {
    ghost use Rattle.journal_tests.specs.TearingDisks.{disk_bytes, IsFresh, IsOnDisk};

    /// A file with these bytes, all of them on the disk. One call may be refused, the one before which there are so
    /// many.
    pub fn new(
        alloc: Global,
        bytes: &[u8],
        refused: Option<usize>,
    ) -> Result<TearingDisk, AllocError>
        ensures bytes { IfOk result (λ disk. disk_bytes disk ≡ bytes.now) }
        ensures durable { IfOk result IsOnDisk }
        ensures fresh { IfOk result IsFresh }
    {
        Ok(TearingDisk {
            alloc,
            bytes: Vec::from_slice(alloc, bytes)?,
            first: Vec::from_slice(alloc, bytes)?,
            calls: LinkedList::new(alloc),
            refused,
            promised: GhostList::new(),
        })
    }

    // The bytes from a place on, so many at most.
    pub(crate) fn part(
        &self,
        alloc: Global,
        place: usize,
        most: usize,
    ) -> Result<Vec<u8>, AllocError>
        requires { place ≤ length (disk_bytes self.now) }
        ensures part { IfOk result (λ part. part.items ≡ take most (drop place (disk_bytes self.now))) }
    {
        let rest = &self.bytes[place..];
        rest[..most.min(rest.len())].to_vec(alloc)
    }

    /// How many writes, cuts and syncs there were.
    pub fn calls(&self) -> usize {
        self.calls.len()
    }

    fn refuses(&self) -> bool {
        self.refused == Some(self.calls.len())
    }

    // How many of the calls that have begun come before the end of the last sync.
    fn synced(&self, begun: usize) -> usize {
        let mut synced = 0;
        for (before, call) in self.calls.iter().rev().take(begun).enumerate() {
            if matches!(call, DiskCall::Sync { is_done: true }) {
                synced = before + 1;
            }
        }
        synced
    }

    /// What a crash may leave once so many calls have begun, drawn by a seed. No clause says what it makes.
    pub fn crashed(&self, begun: usize, seed: u64) -> Result<Vec<u8>, AllocError> {
        let mut dice = Dice::new(seed);
        let synced = self.synced(begun);
        let mut left = self.first.clone()?;
        for (before, call) in self.calls.iter().rev().take(begun).enumerate() {
            match call {
                DiskCall::Write { at, bytes, is_done } => {
                    if before >= synced {
                        tear(&mut left, *at, bytes, &mut dice)?;
                    } else if *is_done {
                        write_over(&mut left, *at, bytes)?;
                    }
                },
                DiskCall::Cut { len, is_done } => {
                    if before >= synced {
                        left.truncate(len.saturating_add(dice.roll(3)));
                    } else if *is_done {
                        left.truncate(*len);
                    }
                },
                DiskCall::Sync { is_done: _ } => {},
            }
        }
        Ok(left)
    }
}

impl Disk for TearingDisk {
    ghost seen = { λ d. seen_after (calls_of d.first.items d.calls) };

    ghost may_leave = { λ d. left_after (calls_of d.first.items d.calls) };

    ghost moment = { λ d. length (calls_of d.first.items d.calls) };

    ghost left_since = { λ d. left_during (calls_of d.first.items d.calls) };

    ghost promised = { λ d. promised_in d.promised.items };

    ghost faults = { λ d. failures (calls_of d.first.items d.calls) };

    ghost counts_now = { λ d. counts (calls_of d.first.items d.calls) };

    ghost only_now = { λ d. only (calls_of d.first.items d.calls) };

    ghost leaves = { λ d. may_be_read (calls_of d.first.items d.calls) (promised_in d.promised.items) d.kept };

    ghost keeps = { λ d. still_left (calls_of d.first.items d.calls) (promised_in d.promised.items) d.kept };

    fn promise(&mut self, _count: u64) {
        let mut promised = GhostList::new();
        promised.push(&self.bytes);
        self.promised = promised;
    }

    fn write_at(&mut self, at: usize, bytes: &[u8]) -> Result<(), DiskError> {
        if self.refuses() {
            self.calls.push_front(DiskCall::Write {
                at,
                bytes: Vec::from_slice(self.alloc, bytes)?,
                is_done: false,
            })?;
            return Err(DiskError::Failed);
        }
        let mut next = Vec::from_slice(self.alloc, &self.bytes[..at])?;
        next.extend_from_slice(bytes)?;
        if bytes.len() < self.bytes.len() - at {
            next.extend_from_slice(&self.bytes[at + bytes.len()..])?;
        }
        self.calls.push_front(DiskCall::Write {
            at,
            bytes: Vec::from_slice(self.alloc, bytes)?,
            is_done: true,
        })?;
        self.bytes = next;
        Ok(())
    }

    fn cut(&mut self, len: usize) -> Result<(), DiskError> {
        if self.refuses() {
            self.calls.push_front(DiskCall::Cut {
                len,
                is_done: false,
            })?;
            return Err(DiskError::Failed);
        }
        self.calls.push_front(DiskCall::Cut { len, is_done: true })?;
        self.bytes.truncate(len);
        Ok(())
    }

    fn sync(&mut self) -> Result<(), DiskError> {
        if self.refuses() {
            self.calls.push_front(DiskCall::Sync { is_done: false })?;
            return Err(DiskError::Failed);
        }
        self.calls.push_front(DiskCall::Sync { is_done: true })?;
        Ok(())
    }
}
