//! A disk in memory before it is one: its file is read in small parts.
ghost use Rattle.std.specs.Prelude.{◌≡◌, ◌≤◌, Some, length, take, true, IfOk};
ghost use Rattle.journal_tests.specs.TearingDisks.{disk_bytes, IsFresh, IsOnDisk};

use crate::TearingDisk;
use journal::{DiskError, UnreadDisk};
use std::alloc::{AllocError, Global};

// So few bytes come at once that the heads of groups are cut at each place.
const FEW: usize = 7;

/// A file in memory that is read in small parts, and then is a disk that tears.
#[derive(Drop)]
pub struct UnreadTearing {
    disk: TearingDisk,
    place: usize,
    is_ended: bool,
    ghost durable: { IsOnDisk disk },
    ghost fresh: { IsFresh disk },
    ghost inside: { place ≤ length (disk_bytes disk) },
    ghost ended: { is_ended ≡ true → place ≡ length (disk_bytes disk) },
}

impl UnreadTearing {
    /// A file with these bytes. One call may be refused, once it was read: the one before which there are so many.
    pub fn new(
        alloc: Global,
        bytes: &[u8],
        refused: Option<usize>,
    ) -> Result<UnreadTearing, AllocError>
        ensures unread { IfOk result (λ file. file.place ≡ 0) }
        ensures bytes { IfOk result (λ file. disk_bytes file.disk ≡ bytes.now) }
    {
        Ok(UnreadTearing {
            disk: TearingDisk::new(alloc, bytes, refused)?,
            place: 0,
            is_ended: false,
        })
    }
}

impl UnreadDisk for UnreadTearing {
    ghost use Rattle.journal_tests.specs.UnreadFiles.{known};

    type Whole = TearingDisk;

    ghost taken = { λ f. take f.place (disk_bytes f.disk) };

    ghost is_ended = { λ f. f.is_ended ≡ true };

    ghost holds = { λ f. Some (disk_bytes f.disk) };

    ghost faults = { λ _. 0 };

    ghost as_known = { λ f. known f.place f.is_ended (disk_bytes f.disk) f.ended };

    fn read_next(&mut self, alloc: Global, most: usize) -> Result<Vec<u8>, DiskError> {
        let part = self.disk.part(alloc, self.place, most.min(FEW))?;
        self.place += part.len();
        self.is_ended = part.is_empty();
        Ok(part)
    }

    fn into_whole(self) -> TearingDisk {
        let UnreadTearing {
            disk,
            place: _,
            is_ended: _,
        } = self;
        disk
    }
}
