//! A file that is read once, from its beginning to its end, before anything is written.
ghost use Rattle.std.specs.Prelude.{◌≡◌, ◌≤◌, ◌<◌, ◌++◌, [], List, ℕ, Option, length, IfOk, IfSome, OnErr};
ghost use Rattle.journal.specs.Disk.{Only, BeginsAsRead, HasCause};

use crate::{Disk, DiskError};
use std::alloc::Global;

/// A file before it is a [`Disk`]: it is read part by part, each byte once. Nothing can be written through it, so a
/// crash meanwhile leaves the file as it was.
pub trait UnreadDisk {
    /// The file, once it was read to its end.
    type Whole: Disk + Drop;

    /// The bytes that were read.
    ghost taken: { Self → List ℕ };

    /// The end of the file was found.
    ghost is_ended: { Self → Type 0 };

    /// What the file holds, where that is known.
    ghost holds: { Self → Option (List ℕ) };

    /// How often the disk has failed.
    ghost faults: { Self → ℕ };

    /// The next bytes, as many as this at most: none only at the end.
    fn read_next(&mut self, alloc: Global, most: usize) -> Result<Vec<u8>, DiskError>
        requires { 0 < most }
        ensures bytes { IfOk result (λ part. taken self.new ≡ taken self.old ++ part.items) }
        ensures few { IfOk result (λ part. length part.items ≤ most) }
        ensures end { IfOk result (λ part. part.items ≡ [] → is_ended self.new) }
        ensures none { OnErr result (taken self.new ≡ taken self.old) }
        ensures known { holds self.new ≡ holds self.old }
        ensures cause { HasCause (faults self.old) (faults self.new) result };

    /// The file, which is on the disk as it was read. Nothing of it was promised.
    fn into_whole(self) -> Self::Whole
        requires { is_ended self }
        ensures seen { Self.Whole.seen result ≡ taken self }
        ensures durable { Only (Self.Whole.seen result) (Self.Whole.may_leave result) }
        ensures promised { Self.Whole.promised result ≡ [] };

    /// What is known of the file is so.
    ghost as_known: { (unread : Self) → IfSome (holds unread) (BeginsAsRead (taken unread) (is_ended unread)) };
}
