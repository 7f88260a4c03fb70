//! A file that another process writes while it is read.
ghost use Rattle.std.specs.Prelude.{◌≡◌, ◌≤◌, ◌<◌, ◌++◌, List, ℕ, Option, length, take, IfOk, IfSome, OnOk, OnErr};
ghost use Rattle.journal.specs.Disk.{BeginsAsRead};
ghost use Rattle.journal.specs.Groups.{blocks, recovered};
ghost use Rattle.journal.specs.Promises.{AreLeft};

use crate::DiskError;
use std::alloc::Global;

/// A file that another process writes while it is read. It is read front to back, and synced by the reader's own
/// handle: what is synced was read, and no crash takes it away.
pub trait GrowingFile {
    /// What was read of it, front to back: each byte as it was read last.
    ghost seen: { Self → List ℕ };

    /// What a crash may leave, at this moment or later.
    ghost may_leave: { Self → List ℕ → Type 0 };

    /// The end of the file was found behind what was read.
    ghost is_ended: { Self → Type 0 };

    /// What the file holds, where that is known and does not change.
    ghost holds: { Self → Option (List ℕ) };

    /// Reads once more what stands behind the groups that were read: so many bytes at most, and fewer only at the end.
    fn read_behind(&mut self, alloc: Global, at: usize, most: usize) -> Result<Vec<u8>, DiskError>
        requires { at ≡ length (blocks (recovered (seen self.old))) }
        ensures seen { IfOk result (λ bytes. seen self.new ≡ take at (seen self.old) ++ bytes.items) }
        ensures few { IfOk result (λ bytes. length bytes.items ≤ most) }
        ensures end { IfOk result (λ bytes. length bytes.items < most → is_ended self.new) }
        ensures none { OnErr result (seen self.new ≡ seen self.old) }
        ensures crash { (c : List ℕ) → may_leave self.new c → may_leave self.old c }
        ensures known { holds self.new ≡ holds self.old };

    /// After it, no crash takes away the groups that were read.
    fn sync(&mut self) -> Result<(), DiskError>
        ensures durable { OnOk result (AreLeft (recovered (seen self.old)) (may_leave self.new)) }
        ensures seen { seen self.new ≡ seen self.old }
        ensures ended { is_ended self.old → is_ended self.new }
        ensures crash { (c : List ℕ) → may_leave self.new c → may_leave self.old c }
        ensures known { holds self.new ≡ holds self.old };

    /// What is known of the file is so.
    ghost as_known: { (file : Self) → IfSome (holds file) (BeginsAsRead (seen file) (is_ended file)) };
}
