//! Where the commits of a journal come from.
ghost use Rattle.std.specs.Prelude.{◌≡◌, ◌<◌, ◌≤◌, ◌^◌, List, length, drop, IfOk};
ghost use Rattle.std.specs.List.{AllByRecursion};
ghost use Rattle.row_store.specs.History.{CommitRecord, IsPrefix};
ghost use Rattle.ssb_trace.specs.Allowed.{IsClient};
ghost use Rattle.ssb_journal.specs.Counts.{Begun};

use row_store::Commit;
use std::alloc::{AllocError, Global};
use std::sync::Wait;

/// The log of a live server, to one who only looks at it.
pub trait LogSource {
    /// The commits that were seen of the log.
    ghost log: { Self → List CommitRecord };

    /// The journal beside it, as it was begun. Each call picks it.
    ghost begun: { Begun };

    /// Looks at the log, and gives the commits behind the first ones, so many of them.
    fn commits_from<R: Wait>(
        &mut self,
        rt: &R,
        alloc: Global,
        taken: u64,
    ) -> Result<Vec<Commit>, AllocError>
        requires { taken ≤ length (log self.old) }
        ensures grown { IsPrefix (log self.old) (log self.new) }
        ensures few { length (log self.new) < 2 ^ 64 }
        ensures commits { IfOk result (λ commits. commits.items ≡ drop taken (log self.new)) }
        ensures clients { IfOk result (λ commits. AllByRecursion (λ commit. IsClient commit.client) commits.items) };
}
