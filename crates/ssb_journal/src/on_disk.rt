//! The evidence that so many commits are on the disk.
ghost use Rattle.std.specs.Prelude.{◌≡◌, ◌<◌, ◌≤◌, MatchOption};
ghost use Rattle.ssb_journal.specs.Counts.{HaveAtLeast};

use journal::Disk;
use std::marker::PhantomData;

/// The evidence that a disk of this type has promised the first commits, so many of them: whatever crashes from then on
/// leaves them. It is made of a disk that has promised them, and of nothing else. Where the type of the disk is a
/// parameter, and one disk of it was given, the evidence is of that disk: there is no other.
#[derive(Drop)]
pub struct OnDisk<D> {
    commits: u64,
    of: PhantomData<D>,
}

impl<D: Disk> OnDisk<D> {
    /// The evidence of a disk that has promised so many commits.
    pub fn of(disk: &D, commits: u64) -> OnDisk<D>
        requires { HaveAtLeast commits (D.promised disk.now) }
        ensures { result.commits ≡ commits }
    {
        let _evidence = disk;
        OnDisk {
            commits,
            of: PhantomData,
        }
    }

    /// The same evidence, for another who needs so many commits; none where they are more.
    pub fn of_first(&self, commits: u64) -> Option<OnDisk<D>>
        ensures { MatchOption result (self.now.commits < commits)
            (λ same. (same.commits ≡ self.now.commits) × (commits ≤ same.commits)) }
    {
        if self.commits < commits {
            return None;
        }
        Some(OnDisk {
            commits: self.commits,
            of: PhantomData,
        })
    }

    /// How many commits.
    pub fn commits(&self) -> u64
        ensures { result ≡ self.now.commits }
    {
        self.commits
    }
}
