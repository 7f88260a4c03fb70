//! How many commits came before those of a server's log.

ghost use Rattle.std.specs.Prelude.{◌≡◌, ◌≤◌, ◌+◌, ◌↔◌, IsSome, IfSome};

/// The most commits that may have come before: 2^62. With those of a log they fit a `u64`.
pub const MOST_PAST: u64 = 4_611_686_018_427_387_904;

/// How many commits came before the first of a server's log: as many as the tables are after with which the server
/// began. Clients are told numbers that count these too.
#[derive(Clone, Copy, Debug, PartialEq, Eq)]
pub struct Past {
    /// At most 2^62.
    pub commits: u64,
    ghost few: { commits ≤ 4611686018427387904 },
}

impl Past {
    ghost use Rattle.ssb_base.specs.Limits.{most_commits};
    ghost use Rattle.stream_sessions.specs.WithPast.{most_past};

    /// None came before.
    pub fn none() -> Past
        ensures { result.commits ≡ 0 }
    {
        Past { commits: 0 }
    }

    /// So many came before; `None` for more than 2^62.
    pub fn new(commits: u64) -> Option<Past>
        ensures given { IsSome result ↔ (commits ≤ most_past) }
        ensures value { IfSome result (λ past. past.commits ≡ commits) }
    {
        if commits > MOST_PAST {
            return None;
        }
        Some(Past { commits })
    }

    /// So many commits of the log, with those that came before.
    pub(crate) fn with(self, commits: u64) -> u64
        requires { commits ≤ most_commits }
        ensures { result ≡ self.commits + commits }
    {
        self.commits + commits
    }
}
