//! Which changes of a history are asked for, and how.

ghost use Rattle.std.specs.Prelude.{◌≡◌, ◌≤◌, ◌+◌, ◌↔◌, IsSome, IfSome, OnOk, IfErr};

use crate::fault::{ChangesFault, ChangesRefusal};
use crate::format::ChangesFormat;
use crate::signed::ChangesStart;
use journal_opening::NoSuchCommit;
use ssb_files::JobFault::Found;

/// The most commits that may have come before: 2^62. With those of a journal they fit a `u64`.
const MOST_PAST: u64 = 4_611_686_018_427_387_904;

/// Which changes of a history are asked for, and how, where some of its commits came before those of a journal. Commits have
/// their numbers among all of them.
#[derive(Clone, Copy, Debug, PartialEq, Eq)]
pub struct AskedChanges {
    /// So many came before the first commit of the journal; at most 2^62.
    pub past: u64,
    /// From where on the changes are asked for.
    pub start: ChangesStart,
    /// How they are written.
    pub format: ChangesFormat,
    ghost few: { past ≤ 4611686018427387904 },
}

impl AskedChanges {
    ghost use Rattle.ssb_base.specs.Limits.{most_commits};
    ghost use Rattle.changes_command.specs.Signed.{most_past};
    ghost use Rattle.changes_command.specs.Written.{BeginsBehind, IsTooEarly};

    /// So many came before; `None` for more than 2^62.
    pub fn new(past: u64, start: ChangesStart, format: ChangesFormat) -> Option<AskedChanges>
        ensures given { IsSome result ↔ (past ≤ most_past) }
        ensures past { IfSome result (λ asked. asked.past ≡ past) }
        ensures start { IfSome result (λ asked. asked.start ≡ start) }
        ensures format { IfSome result (λ asked. asked.format ≡ format) }
    {
        if past > MOST_PAST {
            return None;
        }
        Some(AskedChanges {
            past,
            start,
            format,
        })
    }

    /// Of a journal with which the history begins: none came before.
    pub fn of_journal(start: ChangesStart, format: ChangesFormat) -> AskedChanges
        ensures past { result.past ≡ 0 }
        ensures start { result.start ≡ start }
        ensures format { result.format ≡ format }
    {
        AskedChanges {
            past: 0,
            start,
            format,
        }
    }

    /// So many commits of the journal, with those that came before.
    pub(crate) fn with(self, commits: u64) -> u64
        requires { commits ≤ most_commits }
        ensures { result ≡ self.past + commits }
    {
        self.past + commits
    }

    /// Whether no commit is asked for that came before.
    pub(crate) fn check_begins(self) -> Result<(), ChangesFault>
        ensures begins { OnOk result (BeginsBehind self.past self.start) }
        ensures fault { IfErr result (IsTooEarly self.past self.start) }
    {
        match self.start {
            ChangesStart::Behind(number) if number < self.past => {
                Err(Found(ChangesRefusal::Commit(NoSuchCommit { number })))
            }
            _ => Ok(()),
        }
    }
}
