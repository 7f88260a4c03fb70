//! The commits of a journal, made again over the tables.
ghost use Rattle.std.specs.Prelude.{◌≡◌, ◌++◌, IfErr, OnOk};
ghost use Rattle.ssb_journal.specs.Replays.{not_applied, IsReplayFault};
ghost use Rattle.ssb_journal.specs.declared.replaying.ReplayFault.TheVariants.{OutOfMemory};

use row_store::{ApplyError, Cause, Commit, Refusal, RowStore};
use std::alloc::AllocError;
use std::sync::Arc;
use thiserror::Error;

/// Why the commits of a journal are no history over the tables. Its text is its number, its name and its values.
#[derive(Clone, Copy, Debug, PartialEq, Eq, Error)]
pub enum ReplayFault {
    /// The refresh of this commit, counted from 1, is refused after the commits before it, for the cause of this
    /// action.
    #[error("92 Refused {number} action {action}: {cause}")]
    Refused {
        number: u64,
        action: u32,
        cause: Cause,
    },
    /// Memory ran out.
    #[error("out of memory")]
    OutOfMemory,
}

impl From<AllocError> for ReplayFault {
    ghost from_gives = { λ _ e. e ≡ OutOfMemory };

    fn from(_e: AllocError) -> ReplayFault {
        ReplayFault::OutOfMemory
    }
}

// What is told where the refresh of a commit, counted from 1, is not applied.
fn fault_of(number: u64, error: ApplyError) -> ReplayFault
    ensures { result ≡ not_applied number error }
{
    match error {
        ApplyError::Refused(Refusal { action, cause }) => ReplayFault::Refused {
            number,
            action,
            cause,
        },
        ApplyError::OutOfMemory => ReplayFault::OutOfMemory,
    }
}

/// Makes more commits of a journal again, behind those that a row store has; else the first that is refused is told, of
/// all of them. The commits before that one were made.
pub fn replay(store: &mut RowStore, commits: &[Commit]) -> Result<(), ReplayFault>
    ensures store { OnOk result (store.new ≡ record { base = store.old.base; log = store.old.log ++ commits.now }) }
    ensures base { store.new.base ≡ store.old.base }
    ensures fault { IfErr result (IsReplayFault store.old.base (store.old.log ++ commits.now)) }
{
    for commit in commits {
        store.soundness();
        let refresh = Arc::try_clone(&commit.refresh)?;
        match store.apply(commit.client, refresh) {
            Ok(_) => {},
            Err(error) => return Err(fault_of(store.len() as u64 + 1, error)),
        }
    }
    Ok(())
}
