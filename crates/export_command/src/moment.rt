//! After which commit of a history tables are asked for.

ghost use Rattle.std.specs.Prelude.{IfOk, IfErr};
ghost use Rattle.export_command.specs.Histories.{IsMost, IsTooEarly};

use crate::fault::{ExportFault, ExportRefusal};
use journal_opening::NoSuchCommit;
use ssb_files::JobFault::Found;

/// After which commit of a history tables are asked for, where some of its commits came before those of a journal.
#[derive(Clone, Copy, Debug, PartialEq, Eq)]
pub struct Moment {
    /// So many came before the first commit of the journal.
    pub past: u64,
    /// The number of the last one, counted from the first of the history; none: the last one of the journal.
    pub at: Option<u64>,
}

impl Moment {
    // How many commits of the journal are made again; none: all.
    pub(crate) fn most(self) -> Result<Option<u64>, ExportFault>
        ensures most { IfOk result (IsMost self.past self.at) }
        ensures fault { IfErr result (IsTooEarly self.past self.at) }
    {
        let Some(number) = self.at else {
            return Ok(None);
        };
        if number < self.past {
            return Err(Found(ExportRefusal::Commit(NoSuchCommit { number })));
        }
        Ok(Some(number - self.past))
    }
}
