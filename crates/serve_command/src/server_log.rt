//! The log of a live server, as a journal reads it.

ghost use Rattle.std.specs.Prelude.{◌≡◌, ◌≤◌, None, Option, Some};
ghost use Rattle.std.specs.Option.{ForSome};
ghost use Rattle.history.specs.Tokens.{TokenRecord};
ghost use Rattle.ssb_journal.specs.Counts.{Begun, IsLeft, KeepsSince, nothing_said};
ghost use Rattle.history_core.specs.Counts.{most_clients};
ghost use Rattle.serve_command.specs.Reading.{IsLater};

use journal::Disk;
use row_store::Commit;
use ssb_journal::{LogSource, SharedJournal};
use ssb_server::{LogReader, Server};
use std::alloc::{AllocError, Global};
use std::marker::{Brand, PhantomData};
use std::sync::Wait;

/// The reader of the log before the sessions, which the one behind the journal's lock stays, and the journal as it was
/// begun. Each call picks them.
pub(crate) trait LogStart {
    ghost reader: { Option TokenRecord };

    ghost begun: { Begun };
}

impl LogStart for Brand {
    ghost reader = { None };

    ghost begun = { nothing_said };
}

/// A server, and the reader of its log.
#[derive(Drop)]
pub(crate) struct ServerLog<'a, W: Wait + Drop, K: LogStart> {
    server: &'a Server<W>,
    reader: LogReader<W>,
    opened: PhantomData<K>,
    ghost of_server: { reader.table ≡ server.now },
    ghost few: { server.now.clients ≤ most_clients },
    ghost later: { ForSome K.reader (λ first. IsLater first reader) },
}

impl<'a, W: Wait + Drop, K: LogStart> ServerLog<'a, W, K> {
    /// The log of a server, by the reader that the call picked.
    pub(crate) fn new(server: &'a Server<W>, reader: LogReader<W>) -> ServerLog<'a, W, K>
        requires table { reader.table ≡ server.now }
        requires few { server.now.clients ≤ most_clients }
        requires picked { K.reader ≡ Some reader }
        ensures { result.reader ≡ reader }
    {
        ServerLog {
            server,
            reader,
            opened: PhantomData,
        }
    }
}

impl<'a, W: Wait + Drop, K: LogStart> LogSource for ServerLog<'a, W, K> {
    ghost log = { λ source. source.reader.seen };

    ghost begun = { K.begun };

    fn commits_from<R: Wait>(
        &mut self,
        rt: &R,
        _alloc: Global,
        taken: u64,
    ) -> Result<Vec<Commit>, AllocError> {
        let commits = self.reader.commits_from(rt, self.server, taken);
        // For the proof: the log is no longer than a number of 64 bits tells, and has commits of the table's clients.
        let _count = self.reader.seen();
        self.reader.soundness();
        commits
    }
}

/// What is left of a journal that sessions shared: its disk, the reader of the log, how many of its commits are on the
/// disk, and whether it was written to the end.
#[derive(Drop)]
pub(crate) struct JournalLeft<D: Disk + Drop, W: Wait + Drop> {
    pub(crate) disk: D,
    pub(crate) reader: LogReader<W>,
    pub(crate) count: u64,
    pub(crate) is_whole: bool,
}

/// What is left of the journal, when no thread shares it any more.
pub(crate) fn left_of<D: Disk + Drop, W: Wait + Drop, R: Wait, K: LogStart>(
    rt: &R,
    journal: SharedJournal<D, ServerLog<'_, W, K>>,
) -> JournalLeft<D, W>
    ensures later { ForSome K.reader (λ first. IsLater first result.reader) }
    ensures left { IsLeft (D.may_leave result.disk) (D.seen result.disk) result.count result.reader.seen result.is_whole }
    ensures since { KeepsSince K.begun (D.moment result.disk) (D.left_since result.disk) result.count result.reader.seen }
{
    let (disk, source, count, is_whole) = journal.into_left(rt).into_parts();
    JournalLeft {
        disk,
        reader: source.reader,
        count,
        is_whole,
    }
}
