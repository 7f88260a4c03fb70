//! Sessions over a server with a journal, from its opening to its end.

ghost use Rattle.std.specs.Prelude.{◌≡◌, ◌+◌, ◌≤◌, ◌++◌, [], ◌∷◌, All, IfOk, IfErr, OnOk};
ghost use Rattle.std.specs.Prelude.{Err, Some, false, length, map, true, vec_len};
ghost use Rattle.journal.specs.Groups.{recovered as recovered_groups, AreTorn};
ghost use Rattle.journal.specs.Disk.{LeavesOnly};
ghost use Rattle.ssb_journal.specs.Counts.{IsLeft, KeepsFirst, KeepsSince};
ghost use Rattle.ssb_journal.specs.Kept.{IsAsItWasOrNew};
ghost use Rattle.ssb_journal.specs.Texts.{IsJournalOf};
ghost use Rattle.ssb_journal.specs.Opening.{IsKept};
ghost use Rattle.history_core.specs.Counts.{most_clients};
ghost use Rattle.ssb_clients.specs.Tickets.{IsOf, IsQuiet};
ghost use Rattle.ssb_serving.specs.Members.{AreStill, IsReady};
ghost use Rattle.ssb_serving.specs.Streams.{AreSpoken, IsClosedWith};
ghost use Rattle.serve_command.specs.Reading.{IsLater};
ghost use Rattle.serve_command.specs.Remade.{AreAtLog};
ghost use Rattle.serve_command.specs.Seated.{AllHaveSeen};
ghost use Rattle.serve_command.specs.JournaledRun.{IsJournaledRun, IsUnservedFault};
ghost use Rattle.serve_command.specs.JournaledRun.{HasKept, IsBegunOn, IsFoundOrKept, KeepsRecovered, begun_on};
ghost use Rattle.serve_command.specs.BegunFiles.{IsTornKept, IsUntouched, KeepsBegun, disk_of};
ghost use Rattle.serve_command.specs.declared.unserved.JournaledFault.TheVariants.{OutOfMemory, Write};

use crate::acknowledging::{Durable, JournalAcknowledger, KeptAlone};
use crate::remade::{RemadeServer, Seats};
use crate::server_log::{JournalLeft, LogStart, ServerLog, left_of};
use crate::unserved::{JournaledFault, UnservedSessions};
use confirmed_commits::{Confirming, Confirms};
use journal::{Disk, Found, Journal, KeepsTorn};
use row_store::Log;
use ssb_journal::laws::{begun_journal_keeps, first_of_log};
use ssb_journal::{JournaledLog, OnDisk, OpenedJournal, SharedJournal, TableMark, begin};
use ssb_server::{Client, Closed, Dispatcher, LogReader, Opened, Server};
use ssb_serving::{EndedThreads, Spoken, serve_opened};
use std::alloc::{AllocError, Global};
use std::marker::Brand;
use std::sync::{Mutex, Wait};
use std::thread::Threads;
use std::time::Clock;
use stream_sessions::{Acknowledges, Service, Speaker, Speaks};

/// What the sessions of a server with a journal leave: what each speaker left, in their order, the log, and the
/// journal's disk with how many commits of the log are on it.
#[derive(Drop)]
pub struct JournaledRun<D: Disk + Drop, L: Drop, T: Drop> {
    pub left: Vec<L>,
    pub log: Log,
    pub disk: D,
    pub count: u64,
    /// Else it could not be written, and the last commits were told to nobody.
    pub was_written: bool,
    /// The evidence that what a crash had torn was kept; without it the disk is as it was found.
    pub torn: Option<T>,
}

// The file of a journal, as the sessions find it.
#[derive(Drop)]
enum BegunFile<D: Disk + Drop> {
    // An open journal: commits are appended to it.
    Open(Journal<D>),
    // It could not be written: what it keeps is read alone.
    ReadOnly(D),
}

impl<D: Disk + Drop> BegunFile<D> {
    fn is_open(&self) -> bool {
        match self {
            BegunFile::Open(_) => true,
            BegunFile::ReadOnly(_) => false,
        }
    }

    fn into_disk(self) -> D
        ensures { result ≡ disk_of self }
    {
        match self {
            BegunFile::Open(journal) => journal.into_disk(),
            BegunFile::ReadOnly(disk) => disk,
        }
    }
}

// The file of a journal that was begun, beside the reader of the log whose first commits it keeps.
#[derive(Drop)]
struct BegunJournal<F: Drop, W: Wait + Drop> {
    file: F,
    reader: LogReader<W>,
    count: u64,
}

// Who takes part in the sessions: clients, each with its speaker, and dispatchers.
#[derive(Drop)]
struct Participants<W: Wait + Drop, S: Drop> {
    clients: Vec<Client<W>>,
    speakers: Vec<S>,
    dispatchers: Vec<Dispatcher<W>>,
}

/// Keeps what a crash has torn of a journal's file, and tells how the journal begins.
pub trait BeginsJournal: KeepsTorn {
    /// Tells that the sessions begin: commits can be appended to the journal, or it is read alone.
    fn tell_begun(&self, is_open: bool);
}

// Keeps what a crash has torn, and begins the journal; and the evidence that it is kept. An `Err` hands the disk back: it
// is as it was found where there is no evidence.
fn begin_file<D, T>(
    alloc: Global,
    marks: &[TableMark],
    found: Found<D>,
    is_new: bool,
    torn: Vec<u8>,
    keeper: &T,
) -> Result<(Journal<D>, T::Kept), (D, Option<T::Kept>)>
where
    D: Disk + Drop,
    T: KeepsTorn,
    T::Kept: Drop,
    requires new { is_new ≡ true → recovered_groups (D.seen found) ≡ [] }
    requires torn { AreTorn (D.seen found) torn.items }
    ensures same { is_new ≡ false → IfOk result (λ begun. recovered_groups (D.seen begun.0)
        ≡ recovered_groups (D.seen found)) }
    ensures made { is_new ≡ true → IfOk result (λ begun. IsJournalOf marks.now [] (D.seen begun.0)) }
    ensures torn { IfOk result (λ begun. AreTorn (D.seen found) (T.bytes begun.1)) }
    ensures promised_err { IfErr result (λ e. D.promised e.0 ≡ recovered_groups (D.seen found)) }
    ensures any_moment { IfOk result (λ begun. LeavesOnly D.moment D.left_since found begun.0
        (IsAsItWasOrNew marks.now (recovered_groups (D.seen found)))) }
    ensures any_moment_err { IfErr result (λ e. LeavesOnly D.moment D.left_since found e.0
        (IsAsItWasOrNew marks.now (recovered_groups (D.seen found)))) }
    ensures torn_err { IfErr result (λ e. IsTornKept T.bytes (D.seen found) (e.0 ≡ found) e.1) }
{
    let Ok(torn) = keeper.keep_torn(torn) else {
        return Err((found.into_disk(), None));
    };
    match begin::<D, T>(alloc, marks, found, is_new, &torn) {
        Ok(journal) => Ok((journal, torn)),
        Err((_, disk)) => Err((disk, Some(torn))),
    }
}

// Keeps what a crash has torn, and begins the journal; and the evidence that it is kept. A journal that was there and
// cannot be written is read alone.
fn begin_again<D, T, W>(
    alloc: Global,
    reader: LogReader<W>,
    marks: &[TableMark],
    opened: OpenedJournal<D>,
    keeper: &T,
) -> Result<(BegunJournal<BegunFile<D>, W>, Option<T::Kept>), UnservedSessions<D, T::Kept>>
where
    D: Disk + Drop,
    T: BeginsJournal,
    T::Kept: Drop,
    W: Wait + Drop,
    requires seen { reader.seen ≡ opened.kept.commits.items }
    requires kept { IsKept marks.now (recovered_groups (D.seen opened.found)) opened.kept }
    requires torn { AreTorn (D.seen opened.found) opened.torn.items }
    ensures reader { IfOk result (λ begun. begun.0.reader ≡ reader) }
    ensures kept { IfOk result (λ begun. KeepsBegun D.may_leave D.seen D.promised begun.0.count begun.0.reader.seen
        begun.0.file) }
    ensures count { IfOk result (λ begun. begun.0.count ≡ length opened.kept.commits.items) }
    ensures any_moment { IfOk result (λ begun. LeavesOnly D.moment D.left_since opened.found (disk_of begun.0.file)
        (IsAsItWasOrNew marks.now (recovered_groups (D.seen opened.found)))) }
    ensures torn { IfOk result (λ begun. IsTornKept T.bytes (D.seen opened.found)
        (begun.0.file ≡ BegunFile.ReadOnly opened.found) begun.1) }
    ensures fault { IfErr result (λ unserved. unserved.fault ≡ Write) }
    ensures any_moment_err { IfErr result (λ unserved. IsFoundOrKept D.moment D.left_since opened.found
        opened.kept.commits.items unserved.disk) }
    ensures torn_err { IfErr result (λ unserved. IsTornKept T.bytes (D.seen opened.found)
        (unserved.disk ≡ opened.found) unserved.torn) }
{
    let OpenedJournal { found, kept, torn } = opened;
    begun_journal_keeps();
    first_of_log();
    let (file, kept_torn) = match begin_file(alloc, marks, found, kept.is_new, torn, keeper) {
        Ok((journal, torn)) => (BegunFile::Open(journal), Some(torn)),
        Err((disk, torn)) => {
            if kept.is_new {
                return Err(UnservedSessions {
                    fault: JournaledFault::Write,
                    disk,
                    torn,
                });
            }
            (BegunFile::ReadOnly(disk), torn)
        },
    };
    keeper.tell_begun(file.is_open());
    let begun = BegunJournal {
        file,
        reader,
        count: kept.count,
    };
    Ok((begun, kept_torn))
}

// The clients of the sessions and those that rested, one after another, and what the speakers left.
fn clients_and_left<W: Wait + Drop, L: Drop>(
    alloc: Global,
    spoken: Vec<Spoken<W, L>>,
    resting: Vec<Client<W>>,
) -> Result<(Vec<Client<W>>, Vec<L>), AllocError>
    ensures clients { IfOk result (λ gathered. gathered.0.items ≡ map (λ one. one.client) spoken.items
        ++ resting.items) }
    ensures left { IfOk result (λ gathered. gathered.1.items ≡ map (λ one. one.left) spoken.items) }
{
    let mut resting = resting;
    let mut clients = Vec::new(alloc);
    let mut all_left = Vec::new(alloc);
    for one in spoken {
        let Spoken { client, left } = one;
        clients.push(client)?;
        all_left.push(left)?;
    }
    clients.append(&mut resting)?;
    Ok((clients, all_left))
}

// Serves the sessions, whose clients are told of commits that the one acknowledges and the other confirms.
fn serve_all<D, W, R, S, K, X>(
    rt: &R,
    alloc: Global,
    server: &Server<W>,
    participants: Participants<W, S>,
    acknowledger: &K,
    confirms: &X,
) -> Result<EndedThreads<W, Spoken<W, S::Left>>, AllocError>
where
    D: Disk + Drop + Send,
    W: Wait + Drop + Send,
    R: Wait + Threads + Sync + Clock,
    X: Confirms<Durable<D>> + Sync,
    X::Told: Send,
    S: Speaks<R, X::Told> + Drop + Send,
    S::Left: Drop + Send,
    K: Acknowledges<Durable<D>> + Sync,
    K::Failure: Send,
    requires clients { All (IsQuiet server.now) participants.clients.items }
    requires dispatchers { All (IsOf server.now) participants.dispatchers.items }
    requires speakers { vec_len participants.clients ≡ vec_len participants.speakers }
    ensures served { IfOk result (λ ended. AreSpoken S.spoken participants.speakers.items participants.clients.items
        (map (λ one. one.client) ended.spoken.items) (map (λ one. one.left) ended.spoken.items)) }
    ensures dispatchers { IfOk result (λ ended. AreStill participants.dispatchers.items ended.dispatchers.items) }
{
    let Participants {
        clients,
        speakers,
        dispatchers,
    } = participants;
    let confirming: Confirming<'_, Durable<D>, K, X> = Confirming::new(acknowledger, confirms);
    let service = Service {
        rt,
        alloc,
        acknowledger: &confirming,
        server,
    };
    serve_opened(&service, clients, dispatchers, speakers)
}

// Serves the sessions behind an open journal; and what is left of that.
fn run_open<D, W, R, S, K, X>(
    rt: &R,
    alloc: Global,
    server: &Server<W>,
    participants: Participants<W, S>,
    begun: BegunJournal<Journal<D>, W>,
    confirms: &X,
) -> (
    Result<EndedThreads<W, Spoken<W, S::Left>>, AllocError>,
    JournalLeft<D, W>,
)
where
    D: Disk + Drop + Send,
    W: Wait + Drop + Send,
    R: Wait + Threads + Sync + Clock,
    X: Confirms<Durable<D>> + Sync,
    X::Told: Send,
    S: Speaks<R, X::Told> + Drop + Send,
    S::Left: Drop + Send,
    K: LogStart + Send + Sync,
    requires clients { All (IsQuiet server.now) participants.clients.items }
    requires dispatchers { All (IsOf server.now) participants.dispatchers.items }
    requires speakers { vec_len participants.clients ≡ vec_len participants.speakers }
    requires few { server.now.clients ≤ most_clients }
    requires reader { begun.reader.table ≡ server.now }
    requires picked { K.reader ≡ Some begun.reader }
    requires begun { IsBegunOn D.moment D.left_since K.begun begun.file begun.count }
    requires kept { KeepsFirst begun.count begun.reader.seen (D.seen begun.file) }
    ensures served { IfOk result.0 (λ ended. AreSpoken S.spoken participants.speakers.items participants.clients.items
        (map (λ one. one.client) ended.spoken.items) (map (λ one. one.left) ended.spoken.items)) }
    ensures dispatchers { IfOk result.0 (λ ended. AreStill participants.dispatchers.items ended.dispatchers.items) }
    ensures reader { IsLater begun.reader result.1.reader }
    ensures left { IsLeft (D.may_leave result.1.disk) (D.seen result.1.disk) result.1.count result.1.reader.seen
        result.1.is_whole }
    ensures since { KeepsSince (begun_on D.moment D.left_since begun.file begun.count) (D.moment result.1.disk)
        (D.left_since result.1.disk) result.1.count result.1.reader.seen }
{
    let BegunJournal {
        file,
        reader,
        count,
    } = begun;
    let source: ServerLog<'_, W, K> = ServerLog::new(server, reader);
    let journaled = JournalAcknowledger {
        journal: SharedJournal::new(JournaledLog::new(file, source, count)),
    };
    let ended = serve_all::<D, W, R, S, JournalAcknowledger<D, ServerLog<'_, W, K>>, X>(
        rt,
        alloc,
        server,
        participants,
        &journaled,
        confirms,
    );
    let JournalAcknowledger { journal } = journaled;
    (ended, left_of(rt, journal))
}

// Serves the sessions behind the file of a journal; and what is left of that. A file that is read alone is as it was.
fn run_sessions<D, W, R, S, K, X>(
    rt: &R,
    alloc: Global,
    server: &Server<W>,
    participants: Participants<W, S>,
    begun: BegunJournal<BegunFile<D>, W>,
    confirms: &X,
) -> (
    Result<EndedThreads<W, Spoken<W, S::Left>>, AllocError>,
    JournalLeft<D, W>,
)
where
    D: Disk + Drop + Send,
    W: Wait + Drop + Send,
    R: Wait + Threads + Sync + Clock,
    X: Confirms<Durable<D>> + Sync,
    X::Told: Send,
    S: Speaks<R, X::Told> + Drop + Send,
    S::Left: Drop + Send,
    K: LogStart + Send + Sync,
    requires clients { All (IsQuiet server.now) participants.clients.items }
    requires dispatchers { All (IsOf server.now) participants.dispatchers.items }
    requires speakers { vec_len participants.clients ≡ vec_len participants.speakers }
    requires few { server.now.clients ≤ most_clients }
    requires reader { begun.reader.table ≡ server.now }
    requires picked { K.reader ≡ Some begun.reader }
    requires begun { IsBegunOn D.moment D.left_since K.begun (disk_of begun.file) begun.count }
    requires kept { KeepsBegun D.may_leave D.seen D.promised begun.count begun.reader.seen begun.file }
    ensures served { IfOk result.0 (λ ended. AreSpoken S.spoken participants.speakers.items participants.clients.items
        (map (λ one. one.client) ended.spoken.items) (map (λ one. one.left) ended.spoken.items)) }
    ensures dispatchers { IfOk result.0 (λ ended. AreStill participants.dispatchers.items ended.dispatchers.items) }
    ensures reader { IsLater begun.reader result.1.reader }
    ensures left { IsLeft (D.may_leave result.1.disk) (D.seen result.1.disk) result.1.count result.1.reader.seen
        result.1.is_whole }
    ensures since { KeepsSince (begun_on D.moment D.left_since (disk_of begun.file) begun.count)
        (D.moment result.1.disk) (D.left_since result.1.disk) result.1.count result.1.reader.seen }
    ensures untouched { IsUntouched begun.file result.1.disk }
{
    let BegunJournal {
        file,
        reader,
        count,
    } = begun;
    match file {
        BegunFile::Open(journal) => {
            let open = BegunJournal {
                file: journal,
                reader,
                count,
            };
            run_open::<D, W, R, S, K, X>(rt, alloc, server, participants, open, confirms)
        },
        BegunFile::ReadOnly(disk) => {
            let alone = KeptAlone {
                on_disk: Mutex::new(OnDisk::of(&disk, count)),
            };
            let ended = serve_all::<D, W, R, S, KeptAlone<D>, X>(
                rt,
                alloc,
                server,
                participants,
                &alone,
                confirms,
            );
            let left = JournalLeft {
                disk,
                reader,
                count,
                is_whole: false,
            };
            (ended, left)
        },
    }
}

// The log of a server that is closed with all who took part.
fn log_of<W: Wait + Drop>(
    server: Server<W>,
    clients: Vec<Client<W>>,
    reader: LogReader<W>,
    dispatchers: Vec<Dispatcher<W>>,
) -> Log
    requires { IsReady server clients.items (dispatchers.items ++ reader ∷ []) }
    ensures { IsClosedWith server clients.items (dispatchers.items ++ reader ∷ []) result }
{
    let closing = Opened {
        server,
        clients,
        dispatchers,
        reader: Some(reader),
    };
    let Ok(Closed { base: _, log }) = closing.close() else {
        unreachable!()
    };
    log
}

// Closes the server with all who took part.
fn close_run<D: Disk + Drop, W: Wait + Drop, L: Drop, T: Drop>(
    alloc: Global,
    server: Server<W>,
    ended: EndedThreads<W, Spoken<W, L>>,
    resting: Vec<Client<W>>,
    left_journal: JournalLeft<D, W>,
    torn: Option<T>,
) -> Result<JournaledRun<D, L, T>, UnservedSessions<D, T>>
    requires { IsReady server (map (λ one. one.client) ended.spoken.items ++ resting.items)
        (ended.dispatchers.items ++ left_journal.reader ∷ []) }
    ensures left { IfOk result (λ run. run.left.items ≡ map (λ one. one.left) ended.spoken.items) }
    ensures closed { IfOk result (λ run. IsClosedWith server (map (λ one. one.client) ended.spoken.items
        ++ resting.items) (ended.dispatchers.items ++ left_journal.reader ∷ []) run.log) }
    ensures journal { IfOk result (λ run. (run.disk ≡ left_journal.disk) × (run.count ≡ left_journal.count)
        × (run.was_written ≡ left_journal.is_whole) × (run.torn ≡ torn)) }
    ensures handed { IfErr result (λ unserved. unserved
        ≡ record { fault = OutOfMemory; disk = left_journal.disk; torn = torn }) }
{
    let EndedThreads {
        spoken,
        dispatchers,
    } = ended;
    let JournalLeft {
        disk,
        reader,
        count,
        is_whole,
    } = left_journal;
    match clients_and_left(alloc, spoken, resting) {
        Ok((clients, left)) => Ok(JournaledRun {
            left,
            log: log_of(server, clients, reader, dispatchers),
            disk,
            count,
            was_written: is_whole,
            torn,
        }),
        Err(_) => Err(UnservedSessions {
            fault: JournaledFault::OutOfMemory,
            disk,
            torn,
        }),
    }
}

// Whether none was told of more commits than are on the disk.
fn all_are_kept<W: Wait + Drop, S: Speaker>(spoken: &[Spoken<W, S::Left>], count: u64) -> bool
where
    S::Left: Drop,
    ensures { result ≡ true → All (λ one. S.told one.left ≤ count) spoken.now }
{
    for one in spoken {
        if S::commits_told(&one.left) > count {
            return false;
        }
    }
    true
}

/// Serves 1 to 16 clients, one for each speaker, by a server whose log is the commits of a journal's file; each client
/// and each dispatcher in a thread of its own. What a crash has torn of the file is kept, and the journal is begun. What
/// is told to a client is on the disk before, and confirmed. It waits until all of them have ended.
///
/// Where the file of a journal that was there cannot be written, what it keeps is served, and no refresh is taken. A new
/// journal that could not be begun is `Write`. An `Err` hands the disk back.
pub fn run_journaled<D, T, W, R, S, X>(
    rt: &R,
    alloc: Global,
    remade: RemadeServer<'_, W, D>,
    speakers: Vec<S>,
    keeper: &T,
    confirms: &X,
) -> Result<JournaledRun<D, S::Left, T::Kept>, UnservedSessions<D, T::Kept>>
where
    D: Disk + Drop + Send,
    T: BeginsJournal,
    T::Kept: Drop,
    W: Wait + Drop + Send,
    R: Wait + Threads + Sync + Clock,
    X: Confirms<Durable<D>> + Sync,
    X::Told: Send,
    S: Speaks<R, X::Told> + Drop + Send,
    S::Left: Drop + Send,
    requires few { vec_len speakers ≤ most_clients }
    requires full { remade.server.clients ≡ most_clients }
    requires at_log { AreAtLog remade.server remade.opened.kept.commits.items remade.seats.clients.items
        remade.seats.reader remade.seats.dispatchers.items }
    requires shown { AllHaveSeen remade.opened.kept.commits.items remade.seats.clients.items }
    requires kept { IsKept remade.marks.now (recovered_groups (D.seen remade.opened.found)) remade.opened.kept }
    requires torn { AreTorn (D.seen remade.opened.found) remade.opened.torn.items }
    ensures served { IfOk result (λ run. IsJournaledRun S.spoken remade.entry.server.base
        remade.entry.opened.kept.commits.items speakers.items remade.entry.server.dispatchers run.left.items run.log) }
    // A crash at any moment of the run leaves the first commits of the log, all that were recovered among them.
    ensures any_moment { IfOk result (λ run. LeavesOnly D.moment D.left_since remade.entry.opened.found run.disk
        (KeepsRecovered remade.entry.opened.kept.commits.items run.log)) }
    // Whatever crashes from now on leaves the first commits of the log, at least so many, ..
    ensures kept { IfOk result (λ run. IsLeft (D.may_leave run.disk) (D.seen run.disk) run.count run.log
        run.was_written) }
    // .. and no client was told of more.
    ensures told { IfOk result (λ run. All (λ left. S.told left ≤ run.count) run.left.items) }
    ensures left { IfOk result (λ run. vec_len run.left ≡ vec_len speakers) }
    // The keeper has kept what a crash had torn, or the disk is as it was found; so also where it ends with an `Err`.
    ensures torn { IfOk result (λ run. IsTornKept T.bytes (D.seen remade.entry.opened.found)
        (run.disk ≡ remade.entry.opened.found) run.torn) }
    ensures torn_err { IfErr result (λ unserved. IsTornKept T.bytes (D.seen remade.entry.opened.found)
        (unserved.disk ≡ remade.entry.opened.found) unserved.torn) }
    ensures fault { IfErr result (λ unserved. IsUnservedFault unserved.fault) }
    // It is as it was found, or a crash at any moment of the run leaves all that was recovered.
    ensures any_moment_err { IfErr result (λ unserved. IsFoundOrKept D.moment D.left_since remade.entry.opened.found
        remade.entry.opened.kept.commits.items unserved.disk) }
{
    let RemadeServer {
        server,
        seats,
        marks,
        opened,
    } = remade;
    let Seats {
        mut clients,
        reader,
        dispatchers,
    } = seats;
    let (begun, torn) = begin_again(alloc, reader, marks, opened, keeper)?;
    first_of_log();
    let Ok(resting) = clients.split_off(speakers.len()) else {
        return Err(UnservedSessions {
            fault: JournaledFault::OutOfMemory,
            disk: begun.file.into_disk(),
            torn,
        });
    };
    let participants = Participants {
        clients,
        speakers,
        dispatchers,
    };
    let (ended, left) = run_sessions::<D, W, R, S, Brand, X>(
        rt,
        alloc,
        &server,
        participants,
        begun,
        confirms,
    );
    let Ok(ended) = ended else {
        return Err(UnservedSessions {
            fault: JournaledFault::OutOfMemory,
            disk: left.disk,
            torn,
        });
    };
    if !all_are_kept::<W, S>(&ended.spoken, left.count) {
        return Err(UnservedSessions {
            fault: JournaledFault::Disturbed,
            disk: left.disk,
            torn,
        });
    }
    let closed = close_run(alloc, server, ended, resting, left, torn)?;
    Ok(closed)
}
