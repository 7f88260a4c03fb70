//! A journal's file, from its opening to the sessions that go on from its commits.

ghost use Rattle.std.specs.Prelude.{◌≡◌, ◌≢◌, ◌⊎◌, ◌≤◌, [], All, IfOk, IfErr, OnOk, vec_len};
ghost use Rattle.journal_opening.specs.declared.start.JournalStart.TheVariants.{Begins};
ghost use Rattle.serve_command.specs.Journals.{GoesOnFrom, KeepsNone, RefusesFile};
ghost use Rattle.serve_command.specs.LeftFiles.{IsLeftFile, KeepsFound, KeepsLog, KeepsTornBytes};
ghost use Rattle.serve_command.specs.Status.{refusal_status, serving_status};
ghost use Rattle.ssb_journal.specs.Counts.{IsLeft};
ghost use Rattle.history_core.specs.Counts.{most_clients};

use crate::acknowledging::Durable;
use crate::fault::{ServeFault, ServeRefusal};
use crate::journaled_run::{BeginsJournal, JournaledRun, run_journaled};
use crate::left_file::{LeftFile, UnservedFile, UnservedSource};
use crate::ready::{ReadyLine, tell_ready};
use crate::remade::remake_journal;
use crate::unserved::UnservedSessions;
use confirmed_commits::Confirms;
use journal::{KeepsTorn, UnreadDisk};
use journal_opening::{OpeningFault, OpensJournal, StartedJournal, tell_form};
use ssb_files::TableBytes;
use ssb_journal::TableMark;
use ssb_server::Loaded;
use std::alloc::Global;
use std::io;
use std::io::{Print, Write};
use std::sync::Wait;
use std::thread::Threads;
use std::time::Clock;
use stream_sessions::Speaks;

/// Where the journal is, what has to be of its commits before clients are told of them, and what is told of it.
#[derive(Drop)]
pub struct JournalPlace<'a, P, X> {
    pub file: &'a P,
    /// What has to be of commits that are on the disk.
    pub confirms: &'a X,
    /// The bytes of the tables, which are counted while these are loaded.
    pub bytes: &'a TableBytes,
    /// Whether it is told how many commits the journal has.
    pub tells: bool,
}

/// A loaded base, and a journal's file over its tables, of which nothing was read.
#[derive(Drop)]
pub struct JournalSource<'a, U: UnreadDisk + Drop> {
    pub loaded: Loaded,
    /// By what the journal's head knows the tables.
    pub marks: &'a [TableMark],
    pub file: U,
    /// What is told when the server is ready, if anything is.
    pub ready: Option<ReadyLine>,
}

// Keeps what a crash has torn beside the journal, and tells how many commits it has, and that the server is ready.
#[derive(Drop)]
struct TornKeeper<'a, P: KeepsTorn, E: Print> {
    file: &'a P,
    tells: bool,
    commits: u64,
    ready: Option<ReadyLine>,
    screen: &'a E,
}

impl<'a, P: KeepsTorn, E: Print> KeepsTorn for TornKeeper<'a, P, E> {
    type Kept = P::Kept;

    ghost bytes = { P.bytes };

    fn keep_torn(&self, torn: Vec<u8>) -> io::Result<P::Kept> {
        let bytes = torn.len();
        let kept = self.file.keep_torn(torn)?;
        if self.tells {
            let mut screen = io::writer(self.screen);
            let commits = self.commits;
            let _ = match bytes {
                0 => writeln!(screen, "ssb_live: journal: {commits} commits"),
                cut => writeln!(
                    screen,
                    "ssb_live: journal: {commits} commits, {cut} bytes cut off"
                ),
            };
        }
        Ok(kept)
    }
}

impl<'a, P: KeepsTorn, E: Print> BeginsJournal for TornKeeper<'a, P, E> {
    fn tell_begun(&self, is_open: bool) {
        if !is_open {
            let commits = self.commits;
            let mut screen = io::writer(self.screen);
            let _ = writeln!(
                screen,
                "ssb_live: journal: {commits} commits, read only: it cannot be written"
            );
        }
        tell_ready(self.ready, self.screen);
    }
}

/// Serves clients at once, one for each speaker, by 1 to 4 dispatchers over a loaded base, behind the commits of a
/// journal's file that was just opened; where the journal begins, it has none. All of it is read before anything is
/// written; what a crash has torn is kept at the place before it is cut off. An `Err` hands the file back.
pub fn run_source<R, P, X, U, S, E>(
    rt: &R,
    dispatchers: u32,
    place: &JournalPlace<'_, P, X>,
    source: JournalSource<'_, U>,
    speakers: Vec<S>,
    screen: &E,
) -> Result<JournaledRun<U::Whole, S::Left, P::Kept>, UnservedSource<U, U::Whole, P::Kept>>
where
    R: Threads + Sync + Wait + Clock + AllocGlobal,
    P: OpensJournal + KeepsTorn,
    P::Kept: Drop,
    U: UnreadDisk + Drop,
    U::Whole: Send,
    X: Confirms<Durable<U::Whole>> + Sync,
    X::Told: Send,
    S: Speaks<R, X::Told> + Drop + Send,
    S::Left: Drop + Send,
    E: Print,
    requires unread { U.taken source.file ≡ [] }
    requires few { vec_len speakers ≤ most_clients }
    ensures served { IfOk result (λ run. GoesOnFrom S.spoken (U.holds source.entry.file) source.entry.loaded
        source.entry.marks.now speakers.items dispatchers run.left.items run.log) }
    ensures begun { OnOk result (P.starts place.now.file.now ≡ Begins
        → KeepsNone source.entry.marks.now (U.holds source.entry.file)) }
    // A crash at any moment of the run leaves the first commits of the log, all those of the file among them.
    ensures any_moment { IfOk result (λ run. KeepsLog U.Whole.seen U.Whole.moment U.Whole.left_since
        source.entry.marks.now (U.holds source.entry.file) run.log run.disk) }
    // Whatever crashes from now on leaves the first commits of the log, at least so many, ..
    ensures kept { IfOk result (λ run. IsLeft (U.Whole.may_leave run.disk) (U.Whole.seen run.disk) run.count run.log
        run.was_written) }
    // .. and no client was told of more.
    ensures told { IfOk result (λ run. All (λ left. S.told left ≤ run.count) run.left.items) }
    ensures left { IfOk result (λ run. vec_len run.left ≡ vec_len speakers) }
    ensures refused { IfErr result (λ unserved. refusal_status unserved.refusal ≡ 1 → RefusesFile source.entry.loaded
        source.entry.marks.now (P.starts place.now.file.now ≡ Begins) (U.holds source.entry.file)) }
    ensures words { IfErr result (λ unserved. refusal_status unserved.refusal ≢ 2) }
    // The file is as it was; or a crash at any moment since it was found leaves all its commits.
    ensures any_moment_err { IfErr result (λ unserved. IsLeftFile (λ file. U.holds file ≡ U.holds source.entry.file)
        (KeepsFound U.Whole.seen U.Whole.moment U.Whole.left_since source.entry.marks.now (U.holds source.entry.file))
        unserved.file) }
    // The place has kept what a crash had torn, or the file is as it was; so also where it ends with an `Err`.
    ensures torn { IfOk result (λ run. KeepsTornBytes U.Whole.seen P.bytes source.entry.marks.now
        (U.holds source.entry.file) run.torn run.disk) }
    ensures torn_err { IfErr result (λ unserved. IsLeftFile (λ file. U.holds file ≡ U.holds source.entry.file)
        (KeepsTornBytes U.Whole.seen P.bytes source.entry.marks.now (U.holds source.entry.file) unserved.torn)
        unserved.file) }
{
    let JournalSource {
        loaded,
        marks,
        file,
        ready,
    } = source;
    let at = place.file;
    let started = match StartedJournal::open(rt.alloc(), marks, at.start(), at.path(), file) {
        Ok(started) => started,
        Err((fault, file)) => {
            return Err(UnservedSource {
                refusal: ServeRefusal::Journal(fault),
                file: LeftFile::Unread(file),
                torn: None,
            });
        },
    };
    let remade = match remake_journal(rt, rt.alloc(), loaded, dispatchers, marks, started) {
        Ok(remade) => remade,
        Err(UnservedFile { refusal, file }) => {
            return Err(UnservedSource {
                refusal,
                file,
                torn: None,
            });
        },
    };
    tell_form(&mut io::writer(screen), remade.opened.kept.form);
    let keeper = TornKeeper {
        file: at,
        tells: place.tells,
        commits: remade.opened.kept.count,
        ready,
        screen,
    };
    match run_journaled(rt, rt.alloc(), remade, speakers, &keeper, place.confirms) {
        Ok(run) => Ok(run),
        Err(UnservedSessions { fault, disk, torn }) => Err(UnservedSource {
            refusal: ServeRefusal::NotServed(fault),
            file: LeftFile::Read(disk),
            torn,
        }),
    }
}

/// Opens the file of a journal: nothing was read of it.
pub(crate) fn open_file<P: OpensJournal>(alloc: Global, file: &P) -> Result<P::Opened, ServeFault>
    ensures unread { IfOk result (λ opened. P.Opened.taken opened ≡ []) }
    ensures held { IfOk result (λ opened. P.Opened.holds opened ≡ P.holds file.now) }
    ensures refused { IfErr result (λ fault. serving_status fault ≡ 1
        → P.is_taken file.now ⊎ P.is_missing file.now) }
    ensures words { IfErr result (λ fault. serving_status fault ≢ 2) }
{
    match file.open(alloc) {
        Ok(opened) => Ok(opened),
        Err(error) => {
            let fault = OpeningFault::File(error);
            Err(ServeFault::Found(ServeRefusal::Journal(fault)))
        }
    }
}
