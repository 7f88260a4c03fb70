//! The sessions of a server over the base of five tables, with a journal or without one.

ghost use Rattle.std.specs.Prelude.{◌≡◌, ◌≢◌, ◌⊎◌, ◌≤◌, ℕ, List, All, None, Some, IfOk, IfErr, IfSome, IsNone, OnOk};
ghost use Rattle.std.specs.Prelude.{is_some, true, vec_len};
ghost use Rattle.std.specs.Option.{option_map};
ghost use Rattle.journal_opening.specs.Marks.{AreMarks, HaveChecksums};
ghost use Rattle.journal_opening.specs.declared.start.JournalStart.TheVariants.{Begins};
ghost use Rattle.serve_command.specs.Journals.{AreRefused, GoesOnFrom, RefusesFile};
ghost use Rattle.serve_command.specs.Served.{IsRunOver};
ghost use Rattle.serve_command.specs.Status.{serving_status};
ghost use Rattle.ssb_files.specs.Loaded.{AreRefusedToServe, IsLoadedToServe};
ghost use Rattle.ssb_files.specs.Standing.{MayNotStandToServe};
ghost use Rattle.ssb_files.specs.Status.{status_of};
ghost use Rattle.ssb_journal.specs.Counts.{IsLeft};
ghost use Rattle.ssb_schema.specs.declared.table.Table.{Table};
ghost use Rattle.history_core.specs.Counts.{most_clients};
ghost use Rattle.ssb_server.specs.Opening.{AreCounts};
ghost use Rattle.ssb_text.specs.Layouts.{AreRows};
ghost use Rattle.ssb_serving.specs.Streams.{IsStreamRun};

use crate::acknowledging::Durable;
use crate::fault::{ServeFault, ServeRefusal};
use crate::journal_source::{JournalPlace, JournalSource, open_file, run_source};
use crate::journaled_run::JournaledRun;
use crate::ready::{ReadyLine, tell_ready};
use crate::unserved::JournaledFault;
use confirmed_commits::Confirms;
use journal::KeepsTorn;
use journal_opening::{OpensJournal, table_marks};
use row_store::Log;
use server_figures::LiveFigures;
use ssb_files::{Fault, LoadedFor, TableBytes, base_of, checked_base_of};
use ssb_journal::TableMark;
use ssb_questions::Question;
use ssb_server::Loaded;
use ssb_serving::serve_streams;
use ssb_text::TableFiles;
use std::hash::RandomState;
use std::io::{Print, Read};
use std::sync::{Arc, Wait};
use std::thread::Threads;
use std::time::Clock;
use stream_sessions::{Nothing, Past, Speaker, Speaks};

/// How clients are served, whoever they are.
#[derive(Drop)]
pub struct ServeSettings {
    /// Hashes the keys of the server's orders; at random, so that no client can make them collide.
    pub hashing: RandomState,
    /// 1 to 4, else no server is opened.
    pub dispatchers: u32,
    /// How many commits came before the first of the server's log. Clients are told numbers that count these too.
    pub past: Past,
    /// The questions that stand: their totals follow the commits. Which they are changes no reply.
    pub standing: Vec<Question>,
    /// Whether it is told when the server is ready.
    pub tells_ready: bool,
    /// In which the server counts what it does, for whoever looks on.
    pub figures: Arc<LiveFigures>,
}

/// A journal at the end of the sessions: its disk, how many commits of the log are on that, and whether it was written to
/// the end.
#[derive(Drop)]
pub(crate) struct KeptLog<D: Drop> {
    pub(crate) disk: D,
    pub(crate) count: u64,
    pub(crate) was_written: bool,
}

/// What sessions leave: what each speaker left, in their order, the log, and the journal, where there is one.
#[derive(Drop)]
pub(crate) struct SessionsRun<L: Drop, D: Drop> {
    pub(crate) left: Vec<L>,
    pub(crate) log: Log,
    pub(crate) kept: Option<KeptLog<D>>,
}

// What a server takes of five tables, and what is told when it serves.
#[derive(Drop)]
struct LoadedTables {
    loaded: Loaded,
    ready: Option<ReadyLine>,
}

// The same, and by what its journal knows the tables.
#[derive(Drop)]
struct MarkedTables {
    loaded: Loaded,
    marks: [TableMark; 5],
    ready: Option<ReadyLine>,
}

// What is seen of a server: for how many clients it is told that it is ready, if it is, and the figures that it counts in.
#[derive(Drop)]
struct WatchedServer {
    told: Option<usize>,
    figures: Arc<LiveFigures>,
}

// What a server takes of the base that the tables spell, with the questions that stand from then on.
fn load_tables<R: Threads + Sync + AllocGlobal, I: Read + Drop>(
    rt: &R,
    hashing: RandomState,
    standing: &[Question],
    tables: TableFiles<I>,
    watched: WatchedServer,
) -> Result<LoadedTables, Fault>
    ensures base { IfOk result (λ made. (texts : Table → List ℕ) → AreRows I.remaining tables texts
        → IsLoadedToServe texts made.loaded) }
    ensures refused { IfErr result (λ fault. status_of fault ≡ 1 → (texts : Table → List ℕ)
        → AreRows I.remaining tables texts → AreRefusedToServe texts ⊎ MayNotStandToServe texts standing.now) }
    ensures words { IfErr result (λ fault. status_of fault ≢ 2) }
{
    let WatchedServer { told, figures } = watched;
    let base = base_of(rt, rt.alloc(), tables, LoadedFor::Serving)?;
    let ready = ReadyLine::of(&base, told);
    let base = Arc::new(rt.alloc(), base)?;
    let loaded = Loaded::new(rt, rt.alloc(), hashing, &base, standing)?;
    Ok(LoadedTables {
        loaded: loaded.counted_in(figures),
        ready,
    })
}

// The same, and the marks of the tables, whose bytes are hashed.
fn load_marked<R: Threads + Sync + AllocGlobal, I: Read + Drop>(
    rt: &R,
    hashing: RandomState,
    standing: &[Question],
    tables: TableFiles<I>,
    bytes: &TableBytes,
    watched: WatchedServer,
) -> Result<MarkedTables, Fault>
    ensures base { IfOk result (λ made. (texts : Table → List ℕ) → AreRows I.remaining tables texts
        → IsLoadedToServe texts made.loaded) }
    ensures marked { IfOk result (λ made. AreMarks made.loaded made.marks) }
    ensures checked { IfOk result (λ made. (texts : Table → List ℕ) → AreRows I.remaining tables texts
        → HaveChecksums texts made.marks) }
    ensures refused { IfErr result (λ fault. status_of fault ≡ 1 → (texts : Table → List ℕ)
        → AreRows I.remaining tables texts → AreRefusedToServe texts ⊎ MayNotStandToServe texts standing.now) }
    ensures words { IfErr result (λ fault. status_of fault ≢ 2) }
{
    let layout = tables.layout;
    let WatchedServer { told, figures } = watched;
    let read = checked_base_of(rt, rt.alloc(), tables, LoadedFor::Serving)?;
    let (base, checksums) = read;
    let marks = table_marks(&base, layout, bytes, &checksums);
    let ready = ReadyLine::of(&base, told);
    let base = Arc::new(rt.alloc(), base)?;
    let loaded = Loaded::new(rt, rt.alloc(), hashing, &base, standing)?;
    Ok(MarkedTables {
        loaded: loaded.counted_in(figures),
        marks,
        ready,
    })
}

/// Whether the sessions of all speakers took refreshes.
pub(crate) fn all_took<S: Speaker>(all_left: &[S::Left]) -> bool
    ensures { result ≡ true → All (λ left. S.took left ≡ true) all_left.now }
{
    for left in all_left {
        if !S::took_refreshes(left) {
            return false;
        }
    }
    true
}

// Serves clients at once, one for each speaker, without a journal.
fn run_without<R, S, D: Drop>(
    rt: &R,
    dispatchers: u32,
    loaded: Loaded,
    speakers: Vec<S>,
) -> Result<SessionsRun<S::Left, D>, ServeFault>
where
    R: Threads + Sync + Wait + Clock + AllocGlobal,
    S: Speaks<R, Nothing> + Drop + Send,
    S::Left: Drop + Send,
    ensures run { IfOk result (λ run. IsStreamRun S.spoken loaded speakers.items dispatchers run.left.items run.log) }
    ensures left { IfOk result (λ run. vec_len run.left ≡ vec_len speakers) }
    ensures counts { OnOk result (AreCounts (vec_len speakers) dispatchers) }
    ensures kept { IfOk result (λ run. run.kept ≡ None) }
    ensures took { IfOk result (λ run. All (λ left. S.took left ≡ true) run.left.items) }
    ensures failed { IfErr result (λ fault. serving_status fault ≡ 4) }
{
    let run = match serve_streams(rt, rt.alloc(), loaded, speakers, dispatchers) {
        Ok(run) => run,
        Err(fault) => {
            let fault = JournaledFault::NotRun(fault);
            return Err(ServeFault::Found(ServeRefusal::NotServed(fault)));
        }
    };
    if !all_took::<S>(&run.left) {
        let fault = JournaledFault::Disturbed;
        return Err(ServeFault::Found(ServeRefusal::NotServed(fault)));
    }
    Ok(SessionsRun {
        left: run.left,
        log: run.log,
        kept: None,
    })
}

// Serves clients at once, one for each speaker, behind the commits of the journal at this place.
fn run_behind<R, P, X, S, E>(
    rt: &R,
    dispatchers: u32,
    place: &JournalPlace<'_, P, X>,
    tables: MarkedTables,
    speakers: Vec<S>,
    screen: &E,
) -> Result<SessionsRun<S::Left, P::Disk>, ServeFault>
where
    R: Threads + Sync + Wait + Clock + AllocGlobal,
    P: OpensJournal + KeepsTorn,
    P::Disk: Send,
    P::Kept: Drop,
    X: Confirms<Durable<P::Disk>> + Sync,
    X::Told: Send,
    S: Speaks<R, X::Told> + Drop + Send,
    S::Left: Drop + Send,
    E: Print,
    requires few { vec_len speakers ≤ most_clients }
    ensures run { IfOk result (λ run. GoesOnFrom S.spoken (P.holds place.now.file.now) tables.loaded tables.marks
        speakers.items dispatchers run.left.items run.log) }
    ensures left { IfOk result (λ run. vec_len run.left ≡ vec_len speakers) }
    ensures kept { IfOk result (λ run. IfSome run.kept (λ kept. IsLeft (P.Disk.may_leave kept.disk)
        (P.Disk.seen kept.disk) kept.count run.log kept.was_written)) }
    ensures told { IfOk result (λ run. IfSome run.kept (λ kept. All (λ left. S.told left ≤ kept.count)
        run.left.items)) }
    ensures journal { IfOk result (λ run. is_some run.kept ≡ true) }
    ensures refused { IfErr result (λ fault. serving_status fault ≡ 1
        → (P.is_taken place.now.file.now ⊎ P.is_missing place.now.file.now)
        ⊎ RefusesFile tables.loaded tables.marks (P.starts place.now.file.now ≡ Begins)
        (P.holds place.now.file.now)) }
    ensures words { IfErr result (λ fault. serving_status fault ≢ 2) }
{
    let MarkedTables {
        loaded,
        marks,
        ready,
    } = tables;
    let file = open_file(rt.alloc(), place.file)?;
    let source = JournalSource {
        loaded,
        marks: &marks,
        file,
        ready,
    };
    let run = match run_source(rt, dispatchers, place, source, speakers, screen) {
        Ok(run) => run,
        Err(unserved) => return Err(ServeFault::Found(unserved.refusal)),
    };
    let JournaledRun {
        left,
        log,
        disk,
        count,
        was_written,
        torn: _,
    } = run;
    Ok(SessionsRun {
        left,
        log,
        kept: Some(KeptLog {
            disk,
            count,
            was_written,
        }),
    })
}

/// Serves clients at once, one for each speaker, over the base that the tables spell, behind the commits of the journal
/// where there is one.
pub(crate) fn run_over<R, P, X, I, S, E>(
    rt: &R,
    settings: ServeSettings,
    tables: TableFiles<I>,
    place: Option<JournalPlace<'_, P, X>>,
    speakers: Vec<S>,
    screen: &E,
) -> Result<SessionsRun<S::Left, P::Disk>, ServeFault>
where
    R: Threads + Sync + Wait + Clock + AllocGlobal,
    P: OpensJournal + KeepsTorn,
    P::Disk: Send,
    P::Kept: Drop,
    X: Confirms<Durable<P::Disk>> + Sync,
    X::Told: Send,
    I: Read + Drop,
    S: Speaks<R, Nothing> + Speaks<R, X::Told> + Drop + Send,
    S::Left: Drop + Send,
    E: Print,
    requires few { vec_len speakers ≤ most_clients }
    ensures run { IfOk result (λ run. (texts : Table → List ℕ) → AreRows I.remaining tables texts
        → IsRunOver S.spoken (option_map (λ place. P.holds place.file.now) place.entry) texts speakers.items
        settings.dispatchers run.left.items run.log) }
    ensures left { IfOk result (λ run. vec_len run.left ≡ vec_len speakers) }
    ensures counts { OnOk result (IsNone place.entry → AreCounts (vec_len speakers) settings.dispatchers) }
    ensures kept { IfOk result (λ run. IfSome run.kept (λ kept. IsLeft (P.Disk.may_leave kept.disk)
        (P.Disk.seen kept.disk) kept.count run.log kept.was_written)) }
    ensures told { IfOk result (λ run. IfSome run.kept (λ kept. All (λ left. S.told left ≤ kept.count)
        run.left.items)) }
    ensures journal { IfOk result (λ run. is_some run.kept ≡ is_some place.entry) }
    ensures took { IfOk result (λ run. IsNone place.entry → All (λ left. S.took left ≡ true) run.left.items) }
    ensures refused { IfErr result (λ fault. serving_status fault ≡ 1 → (texts : Table → List ℕ)
        → AreRows I.remaining tables texts → AreRefused texts settings.standing.items
        (option_map (λ place. P.holds place.file.now) place.entry)
        (IfSome place.entry (λ place. P.is_taken place.file.now ⊎ P.is_missing place.file.now))
        (IfSome place.entry (λ place. P.starts place.file.now ≡ Begins))) }
    ensures words { IfErr result (λ fault. serving_status fault ≢ 2) }
{
    let ServeSettings {
        hashing,
        dispatchers,
        past: _,
        standing,
        tells_ready,
        figures,
    } = settings;
    let watched = WatchedServer {
        told: tells_ready.then_some(speakers.len()),
        figures,
    };
    match place {
        Some(place) => {
            let tables = load_marked(rt, hashing, &standing, tables, place.bytes, watched)?;
            run_behind(rt, dispatchers, &place, tables, speakers, screen)
        },
        None => {
            let served = load_tables(rt, hashing, &standing, tables, watched)?;
            tell_ready(served.ready, screen);
            run_without(rt, dispatchers, served.loaded, speakers)
        },
    }
}
