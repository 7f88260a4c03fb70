//! The word `serve`: clients over the base of five table files, with a journal or without one.

ghost use Rattle.std.specs.Prelude.{◌≡◌, ◌≢◌, ◌⊎◌, ◌↔◌, ◌<◌, ℕ, List, true, false, IfOk, IfErr, IfSome, IsErr, IsNone};
ghost use Rattle.std.specs.Prelude.{All, IsOk, IsSome, IsTrue, MatchOption, None, is_some, vec_len};
ghost use Rattle.std.specs.List.{list_all};
ghost use Rattle.std.specs.Option.{option_map};
ghost use Rattle.journal_opening.specs.declared.start.JournalStart.TheVariants.{Begins};
ghost use Rattle.serve_command.specs.Journals.{AreOnDisk, AreRefused};
ghost use Rattle.serve_command.specs.Served.{EndsAlone, HasEndedAlone, ServesClients};
ghost use Rattle.serve_command.specs.Sessions.{IsBetween};
ghost use Rattle.serve_command.specs.Status.{serving_status};
ghost use Rattle.ssb_schema.specs.declared.table.Table.{Table};
ghost use Rattle.history_core.specs.Counts.{most_clients};
ghost use Rattle.ssb_server.specs.Opening.{AreCounts};
ghost use Rattle.stream_sessions.specs.Speaking.{terms_of};
ghost use Rattle.ssb_text.specs.Layouts.{AreRows};

use crate::acknowledging::Durable;
use crate::attendant::Attendant;
use crate::ends::EndPaths;
use crate::fault::{ServeFault, ServeRefusal};
use crate::journal_source::JournalPlace;
use crate::runs::{KeptLog, ServeSettings, SessionsRun, all_took, run_over};
use crate::speakers::{PathClient, PathLeft, StreamClient, StreamLeft, StreamSpeaker};
use confirmed_commits::Confirms;
use journal::KeepsTorn;
use journal_opening::OpensJournal;
use ssb_files::Fault;
use ssb_text::TableFiles;
use std::alloc::AllocError;
use std::io;
use std::io::{Print, Read, Write};
use std::rt::Files;
use std::sync::Wait;
use std::thread::Threads;
use std::time::Clock;
use stream_sessions::{Past, Served, SessionError};

/// How many clients a server has at most.
pub const MOST_CLIENTS: usize = ssb_server::MOST_CLIENTS as usize;

/// How serving one client ended.
#[derive(Drop)]
pub struct StreamEnd<O: Drop, D: Drop> {
    /// The exit status.
    pub status: u8,
    /// The output, where a server was opened and closed.
    pub output: Option<O>,
    /// The journal's file, where there is one, and a server was opened and closed.
    pub disk: Option<D>,
    /// Whether the input ended before its first request.
    pub was_unasked: bool,
}

// Whether a session was served to its end, and that was before its first request.
fn was_unasked(ended: &Result<Served, SessionError>) -> bool {
    match ended {
        Ok(served) => served.answered == 0,
        Err(_) => false,
    }
}

// What the only client's session left, and the journal, where there is one.
#[derive(Drop)]
struct AloneLeft<J: Read + Drop, O: Write + Drop, D: Drop> {
    one: StreamLeft<J, O>,
    kept: Option<KeptLog<D>>,
}

// Serves one client alone.
fn run_alone<R, P, X, I, J, O, E>(
    rt: &R,
    settings: ServeSettings,
    tables: TableFiles<I>,
    place: Option<JournalPlace<'_, P, X>>,
    client: StreamClient<J, O>,
    screen: &E,
) -> Result<AloneLeft<J, O, P::Disk>, ServeFault>
where
    R: Threads + Sync + Wait + Clock + AllocGlobal,
    P: OpensJournal + KeepsTorn,
    P::Disk: Send,
    P::Kept: Drop,
    X: Confirms<Durable<P::Disk>> + Sync,
    X::Told: Send,
    I: Read + Drop,
    J: Read + Drop + Send,
    O: Write + Drop + Send,
    E: Print,
    ensures ended { IfOk result (λ left. (texts : Table → List ℕ) → AreRows I.remaining tables texts
        → HasEndedAlone left.one.ended (terms_of left.one.took_refreshes settings.past)
        (option_map (λ place. P.holds place.file.now) place.entry) texts settings.dispatchers
        (J.remaining client.input) (O.contents client.output) (O.contents left.one.wire.output)
        (λ log told. IfSome left.kept (λ kept. AreOnDisk (P.Disk.may_leave kept.disk)
        (P.Disk.seen kept.disk) (IsTrue kept.was_written) log told))) }
    ensures journal { IfOk result (λ left. is_some left.kept ≡ is_some place.entry) }
    ensures took { IfOk result (λ left. IsNone place.entry → left.one.took_refreshes ≡ true) }
    ensures refused { IfErr result (λ fault. serving_status fault ≡ 1 → (texts : Table → List ℕ)
        → AreRows I.remaining tables texts → AreRefused texts settings.standing.items
        (option_map (λ place. P.holds place.file.now) place.entry)
        (IfSome place.entry (λ place. P.is_taken place.file.now ⊎ P.is_missing place.file.now))
        (IfSome place.entry (λ place. P.starts place.file.now ≡ Begins))) }
    ensures words { IfErr result (λ fault. serving_status fault ≢ 2) }
{
    let mut speakers = Vec::new(rt.alloc());
    speakers.push(StreamSpeaker {
        ends: client,
        past: settings.past,
    })?;
    let run = run_over(rt, settings, tables, place, speakers, screen)?;
    let SessionsRun {
        mut left,
        log: _,
        kept,
    } = run;
    let Some(one) = left.pop() else {
        unreachable!()
    };
    Ok(AloneLeft { one, kept })
}

// Whether all refreshes were taken, and the journal was written to its end, where there is one.
fn was_written<D: Drop>(kept: &Option<KeptLog<D>>, took_refreshes: bool) -> bool
    ensures took { result ≡ true → took_refreshes ≡ true }
    ensures written { MatchOption kept.now (result ≡ took_refreshes) (λ kept. result ≡ true → kept.was_written ≡ true) }
{
    match kept {
        Some(kept) => kept.was_written && took_refreshes,
        None => took_refreshes,
    }
}

// The journal's disk, where there is one.
fn disk_of<D: Drop>(kept: Option<KeptLog<D>>) -> Option<D>
    ensures { result ≡ option_map (λ kept. kept.disk) kept }
{
    match kept {
        Some(kept) => Some(kept.disk),
        None => None,
    }
}

// Tells that the journal could not be written, and gives the exit status.
fn tell_not_written<E: Write>(err: &mut E) -> u8
    ensures { result ≡ 4 }
{
    let _ = writeln!(err, "ssb_live: journal write failed");
    4
}

// Tells what broke the only client's session, or that the journal could not be written, and gives the exit status.
fn tell_end<E: Write>(ended: &Result<Served, SessionError>, written: bool, err: &mut E) -> u8
    ensures written { result ≡ 0 → IsTrue written }
    ensures served { result ≡ 0 → IsOk ended.now }
    ensures broken { result ≢ 0 → (written ≡ false) ⊎ IsErr ended.now }
    ensures others { result ≢ 0 → result ≡ 4 }
{
    if !written {
        return tell_not_written(err);
    }
    match ended {
        Ok(_) => 0,
        Err(error) => {
            let _ = writeln!(err, "ssb_live: client 1: {}", error.fault);
            4
        }
    }
}

/// Serves one client over the base that the tables spell, behind the commits of the journal where there is one: its
/// requests are read from the input as they come, and answered to the output, until the input ends. With a journal it is
/// told nothing before it is on the disk. A fault is a line to the screen.
///
/// The exit status is 0 where all was answered, 1 where the data, a question that is to stand or the journal is refused,
/// and else 4.
pub fn serve_stream<R, P, X, I, J, O, E>(
    rt: &R,
    settings: ServeSettings,
    tables: TableFiles<I>,
    place: Option<JournalPlace<'_, P, X>>,
    client: StreamClient<J, O>,
    screen: &E,
) -> StreamEnd<O, P::Disk>
where
    R: Threads + Sync + Wait + Clock + AllocGlobal,
    P: OpensJournal + KeepsTorn,
    P::Disk: Send,
    P::Kept: Drop,
    X: Confirms<Durable<P::Disk>> + Sync,
    X::Told: Send,
    I: Read + Drop,
    J: Read + Drop + Send,
    O: Write + Drop + Send,
    E: Print,
    ensures ended { IfSome result.output (λ output. (texts : Table → List ℕ) → AreRows I.remaining tables texts
        → EndsAlone result.status settings.past (option_map (λ place. P.holds place.file.now) place.entry) texts
        settings.dispatchers (J.remaining client.input) (O.contents client.output) (O.contents output)
        (λ log told. IfSome result.disk (λ disk. AreOnDisk (P.Disk.may_leave disk)
        (P.Disk.seen disk) (result.status ≡ 0) log told))) }
    ensures closed { result.status ≡ 0 → IsSome result.output }
    ensures disk { MatchOption result.output (result.disk ≡ None) (λ _. is_some result.disk ≡ is_some place.entry) }
    ensures refused { result.status ≡ 1 → (texts : Table → List ℕ) → AreRows I.remaining tables texts
        → AreRefused texts settings.standing.items (option_map (λ place. P.holds place.file.now) place.entry)
        (IfSome place.entry (λ place. P.is_taken place.file.now ⊎ P.is_missing place.file.now))
        (IfSome place.entry (λ place. P.starts place.file.now ≡ Begins)) }
    ensures others { result.status ≢ 0 → result.status ≢ 1 → result.status ≡ 4 }
{
    let mut err = io::writer(screen);
    match run_alone(rt, settings, tables, place, client, screen) {
        Ok(left) => {
            let AloneLeft { one, kept } = left;
            let StreamLeft {
                wire,
                ended,
                told: _,
                took_refreshes,
            } = one;
            let written = was_written(&kept, took_refreshes);
            StreamEnd {
                status: tell_end(&ended, written, &mut err),
                output: Some(wire.into_output()),
                disk: disk_of(kept),
                was_unasked: was_unasked(&ended),
            }
        }
        Err(fault) => StreamEnd {
            status: fault.tell(&mut err),
            output: None,
            disk: None,
            was_unasked: false,
        },
    }
}

/// Clients that open their own ends.
#[derive(Drop)]
pub struct PathClients<'a, F: Files> {
    pub files: &'a F,
    /// Where their ends are.
    pub ends: Vec<EndPaths>,
    /// Whether named pipes are opened again for another session.
    pub keeps: bool,
    /// Who attends to them: [`Attendant::attend`] is to run meanwhile, in a thread of its own.
    pub attendant: &'a Attendant<F::File>,
}

// The clients of these ends, numbered from 1, who are told of this past too.
fn speakers_of<'a, F: Files + AllocGlobal, E: Print>(
    clients: PathClients<'a, F>,
    past: Past,
    screen: &'a E,
) -> Result<Vec<PathClient<'a, F, E>>, AllocError>
    ensures each { IfOk result (λ speakers. vec_len speakers ≡ vec_len clients.entry.ends) }
    ensures past { IfOk result (λ speakers. All (λ speaker. speaker.past ≡ past) speakers.items) }
{
    let PathClients {
        files,
        ends,
        keeps,
        attendant,
    } = clients;
    let mut speakers = Vec::new(files.alloc());
    for paths in ends {
        let number = speakers.len() as u64 + 1;
        speakers.push(PathClient {
            files,
            screen,
            number,
            paths,
            keeps,
            past,
            attendant,
        })?;
    }
    Ok(speakers)
}

// Whether each of the clients was served to its end.
fn were_served(all_left: &[PathLeft]) -> bool
    ensures { result ≡ list_all (λ left. left.was_served) all_left.now }
{
    all_left.iter().all(|left| left.was_served)
}

/// How serving clients ended.
#[derive(Drop)]
pub struct ClientsEnd<D: Drop> {
    /// The exit status.
    pub status: u8,
    /// The journal's file, where there is one, and a server was opened and closed.
    pub disk: Option<D>,
}

// The exit status of clients that were served to their ends, or not, by a journal that was written to the end, or not.
fn tell_clients<E: Write>(was_written: bool, all_served: bool, err: &mut E) -> u8
    ensures written { result ≡ 0 → IsTrue was_written }
    ensures served { result ≡ 0 → IsTrue all_served }
    ensures others { result ≢ 0 → result ≡ 4 }
{
    if !was_written {
        return tell_not_written(err);
    }
    if all_served { 0 } else { 4 }
}

/// Serves 1 to 16 clients at once over the base that the tables spell, behind the commits of the journal where there is
/// one, each over its own two ends, which its thread opens. With a journal they are told nothing before it is on the
/// disk. A client's faults are lines to the screen when they come, and end that client alone. Where they are kept, a
/// client's named pipes are opened again for its next session; a client that opens its output first waits for that until
/// the attendant opens it.
///
/// The exit status is 0 where all clients were served to their ends, 1 where the data, a question that is to stand or
/// the journal is refused, 2 where there are more than 16 clients, and else 4.
pub fn serve_clients<R, F, P, X, I, E>(
    rt: &R,
    settings: ServeSettings,
    tables: TableFiles<I>,
    place: Option<JournalPlace<'_, P, X>>,
    clients: PathClients<'_, F>,
    screen: &E,
) -> ClientsEnd<P::Disk>
where
    R: Threads + Sync + Wait + Clock + AllocGlobal,
    F: Files + Sync + AllocGlobal,
    F::File: Send,
    F::Dir: Send,
    P: OpensJournal + KeepsTorn,
    P::Disk: Send,
    P::Kept: Drop,
    X: Confirms<Durable<P::Disk>> + Sync,
    X::Told: Send,
    I: Read + Drop,
    E: Print + Sync,
    ensures served { (result.status ≡ 0) ⊎ IsSome result.disk → (texts : Table → List ℕ)
        → AreRows I.remaining tables texts
        → ServesClients result.status (option_map (λ place. P.holds place.file.now) place.entry) texts
        (vec_len clients.entry.ends) settings.dispatchers (IsBetween F.File.remaining F.File.contents settings.past)
        (λ log told. IfSome result.disk (λ disk. AreOnDisk (P.Disk.may_leave disk)
        (P.Disk.seen disk) (result.status ≡ 0) log told)) }
    ensures disk { result.status ≡ 0 → is_some result.disk ≡ is_some place.entry }
    ensures counts { result.status ≡ 0 → IsNone place.entry
        → AreCounts (vec_len clients.entry.ends) settings.dispatchers }
    ensures refused { result.status ≡ 1 → (texts : Table → List ℕ) → AreRows I.remaining tables texts
        → AreRefused texts settings.standing.items (option_map (λ place. P.holds place.file.now) place.entry)
        (IfSome place.entry (λ place. P.is_taken place.file.now ⊎ P.is_missing place.file.now))
        (IfSome place.entry (λ place. P.starts place.file.now ≡ Begins)) }
    ensures many { (result.status ≡ 2) ↔ (most_clients < vec_len clients.entry.ends) }
    ensures others { result.status ≢ 0 → result.status ≢ 1 → result.status ≢ 2 → result.status ≡ 4 }
{
    let mut err = io::writer(screen);
    if clients.ends.len() > MOST_CLIENTS {
        return ClientsEnd {
            status: ServeFault::Found(ServeRefusal::TooManyClients).tell(&mut err),
            disk: None,
        };
    }
    let Ok(speakers) = speakers_of(clients, settings.past, screen) else {
        return ClientsEnd {
            status: Fault::OutOfMemory.tell(&mut err),
            disk: None,
        };
    };
    match run_over(rt, settings, tables, place, speakers, screen) {
        Ok(run) => {
            let SessionsRun { left, log: _, kept } = run;
            let written = was_written(&kept, all_took::<PathClient<'_, F, E>>(&left));
            ClientsEnd {
                status: tell_clients(written, were_served(&left), &mut err),
                disk: disk_of(kept),
            }
        }
        Err(fault) => ClientsEnd {
            status: fault.tell(&mut err),
            disk: None,
        },
    }
}
