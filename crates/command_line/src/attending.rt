//! Clients served behind a journal's file: one whose ends are open, and those that open their own.

ghost use Rattle.std.specs.Thread.{IsSend};

use confirmed_commits::Seconds;
use journal_file::JournalFile;
use serve_command::{
    JournalPlace, PathClients, ServeSettings, StreamClient, serve_clients, serve_stream,
};
use ssb_text::TableFiles;
use std::io::{Print, Read, Write};
use std::rt::Files;
use std::sync::Wait;
use std::thread;
use std::thread::Threads;
use std::time::Clock;
use store_folder::ServedJournal;

/// How a client whose ends are open was served: the exit status, and whether it sent no request.
#[derive(Clone, Copy, Debug, PartialEq, Eq)]
pub(crate) struct OneServed {
    pub(crate) status: u8,
    pub(crate) was_unasked: bool,
}

/// Serves a client whose ends are open.
pub(crate) fn serve_one<R, F, T, I: Read + Drop + Send, W: Write + Drop + Send, E: Print>(
    rt: &R,
    settings: ServeSettings,
    tables: TableFiles<T>,
    place: Option<JournalPlace<'_, ServedJournal<'_, F>, Seconds>>,
    client: StreamClient<I, W>,
    errors: &E,
) -> OneServed
where
    R: Clock + Threads + Sync + Wait + AllocGlobal,
    F: Files + Sync,
    F::File: JournalFile + Send,
    F::Dir: Send,
    T: Read + Drop,
{
    let ended = serve_stream(rt, settings, tables, place, client, errors);
    OneServed {
        status: ended.status,
        was_unasked: ended.was_unasked,
    }
}

/// Serves clients that open their own ends, and attends to them meanwhile.
pub(crate) fn attend_clients<R, F, I: Read + Drop, E: Print + Sync>(
    rt: &R,
    settings: ServeSettings,
    tables: TableFiles<I>,
    place: Option<JournalPlace<'_, ServedJournal<'_, F>, Seconds>>,
    clients: PathClients<'_, F>,
    errors: &E,
) -> u8
where
    R: Clock + Threads + Sync + Wait + AllocGlobal,
    F: Files + Sync + AllocGlobal,
    F::File: JournalFile + Send,
    F::Dir: Send,
{
    let files = clients.files;
    let attendant = clients.attendant;
    let (_, status) = thread::join(
        rt,
        || attendant.attend(rt, files, errors),
        || -> u8
            requires { IsSend F.File.row × IsSend F.Dir.row }
        {
            let ended = serve_clients(rt, settings, tables, place, clients, errors);
            attendant.end();
            ended.status
        },
    );
    status
}
