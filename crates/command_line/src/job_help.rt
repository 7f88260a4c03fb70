//! Help about what a job names.

use arguments::{ChangesWords, ExportedWord, FilesWord, Job, QueryWords, ServeWords, StandingWord};
use journal_file::JournalFile;
use ssb_hints::{
    FaultLines, Named, NamedTables, ObservedFiles, Reports, STANDARD_INPUT, write_help, write_notes,
};
use ssb_text::TableLayout;
use std::io::{Print, Write};
use std::rt::Files;
use store_folder::{find_store, tables_path};

fn tables_named(folder: &str, layout: TableLayout) -> NamedTables<'_> {
    NamedTables { folder, layout }
}

// Table files, where no store stands in their place.
fn files_named<'a>(files: Option<FilesWord<'a>>) -> Option<NamedTables<'a>> {
    files.map(|FilesWord { data, layout }| tables_named(data, layout))
}

// The table files that are exported, where no store is.
fn exported_files<'a>(exported: ExportedWord<'a>) -> Option<NamedTables<'a>> {
    match exported {
        ExportedWord::Journal(files, _) => Some(tables_named(files.data, files.layout)),
        ExportedWord::Store(_) => None,
    }
}

// The journal whose commits are exported, where no store is.
fn exported_journal<'a>(exported: ExportedWord<'a>) -> Option<&'a str> {
    match exported {
        ExportedWord::Journal(_, journal) => Some(journal),
        ExportedWord::Store(_) => None,
    }
}

// The store that is exported, where one is.
fn exported_store<'a>(exported: ExportedWord<'a>) -> Option<&'a str> {
    match exported {
        ExportedWord::Journal(_, _) => None,
        ExportedWord::Store(store) => Some(store.folder),
    }
}

/// The tables of a live server.
pub(crate) fn tables_of<'a>(words: &ServeWords<'a>) -> NamedTables<'a> {
    tables_named(words.data, words.layout)
}

// A path, unless a store stands in its place.
fn path_if_named(path: &str) -> Option<&str> {
    if path.is_empty() { None } else { Some(path) }
}

// The tables of this folder, unless a store stands in their place.
fn tables_if_named(folder: &str, layout: TableLayout) -> Option<NamedTables<'_>> {
    Some(tables_named(path_if_named(folder)?, layout))
}

// The query of a question; none where all are asked, those of a board, or a statement.
fn query_named<'a>(words: &QueryWords<'a>) -> Option<&'a str> {
    if words.name.is_empty() {
        None
    } else {
        Some(words.name)
    }
}

// The text of the statements that the words have; none where the input has had it.
fn statements_named<'a>(words: &QueryWords<'a>) -> Option<&'a str> {
    match words.sql {
        Some("-") => None,
        text => text,
    }
}

// The stream of a journal's groups, where the words have one.
fn feed_named<'a>(words: &ChangesWords<'a>) -> Option<&'a str> {
    match words.changed.feed() {
        Some("-") => Some(STANDARD_INPUT),
        feed => feed,
    }
}

// What the words of a job name, as far as help looks at it again.
fn named_by<'a>(job: &'a Job<'_>) -> Named<'a> {
    let nothing = Named::nothing();
    match job {
        Job::Script => nothing,
        Job::Query(words) => Named {
            data: files_named(words.source.files()),
            store: words.source.store(),
            query: query_named(words),
            constants: words.constants.as_slice(),
            statement: statements_named(words),
            board: words.board,
            ..nothing
        },
        Job::Explain(words) => Named {
            data: words.data.map(|folder| tables_named(folder, words.layout)),
            query: Some(words.name),
            constants: words.constants.as_slice(),
            ..nothing
        },
        Job::Run(words) => Named {
            data: files_named(words.source.files()),
            store: words.source.store(),
            scripts: words.scripts.as_slice(),
            standing: standing_path(words.standing),
            trace: words.trace,
            ..nothing
        },
        Job::Serve(words) => Named {
            data: tables_if_named(words.data, words.layout),
            standing: standing_path(words.standing),
            journal: words.journal.map(|word| word.path()),
            store: words.store.map(|word| word.folder),
            clients: words.clients.as_slice(),
            ..nothing
        },
        Job::Audit(words) => Named {
            data: files_named(words.source.files()),
            store: words.source.store(),
            trace: Some(words.trace),
            ..nothing
        },
        Job::Export(words) => Named {
            data: exported_files(words.exported),
            journal: exported_journal(words.exported),
            store: exported_store(words.exported),
            folder: Some(words.folder),
            ..nothing
        },
        Job::Changes(words) => Named {
            data: files_named(words.changed.files()),
            journal: words.changed.journal(),
            store: words.changed.store(),
            feed: feed_named(words),
            ..nothing
        },
        Job::Ship(words) => Named {
            journal: words.shipped.journal(),
            store: words.shipped.store(),
            ..nothing
        },
        Job::Store(words) => Named {
            data: Some(tables_named(words.data, words.layout)),
            store: Some(words.folder),
            folder: Some(words.folder),
            ..nothing
        },
        Job::Checkpoint(words) => Named {
            store: Some(words.folder),
            ..nothing
        },
    }
}

// The file of the questions that are to stand, where the words name one.
fn standing_path(word: Option<StandingWord<'_>>) -> Option<&str> {
    match word {
        Some(StandingWord::File(path)) => Some(path),
        Some(StandingWord::Benchmark) | None => None,
    }
}

/// Tells what a person can do about the fault that ended a job.
pub(crate) fn tell_help<F: Files, P: Print, E: Write>(
    files: &ObservedFiles<'_, F>,
    job: &Job<'_>,
    faults: &FaultLines<'_, P>,
    err: &mut E,
) {
    write_help(files, &named_by(job), faults, err);
}

// The folder of the newest tables of a store. Its dimensions are those of all others.
fn newest_tables<F: Files>(files: &ObservedFiles<'_, F>, folder: &str) -> Option<String>
where
    F::File: JournalFile,
{
    let alloc = files.alloc();
    let found = find_store(files, alloc, folder, None).ok()?;
    tables_path(alloc, folder, found.after()).ok()
}

/// Tells what the questions of a job ask for that no row has, and why refreshes of a run were refused.
pub(crate) fn tell_notes<F: Files, E: Write>(
    files: &ObservedFiles<'_, F>,
    job: &Job<'_>,
    reports: &Reports,
    err: &mut E,
)
where
    F::File: JournalFile,
{
    let named = named_by(job);
    let newest = match (named.data, named.store) {
        (None, Some(folder)) => newest_tables(files, folder),
        _ => None,
    };
    let data = match &newest {
        Some(folder) => Some(tables_named(folder.as_str(), TableLayout::benchmark())),
        None => named.data,
    };
    write_notes(files, &Named { data, ..named }, reports, err);
}
